// book_listing: a file as a text that assembles to the same bytes (docs/TEXT.md), or as a graph in the DOT language, on standard output, up
// to its first fault. What the fault is and where it stands is format::read's to say: nothing of the file is judged here.
#![tactic(auto)]

ghost use Rattle.std.specs.Prelude.{◌≡◌, ◌≤◌, length};
ghost use Rattle.file_fields.specs.Parts.{counts_of};
ghost use Rattle.format.specs.Limits.{Ranges};
ghost use Rattle.format.specs.Reading.{reading_of};

use arcs::list_arcs;
use book_console::console::Console;
use file_fields::fields::{first_arc, flags_at};
use file_fields::header::read_counts;
use format::{Counts, Fault};
use graph::{begin_graph, direct_graph, draw_arcs, draw_states};
use parts::{list_letters, list_states, say_names};
use std::fmt::Write;

pub mod arcs;
mod graph;
mod parts;

// A way to show a file: its parts in the order in which they are shown, each as far as it stands in front of the fault.
pub trait Style {
    // What stands in front of all parts, of a file of so many bytes.
    fn begin(&self, console: &Console, length: usize);

    // The header's counts.
    fn counts(&self, console: &Console, c: Counts);

    // The registers and the symbols.
    fn registers(&self, console: &Console, c: Counts);

    // The letters.
    fn letters(&self, console: &Console, letters: &[u8]);

    // The states, of which those from state 0 on have these flags.
    fn states(&self, console: &Console, count: usize, flags: &[u8]);

    // The arcs from the front of s on that stand there whole.
    fn arcs(&self, console: &Console, letters: &[u8], s: &[u8]);

    // What stands in front of the line of a fault.
    fn begin_fault(&self, console: &Console);

    // What stands behind that line.
    fn end_fault(&self, console: &Console);

    // What ends a file without a fault; answers whether it was written.
    fn end(&self, console: &Console) -> bool;
}

// A text that assembles to the same bytes.
#[derive(Clone, Copy)]
pub struct Listing;

impl Style for Listing {
    // The file's length, as a comment. Cost: the line.
    fn begin(&self, console: &Console, length: usize) {
        console
            .out()
            .text("-- ")
            .number(length as u64)
            .text(" bytes\n");
    }

    // A comment. Cost: the line.
    fn counts(&self, console: &Console, c: Counts) {
        console
            .out()
            .text("-- ")
            .number(c.letters as u64)
            .text(" letters, ")
            .number(c.states as u64)
            .text(" states, ")
            .number(c.registers as u64)
            .text(" registers, ")
            .number(c.symbols as u64)
            .text(" symbols, ")
            .number(c.arcs as u64)
            .text(" arcs\n");
    }

    // The lines of both, whose names are their numbers. Cost: the lines.
    fn registers(&self, console: &Console, c: Counts) {
        console
            .out()
            .text("registers ")
            .number(c.registers as u64)
            .text("\nsymbols");
        say_names(console, c.symbols);
        console.out().text("\n");
    }

    // Their line. Cost: the letters.
    fn letters(&self, console: &Console, letters: &[u8]) {
        list_letters(console, letters);
    }

    // The names of all, and those that are final. Cost: the states.
    fn states(&self, console: &Console, count: usize, flags: &[u8]) {
        list_states(console, count, flags);
    }

    // A line for each. Cost: one pass over them.
    fn arcs(&self, console: &Console, letters: &[u8], s: &[u8]) {
        list_arcs(console, letters, s);
    }

    // Nothing: the fault has a line of its own.
    fn begin_fault(&self, _console: &Console) {}

    // Nothing.
    fn end_fault(&self, _console: &Console) {}

    // A comment. Cost: the line.
    fn end(&self, console: &Console) -> bool {
        writeln!(console.out(), "-- no fault").is_ok()
    }
}

// A graph in the DOT language. Of the counts and of the letters it says nothing by themselves.
#[derive(Clone, Copy)]
pub struct Drawing;

impl Style for Drawing {
    // What stands in front of the nodes. Cost: the text.
    fn begin(&self, console: &Console, _length: usize) {
        begin_graph(console);
    }

    // Nothing.
    fn counts(&self, _console: &Console, _c: Counts) {}

    // The direction of the graph. Cost: the text.
    fn registers(&self, console: &Console, c: Counts) {
        direct_graph(console, c.states);
    }

    // Nothing.
    fn letters(&self, _console: &Console, _letters: &[u8]) {}

    // A node for each that has a flag. Cost: the flags.
    fn states(&self, console: &Console, _count: usize, flags: &[u8]) {
        draw_states(console, flags);
    }

    // The edges. Cost: for each arc a few passes over s.
    fn arcs(&self, console: &Console, letters: &[u8], s: &[u8]) {
        draw_arcs(console, letters, s);
    }

    // The fault stands in the graph as a comment. Cost: the text.
    fn begin_fault(&self, console: &Console) {
        console.out().text("  // ");
    }

    // The closing brace. Cost: the text.
    fn end_fault(&self, console: &Console) {
        console.out().text("}\n");
    }

    // The closing brace. Cost: the text.
    fn end(&self, console: &Console) -> bool {
        writeln!(console.out(), "}}").is_ok()
    }
}

// Shows what stands behind the header and in front of the place `end`: of the letters and the flags as many as are there, then the
// arcs. A part that the file ends inside is not shown. Cost: that of the listing or the graph.
fn show_body<S: Style>(console: &Console, style: &S, c: Counts, file: &[u8], end: usize)
    requires { Ranges c × (12 ≤ end) × (end ≤ length file.now) }
{
    style.registers(console, c);
    let flags = flags_at(c);
    if file.len() < flags {
        return;
    }
    if end < flags {
        style.letters(console, &file[12..end]);
        return;
    }
    style.letters(console, &file[12..flags]);
    let arcs = first_arc(c);
    if file.len() < arcs {
        return;
    }
    if end < arcs {
        style.states(console, c.states, &file[flags..end]);
        return;
    }
    style.states(console, c.states, &file[flags..arcs]);
    style.arcs(console, &file[12..flags], &file[arcs..end]);
}

// Shows what stands in front of the place `end`. The counts are shown whole where `end` is that of one of them, from byte 5 on.
// Cost: one pass over the bytes shown.
fn show_until<S: Style>(console: &Console, style: &S, file: &[u8], end: usize)
    requires { (end ≤ length file.now) × (12 ≤ end → Ranges (counts_of file.now)) }
{
    if file.len() < 12 || end < 5 {
        return;
    }
    let c = read_counts(file);
    style.counts(console, c);
    if 12 <= end {
        show_body(console, style, c, file, end);
    }
}

// Shows the file up to its first fault, and answers what reading it answers. What ends it, or the fault, is still to be said. Cost: that of
// reading the file, and of the listing, which is one pass over the bytes shown; of the graph, which is a pass over the arcs for each arc.
pub fn show<S: Style>(console: &Console, style: &S, file: &[u8]) -> Result<Counts, Fault>
    ensures { result ≡ reading_of file.now }
{
    style.begin(console, file.len());
    let reading = format::read(file);
    match reading {
        Ok(_) => show_until(console, style, file, file.len()),
        Err(fault) => show_until(console, style, file, fault.place),
    }
    reading
}
