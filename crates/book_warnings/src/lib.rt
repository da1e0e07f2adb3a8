// book_warnings: what a program tells of a text that it assembles, on standard error: its fault, and the states that no chain of arcs leads to.
#![tactic(auto)]

use book_console::console::{Console, Stream};
use book_console::words::{say, say_argument};
use book_draft::{State, TextFault};
use book_tokens::{Place, Word, place_in};
use std::fmt::Write;

// Says the text that an argument names and a place in it, as `FILE:LINE:COLUMN: `. Cost: the text.
pub fn say_place(console: &Console, argument: usize, line: u64, column: u64) {
    say_argument(console, Stream::Err, argument);
    console
        .err()
        .text(":")
        .number(line)
        .text(":")
        .number(column)
        .text(": ");
}

// Tells a fault of the text that an argument names, as `FILE:LINE:COLUMN: SENTENCE`. Cost: the line.
pub fn say_text_fault(console: &Console, argument: usize, fault: &TextFault) {
    say_place(console, argument, fault.line, fault.column);
    let _ = writeln!(console.err(), "{}", fault.what);
}

// Warns that no chain of arcs leads to a state, at the place where it is declared. Cost: one pass over the text up to there.
fn warn_of(console: &Console, argument: usize, text: &[u8], name: Word) {
    let Place { line, column } = place_in(text, name.from);
    say_place(console, argument, line, column);
    let warning = "warning: no chain of arcs leads from the first state to the state ";
    console.err().text(warning);
    say(console, Stream::Err, name.bytes(text));
    console.err().text("\n");
}

// Warns of each state that no chain of arcs leads to, whatever the operations; nothing is said of a state of a path's own, which has no name.
// Cost: for each warning one pass over the text.
pub fn warn_unreached(console: &Console, argument: usize, text: &[u8], states: &[State]) {
    for state in states {
        if !state.is_reached && !state.name.is_empty() {
            warn_of(console, argument, text, state.name);
        }
    }
}
