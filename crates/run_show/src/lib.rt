// run_show: the body of `bookshow [--dot] FILE` and `mlb show [--dot] FILE`. Writes a file as a text that can be assembled again
// (docs/TEXT.md), or with --dot as a graph in the DOT language. A file with a fault is shown as far as it can be read, then the
// fault's number, the place where reading met it, in bytes from the file's start, and what it means. The status is 0 where a valid file was
// shown, else 2.
#![tactic(auto)]

use book_console::calls::{Status, Usage, status_of};
use book_console::console::{Console, Stream};
use book_console::files::load;
use book_console::words::is_argument;
use book_listing::{Drawing, Listing, Style};
use format::{Counts, Fault};
use std::fmt::Write;

const USAGE: Usage = Usage {
    command: b"show",
    ways: &[b" [--dot] FILE"],
};

// The line of a fault: its number, its place and what it means. Cost: the line.
fn say_fault(console: &Console, stream: Stream, fault: Fault) {
    let Fault { reason, place } = fault;
    console
        .on(stream)
        .text("fault ")
        .number(u64::from(reason.number()))
        .text(" at byte ")
        .number(place as u64);
    let _ = writeln!(console.on(stream), ": {reason}");
}

// What ends the file, or the line of its fault; that is told on standard error too, since a listing may go to a file, and a graph to another
// program. Answers the status. Cost: the lines.
fn show_end<S: Style>(console: &Console, style: &S, reading: Result<Counts, Fault>) -> Status {
    match reading {
        Ok(_) => status_of(style.end(console)),
        Err(fault) => {
            style.begin_fault(console);
            say_fault(console, Stream::Out, fault);
            say_fault(console, Stream::Err, fault);
            style.end_fault(console);
            Status::Failed
        }
    }
}

// Loads the file named by an argument, and shows it. Cost: the file is read once, and then that of `book_listing::show`.
fn show_named<S: Style>(console: &Console, style: &S, argument: usize) -> Status {
    let mut buffer = [0u8; 41293];
    let Some(file) = load(console, argument, &mut buffer) else {
        return Status::Failed;
    };
    let reading = book_listing::show(console, style, file);
    show_end(console, style, reading)
}

// bookshow [--dot] FILE. Answers the status. Cost: that of `show_named`.
pub fn run(console: &Console) -> Status {
    USAGE.run(console, |count| match count {
        2 if is_argument(console, 0, b"--dot") => Some(show_named(console, &Drawing, 1)),
        1 => Some(show_named(console, &Listing, 0)),
        _ => None,
    })
}
