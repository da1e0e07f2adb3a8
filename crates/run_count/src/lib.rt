// run_count: the body of `bookcount FILE LENGTH` and `mlb count FILE LENGTH`. Writes how many words of LENGTH letters the automaton of the
// file accepts, and how many it does not, a line each: `accepted NUMBER`, then `rejected NUMBER`. LENGTH is a number in decimal digits. What
// is refused is told on standard error. The status is 0 where both were written, else 2.
#![tactic(auto)]

use arrayvec::ArrayString;
use book_console::calls::{Status, Usage, status_of};
use book_console::console::Console;
use book_console::files::load;
use book_console::refusals::{Named, tell_refusal};
use book_console::words::write_out;
use book_numbers::number_in;
use count::WordCount;
use std::fmt::Write;

const USAGE: Usage = Usage {
    command: b"count",
    ways: &[b" FILE LENGTH, LENGTH a number in decimal digits"],
};

// Writes both numbers, and answers the status. Cost: the lines.
fn tell(console: &Console, accepted: u64, rejected: u64) -> Status {
    let mut lines = ArrayString::<64>::new();
    if write!(lines, "accepted {accepted}\nrejected {rejected}\n").is_err() {
        return Status::Failed;
    }
    status_of(write_out(console, lines.as_bytes()))
}

// The length that an argument tells; nothing where it is no number, or has more than 4,096 bytes. Cost: the text.
fn length_argument(console: &Console, argument: usize) -> Option<u64> {
    let mut text = [0u8; 4096];
    number_in(console.argument(argument, &mut text).unwrap_or(b""))
}

// Counts the words of the file, and writes both numbers or tells the refusal. Cost: the file is read once, and then that of
// `count::count_words`, and the lines or that of `tell_refusal`.
fn count_named(console: &Console, length: u64) -> Status {
    let mut buffer = [0u8; 41293];
    let mut work = [0u64; 8192];
    let Some(file) = load(console, 0, &mut buffer) else {
        return Status::Failed;
    };
    match count::count_words(file, length, &mut work) {
        Ok(WordCount { accepted, rejected }) => tell(console, accepted, rejected),
        Err(refusal) => {
            let named = Named {
                argument: 0,
                bytes: file,
            };
            tell_refusal(console, refusal, &[named]);
            Status::Failed
        }
    }
}

// bookcount FILE LENGTH. Answers the status. Cost: that of `count_named`.
pub fn run(console: &Console) -> Status {
    USAGE.run(console, |count| match count {
        2 => length_argument(console, 1).map(|length| count_named(console, length)),
        _ => None,
    })
}
