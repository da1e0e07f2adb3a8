// run_assemble: the body of `bookassemble TEXT RESULT` and `mlb assemble TEXT RESULT`. Writes the file of the automaton that a text tells
// (docs/TEXT.md) to RESULT, and tells how many bytes it has; or tells the text's first fault with its line and its column, and RESULT is left as
// it was. States that no chain of arcs leads to are warned of. The status is 0 where the file was written, else 2.
#![tactic(auto)]

use book_assembling::assemble_with_states;
use book_console::calls::{Status, Usage};
use book_console::console::{Console, Stream};
use book_console::files::load;
use book_console::saving::save_front;
use book_console::words::{say, say_argument};
use book_warnings::{say_text_fault, warn_unreached};

const USAGE: Usage = Usage {
    command: b"assemble",
    ways: &[b" TEXT RESULT"],
};

// How many bytes a text may have.
const LONGEST_TEXT: usize = 262144;

// Assembles the text, and saves the file behind its warnings or tells the fault. The output has room for the longest file.
// Cost: that of `assemble_with_states`, of the warnings and of saving.
fn assemble_text(console: &Console, text: &[u8]) -> Status {
    let mut out = [0u8; 41292];
    match assemble_with_states(text, &mut out) {
        Ok(whole) => {
            warn_unreached(console, 0, text, &whole.states);
            save_front(console, 1, &out, whole.assembled.size)
        }
        Err(fault) => {
            say_text_fault(console, 0, &fault);
            Status::Failed
        }
    }
}

// Tells that the text is longer than can be read. Cost: the line.
fn tell_long(console: &Console) -> Status {
    say_argument(console, Stream::Err, 0);
    say(console, Stream::Err, b": a text has at most 262144 bytes\n");
    Status::Failed
}

// Loads the text, and assembles it, where it ends within what was read. Cost: the text is read once, and then that of `assemble_text`.
fn assemble_named(console: &Console) -> Status {
    let mut buffer = [0u8; 262145];
    let Some(text) = load(console, 0, &mut buffer) else {
        return Status::Failed;
    };
    if text.len() > LONGEST_TEXT {
        return tell_long(console);
    }
    assemble_text(console, text)
}

// bookassemble TEXT RESULT. Answers the status. Cost: that of `assemble_named`.
pub fn run(console: &Console) -> Status {
    USAGE.run(console, |count| match count {
        2 => Some(assemble_named(console)),
        _ => None,
    })
}
