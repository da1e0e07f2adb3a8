// A refusal in words: what it means, and where the fault of a file stands.
use super::calls::Status;
use super::console::{Console, Stream};
use super::saving::save_front;
use super::words::{say, say_argument};
use format::{Automaton, Refusal};
use std::fmt::Write;

// A file that an argument names, and its bytes.
#[derive(Clone, Copy)]
pub struct Named<'a> {
    pub argument: usize,
    pub bytes: &'a [u8],
}

// Where the first fault of a file stands, in bytes from its start; nothing of a valid file, which is refused for its configurations or
// its plain arcs. Cost: that of `format::read`.
fn fault_place(file: &[u8]) -> Option<usize> {
    format::read(file).err().map(|fault| fault.place)
}

// Tells a refusal on standard error: the file at fault, the number, the place of the fault, and what the number means. The files are those
// that the call was given, one or two. Cost: the line, and that of reading the file at fault once more.
pub fn tell_refusal(console: &Console, refusal: Refusal, files: &[Named]) {
    let fault = match refusal.automaton {
        Some(Automaton::First) => files.first(),
        Some(Automaton::Second) => files.last(),
        None => None,
    };
    if let Some(file) = fault {
        say_argument(console, Stream::Err, file.argument);
        say(console, Stream::Err, b": ");
    }
    let reason = refusal.reason;
    console
        .err()
        .text("refused with ")
        .number(u64::from(reason.number()));
    if let Some(place) = fault.and_then(|file| fault_place(file.bytes)) {
        console.err().text(" at byte ").number(place as u64);
    }
    let _ = writeln!(console.err(), ": {reason}");
}

// Writes the file that a call answered to the file that the argument `target` names, or tells the refusal as `tell_refusal` does, and
// answers the status. `out` is the output that the call was lent. Cost: one pass over the file, or that of `tell_refusal`.
pub fn finish(
    console: &Console,
    answer: Result<usize, Refusal>,
    out: &[u8],
    files: &[Named],
    target: usize,
) -> Status {
    match answer {
        Ok(n) => save_front(console, target, out, n),
        Err(refusal) => {
            tell_refusal(console, refusal, files);
            Status::Failed
        }
    }
}
