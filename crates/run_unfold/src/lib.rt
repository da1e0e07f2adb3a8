// run_unfold: the body of `bookunfold FILE RESULT` and `mlb unfold FILE RESULT`. Writes the automaton without registers that accepts the same
// words as the file's to RESULT, and tells how many bytes it has. What is refused is told on standard error, and RESULT is left as it was.
// The status is 0 where it was written, else 2.
#![tactic(auto)]

use book_console::calls::{Status, Usage};
use book_console::console::Console;
use book_console::files::load;
use book_console::refusals::{Named, finish};

const USAGE: Usage = Usage {
    command: b"unfold",
    ways: &[b" FILE RESULT"],
};

// Unfolds the file, and writes the result or tells the refusal. The output has room for the longest file.
// Cost: the file is read once, and then that of `unfold::unfold` and of `finish`.
fn unfold_named(console: &Console) -> Status {
    let mut buffer = [0u8; 41293];
    let mut work = [0u64; 8192];
    let mut out = [0u8; 41292];
    let Some(file) = load(console, 0, &mut buffer) else {
        return Status::Failed;
    };
    let answer = unfold::unfold(file, &mut work, &mut out);
    let named = Named {
        argument: 0,
        bytes: file,
    };
    finish(console, answer, &out, &[named], 1)
}

// bookunfold FILE RESULT. Answers the status. Cost: that of `unfold_named`.
pub fn run(console: &Console) -> Status {
    USAGE.run(console, |count| match count {
        2 => Some(unfold_named(console)),
        _ => None,
    })
}
