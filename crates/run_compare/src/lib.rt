// run_compare: the body of `bookcompare [FIRST SECOND]` and `mlb compare [FIRST SECOND]`. Compares the automata in two files, and writes one
// line (document 01, `bookcompare`). Without arguments the files are first.mlb and second.mlb, of which a missing one counts as empty. Files
// that are named have to be there, and what is refused of them is told on standard error too, with the place. Of a longer file the first
// 41,293 bytes count, one more than the longest valid file has. The status is 0 where the two accept the same words, 1 where they differ, 2
// where something was refused or failed.
#![tactic(auto)]

ghost use Rattle.book_console.specs.Inputs.{IsFrontOrEmpty};

use book_console::calls::{Status, Usage};
use book_console::console::Console;
use book_console::files::{load, read_named};
use book_console::refusals::{Named, tell_refusal};
use book_console::words::{fail, write_out};
use compare::Comparison;
use std::io::ErrorKind;

const USAGE: Usage = Usage {
    command: b"compare",
    ways: &[b" [FIRST SECOND], first.mlb and second.mlb where none is named"],
};

// Reads the start of a file to the front of `buffer`, and answers its bytes there: none where it is missing or cannot be read. That it cannot
// be read is told on standard error. Cost: one pass over the file, as far as it is read.
fn load_if_there<'a>(console: &Console, path: &[u8], buffer: &'a mut [u8]) -> &'a [u8]
    ensures { IsFrontOrEmpty buffer.entry result }
{
    match read_named(console, path, buffer) {
        Ok(bytes) => bytes,
        Err(error) => {
            if error.kind() != ErrorKind::NotFound {
                fail(console, path, &error);
            }
            b""
        }
    }
}

// The status that the first byte of a line tells: SAME, TAKES1 or TAKES2, REFUSED. Cost: constant.
fn status_in(line: &[u8]) -> Status {
    match line.first() {
        Some(b'S') => Status::Yes,
        Some(b'T') => Status::No,
        _ => Status::Failed,
    }
}

// Writes the line of two files, and answers the status. What comparing answers, and the line of it, are line_comparison's. No line has more
// than 1,036 bytes, as the contract of `line_comparison::comparison_line` says: none is cut. Cost: that of `compare::compare`, and the line.
fn tell(console: &Console, first: &[u8], second: &[u8]) -> Status {
    let mut line = [0u8; 1036];
    let n = line_comparison::comparison_line(first, second, &mut line);
    if !write_out(console, &line[0..n]) {
        return Status::Failed;
    }
    status_in(&line[0..n])
}

// Tells in words why two files are not compared. They are asked once more, since the line has no place for it. Cost: that of
// `compare::compare` and of `tell_refusal`.
fn tell_why(console: &Console, first: &[u8], second: &[u8]) {
    let mut work = [0u64; 8192];
    let mut word = [0u8; 512];
    if let Comparison::Refused(refusal) = compare::compare(first, second, &mut work, &mut word) {
        let files = [
            Named {
                argument: 0,
                bytes: first,
            },
            Named {
                argument: 1,
                bytes: second,
            },
        ];
        tell_refusal(console, refusal, &files);
    }
}

// Compares the files that the arguments name, writes the line, and tells what is refused. Cost: each file is read once, and then that of
// `tell`, and of a refusal that of `tell_why`.
fn compare_named(console: &Console) -> Status {
    let mut first_buffer = [0u8; 41293];
    let mut second_buffer = [0u8; 41293];
    let Some(first) = load(console, 0, &mut first_buffer) else {
        return Status::Failed;
    };
    let Some(second) = load(console, 1, &mut second_buffer) else {
        return Status::Failed;
    };
    let status = tell(console, first, second);
    if status == Status::Failed {
        tell_why(console, first, second);
    }
    status
}

// Compares first.mlb and second.mlb of the folder. Cost: each file is read once, and then that of `tell`.
fn compare_here(console: &Console) -> Status {
    let mut first = [0u8; 41293];
    let mut second = [0u8; 41293];
    let first = load_if_there(console, b"first.mlb", &mut first);
    let second = load_if_there(console, b"second.mlb", &mut second);
    tell(console, first, second)
}

// bookcompare [FIRST SECOND]. Answers the status. Cost: that of `compare_named`.
pub fn run(console: &Console) -> Status {
    USAGE.run(console, |count| match count {
        2 => Some(compare_named(console)),
        0 => Some(compare_here(console)),
        _ => None,
    })
}
