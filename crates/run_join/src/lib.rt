// run_join: the body of `bookjoin` and `mlb join`: union|concat|intersect FIRST SECOND RESULT, or closure FIRST RESULT. Joins files, writes
// the joined file to RESULT and tells how many bytes it has. What is refused is told on standard error, and RESULT is left as it was.
// The status is 0 where it was written, else 2.
#![tactic(auto)]

use book_console::calls::{Status, Usage};
use book_console::console::Console;
use book_console::files::load;
use book_console::refusals::{Named, finish};
use format::Refusal;

const USAGE: Usage = Usage {
    command: b"join",
    ways: &[
        b" union|concat|intersect FIRST SECOND RESULT",
        b" closure FIRST RESULT",
    ],
};

// A join of two files.
#[derive(Clone, Copy, PartialEq, Eq, Debug)]
enum Join {
    Union,
    Concatenation,
    Intersection,
}

// What the first argument names: a join of two files, or the closure of one.
#[derive(Clone, Copy, PartialEq, Eq, Debug)]
enum Operation {
    Joins(Join),
    Closes,
}

// The operation of this name, if there is one. Cost: constant.
fn operation_named(name: &[u8]) -> Option<Operation> {
    match name {
        b"union" => Some(Operation::Joins(Join::Union)),
        b"concat" => Some(Operation::Joins(Join::Concatenation)),
        b"intersect" => Some(Operation::Joins(Join::Intersection)),
        b"closure" => Some(Operation::Closes),
        _ => None,
    }
}

// Joins two files. Cost: that of the join.
fn join_files(join: Join, first: &[u8], second: &[u8], out: &mut [u8]) -> Result<usize, Refusal> {
    match join {
        Join::Union => join::union(first, second, out),
        Join::Concatenation => join::concatenate(first, second, out),
        Join::Intersection => join::intersect(first, second, out),
    }
}

// Joins the two files that are named, and writes the result to the file that the last argument names or tells the refusal. The output has
// room for the longest file. Cost: each file is read once, and then that of the join and of `finish`.
fn join_two(console: &Console, join: Join) -> Status {
    let mut first_buffer = [0u8; 41293];
    let mut second_buffer = [0u8; 41293];
    let mut out = [0u8; 41292];
    let Some(first) = load(console, 1, &mut first_buffer) else {
        return Status::Failed;
    };
    let Some(second) = load(console, 2, &mut second_buffer) else {
        return Status::Failed;
    };
    let answer = join_files(join, first, second, &mut out);
    let files = [
        Named {
            argument: 1,
            bytes: first,
        },
        Named {
            argument: 2,
            bytes: second,
        },
    ];
    finish(console, answer, &out, &files, 3)
}

// Closes the file that is named, and writes the result to the file that the last argument names or tells the refusal. The output has room
// for the longest file. Cost: the file is read once, and then that of `join::close` and of `finish`.
fn close_one(console: &Console) -> Status {
    let mut buffer = [0u8; 41293];
    let mut out = [0u8; 41292];
    let Some(file) = load(console, 1, &mut buffer) else {
        return Status::Failed;
    };
    let answer = join::close(file, &mut out);
    let named = Named {
        argument: 1,
        bytes: file,
    };
    finish(console, answer, &out, &[named], 2)
}

// The operation that the first argument names, if there is one; a name that has no room is none. Cost: the text.
fn first_argument(console: &Console) -> Option<Operation> {
    let mut text = [0u8; 4096];
    operation_named(console.argument(0, &mut text).unwrap_or(b""))
}

// bookjoin. Answers the status. Cost: that of `join_two` or `close_one`.
pub fn run(console: &Console) -> Status {
    USAGE.run(console, |count| match (first_argument(console)?, count) {
        (Operation::Joins(join), 4) => Some(join_two(console, join)),
        (Operation::Closes, 3) => Some(close_one(console)),
        _ => None,
    })
}
