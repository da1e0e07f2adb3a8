// cases: reads records from standard input and writes the line that tells the answer to each.
// A record is an operation (1 byte), four numbers of 4 bytes, low byte first, namely the length of the first bytes, the
// length of the second bytes, number one and number two, and then the first bytes and the second bytes.
// The run ends where the input ends, also inside a record, at a record that asks for more than the buffers hold, and at
// an operation that is none of the ten, which the line `unknown` tells.
#![tactic(auto)]

ghost use Rattle.std.specs.Prelude.{◌<◌, ◌≤◌, length};

use book_console::console::{Console, Stream};
use book_console::files::read_full;
use book_console::words::write_out;
use std::process::ExitCode;

// What a record asks for: a file read, a word judged, two files joined or one closed, a file unfolded, two compared, the words of a length
// counted, and a word with ranges judged.
#[derive(Clone, Copy, PartialEq, Eq, Debug)]
enum Operation {
    Read,
    Accept,
    Union,
    Concatenate,
    Intersect,
    Close,
    Unfold,
    Compare,
    Count,
    Ranges,
}

// A byte that stands for no operation.
#[derive(Clone, Copy, PartialEq, Eq, Debug)]
struct Unknown(u8);

impl TryFrom<u8> for Operation {
    type Error = Unknown;

    fn try_from(byte: u8) -> Result<Operation, Unknown> {
        match byte {
            1 => Ok(Operation::Read),
            2 => Ok(Operation::Accept),
            3 => Ok(Operation::Union),
            4 => Ok(Operation::Concatenate),
            5 => Ok(Operation::Intersect),
            6 => Ok(Operation::Close),
            7 => Ok(Operation::Unfold),
            8 => Ok(Operation::Compare),
            9 => Ok(Operation::Count),
            10 => Ok(Operation::Ranges),
            _ => Err(Unknown(byte)),
        }
    }
}

impl Operation {
    // How many working words an operation lends, by the record's number one. Cost: constant.
    fn words_lent(self, one: usize) -> usize {
        match self {
            Operation::Accept
            | Operation::Unfold
            | Operation::Compare
            | Operation::Count
            | Operation::Ranges => one,
            _ => 0,
        }
    }

    // How many bytes of output or of a word an operation lends, by the record's two numbers. Cost: constant.
    fn bytes_lent(self, one: usize, two: usize) -> usize {
        match self {
            Operation::Union | Operation::Concatenate | Operation::Intersect | Operation::Close =>
                one,
            Operation::Unfold | Operation::Compare => two,
            _ => 0,
        }
    }
}

// What a record begins with: its operation, if it is one, the lengths of its first and its second bytes, and its two numbers.
#[derive(Clone, Copy)]
struct Head {
    operation: Result<Operation, Unknown>,
    first: usize,
    second: usize,
    one: usize,
    two: usize,
}

// As long as the longest file, word, working memory and output of the cases; `line` holds that output in hexadecimal.
#[derive(Drop)]
struct Buffers {
    first: [u8; 41293],
    second: [u8; 41293],
    work: [u64; 8300],
    out: [u8; 60000],
    line: [u8; 120016],
}

// The number of the four bytes at a place of a record's head, low byte first. Cost: constant.
fn number(head: &[u8; 17], at: usize) -> usize
    requires { at < 14 }
{
    u32::from_le_bytes([head[at], head[at + 1], head[at + 2], head[at + 3]]) as usize
}

// Reads what the next record begins with; nothing where the input ends before or inside that. Cost: one read of 17 bytes.
fn next_head(console: &Console) -> Option<Head> {
    let mut head = [0u8; 17];
    if read_full(&mut console.rt.stdin(), &mut head) < 17 {
        return None;
    }
    Some(Head {
        operation: Operation::try_from(head[0]),
        first: number(&head, 1),
        second: number(&head, 5),
        one: number(&head, 9),
        two: number(&head, 13),
    })
}

// Reads n bytes to the front of `buffer`, and answers them, if they were there and had room. Cost: one pass over them.
fn fill<'a>(console: &Console, buffer: &'a mut [u8], n: usize) -> Option<&'a [u8]> {
    let front = buffer.get_mut(..n)?;
    if read_full(&mut console.rt.stdin(), front) < n {
        return None;
    }
    Some(front)
}

// Writes the line of one operation on exactly what its record lends, and answers its length. Only counting looks at `letters`.
// Cost: that of the call, and the line.
fn answer(
    operation: Operation,
    letters: usize,
    first: &[u8],
    second: &[u8],
    work: &mut [u64],
    out: &mut [u8],
    line: &mut [u8],
) -> usize
    ensures { result ≤ length line.new }
{
    match operation {
        Operation::Read => line_answers::reading_line(format::read(first), line),
        Operation::Accept => {
            line_answers::membership_line(table::accepts(first, second, work), line)
        }
        Operation::Union => line_answers::written_line(join::union(first, second, out), out, line),
        Operation::Concatenate => {
            line_answers::written_line(join::concatenate(first, second, out), out, line)
        }
        Operation::Intersect => {
            line_answers::written_line(join::intersect(first, second, out), out, line)
        }
        Operation::Close => line_answers::written_line(join::close(first, out), out, line),
        Operation::Unfold => {
            line_answers::written_line(unfold::unfold(first, work, out), out, line)
        }
        Operation::Compare => {
            line_comparison::case_line(compare::compare(first, second, work, out), out, line)
        }
        Operation::Count => {
            line_counts::word_count_line(count::count_words(first, letters as u64, work), line)
        }
        Operation::Ranges => {
            line_ranges::ranged_line(ranges::accepts_ranges(first, second, work), line)
        }
    }
}

// Reads one record, answers it on exactly what it lends of the buffers, and prints the line. Nothing is answered where the run ends: where
// the input does, a buffer is shorter, there is no such operation, or the line cannot be written. Cost: one pass over the record, that of
// the call, and the line.
fn turn(console: &Console, buffers: &mut Buffers) -> Option<()> {
    let head = next_head(console)?;
    let first = fill(console, &mut buffers.first, head.first)?;
    let second = fill(console, &mut buffers.second, head.second)?;
    let Ok(operation) = head.operation else {
        let _ = console.write(Stream::Out, b"unknown\n");
        return None;
    };
    let work = buffers.work.get_mut(..operation.words_lent(head.one))?;
    let out = buffers
        .out
        .get_mut(..operation.bytes_lent(head.one, head.two))?;
    let line = &mut buffers.line;
    let n = answer(operation, head.two, first, second, work, out, line);
    if !write_out(console, &line[0..n]) {
        return None;
    }
    Some(())
}

// Answers the records of the input. Cost: that of `turn` for each record.
fn main(rt: HostRuntime) -> ExitCode {
    let console = Console::new(rt);
    let mut buffers = Buffers {
        first: [0; 41293],
        second: [0; 41293],
        work: [0; 8300],
        out: [0; 60000],
        line: [0; 120016],
    };
    for _ in 0..u64::MAX {
        if turn(&console, &mut buffers).is_none() {
            break;
        }
    }
    console.last_status()
}
