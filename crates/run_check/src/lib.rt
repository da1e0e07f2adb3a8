// run_check: the body of `bookcheck FILE` and `mlb check FILE`. Reads words from standard input, one a line, and writes for each whether the
// automaton of the file accepts it: `accepted LIVE WORD` or `rejected LIVE WORD`, LIVE being the number of configurations live after the word.
// An empty line is the empty word. A file that is refused is told once, on standard error, and no word is read. The status is 0 where every
// word was accepted, 1 where one was rejected, 2 where something was refused or failed.
#![tactic(auto)]

ghost use Rattle.std.specs.Prelude.{◌≤◌, length};
ghost use Rattle.line_text.specs.Writing.{Writes};
ghost use Rattle.table.specs.Judging.{Judging};
ghost use Rattle.run_check.specs.AnswerLine.{answer_line};

use book_console::calls::{Status, Usage};
use book_console::console::Console;
use book_console::files::load;
use book_console::refusals::{Named, tell_refusal};
use book_words::{Answers, each_line};
use format::Counts;
use line_text::Line;
use table::judging::judge;
use table::{Membership, prepare};
use word_layout::Block;

const USAGE: Usage = Usage {
    command: b"check",
    ways: &[b" FILE"],
};

// The line of an answer at a place of the output; answers the place behind it. Cost: the bytes of the line.
fn put_answer(answer: &[u8], live: u64, word: &[u8], out: &mut [u8], at: usize) -> usize
    ensures { Writes (answer_line answer.now live word.now) at result out.old out.new }
{
    let mut line = Line { out, at };
    line.put(answer);
    line.decimal(live);
    line.put_byte(b' ');
    line.put(word);
    line.put_byte(b'\n');
    line.at
}

// Puts the line of an answer into the output. Cost: the bytes of the line, and where there is no room for it that of writing what waits.
fn tell<'a>(
    console: &Console,
    answer: &[u8],
    status: Status,
    live: u64,
    word: &[u8],
    answers: &mut Answers<'a>,
) {
    answers.make_room(console);
    let at = answers.waiting;
    let end = put_answer(answer, live, word, answers.out, at);
    answers.answered(end, status);
}

// Judges a word and tells the answer. Cost: that of `table::judging::judge` and of `tell`.
fn answer<'a>(
    console: &Console,
    file: &[u8],
    c: Counts,
    word: &[u8],
    work: &mut [u64],
    block: Block,
    answers: &mut Answers<'a>,
)
    requires { Judging file.now c work.old block }
    ensures { Judging file.now c work.new block }
{
    match judge(file, c, word, work, block) {
        Membership::Accepted(live) => tell(console, b"accepted ", Status::Yes, live, word, answers),
        Membership::Rejected(live) => tell(console, b"rejected ", Status::No, live, word, answers),
    }
}

// All words, by the automaton that is ready; answers the status. Cost: that of `answer` for each word, and that of `each_line`.
fn judge_all(
    console: &Console,
    file: &[u8],
    c: Counts,
    text: &mut [u8],
    out: &mut [u8],
    work: &mut [u64],
    block: Block,
) -> Status
    requires { Judging file.now c work.old block × (length text.old ≤ 65536) }
{
    each_line(console, text, out, |word, answers| {
        answer(console, file, c, word.bytes, work, block, answers)
    })
}

// All words, where the file is not refused: its table is built once. Cost: that of `table::prepare` and of `judge_all`, or that of
// `tell_refusal`.
fn judge_words(
    console: &Console,
    file: &[u8],
    text: &mut [u8],
    out: &mut [u8],
    work: &mut [u64],
) -> Status
    requires { length text.old ≤ 65536 }
{
    match prepare(file, work) {
        Ok(opened) => judge_all(console, file, opened.counts, text, out, work, opened.block),
        Err(refusal) => {
            let named = Named {
                argument: 0,
                bytes: file,
            };
            tell_refusal(console, refusal, &[named]);
            Status::Failed
        }
    }
}

// Loads the file, and judges the words by it. The output has room for what waits and for the longest line.
// Cost: the file is read once, and then that of `judge_words`.
fn check(console: &Console) -> Status {
    let mut buffer = [0u8; 41293];
    let mut text = [0u8; 65536];
    let mut out = [0u8; 131136];
    let mut work = [0u64; 8192];
    let Some(file) = load(console, 0, &mut buffer) else {
        return Status::Failed;
    };
    judge_words(console, file, &mut text, &mut out, &mut work)
}

// bookcheck FILE. Answers the status. Cost: that of `check`.
pub fn run(console: &Console) -> Status {
    USAGE.run(console, |count| match count {
        1 => Some(check(console)),
        _ => None,
    })
}
