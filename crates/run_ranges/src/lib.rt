// run_ranges: the body of `bookranges FILE` and `mlb ranges FILE`. Reads words from standard input, one a line, of which a letter may be known
// only to lie in a range, and writes for each how many of its fillings the automaton of the file accepts, all, some or none: `always WORD`,
// `sometimes WORD` or `never WORD`, WORD as it was typed. A word is typed by its letters, and a place whose letter is not sure as `[x-y]`: one
// of the automaton's letters from x to y, both included. A `[` always begins a range, so the letter `[` is typed as `[[-[]`. An empty line is
// the empty word, and a word with a byte that is no letter is never accepted, whatever stands behind that byte and whatever ranges before it
// would be refused for. A file that is refused is told once, on standard error, and no word is read; a word that is refused, or has a `[` that
// begins no range of letters, is told there too, and the next word is read. The status is 0 where every word is always accepted, 1 where one
// is not, 2 where something was refused or failed.
#![tactic(auto)]

ghost use Rattle.std.specs.Prelude.{◌≡◌, ◌*◌, ◌≤◌, length};
ghost use Rattle.run_ranges.specs.Letters.{FewApart};

use book_console::calls::{Status, Usage};
use book_console::console::{Console, Stream};
use book_console::files::load;
use book_console::refusals::{Named, tell_refusal};
use book_console::words::say;
use book_ranges::{Unread, read_places};
use book_words::{Answers, each_line};
use format::Refusal;
use format::fields::flags_at;
use line_text::Line;
use ranges::Fillings;

const USAGE: Usage = Usage {
    command: b"ranges",
    ways: &[b" FILE"],
};

// Puts the line of an answer into the output. Cost: the bytes of the line, and where there is no room for it that of writing what waits.
fn tell<'a>(
    console: &Console,
    answer: &[u8],
    status: Status,
    word: &[u8],
    answers: &mut Answers<'a>,
) {
    answers.make_room(console);
    let at = answers.waiting;
    let mut line = Line {
        out: &mut *answers.out,
        at,
    };
    line.put(answer);
    line.put(word);
    line.put_byte(b'\n');
    let end = line.at;
    answers.answered(end, status);
}

// Tells that a word was refused, on standard error. The run goes on. Cost: that of writing what waits, and of `tell_refusal`.
fn tell_refused<'a>(
    console: &Console,
    refusal: Refusal,
    file: &[u8],
    word: &[u8],
    answers: &mut Answers<'a>,
) {
    answers.flush(console);
    say(console, Stream::Err, word);
    say(console, Stream::Err, b": ");
    let named = Named {
        argument: 0,
        bytes: file,
    };
    tell_refusal(console, refusal, &[named]);
    answers.not_judged();
}

// Tells that a word cannot be read: the `[` at this byte, counted from 1, begins no range. The run goes on. Cost: that of writing what waits,
// and the line.
fn tell_unread<'a>(console: &Console, place: usize, word: &[u8], answers: &mut Answers<'a>) {
    answers.flush(console);
    say(console, Stream::Err, word);
    console
        .err()
        .text(": the [ at byte ")
        .number(place as u64)
        .text(" begins no range [x-y] of the automaton's letters\n");
    answers.not_judged();
}

// Tells what is answered of a word. Cost: the line, and of a refusal that of `tell_refused`.
fn tell_answer<'a>(
    console: &Console,
    answer: Result<Fillings, Refusal>,
    file: &[u8],
    word: &[u8],
    answers: &mut Answers<'a>,
) {
    match answer {
        Ok(Fillings::Always) => tell(console, b"always ", Status::Yes, word, answers),
        Ok(Fillings::Sometimes) => tell(console, b"sometimes ", Status::No, word, answers),
        Ok(Fillings::Never) => tell(console, b"never ", Status::No, word, answers),
        Err(refusal) => tell_refused(console, refusal, file, word, answers),
    }
}

// Judges a word and tells the answer. Cost: that of `read_places`, of `ranges::accepts_ranges` and of `tell_answer`.
fn judge<'a>(
    console: &Console,
    file: &[u8],
    letters: &[u8],
    word: &[u8],
    places: &mut [u8],
    work: &mut [u64],
    answers: &mut Answers<'a>,
)
    requires { FewApart letters.now × (2 * length word.now ≤ length places.old) }
    ensures { length places.new ≡ length places.old }
{
    match read_places(letters, word, places) {
        Ok(n) => tell_answer(
            console,
            ranges::accepts_ranges(file, &places[0..n], work),
            file,
            word,
            answers,
        ),
        Err(Unread::NoLetter) => tell(console, b"never ", Status::No, word, answers),
        Err(Unread::NoRange(place)) => tell_unread(console, place, word, answers),
    }
}

// All words; answers the status. Cost: that of `judge` for each word, and that of `each_line`.
fn judge_all(
    console: &Console,
    file: &[u8],
    letters: &[u8],
    text: &mut [u8],
    out: &mut [u8],
    places: &mut [u8],
    work: &mut [u64],
) -> Status
    requires { FewApart letters.now × ((length text.old ≤ 65536) × (131072 ≤ length places.old)) }
{
    each_line(console, text, out, |word, answers| {
        judge(console, file, letters, word.bytes, places, work, answers)
    })
}

// Whether the file is not refused. It alone decides that where there are no places, so the empty word is asked. Cost: that of
// `ranges::accepts_ranges`, and where it is refused that of `tell_refusal`.
fn is_fit(console: &Console, file: &[u8], work: &mut [u64]) -> bool {
    let Err(refusal) = ranges::accepts_ranges(file, &file[0..0], work) else {
        return true;
    };
    let named = Named {
        argument: 0,
        bytes: file,
    };
    tell_refusal(console, refusal, &[named]);
    false
}

// All words, by the letters of the file, where it is not refused. Cost: that of `is_fit`, of `format::read` and of `judge_all`.
fn judge_words(
    console: &Console,
    file: &[u8],
    text: &mut [u8],
    out: &mut [u8],
    places: &mut [u8],
    work: &mut [u64],
) -> Status
    requires { (length text.old ≤ 65536) × (131072 ≤ length places.old) }
{
    if !is_fit(console, file, work) {
        return Status::Failed;
    }
    let Ok(c) = format::read(file) else {
        return Status::Failed;
    };
    let end = flags_at(c);
    judge_all(console, file, &file[12..end], text, out, places, work)
}

// Loads the file, and judges the words by it. The output has room for what waits and for the longest line.
// Cost: the file is read once, and then that of `judge_words`.
fn judge_named(console: &Console) -> Status {
    let mut buffer = [0u8; 41293];
    let mut text = [0u8; 65536];
    let mut out = [0u8; 131136];
    let mut places = [0u8; 131072];
    let mut work = [0u64; 8192];
    let Some(file) = load(console, 0, &mut buffer) else {
        return Status::Failed;
    };
    judge_words(console, file, &mut text, &mut out, &mut places, &mut work)
}

// bookranges FILE. Answers the status. Cost: that of `judge_named`.
pub fn run(console: &Console) -> Status {
    USAGE.run(console, |count| match count {
        1 => Some(judge_named(console)),
        _ => None,
    })
}
