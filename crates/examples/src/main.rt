// examples FILE WORDS FILE WORDS ..: judges each word of each file of words by the automaton of the file named before it.
// A line of a file of words is `+ WORD` or `- WORD`, accepted or rejected; the empty word's is the sign alone. What is written
// is the name of the file of words, then its lines with the answer's sign in place of the one that stands there.
#![tactic(auto)]

use book_console::console::{Console, Stream};
use book_console::files::load;
use book_console::refusals::{Named, tell_refusal};
use book_console::words::{say, say_argument};
use std::process::ExitCode;
use table::Membership;

// A line of the answer. Cost: the line.
fn say_line(console: &Console, sign: &[u8], word: &[u8]) {
    say(console, Stream::Out, sign);
    if !word.is_empty() {
        say(console, Stream::Out, b" ");
        say(console, Stream::Out, word);
    }
    say(console, Stream::Out, b"\n");
}

// Judges a word. Cost: that of `table::accepts`, and the line or that of `tell_refusal`.
fn judge(console: &Console, file: Named, word: &[u8], work: &mut [u64]) {
    match table::accepts(file.bytes, word, work) {
        Ok(Membership::Accepted(_)) => say_line(console, b"+", word),
        Ok(Membership::Rejected(_)) => say_line(console, b"-", word),
        Err(refusal) => tell_refusal(console, refusal, &[file]),
    }
}

// Judges the word of every line of the text: what stands behind the sign and a space. Cost: that of `judge` for each line.
fn judge_lines(console: &Console, file: Named, text: &[u8], work: &mut [u64]) {
    for line in text.split_inclusive(|byte| *byte == b'\n') {
        let line = line.strip_suffix(b"\n").unwrap_or(line);
        judge(console, file, line.get(2..).unwrap_or(b""), work);
    }
}

// Judges the words of the file that the second argument names by the automaton of the one that the first names.
// Cost: both files are read once, and then that of `judge_lines`.
fn judge_example(console: &Console, first: usize, second: usize) {
    let mut file = [0u8; 41293];
    let mut text = [0u8; 41293];
    let mut work = [0u64; 8192];
    let Some(bytes) = load(console, first, &mut file) else {
        return;
    };
    let Some(text) = load(console, second, &mut text) else {
        return;
    };
    say_argument(console, Stream::Out, second);
    say(console, Stream::Out, b"\n");
    let file = Named {
        argument: first,
        bytes,
    };
    judge_lines(console, file, text, &mut work);
}

// Arguments are taken two by two, a thousand at most.
fn main(rt: HostRuntime) -> ExitCode {
    let console = &Console::new(rt);
    let count = console.own_count().unwrap_or(0);
    for i in (0..count.min(999)).step_by(2) {
        judge_example(console, i, i + 1);
    }
    console.last_status()
}
