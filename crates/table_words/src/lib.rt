// table_words: many words judged by one file, whose table is built once.
#![tactic(auto)]

ghost use Rattle.std.specs.Prelude.{◌≡◌, ◌+◌, ◌^◌, ◌<◌, ◌≤◌, length, drop, Ok};
ghost use Rattle.format.specs.Decoding.{automaton_of};
ghost use Rattle.table.specs.Judging.{Judging};
ghost use Rattle.table_words.specs.Words.{before, words_in, packed, verdicts_of, answers_of, words_judged, judged_of, answered};

use format::{Counts, Refusal};
use table::judging::judge;
use table::{Membership, prepare};
use word_layout::Block;

// What judging many words answers where nothing is refused: how many words were judged, and how many bytes they take, each with the
// separator behind it.
#[derive(Clone, Copy, PartialEq, Eq, Debug)]
pub struct Judged {
    pub count: usize,
    pub bytes: usize,
}

// Where the word ends that begins at `from`: the place of the first separator from there on, or that of the end where there is none.
// Cost: the bytes of the word.
fn word_end(bytes: &[u8], from: usize, separator: u8) -> usize
    requires { from ≤ length bytes.now }
    ensures { result ≡ from + before separator (drop from bytes.now) }
{
    match bytes[from..].iter().position(|byte| *byte == separator) {
        Some(length) => from + length,
        None => bytes.len(),
    }
}

// An answer in one word: twice the number of live configurations, and one more where the word is accepted.
// Cost: constant.
fn pack(answer: Membership) -> u64
    requires { packed (Ok answer) < 2 ^ 64 }
    ensures { result ≡ packed (Ok answer) }
{
    match answer {
        Membership::Accepted(live) => 2 * live + 1,
        Membership::Rejected(live) => 2 * live,
    }
}

// The words that end in the bytes, as many as there is room for answers, judged by the automaton that is ready.
// Cost: that of `table::judging::judge` for each word.
fn judge_words(
    file: &[u8],
    c: Counts,
    bytes: &[u8],
    separator: u8,
    w: &mut [u64],
    block: Block,
    answers: &mut [u64],
) -> Judged
    requires { Judging file.now c w.old block }
    ensures same { length w.new ≡ length w.old }
    ensures answer { result ≡ words_judged (words_in separator (length answers.old) bytes.now) }
    ensures answers { answers.new ≡ answered (Ok result) (verdicts_of (automaton_of file.now) (words_in separator (length answers.old) bytes.now)) answers.old }
{
    let mut from: usize = 0;
    for n in 0..answers.len() {
        let end = word_end(bytes, from, separator);
        if end == bytes.len() {
            return Judged {
                count: n,
                bytes: from,
            };
        }
        answers[n] = pack(judge(file, c, &bytes[from..end], w, block));
        from = end + 1;
    }
    Judged {
        count: answers.len(),
        bytes: from,
    }
}

// Judges the words that end in the bytes, one behind the other, each with the separator behind it: word i has its answer in answers[i], as
// `table::accepts` would give it: twice the number of live configurations, and one more where the word is accepted. As many words are judged
// as there is room for answers; bytes behind the last separator are not judged. Answers how many words were judged, and how many bytes they
// take, so that a caller can go on behind them. The separator is no letter of any word then, whatever the file lists. Refuses what
// `table::accepts` does, and then leaves the answers as they were lent.
// Cost: that of `table::prepare` once, and that of `table::judging::judge` for each word.
pub fn accepts_words(
    file: &[u8],
    bytes: &[u8],
    separator: u8,
    work: &mut [u64],
    answers: &mut [u64],
) -> Result<Judged, Refusal>
    ensures same { length work.new ≡ length work.old }
    ensures answer { result ≡ judged_of file.now bytes.now separator (length work.old) (length answers.old) }
    ensures answers { answers.new ≡ answered result (answers_of file.now (words_in separator (length answers.old) bytes.now) (length work.old)) answers.old }
{
    let opened = prepare(file, work)?;
    Ok(judge_words(
        file,
        opened.counts,
        bytes,
        separator,
        work,
        opened.block,
        answers,
    ))
}
