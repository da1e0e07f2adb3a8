// compare: do two automata accept the same words?
#![tactic(auto)]

ghost use Rattle.std.specs.Prelude.{◌≡◌, false, true, ◌≤◌, length};
ghost use Rattle.file_fields.specs.Parts.{counts_of};
ghost use Rattle.file_pair.specs.Lettered.{Lettered, automaton_over};
ghost use Rattle.file_pair.specs.Pair.{both_valid, files_of};
ghost use Rattle.compare_promise.specs.Comparing.{buffer_of, comparison_of, shown_word, table_refusals};
ghost use Rattle.compare.specs.Answers.{AnswersAtLimits, AnswersOfFiles};

pub use compare_promise::Comparison;
use deciding::decide;
use file_pair::{count_letters, letter_files, read_files};
use format::fields::flags_at;
use format::{Automaton, Counts, Reason};
use loading::load;
use word_layout::{FIRST_BLOCK, SECOND_BLOCK};

mod deciding;
mod loading;

// Two valid files over the same letters: the automaton of each is loaded, by the new numbers of its letters, and then both are decided.
// Cost: what loading and deciding take.
fn compare_files(
    first: &[u8],
    one: &[u8],
    second: &[u8],
    two: &[u8],
    letters: &[u8],
    w: &mut [u64],
    word: &mut [u8],
) -> Comparison
    requires { Lettered (counts_of first.now) (counts_of second.now) first.now second.now one.now two.now letters.now × ((8192 ≤ length w.old) × (512 ≤ length word.old)) }
    ensures same { length w.new ≡ length w.old }
    ensures answers { AnswersAtLimits (table_refusals 256 2048 512) (automaton_over one.now letters.now first.now) (automaton_over two.now letters.now second.now) word.old word.new result }
{
    let left = load(first, one, w, FIRST_BLOCK);
    let Ok(x) = left else {
        return Comparison::Refused(left.unwrap_err().of(Automaton::First));
    };
    let right = load(second, two, w, SECOND_BLOCK);
    let Ok(y) = right else {
        return Comparison::Refused(right.unwrap_err().of(Automaton::Second));
    };
    decide(w, x, y, letters, word)
}

// Two files whose letter lists agree: no letter gets a new number. Cost: what comparing the files takes.
// kept: what is lent differs, parts of a file here and of a `Lettering` below; one text over an Option of it asks twice which it is, so it is no plainer
fn compare_alike(
    first: &[u8],
    a: Counts,
    second: &[u8],
    b: Counts,
    w: &mut [u64],
    word: &mut [u8],
) -> Comparison
    requires { (files_of first.now second.now ≡ both_valid true a b) × (8192 ≤ length w.old) × (512 ≤ length word.old) }
    ensures same { length w.new ≡ length w.old }
    ensures answers { AnswersOfFiles first.now second.now word.old word.new result }
{
    let end = flags_at(a);
    compare_files(
        first,
        &first[0..0],
        second,
        &second[0..0],
        &first[12..end],
        w,
        word,
    )
}

// Two files over their joined letter list. Refuses 11: more than 64 letters together. Cost: what counting the letters, joining the lists and
// comparing the files takes.
fn compare_apart(
    first: &[u8],
    a: Counts,
    second: &[u8],
    b: Counts,
    w: &mut [u64],
    word: &mut [u8],
) -> Comparison
    requires { (files_of first.now second.now ≡ both_valid false a b) × (8192 ≤ length w.old) × (512 ≤ length word.old) }
    ensures same { length w.new ≡ length w.old }
    ensures answers { AnswersOfFiles first.now second.now word.old word.new result }
{
    if 64 < count_letters(false, a, first, b, second) {
        return Comparison::Refused(Reason::JoinedBeyondALimit.of_call());
    }
    let m = a.letters;
    let n = b.letters;
    let l = letter_files(a, first, b, second);
    let count = l.count;
    let one = l.first;
    let two = l.second;
    let letters = l.letters;
    compare_files(
        first,
        &one[0..m],
        second,
        &two[0..n],
        &letters[0..count],
        w,
        word,
    )
}

// Do the automata of two files accept the same words? They are compared over the letters of both: one that lacks a letter accepts no word
// that has it. Where they do not accept the same, the first word that exactly one accepts stands at the front of the word buffer, in the
// bytes of the joined letter list, and what was lent behind it is as it was; else all of the buffer is. Words come in order by their
// length, and then by the places of their letters in that list. Refuses, in this order: fewer than 8,192 working words or a buffer of
// fewer than 512 bytes, 24; a fault of the first file, as `format::read` tells it; of the second; more than 64 letters together, 11; more
// than 256 configurations of the first, 21, or more than 2,048 plain arcs, 22; the same of the second; more than 512 pairs, 23. One thing
// is free: what the working words hold afterwards.
// Cost: b + k * o + k * k + n * (p + a) steps, where b is the number of bytes of the files, o that of their arcs and operations, k that of
// their configurations, p that of their plain arcs, a that of the letters and n that of the pairs; and as many more as pairs, or
// configurations, have the key of one that is looked up; and a * a where the letter lists do not agree. Nothing is allocated.
pub fn compare(first: &[u8], second: &[u8], work: &mut [u64], word: &mut [u8]) -> Comparison
    ensures same { length work.new ≡ length work.old }
    ensures answer { result ≡ comparison_of first.now second.now (length work.old) (length word.old) }
    ensures shown { word.new ≡ buffer_of result (shown_word first.now second.now) word.old }
{
    if work.len() < 8192 {
        return Comparison::Refused(Reason::TooLittleMemoryLent.of_call());
    }
    if word.len() < 512 {
        return Comparison::Refused(Reason::TooLittleMemoryLent.of_call());
    }
    match read_files(first, second) {
        Err(refusal) => Comparison::Refused(refusal),
        Ok(pair) => {
            if pair.agree {
                compare_alike(first, pair.first, second, pair.second, work, word)
            } else {
                compare_apart(first, pair.first, second, pair.second, work, word)
            }
        }
    }
}
