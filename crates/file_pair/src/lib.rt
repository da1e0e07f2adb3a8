// file_pair: two files that a call is handed together: their counts, or the refusal of the first fault; and their letters (document 01, the
// order of refusals; document 02, change 6). What joins and compares them goes on from here.
#![tactic(auto)]

ghost use Rattle.std.specs.Prelude.{◌≡◌, ◌≤◌, Ok, length, take};
ghost use Rattle.automata.specs.Words.{places, same_letters};
ghost use Rattle.format.specs.Decoding.{automaton_of};
ghost use Rattle.format.specs.Reading.{reading_of};
ghost use Rattle.file_pair.specs.Pair.{Joinable, files_of, letters_of};

use file_letters::agreeing::same_letters;
use file_letters::joining::{Lettering, count_joined, join_letters};
use format::fields::flags_at;
use format::{Automaton, Counts, Refusal};

// Two valid files: whether their letter lists agree, and their counts.
#[derive(Clone, Copy, PartialEq, Eq, Debug)]
pub struct Pair {
    pub agree: bool,
    pub first: Counts,
    pub second: Counts,
}

// The first file's faults, then the second's. That they have more than 64 letters together is not asked here. Cost: what reading each file
// takes, and their letters.
pub fn read_files(first: &[u8], second: &[u8]) -> Result<Pair, Refusal>
    ensures { result ≡ files_of first.now second.now }
{
    let left = format::read(first);
    let Ok(a) = left else {
        return Err(left.unwrap_err().reason.of(Automaton::First));
    };
    let right = format::read(second);
    let Ok(b) = right else {
        return Err(right.unwrap_err().reason.of(Automaton::Second));
    };
    let end = flags_at(a);
    let other = flags_at(b);
    Ok(Pair {
        agree: same_letters(&first[12..end], &second[12..other]),
        first: a,
        second: b,
    })
}

// How many letters two valid files have together. Refuses nothing. Cost: constant where the lists agree, else the pairs of letters.
pub fn count_letters(agree: bool, a: Counts, first: &[u8], b: Counts, second: &[u8]) -> usize
    requires { (reading_of first.now ≡ Ok a) × (reading_of second.now ≡ Ok b) × (agree ≡ same_letters (automaton_of first.now) (automaton_of second.now)) }
    ensures { result ≡ length (letters_of first.now second.now) }
{
    if agree {
        return a.letters;
    }
    let end = flags_at(a);
    let other = flags_at(b);
    count_joined(&first[12..end], &second[12..other])
}

// The letters of two files together, and the new numbers of the letters of each. Refuses nothing. Cost: the pairs of letters.
pub fn letter_files(a: Counts, first: &[u8], b: Counts, second: &[u8]) -> Lettering
    requires { Joinable a b first.now second.now }
    ensures arrays { (length result.letters ≡ 64) × (length result.first ≡ 64) × (length result.second ≡ 64) }
    ensures few { result.count ≤ 64 }
    ensures all { take result.count result.letters ≡ letters_of first.now second.now }
    ensures numbers { (take a.letters result.first ≡ places (letters_of first.now second.now) (automaton_of first.now).alphabet) × (take b.letters result.second ≡ places (letters_of first.now second.now) (automaton_of second.now).alphabet) }
{
    let end = flags_at(a);
    let other = flags_at(b);
    join_letters(&first[12..end], &second[12..other])
}
