// The letters of a file: bytes that ascend strictly, no two of them one letter.
ghost use Rattle.std.specs.Prelude.{◌≡◌, false, true, suc, ◌<◌, ◌≤◌, eqb, drop, get_or, length};
ghost use Rattle.automata.specs.Letters.{same_key};
ghost use Rattle.automata.specs.Lists.{any};
ghost use Rattle.file_fields.specs.Parts.{ascending, ascending_front, unlike_front, letter_tests, first_fault};

use file_fields::fields::flags_at;
use file_fields::letters::key_of;
use file_fields::{Counts, Fault, Reason};

// Whether the bytes ascend strictly. Counting them costs two instructions more for each, so they are counted only where they do not.
// Cost: one pass, up to the first that is not above the one before it.
fn is_ascending(s: &[u8]) -> bool
    ensures { result ≡ ascending s.now }
{
    for i in 1..s.len() {
        if s[i] <= s[i - 1] {
            return false;
        }
    }
    true
}

// How many bytes at the front ascend strictly. Called only where not all do. Cost: one pass over them.
fn ascending_front(s: &[u8]) -> usize
    ensures { (result ≡ ascending_front s.now) × (result ≤ length s.now) }
{
    for i in 1..s.len() {
        if s[i - 1] >= s[i] {
            return i;
        }
    }
    s.len()
}

// Whether a byte is among these. Cost: at most one look at each.
fn is_among(s: &[u8], byte: u8) -> bool
    ensures { result ≡ any (eqb byte) s.now }
{
    s.contains(&byte)
}

// Whether the letter at this place is the same letter as one behind it. The letters ascend, so it is then a capital, and its small letter
// is behind it. Cost: for a capital at most one look at each letter behind it, else constant.
fn is_listed_again(s: &[u8], i: usize) -> bool
    requires { (ascending s.now ≡ true) × (i < length s.now) }
    ensures { result ≡ any (same_key (get_or s.now i 0)) (drop (suc i) s.now) }
{
    let small = key_of(s[i]);
    if small == s[i] {
        return false;
    }
    is_among(&s[i + 1..], small)
}

// Whether there may be a capital and a small letter among these, by the lowest and the highest. Cost: constant.
fn may_have_both_cases(s: &[u8]) -> bool
    requires { ascending s.now ≡ true }
    ensures { result ≡ false → unlike_front s.now ≡ length s.now }
{
    if s.len() == 0 {
        return false;
    }
    (s[0] <= 0x5A) & (0x61 <= s[s.len() - 1])
}

// How many letters at the front have no byte of their letter behind them. Cost: constant where all are above the capitals or all below the
// small letters; else one pass over them, and for each capital one more over the letters behind it.
fn unlike_front(s: &[u8]) -> usize
    requires { ascending s.now ≡ true }
    ensures { result ≡ unlike_front s.now }
{
    if !may_have_both_cases(s) {
        return s.len();
    }
    for i in 0..s.len() {
        if is_listed_again(s, i) {
            return i;
        }
    }
    s.len()
}

// The counts, or the first fault of the letters.
// Cost: one pass over them, a second one where they do not ascend, and that of `unlike_front`.
pub fn read_letters(c: Counts, file: &[u8]) -> Result<Counts, Fault>
    requires { c.letters ≤ 64 }
    ensures { result ≡ first_fault (letter_tests c file.now) c }
{
    let flags = flags_at(c);
    if file.len() < flags {
        return Err(Reason::EndsInsideAField.at(12));
    }
    if !is_ascending(&file[12..flags]) {
        return Err(Reason::LettersNotAscending.at(12 + ascending_front(&file[12..flags])));
    }
    let unlike = unlike_front(&file[12..flags]);
    if unlike < c.letters {
        return Err(Reason::LettersNotAscending.at(12 + unlike));
    }
    Ok(c)
}
