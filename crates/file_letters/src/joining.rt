// Two letter lists joined (document 02, change 6): the first's bytes and those of the second that match none of them, ascending.
ghost use Rattle.std.specs.Prelude.{◌≡◌, not, ◌+◌, ◌≤◌, ◌<◌, count_by, length, take};
ghost use Rattle.automata.specs.Letters.{same_key};
ghost use Rattle.automata.specs.Lists.{any};
ghost use Rattle.automata.specs.Words.{places};
ghost use Rattle.relettering.specs.Relettering.{inserted, joined_letters};

use super::numbering::{number_letters, place_of};

// The joined list and how many letters it has; and for each of the two lists the new numbers of its letters.
#[derive(Clone, Copy)]
pub struct Lettering {
    pub letters: [u8; 64],
    pub count: usize,
    pub first: [u8; 64],
    pub second: [u8; 64],
}

// A list of letters in its first `count` bytes.
#[derive(Clone, Copy)]
struct Joined {
    letters: [u8; 64],
    count: usize,
}

// Whether a byte stands for none of the letters of a list. Cost: at most one look at each letter.
fn is_new(letters: &[u8], byte: u8) -> bool
    ensures { result ≡ not (any (same_key byte) letters.now) }
{
    place_of(letters, byte).is_none()
}

// How many bytes of the second list stand for none of the first's letters. Cost: the pairs of letters.
fn count_new(first: &[u8], second: &[u8]) -> usize
    ensures { result ≡ count_by (λ byte. not (any (same_key byte) first.now)) second.now }
{
    second.iter().filter(|byte| is_new(first, **byte)).count()
}

// How many letters the joined list of two lists has. Refuses nothing. Cost: the pairs of letters.
pub fn count_joined(first: &[u8], second: &[u8]) -> usize
    requires { length first.now + length second.now ≤ 128 }
    ensures { result ≡ length (joined_letters first.now second.now) }
{
    first.len() + count_new(first, second)
}

// The byte among the first n of a list, each that is above it one place further. Cost: n.
fn insert(list: &mut [u8], n: usize, byte: u8)
    requires { n < length list.old }
    ensures same { length list.new ≡ length list.old }
    ensures inserted { take (n + 1) list.new ≡ inserted byte (take n list.old) }
{
    let mut carried = byte;
    for here in &mut list[..n] {
        if carried < *here {
            (carried, *here) = (*here, carried);
        }
    }
    list[n] = carried;
}

// A list copied to the front of an array. Cost: its length.
fn copied(list: &[u8]) -> [u8; 64]
    requires { length list.now ≤ 64 }
    ensures { take (length list.now) result ≡ list.now }
{
    let mut copy = [0; 64];
    // kept: for the two or three letters of small files `copy_from_slice` calls memcpy, and intersecting herds costs 1.3 % more
    for (i, letter) in list.iter().enumerate() {
        copy[i] = *letter;
    }
    copy
}

// The joined list of two lists that have at most 64 letters together. Cost: the pairs of letters.
fn join_lists(first: &[u8], second: &[u8]) -> Joined
    requires { length (joined_letters first.now second.now) ≤ 64 }
    ensures { (result.count ≡ length (joined_letters first.now second.now)) × (take result.count result.letters ≡ joined_letters first.now second.now) }
{
    let mut letters = copied(first);
    let mut count = first.len();
    for i in (0..second.len()).rev() {
        if is_new(first, second[i]) {
            insert(&mut letters, count, second[i]);
            count += 1;
        }
    }
    Joined { letters, count }
}

// The joined list of two lists that have at most 64 letters together, and the new numbers of the letters of each. Refuses nothing. Cost:
// the pairs of letters.
pub fn join_letters(first: &[u8], second: &[u8]) -> Lettering
    requires { (length second.now ≤ 64) × (length (joined_letters first.now second.now) ≤ 64) }
    ensures arrays { (length result.letters ≡ 64) × (length result.first ≡ 64) × (length result.second ≡ 64) }
    ensures count { result.count ≡ length (joined_letters first.now second.now) }
    ensures letters { take result.count result.letters ≡ joined_letters first.now second.now }
    ensures first { take (length first.now) result.first ≡ places (joined_letters first.now second.now) first.now }
    ensures second { take (length second.now) result.second ≡ places (joined_letters first.now second.now) second.now }
{
    let j = join_lists(first, second);
    let letters = j.letters;
    let count = j.count;
    let one = number_letters(first, &letters[0..count]);
    let two = number_letters(second, &letters[0..count]);
    Lettering {
        letters,
        count,
        first: one,
        second: two,
    }
}
