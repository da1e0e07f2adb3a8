// join_product_count: the arcs of an intersection, group by group (document 01, 'Joining books'): how many they are, how many bytes they take,
// and whether one has more than 8 operations, before any is written. They have the numbers of the first file's letters (document 02, change 6).
#![tactic(auto)]

ghost use Rattle.std.specs.Prelude.{◌≡◌, ◌++◌, ℕ, ◌+◌, ◌<◌, ◌≤◌, Ok, length, drop};
ghost use Rattle.automata.specs.Automaton.{Arc};
ghost use Rattle.automata.specs.Joins.{both_arcs, left_arcs};
ghost use Rattle.format.specs.Reading.{reading_of};
ghost use Rattle.format.specs.Decoding.{arc_of, automaton_of};
ghost use Rattle.join_parts.specs.OwnNumbers.{by_first};
ghost use Rattle.join_product_count.specs.ProductArcs.{FirstArc, Matchable, OtherLetter, Tallied, empty_with, first_with, product_of};

use file_letters::numbering::place_of;
use format::Counts;
use format::fields::{arc_size, byte, first_arc};

// What a count says of arcs: how many they are, how many bytes they take, whether one has more than 8 operations.
#[derive(Clone, Copy)]
pub struct Tally {
    pub arcs: usize,
    pub size: usize,
    pub many: bool,
}

// The second file's number of a letter of the first, found among the second's letters; where the lists agree none are lent, and it is the
// same number. It is a byte for the compiler too, so that bytes are compared with it. Refuses nothing. Cost: the second's letters; where the
// lists agree, constant.
pub fn other_letter(first: &[u8], others: &[u8], letter: usize) -> u8
    requires { (letter < 64) × (12 + letter < length first.now) × (length others.now ≤ 64) }
    ensures { OtherLetter first.now others.now letter result }
{
    if others.len() == 0 {
        return letter as u8;
    }
    place_of(others, first[12 + letter]).unwrap_or(others.len()) as u8
}

// The arc at a place of the first file with each arc of the second of its letter; where it is an empty move, beside each state of the second.
// Operations are added up, and the most of one arc is kept, since the inner loop is the dearest one. Cost: the arcs of the second.
fn count_joint(first: &[u8], from: usize, b: Counts, second: &[u8], others: &[u8]) -> Tally
    requires { FirstArc b first.now second.now others.now from }
    ensures { ((k : ℕ) → Tallied result (first_with b.states k (by_first first.now others.now second.now).arcs (arc_of (drop from first.now)))) × (result.arcs ≤ 2048) × (result.size ≤ 2097152) }
{
    let letter = byte(first, from + 1);
    let p = byte(first, from + 3);
    if letter == 255 {
        return Tally {
            arcs: b.states,
            size: b.states * (4 + 2 * p),
            many: false,
        };
    }
    let own = other_letter(first, others, letter) as usize;
    let mut arcs: usize = 0;
    let mut sum: usize = 0;
    let mut most: usize = 0;
    let mut at = first_arc(b);
    for _i in 0..b.arcs {
        let ops = p + byte(second, at + 3);
        if own == byte(second, at + 1) {
            arcs += 1;
            sum += ops;
            most = most.max(ops);
        }
        at += arc_size(second, at);
    }
    Tally {
        arcs,
        size: 4 * arcs + 2 * sum,
        many: 8 < most,
    }
}

// All arcs of the intersection that the arcs of the first give: each lettered one with each arc of the second of its letter, each empty move
// beside each state of the second. Cost: for each arc of the first, the arcs of the second.
fn count_first(a: Counts, first: &[u8], b: Counts, second: &[u8], others: &[u8]) -> Tally
    requires { Matchable a b first.now second.now others.now }
    ensures { Tallied result (both_arcs (automaton_of first.now) (by_first first.now others.now second.now) ++ left_arcs (automaton_of first.now) (by_first first.now others.now second.now)) × (result.arcs ≤ 4194304) × (result.size ≤ 4294967296) }
{
    let mut arcs: usize = 0;
    let mut size: usize = 0;
    let mut many = false;
    let mut from = first_arc(a);
    for _i in 0..a.arcs {
        let t = count_joint(first, from, b, second, others);
        arcs += t.arcs;
        size += t.size;
        many = many | t.many;
        from += arc_size(first, from);
    }
    Tally { arcs, size, many }
}

// Each empty move of a file beside each of n states: arcs with as many operations as it has. Cost: the file's arcs.
fn count_empty(c: Counts, file: &[u8], n: usize) -> Tally
    requires { (reading_of file.now ≡ Ok c) × (n ≤ 256) }
    ensures { ((f : Arc → ℕ → Arc) → ((x : Arc) (i : ℕ) → length (f x i).ops ≡ length x.ops) → Tallied result (empty_with f n (automaton_of file.now).arcs)) × (result.arcs ≤ 524288) × (result.size ≤ 270532608) }
{
    let mut arcs: usize = 0;
    let mut size: usize = 0;
    let mut from = first_arc(c);
    for _i in 0..c.arcs {
        let bytes = arc_size(file, from);
        if byte(file, from + 1) == 255 {
            arcs += n;
            size += n * bytes;
        }
        from += bytes;
    }
    Tally {
        arcs,
        size,
        many: false,
    }
}

// All arcs of the intersection, by the numbers of the first file's letters. Cost: for each arc of the first, the arcs of the second.
pub fn count_arcs(a: Counts, first: &[u8], b: Counts, second: &[u8], others: &[u8]) -> Tally
    requires { Matchable a b first.now second.now others.now }
    ensures { Tallied result (product_of first.now others.now second.now).arcs × (result.arcs ≤ 4718592) × (result.size ≤ 4565499904) }
{
    let joint = count_first(a, first, b, second, others);
    let right = count_empty(b, second, a.states);
    Tally {
        arcs: joint.arcs + right.arcs,
        size: joint.size + right.size,
        many: joint.many | right.many,
    }
}
