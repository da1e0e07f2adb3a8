// word_sets: sets of numbers below 256 by value, four words of 64 digits each.
#![tactic(auto)]

ghost use Rattle.std.specs.Prelude.{◌≡◌, ◌↔◌, false, ◌||◌, ◌&&◌, ℕ, ◌≤◌, ◌<◌, eqb, T};
ghost use Rattle.automata.specs.Live.{count};
ghost use Rattle.word_sets.specs.Sets.{in_set, view, Next};

use places::{digit_of, mask_of, word_of};

pub mod places;

// Is k in the set?
// Cost: constant.
pub fn has(set: [u64; 4], k: usize) -> bool
    requires { k < 256 }
    ensures { result ≡ in_set set k }
{
    set[word_of(k)] & mask_of(k) != 0
}

// The set with k.
// Cost: constant.
pub fn with(set: [u64; 4], k: usize) -> [u64; 4]
    requires { k < 256 }
    ensures { (j : ℕ) → in_set result j ≡ (eqb j k || in_set set j) }
{
    let mut out = set;
    let q = word_of(k);
    out[q] = out[q] | mask_of(k);
    out
}

// The set with no member.
// Cost: constant.
pub fn empty() -> [u64; 4]
    ensures { (j : ℕ) → in_set result j ≡ false }
{
    [0; 4]
}

// The members of either.
// Cost: constant.
pub fn union(a: [u64; 4], b: [u64; 4]) -> [u64; 4]
    ensures { (j : ℕ) → in_set result j ≡ (in_set a j || in_set b j) }
{
    [a[0] | b[0], a[1] | b[1], a[2] | b[2], a[3] | b[3]]
}

// The members of both.
// Cost: constant.
pub fn common(a: [u64; 4], b: [u64; 4]) -> [u64; 4]
    ensures { (j : ℕ) → in_set result j ≡ (in_set a j && in_set b j) }
{
    [a[0] & b[0], a[1] & b[1], a[2] & b[2], a[3] & b[3]]
}

// Have they a member in common?
// Cost: constant.
pub fn meets(a: [u64; 4], b: [u64; 4]) -> bool
    ensures { T result ↔ ((j : ℕ) × T (in_set a j) × T (in_set b j)) }
{
    (a[0] & b[0]) | (a[1] & b[1]) | (a[2] & b[2]) | (a[3] & b[3]) != 0
}

// Has it no member?
// Cost: constant.
pub fn is_empty(set: [u64; 4]) -> bool
    ensures { T result ↔ ((j : ℕ) → ¬ T (in_set set j)) }
{
    set[0] | set[1] | set[2] | set[3] == 0
}

// Are they the same set?
// Cost: constant.
pub fn same(a: [u64; 4], b: [u64; 4]) -> bool
    ensures { T result ↔ (a ≡ b) }
{
    a == b
}

// Are all members of a in b?
// Cost: constant.
pub fn inside(a: [u64; 4], b: [u64; 4]) -> bool
    ensures { T result ↔ ((j : ℕ) → T (in_set a j) → T (in_set b j)) }
{
    union(a, b) == b
}

// How many members it has.
// Cost: constant.
pub fn size(set: [u64; 4]) -> u32
    ensures { result ≡ count (view 256 set) }
{
    set[0].count_ones() + set[1].count_ones() + set[2].count_ones() + set[3].count_ones()
}

// The least member from c on, or 256 where there is none. The words are gone through from the first, so that no index depends on c
// once the loop is unrolled.
// Cost: four words.
// kept: docs/PROMISES.md names it, and its clause `Next` has 256 where there is none.
pub fn next_live(set: [u64; 4], c: usize) -> usize
    requires { c ≤ 256 }
    ensures { Next set c result }
{
    let mut at = c;
    for (q, word) in set.iter().enumerate() {
        if at < 64 * q + 64 {
            let x = *word >> digit_of(at);
            if x != 0 {
                return at + x.trailing_zeros() as usize;
            }
            at = 64 * q + 64;
        }
    }
    at
}
