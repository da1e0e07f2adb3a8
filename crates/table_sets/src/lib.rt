// table_sets: the plain arcs that a block lists, by configuration; and the live sets that a step by all letters at once leaves. Each
// letter that is met has its set in a row from `acc` on; the mask `met` says which are, so nothing has to be cleared before.
#![tactic(auto)]

ghost use Rattle.std.specs.Prelude.{◌≡◌, cond, ◌||◌, ◌&&◌, ℕ, ◌+◌, ◌*◌, ◌/◌, ◌≤◌, ◌<◌, eqb, length};
ghost use Rattle.word_layout.specs.Layout.{arcs_at, block_end, packed_arc, starts_at};
ghost use Rattle.word_fields.specs.Fields.{field};
ghost use Rattle.word_fields.specs.Frame.{Kept};
ghost use Rattle.word_sets.specs.Sets.{in_set};
ghost use Rattle.word_rows.specs.Rows.{related};
ghost use Rattle.table_sets.specs.Stepping.{set_of, start_at, end_at, plain_letter_at, target_at};

use word_fields::{get16, put16};
use word_layout::{BLOCK_ARCS, BLOCK_STARTS};

// A plain arc as a block lists it, without its source, which its place says: its letter's byte and its target.
#[derive(Clone, Copy, PartialEq, Eq, Debug)]
pub struct Listed {
    pub letter: usize,
    pub target: usize,
}

// Listed arc number k.
// Cost: constant.
pub fn listed_arc(w: &[u64], base: usize, k: usize) -> Listed
    requires { (k < 2048) × (block_end base ≤ length w.now) }
    ensures letter { (result.letter ≡ plain_letter_at w.now base k) × (result.letter < 256) }
    ensures target { (result.target ≡ target_at w.now base k) × (result.target < 256) }
{
    let entry = get16(w, base + BLOCK_ARCS, k);
    Listed {
        letter: entry / 256,
        target: entry % 256,
    }
}

// Listed arc number k becomes `arc`.
// Cost: constant.
pub fn list_arc(w: &mut [u64], base: usize, k: usize, arc: Listed)
    requires { (k < 2048) × (arc.letter < 256) × (arc.target < 256) × (block_end base ≤ length w.old) }
    ensures kept { Kept (arcs_at base + k / 4) (arcs_at base + k / 4 + 1) w.old w.new }
    ensures listed { (i : ℕ) → field w.new (arcs_at base) i ≡ cond (eqb i k) (packed_arc arc.letter arc.target) (field w.old (arcs_at base) i) }
{
    put16(w, base + BLOCK_ARCS, k, arc.letter * 256 + arc.target);
}

// Where the listed arcs of configuration c start.
// Cost: constant.
pub fn first_arc(w: &[u64], base: usize, c: usize) -> usize
    requires { (c < 256) × (block_end base ≤ length w.now) }
    ensures { result ≡ start_at w.now base c }
{
    get16(w, base + BLOCK_STARTS, c)
}

// The listed arcs of configuration c start at number k.
// Cost: constant.
pub fn start_arcs(w: &mut [u64], base: usize, c: usize, k: usize)
    requires { (c < 256) × (k ≤ 2048) × (block_end base ≤ length w.old) }
    ensures kept { Kept (starts_at base + c / 4) (starts_at base + c / 4 + 1) w.old w.new }
    ensures starts { (i : ℕ) → field w.new (starts_at base) i ≡ cond (eqb i c) k (field w.old (starts_at base) i) }
{
    put16(w, base + BLOCK_STARTS, c, k);
}

// The set of letter l; empty where l is not met.
// Cost: constant.
pub fn set_of(w: &[u64], acc: usize, met: u64, l: usize) -> [u64; 4]
    requires { (l < 64) × (acc + 4 * l + 4 ≤ length w.now) }
    ensures { result ≡ set_of w.now acc met l }
{
    if met & (1u64 << l) != 0 {
        word_rows::load(w, acc, l)
    } else {
        [0; 4]
    }
}

// The row of t joins the set of letter l. Answers the mask with l.
// Cost: constant.
pub fn into(w: &mut [u64], base: usize, acc: usize, l: usize, t: usize, met: u64) -> u64
    requires { (l < 64) × ((acc + 4 * l + 4 ≤ length w.old) × (base + 4 * t + 4 ≤ length w.old)) }
    ensures kept { Kept (acc + 4 * l) (acc + 4 * l + 4) w.old w.new }
    ensures set { (p j : ℕ) → in_set (set_of w.new acc result p) j ≡ (in_set (set_of w.old acc met p) j || (eqb p l && related w.old base t j)) }
{
    let new = word_rows::load(w, base, t);
    if met & (1u64 << l) == 0 {
        word_rows::store(w, acc, l, new);
        met | (1u64 << l)
    } else {
        word_rows::store(w, acc, l, word_sets::union(word_rows::load(w, acc, l), new));
        met | (1u64 << l)
    }
}

// Where the arcs of configuration c end: where those of the next one start, or behind the last.
// Cost: constant.
pub fn end_of(w: &[u64], base: usize, count: usize, plain: usize, c: usize) -> usize
    requires { (c < count) × ((count ≤ 256) × (block_end base ≤ length w.now)) }
    ensures { result ≡ end_at w.now base count plain c }
{
    if c + 1 < count {
        first_arc(w, base, c + 1)
    } else {
        plain
    }
}
