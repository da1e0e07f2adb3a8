// table_letters: the listed plain arcs of a block found by their letter and source, so that a step by one letter looks at no arc but those
// that it takes. Each listed arc is in the chain of its letter and its source; and each letter has the set of the configurations that its arcs
// leave, so that of a live set only the configurations are gone through that the letter leads on from.
#![tactic(auto)]

ghost use Rattle.std.specs.Prelude.{◌≡◌, ◌↔◌, ◌⊎◌, List, ℕ, ◌+◌, ◌*◌, ◌≤◌, ◌<◌, T, length};
ghost use Rattle.automata.specs.Live.{PlainArc, by_letter};
ghost use Rattle.word_layout.specs.Layout.{block_end, letter_heads, letter_heads_end, letter_nexts, byte_letters, lettered_end};
ghost use Rattle.word_fields.specs.Frame.{Kept, KeptBut};
ghost use Rattle.word_sets.specs.Sets.{bit, in_set, view, ε_closed_set};
ghost use Rattle.table_sets.specs.Stepping.{BySource, FromList, Held};
ghost use Rattle.table_letters.specs.Lettered.{row_of, source_of, Leading, Linked, Lettered};

use table_sets::{end_of, first_arc, listed_arc};
use word_fields::chains::push;
use word_fields::{fill, get16};
use word_layout::{Block, LETTER_HEADS, LETTER_NEXTS, LETTER_SOURCES};
use word_sets::places::{lowest, without_lowest};

// The row of an arc with this letter's byte. Cost: constant.
fn row_of(letters: usize, byte: usize) -> usize
    requires { letters ≤ 64 }
    ensures { (result ≡ row_of letters byte) × (result ≤ letters) }
{
    if byte < letters { byte + 1 } else { 0 }
}

// No configuration is in the n rows from `base` on.
// Cost: four words for each row.
fn clear_rows(w: &mut [u64], base: usize, n: usize)
    requires { base + 4 * n ≤ length w.old }
    ensures kept { Kept base (base + 4 * n) w.old w.new }
{
    w[base..base + 4 * n].fill(0);
}

// The listed arcs from `from` to before `to`, those of the configuration c, join the chains of their letters and c, and c the sets of their
// letters.
// Cost: one step for each of them.
fn link_one(w: &mut [u64], block: Block, letters: usize, from: usize, to: usize, c: usize)
    requires { (letters ≤ 64) × ((letter_heads_end ≤ block.base) × ((block_end block.base ≤ letter_nexts) × ((lettered_end ≤ length w.old) × ((block.count ≤ 256) × ((c < 256) × ((from ≤ to) × ((to ≤ 2048) × ((k : ℕ) → from ≤ k → k < to → source_of w.old block k ≡ c)))))))) }
    ensures kept { KeptBut letter_heads letter_heads_end letter_nexts byte_letters w.old w.new }
    ensures linked { Linked letters w.old block from → Linked letters w.new block to }
{
    for k in from..to {
        let arc = listed_arc(w, block.base, k);
        let row = row_of(letters, arc.letter);
        push(w, LETTER_HEADS, LETTER_NEXTS, 256 * row + c, k);
        word_rows::add(w, LETTER_SOURCES, row, c);
    }
}

// The chains of the listed arcs, and the sets of the letters.
// Cost: 68 words for each letter, and one step for each listed arc.
pub fn link(w: &mut [u64], block: Block, letters: usize)
    requires { (letters ≤ 64) × ((block.plain ≤ 2048) × ((letter_heads_end ≤ block.base) × ((block_end block.base ≤ letter_nexts) × ((lettered_end ≤ length w.old) × ((0 < block.count) × BySource w.old block))))) }
    ensures kept { KeptBut letter_heads letter_heads_end letter_nexts byte_letters w.old w.new }
    ensures linked { Lettered letters w.new block }
{
    fill(w, LETTER_HEADS, 64 * letters + 64);
    clear_rows(w, LETTER_SOURCES, letters + 1);
    for c in 0..block.count {
        let from = first_arc(w, block.base, c);
        let to = end_of(w, block.base, block.count, block.plain, c);
        link_one(w, block, letters, from, to, c);
    }
}

// The set with the rows of the targets of the arcs that have this key.
// Cost: one row for each of them.
fn follow_chain(w: &[u64], block: Block, letters: usize, key: usize, set: [u64; 4]) -> [u64; 4]
    requires { Lettered letters w.now block × (key < 256 * letters + 256) }
    ensures { (j : ℕ) → T (in_set result j) ↔ (T (in_set set j) ⊎ Leading letters w.now block key j) }
{
    let mut out = set;
    let mut k = get16(w, LETTER_HEADS, key);
    while k < block.plain {
        let arc = listed_arc(w, block.base, k);
        let more = word_sets::union(out, word_rows::load(w, block.base, arc.target));
        out = more;
        k = get16(w, LETTER_NEXTS, k);
    }
    out
}

// The same of the 64 keys from `key` on, of those that are digits 1 of the word.
// Cost: one row for each arc with one of these keys.
fn follow_word(
    w: &[u64],
    block: Block,
    letters: usize,
    key: usize,
    sources: u64,
    set: [u64; 4],
) -> [u64; 4]
    requires { Lettered letters w.now block × (key + 64 ≤ 256 * letters + 256) }
    ensures { (j : ℕ) → T (in_set result j) ↔ (T (in_set set j) ⊎ ((c : ℕ) × T (bit sources c) × Leading letters w.now block (key + c) j)) }
{
    let mut out = set;
    let mut left = sources;
    while left != 0 {
        let c = lowest(left);
        let more = follow_chain(w, block, letters, key + c, out);
        out = more;
        left = without_lowest(left, c);
    }
    out
}

// The live set after the letter l, of a set that no empty move leaves.
// Cost: one row for each listed arc with that letter that leaves a live configuration.
pub fn follow(w: &[u64], block: Block, letters: usize, set: [u64; 4], l: usize) -> [u64; 4]
    requires { Lettered letters w.now block × (l < letters) }
    ensures { (arcs : List PlainArc) → Held block.count letters arcs (FromList w.now block.base block.count block.plain) → ε_closed_set block.count arcs set
        → (view block.count result ≡ by_letter block.count arcs (view block.count set) l) × ε_closed_set block.count arcs result }
{
    let sources = word_sets::common(set, word_rows::load(w, LETTER_SOURCES, l + 1));
    let mut out = word_sets::empty();
    for (q, word) in sources.iter().enumerate() {
        let more = follow_word(w, block, letters, 256 * (l + 1) + 64 * q, *word, out);
        out = more;
    }
    out
}
