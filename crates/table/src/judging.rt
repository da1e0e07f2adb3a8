// Judging: an open file's automaton made ready for words to be judged, and the words judged, one after the other.
ghost use Rattle.std.specs.Prelude.{◌≡◌, List, ℕ, ◌+◌, ◌≤◌, length};
ghost use Rattle.automata.specs.Live.{PlainArc};
ghost use Rattle.word_layout.specs.Layout.{arcs_at, block_end, first_sets};
ghost use Rattle.format.specs.Decoding.{automaton_of};
ghost use Rattle.word_fields.specs.Frame.{Kept, KeptBut};
ghost use Rattle.table_sets.specs.Stepping.{BySource, Tells};
ghost use Rattle.table.specs.Judging.{Judging, Live};
ghost use Rattle.table.specs.Membership.{judged};
ghost use Rattle.table.specs.Opening.{Holds};

use super::Membership;
use super::finals::final_configurations;
use format::Counts;
use table_letters::link;
use table_live::{number_letters, walk_file, walk_listed};
use table_prune::prune;
use word_layout::{Block, FINAL_ROW, FIRST_SETS};
use word_rows::close_rows;

// The block without arcs that add nothing, where dropping them pays: where there are more listed arcs than letters and configurations have
// pairs, some configuration has several by one letter.
// Cost: that of `table_prune::prune`, or none.
fn thin(w: &mut [u64], block: Block, letters: usize) -> Block
    requires { (letters ≤ 64) × ((block.count ≤ 256) × ((first_sets + 256 ≤ block.base) × ((block_end block.base ≤ length w.old) × (block.plain ≤ 2048 → BySource w.old block)))) }
    ensures kept { KeptBut first_sets (first_sets + 256) (arcs_at block.base) (block_end block.base) w.old w.new }
    ensures same { (result.base ≡ block.base) × (result.count ≡ block.count) }
    ensures told { (l : ℕ) (arcs : List PlainArc) → l ≤ 64 → Tells l arcs w.old block → Tells l arcs w.new result }
{
    if letters * block.count < block.plain && block.plain <= 2048 {
        return prune(w, block, FIRST_SETS);
    }
    block
}

// Makes the automaton of an open file ready: its rows are closed, the final configurations and the numbers of the letters noted, and the
// listed arcs chained by letter and source. Answers its block, of which arcs that add nothing may be dropped.
// Cost: count * count unions of rows at most, where count is the number of configurations; 68 words for each letter and 132
// more; a step for each listed arc, and where arcs are dropped that of `table_prune::prune`.
pub fn make_ready(file: &[u8], c: Counts, w: &mut [u64], block: Block) -> Block
    requires { Holds file.now c w.old block }
    ensures same { length w.new ≡ length w.old }
    ensures ready { Judging file.now c w.new result }
{
    close_rows(w, block.base, block.count);
    let finals = final_configurations(file, c, w, block.count);
    word_rows::store(w, FINAL_ROW, 0, finals);
    let left = thin(w, block, c.letters);
    if left.plain <= 2048 {
        link(w, left, c.letters);
    }
    number_letters(file, c, w);
    left
}

// The live set of a word.
// Cost: that of `walk_listed` or `walk_file`.
fn live_set(file: &[u8], c: Counts, word: &[u8], w: &mut [u64], block: Block) -> [u64; 4]
    requires { Judging file.now c w.old block }
    ensures kept { Kept first_sets (first_sets + 256) w.old w.new }
    ensures live { Live file.now word.now w.old block result }
{
    let start = word_rows::load(w, block.base, 0);
    if block.plain <= 2048 {
        return walk_listed(word, w, block, c.letters, start);
    }
    walk_file(file, c, word, w, block, start)
}

// Does the automaton of the file accept the word, and how many configurations are live after it? It is ready, and is so again for the next word.
// Cost: that of `walk_listed` or `walk_file`.
pub fn judge(file: &[u8], c: Counts, word: &[u8], w: &mut [u64], block: Block) -> Membership
    requires { Judging file.now c w.old block }
    ensures kept { Kept first_sets (first_sets + 256) w.old w.new }
    ensures ready { Judging file.now c w.new block }
    ensures answer { result ≡ judged 256 (automaton_of file.now) word.now }
{
    let live = live_set(file, c, word, w, block);
    let many = word_sets::size(live) as u64;
    if word_sets::meets(live, word_rows::load(w, FINAL_ROW, 0)) {
        Membership::Accepted(many)
    } else {
        Membership::Rejected(many)
    }
}
