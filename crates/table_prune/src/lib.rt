// table_prune: listed arcs that add nothing to a step are dropped. What a letter leads to from a configuration is the union of the rows of
// its arcs' targets; an arc whose target's row is inside the union of those before it tells nothing. Nor does one whose target's row is
// inside what another configuration leads to by that letter, one that is live whenever this one is.
#![tactic(auto)]

ghost use Rattle.std.specs.Prelude.{◌≡◌, ◌⊎◌, List, ℕ, ◌+◌, ◌≤◌, ◌<◌, T, length};
ghost use Rattle.automata.specs.Live.{PlainArc};
ghost use Rattle.word_layout.specs.Layout.{arcs_at, block_end, starts_at};
ghost use Rattle.word_fields.specs.Fields.{field};
ghost use Rattle.word_fields.specs.Frame.{Kept, KeptBut};
ghost use Rattle.word_sets.specs.Sets.{in_set};
ghost use Rattle.word_rows.specs.Rows.{related};
ghost use Rattle.table_sets.specs.Stepping.{set_of, Among, BySource, Room, Starts, Tells};
ghost use Rattle.table_prune.specs.Pruning.{Covered};

use table_list_steps::visit;
use table_sets::{Listed, end_of, first_arc, into, list_arc, listed_arc, set_of, start_arcs};
use word_layout::Block;

// Does the arc add anything: has it a letter, and is its target's row not inside that letter's set so far? Empty moves are in the rows,
// and their letter, 255, is no letter's number.
// Cost: constant.
fn adds(w: &[u64], base: usize, acc: usize, met: u64, arc: Listed) -> bool
    requires { Room w.now base acc × (arc.target < 256) }
    ensures yes { T result → arc.letter < 64 }
    ensures no { ¬ (T result) → arc.letter < 64 → (j : ℕ) → T (related w.now base arc.target j) → T (in_set (set_of w.now acc met arc.letter) j) }
{
    if arc.letter < 64 {
        let new = word_rows::load(w, base, arc.target);
        let old = set_of(w, acc, met, arc.letter);
        !word_sets::inside(new, old)
    } else {
        false
    }
}

// The sets that the first configuration in the row of c is listed to lead to, where it stands before c: it is live whenever c is, so c
// need not be listed to lead there too. The first c configurations are pruned already, and listed before `kept`.
// Cost: one row for each arc of that configuration.
fn ahead(w: &mut [u64], base: usize, acc: usize, c: usize, kept: usize) -> u64
    requires { (c < 256) × (Room w.old base acc × Starts w.old base c kept) }
    ensures kept { Kept acc (acc + 256) w.old w.new }
    ensures covered { (p j : ℕ) → p < 64 → T (in_set (set_of w.new acc result p) j) → Covered w.new base c kept c p j }
{
    let d = word_sets::next_live(word_rows::load(w, base, c), 0);
    if d < c {
        let from = first_arc(w, base, d);
        let to = end_of(w, base, c, kept, d);
        return visit(w, base, acc, from, to, 0);
    }
    0
}

// Of the listed arcs from `from` to before `to`, those of one configuration, the ones that add something to the sets that `met` tells are
// listed from `kept` on. Answers where they end.
// Cost: two rows for each arc.
fn prune_one(
    w: &mut [u64],
    base: usize,
    acc: usize,
    from: usize,
    to: usize,
    kept: usize,
    met: u64,
) -> usize
    requires { (acc + 256 ≤ base) × ((block_end base ≤ length w.old) × ((kept ≤ from) × ((from ≤ to) × (to ≤ 2048)))) }
    ensures kept { KeptBut acc (acc + 256) (arcs_at base) (starts_at base) w.old w.new }
    ensures place { (kept ≤ result) × (result ≤ to) }
    ensures rest { (i : ℕ) → (i < kept) ⊎ (result ≤ i) → field w.new (arcs_at base) i ≡ field w.old (arcs_at base) i }
    ensures sound { (p j : ℕ) → Among w.new base kept result p j → Among w.old base from to p j }
    ensures full { (p j : ℕ) → p < 64 → Among w.old base from to p j → T (in_set (set_of w.old acc met p) j) ⊎ Among w.new base kept result p j }
{
    let mut told = met;
    let mut end = kept;
    for k in from..to {
        let arc = listed_arc(w, base, k);
        if adds(w, base, acc, told, arc) {
            told = into(w, base, acc, arc.letter, arc.target, told);
            list_arc(w, base, end, arc);
            end += 1;
        }
    }
    end
}

// Drops the listed arcs that add nothing, of each configuration. Answers the block with those that are left. They are written down in place: where one
// is written is never behind where one is read. Where there are fewer than two for each configuration, all stay: the test would take
// longer than what it saves.
// Cost: two rows for each arc, and one more for each arc of the first configuration in the row of its own.
pub fn prune(w: &mut [u64], block: Block, acc: usize) -> Block
    requires { (acc + 256 ≤ block.base) × ((block_end block.base ≤ length w.old) × BySource w.old block) }
    ensures kept { KeptBut acc (acc + 256) (arcs_at block.base) (block_end block.base) w.old w.new }
    ensures same { (result.base ≡ block.base) × (result.count ≡ block.count) × (result.plain ≤ block.plain) }
    ensures told { (letters : ℕ) (arcs : List PlainArc) → letters ≤ 64 → Tells letters arcs w.old block → Tells letters arcs w.new result }
{
    let base = block.base;
    let count = block.count;
    let plain = block.plain;
    if plain < 2 * count {
        return block;
    }
    let mut kept: usize = 0;
    for c in 0..count {
        let met = ahead(w, base, acc, c, kept);
        let from = first_arc(w, base, c);
        let to = end_of(w, base, count, plain, c);
        let end = prune_one(w, base, acc, from, to, kept, met);
        start_arcs(w, base, c, kept);
        kept = end;
    }
    Block {
        base,
        count,
        plain: kept,
    }
}
