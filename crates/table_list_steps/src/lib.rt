// table_list_steps: from a live set by one more letter, for all letters at once, over the listed plain arcs.
#![tactic(auto)]

ghost use Rattle.std.specs.Prelude.{◌≡◌, ◌↔◌, ◌⊎◌, List, [], ℕ, ◌+◌, ◌≤◌, ◌<◌, T, length};
ghost use Rattle.automata.specs.Live.{PlainArc, by_letter, live};
ghost use Rattle.word_fields.specs.Frame.{Kept};
ghost use Rattle.word_sets.specs.Sets.{in_set, view, ε_closed_set};
ghost use Rattle.word_layout.specs.Layout.{block_end};
ghost use Rattle.table_sets.specs.Stepping.{set_of, Among, BySource, Room, Tells};

use table_sets::{end_of, first_arc, into, listed_arc};
use word_layout::Block;

// The listed arcs from `from` to before `to`: the row of each one's target joins the set of its letter. Empty moves are in the
// rows, and their letter, 255, is no letter's number.
// Cost: one row for each arc.
pub fn visit(w: &mut [u64], base: usize, acc: usize, from: usize, to: usize, met: u64) -> u64
    requires { (to ≤ 2048) × Room w.old base acc }
    ensures kept { Kept acc (acc + 256) w.old w.new }
    ensures set { (p j : ℕ) → p < 64 → T (in_set (set_of w.new acc result p) j) ↔ (T (in_set (set_of w.old acc met p) j) ⊎ Among w.old base from to p j) }
{
    let mut out = met;
    for k in from..to {
        let arc = listed_arc(w, base, k);
        if arc.letter < 64 {
            out = into(w, base, acc, arc.letter, arc.target, out);
        }
    }
    out
}

// The live set of the empty word, of a block that tells plain arcs.
// Cost: constant.
pub fn start_set(w: &[u64], block: Block) -> [u64; 4]
    requires { block_end block.base ≤ length w.now }
    ensures { (letters : ℕ) (arcs : List PlainArc) → Tells letters arcs w.now block → (view block.count result ≡ live block.count arcs []) × ε_closed_set block.count arcs result }
{
    word_rows::load(w, block.base, 0)
}

// The live set after one more letter, for each letter, of a set that no empty move leaves: in the row of that letter from `acc` on, or
// empty where the mask that is answered lacks it. The arcs of each live configuration are visited once, whatever the number of letters.
// Cost: one row for each arc of a live configuration.
pub fn step(w: &mut [u64], block: Block, acc: usize, set: [u64; 4]) -> u64
    requires { Room w.old block.base acc × BySource w.old block }
    ensures kept { Kept acc (acc + 256) w.old w.new }
    ensures set { (letters : ℕ) (arcs : List PlainArc) → Tells letters arcs w.old block → letters ≤ 64 → ε_closed_set block.count arcs set → (l : ℕ) → l < letters
        → (view block.count (set_of w.new acc result l) ≡ by_letter block.count arcs (view block.count set) l) × ε_closed_set block.count arcs (set_of w.new acc result l) }
{
    let base = block.base;
    let count = block.count;
    let mut met: u64 = 0;
    let mut c = word_sets::next_live(set, 0);
    while c < count {
        let from = first_arc(w, base, c);
        let to = end_of(w, base, count, block.plain, c);
        met = visit(w, base, acc, from, to, met);
        c = word_sets::next_live(set, c + 1);
    }
    met
}
