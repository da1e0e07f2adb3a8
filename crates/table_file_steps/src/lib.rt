// table_file_steps: from a live set by one more letter, for all letters at once, straight from the arcs in the file. Where the plain
// arcs are too many to be listed, each arc of a live configuration is performed again, and what it leads to is looked up.
#![tactic(auto)]

ghost use Rattle.std.specs.Prelude.{◌≡◌, ◌↔◌, ◌⊎◌, List, [], ℕ, ◌+◌, ◌≤◌, ◌<◌, T, drop};
ghost use Rattle.automata.specs.Lists.{prepend};
ghost use Rattle.automata.specs.Live.{PlainArc, by_letter};
ghost use Rattle.table_operations.specs.Arcs.{ArcAt, Indexed, Linked, Walkable};
ghost use Rattle.word_layout.specs.Layout.{map_end};
ghost use Rattle.table_operations.specs.Packed.{hop};
ghost use Rattle.word_fields.specs.Frame.{Kept};
ghost use Rattle.word_sets.specs.Sets.{in_set, view, ε_closed_set};
ghost use Rattle.table_sets.specs.Stepping.{set_of, Held, Room};
ghost use Rattle.table_file_steps.specs.FileSteps.{Led, FromFile, Findable};

use format::Counts;
use format::fields::byte;
use table_operations::configurations::{configuration, state_of};
use table_operations::operations::pass;
use table_sets::into;
use word_fields::chains::find_word;
use word_fields::get16;
use word_layout::{ARC_HEADS, ARC_NEXTS, Block, CONFIG_HEADS, CONFIG_NEXTS, CONFIGS, OFFSETS};

// The arc at a place of the file, from the configuration `own`: where it has a letter and passes, the row of the configuration that
// it leads to joins the set of its letter.
// Cost: one step for each operation, and as many as configurations have the key of the one that is looked up.
fn take_arc(
    file: &[u8],
    at: usize,
    own: u64,
    w: &mut [u64],
    block: Block,
    acc: usize,
    met: u64,
) -> u64
    requires { ArcAt file.now at × ((map_end ≤ acc) × (Room w.old block.base acc × Findable w.old block.count)) }
    ensures kept { Kept acc (acc + 256) w.old w.new }
    ensures set { (p j : ℕ) → p < 64 → T (in_set (set_of w.new acc result p) j) ↔ (T (in_set (set_of w.old acc met p) j) ⊎ Led w.old block (prepend (hop (drop at file.now) own) []) p j) }
{
    let letter = byte(file, at + 1);
    if 64 <= letter {
        return met;
    }
    let Some(regs) = pass(file, at, own) else {
        return met;
    };
    let key = configuration(byte(file, at + 2), regs);
    let Some(t) = find_word(w, CONFIGS, CONFIG_HEADS, CONFIG_NEXTS, block.count, key) else {
        return met;
    };
    into(w, block.base, acc, letter, t, met)
}

// Every arc that leaves the state of configuration c, along its chain.
// Cost: what `take_arc` takes for each of them.
fn visit_file(
    file: &[u8],
    counts: Counts,
    w: &mut [u64],
    block: Block,
    acc: usize,
    c: usize,
    met: u64,
) -> u64
    requires walkable { Walkable counts file.now × (Indexed counts file.now w.old × Linked counts file.now w.old) }
    requires c_lt_count { (c < block.count) × ((map_end ≤ acc) × (Room w.old block.base acc × Findable w.old block.count)) }
    ensures kept { Kept acc (acc + 256) w.old w.new }
    ensures set { (p j : ℕ) → p < 64 → T (in_set (set_of w.new acc result p) j) ↔ (T (in_set (set_of w.old acc met p) j) ⊎ FromFile file.now counts w.old block c p j) }
{
    let own = w[CONFIGS + c];
    let mut out = met;
    let mut j = get16(w, ARC_HEADS, state_of(own));
    // kept: the words are written while the chain is walked, and an iterator over it would hold them lent
    while j < counts.arcs {
        let at = get16(w, OFFSETS, j);
        j = get16(w, ARC_NEXTS, j);
        out = take_arc(file, at, own, w, block, acc, out);
    }
    out
}

// The live set after one more letter, for each letter, as `table_list_steps::step` leaves it.
// Cost: what `take_arc` takes for each arc that leaves the state of a live configuration.
pub fn step_file(
    file: &[u8],
    counts: Counts,
    w: &mut [u64],
    block: Block,
    acc: usize,
    set: [u64; 4],
) -> u64
    requires walkable { Walkable counts file.now × (Indexed counts file.now w.old × Linked counts file.now w.old) }
    requires map_end_le_acc { (map_end ≤ acc) × (Room w.old block.base acc × Findable w.old block.count) }
    ensures kept { Kept acc (acc + 256) w.old w.new }
    ensures set { (letters : ℕ) (arcs : List PlainArc) → Held block.count letters arcs (FromFile file.now counts w.old block) → letters ≤ 64 → ε_closed_set block.count arcs set → (l : ℕ) → l < letters
        → (view block.count (set_of w.new acc result l) ≡ by_letter block.count arcs (view block.count set) l) × ε_closed_set block.count arcs (set_of w.new acc result l) }
{
    let mut met: u64 = 0;
    let mut c = word_sets::next_live(set, 0);
    while c < block.count {
        met = visit_file(file, counts, w, block, acc, c, met);
        c = word_sets::next_live(set, c + 1);
    }
    met
}
