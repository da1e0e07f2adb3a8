// Letters: the live sets of one automaton after one more letter, for all letters at once.
ghost use Rattle.std.specs.Prelude.{◌≡◌, List, ℕ, ◌+◌, ◌<◌, ◌≤◌};
ghost use Rattle.automata.specs.Live.{PlainArc, by_letter};
ghost use Rattle.word_layout.specs.Layout.{map_end};
ghost use Rattle.word_fields.specs.Frame.{Kept};
ghost use Rattle.word_sets.specs.Sets.{view, ε_closed_set};
ghost use Rattle.table_sets.specs.Stepping.{set_of};
ghost use Rattle.table_live.specs.Steps.{Outgoing, Steppable};

use format::Counts;
use table_file_steps::step_file;
use table_list_steps::step;
use word_layout::Block;

// The live set after one more letter, for each letter, as `table_list_steps::step` leaves it.
// Cost: where all plain arcs are listed, one row for each that leaves a live configuration; else what `step_file` takes.
pub fn step_letters(
    file: &[u8],
    c: Counts,
    w: &mut [u64],
    block: Block,
    acc: usize,
    set: [u64; 4],
) -> u64
    requires { Steppable file.now c w.old block acc × (map_end ≤ acc) }
    ensures kept { Kept acc (acc + 256) w.old w.new }
    ensures set { (arcs : List PlainArc) → Outgoing file.now c w.old block arcs → ε_closed_set block.count arcs set → (l : ℕ) → l < c.letters
        → (view block.count (set_of w.new acc result l) ≡ by_letter block.count arcs (view block.count set) l) × ε_closed_set block.count arcs (set_of w.new acc result l) }
{
    if block.plain <= 2048 {
        return step(w, block, acc, set);
    }
    step_file(file, c, w, block, acc, set)
}
