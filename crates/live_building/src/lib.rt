// live_building: the only automaton of a call, built for its live sets to be met: its block right behind the building's tables, and behind it
// the place of the table. Where its plain arcs are listed, those that add nothing to a step are dropped.
#![tactic(auto)]

ghost use Rattle.std.specs.Prelude.{◌≡◌, ◌≤◌, length, Ok};
ghost use Rattle.format.specs.Reading.{reading_of};
ghost use Rattle.word_layout.specs.Layout.{set_table};
ghost use Rattle.live_building.specs.Building.{PrunedBy};

use format::Counts;
use table::block::build;
use table_explore::Sizes;
use table_prune::prune;
use word_layout::{Block, COUNTS, ONLY_BLOCK, SET_INDEX, SET_ROWS, SetTable};

// Where the table of live sets stands.
// Cost: constant.
pub fn set_table() -> SetTable
    ensures { result ≡ set_table }
{
    SetTable {
        rows: SET_ROWS,
        sets: 1,
        index: SET_INDEX,
    }
}

// Builds the automaton of a valid file with the counts c. Answers how many configurations and plain arcs its block has, or nothing where
// there are more than 256 configurations. The words below the building's tables are free until then, and serve the pruning.
// Cost: what building and pruning take.
pub fn build_pruned(file: &[u8], c: Counts, w: &mut [u64]) -> Option<Sizes>
    requires { (reading_of file.now ≡ Ok c) × (8192 ≤ length w.old) }
    ensures same { length w.new ≡ length w.old }
    ensures stands { PrunedBy file.now c w.new result }
{
    let sizes = build(file, c, w, ONLY_BLOCK)?;
    if 2048 < sizes.plain {
        return Some(sizes);
    }
    let block = Block {
        base: ONLY_BLOCK,
        count: sizes.count,
        plain: sizes.plain,
    };
    let left = prune(w, block, COUNTS);
    Some(Sizes {
        count: left.count,
        plain: left.plain,
    })
}
