// Arcs: the plain arcs of an open file's automaton, configuration after configuration, written as arcs of a file.
ghost use Rattle.std.specs.Prelude.{map, ℕ, ◌+◌, ◌≤◌, ◌<◌, length};
ghost use Rattle.automata.specs.Unfolding.{as_arc};
ghost use Rattle.word_layout.specs.Layout.{block_end};
ghost use Rattle.format.specs.Encoding.{arcs_bytes};
ghost use Rattle.file_writing.specs.Placing.{Appended};
ghost use Rattle.table.specs.Face.{plain_end, plains_between, plains_of_many};

use file_arc_writing::{Fields, write_plain_arc};
use table::face::{plain_arc, plain_end, plain_start};
use word_layout::Block;

// The plain arcs from number `from` to before `to`, all from the configuration `source`. Cost: their bytes.
fn write_some(
    out: &mut [u8],
    at: usize,
    w: &[u64],
    block: Block,
    source: usize,
    from: usize,
    to: usize,
) -> usize
    requires { (source < 256) × (to ≤ 2048) × (block_end block.base ≤ length w.now) × (at + length (arcs_bytes (map as_arc (plains_between w.now block source from to))) ≤ length out.old) }
    ensures { Appended at (arcs_bytes (map as_arc (plains_between w.now block source from to))) out.old out.new result }
{
    let mut next = at;
    for i in from..to {
        let arc = plain_arc(w, block, i);
        let f = Fields {
            source,
            letter: arc.letter,
            target: arc.target,
        };
        next = write_plain_arc(out, next, f);
    }
    next
}

// All of them. Cost: their bytes, and one step for each configuration.
pub fn write_arcs(out: &mut [u8], at: usize, w: &[u64], block: Block) -> usize
    requires { (block.count ≤ 256) × (block_end block.base ≤ length w.now) × ((s : ℕ) → s < block.count → plain_end w.now block s ≤ 2048) × (at + length (arcs_bytes (map as_arc (plains_of_many w.now block 0 block.count))) ≤ length out.old) }
    ensures { Appended at (arcs_bytes (map as_arc (plains_of_many w.now block 0 block.count))) out.old out.new result }
{
    let mut next = at;
    for s in 0..block.count {
        let from = plain_start(w, block, s);
        let to = plain_end(w, block, s);
        next = write_some(out, next, w, block, s, from, to);
    }
    next
}
