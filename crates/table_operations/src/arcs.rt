// The arcs of a file: their places, and the chains of those that leave the same state.
ghost use Rattle.std.specs.Prelude.{◌≤◌, length};
ghost use Rattle.word_layout.specs.Layout.{offsets, arc_nexts, configs};
ghost use Rattle.table_operations.specs.Arcs.{Walkable, Indexed, Linked};
ghost use Rattle.word_fields.specs.Frame.{Kept};

use format::Counts;
use format::fields::{byte, first_arc};
use word_fields::chains::push;
use word_fields::{fill, get16, put16};
use word_layout::{ARC_HEADS, ARC_NEXTS, OFFSETS};

// The place of each arc, that of the first arc last.
// Cost: one step for each arc.
pub fn index_arcs(file: &[u8], counts: Counts, w: &mut [u64])
    requires { Walkable counts file.now × (arc_nexts ≤ length w.old) }
    ensures kept { Kept offsets arc_nexts w.old w.new }
    ensures indexed { Indexed counts file.now w.new }
{
    let mut at = first_arc(counts);
    for i in (0..counts.arcs).rev() {
        put16(w, OFFSETS, i, at);
        at += 4 + 2 * byte(file, at + 3);
    }
}

// The chains of the arcs by their from-state.
// Cost: one step for each arc.
pub fn link_arcs(file: &[u8], counts: Counts, w: &mut [u64])
    requires { Walkable counts file.now × (configs ≤ length w.old) × Indexed counts file.now w.old }
    ensures kept { Kept arc_nexts configs w.old w.new }
    ensures linked { Linked counts file.now w.new }
{
    fill(w, ARC_HEADS, 64);
    for j in 0..counts.arcs {
        let state = byte(file, get16(w, OFFSETS, j));
        push(w, ARC_HEADS, ARC_NEXTS, state, j);
    }
}
