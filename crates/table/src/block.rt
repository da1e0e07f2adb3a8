// The block of an automaton, from the bytes of its file: its configurations, its plain arcs where they fit, and its rows,
// closed, so that row i has what empty moves lead to from configuration i.
ghost use Rattle.std.specs.Prelude.{◌≡◌, Ok};
ghost use Rattle.word_fields.specs.Frame.{KeptBut};
ghost use Rattle.format.specs.Decoding.{automaton_of};
ghost use Rattle.format.specs.Reading.{reading_of};
ghost use Rattle.word_layout.specs.Layout.{offsets, map_end, block_end, Placed};
ghost use Rattle.table_explore.specs.Explores.{explored_of};
ghost use Rattle.table.specs.Standing.{StandsBy};

use format::Counts;
use table_explore::Sizes;
use table_explore::walk::explore_all;
use word_rows::close_rows;

// The block from `base` on of the automaton of a valid file with the counts c: how many configurations and plain arcs it has, or nothing
// where there are more than 256 configurations.
// Cost: what exploring takes, then count * count unions of rows, where count is the number of configurations.
pub fn build(file: &[u8], c: Counts, w: &mut [u64], base: usize) -> Option<Sizes>
    requires { (reading_of file.now ≡ Ok c) × Placed w.old base }
    ensures kept { KeptBut offsets map_end base (block_end base) w.old w.new }
    ensures answer { result ≡ explored_of (automaton_of file.now) 256 }
    ensures stands { StandsBy file.now c w.new base result }
{
    let sizes = explore_all(file, c, w, base)?;
    close_rows(w, base, sizes.count);
    Some(sizes)
}
