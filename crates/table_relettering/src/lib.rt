// table_relettering: listed plain arcs get the new numbers of their letters (document 02, change 6).
#![tactic(auto)]

ghost use Rattle.std.specs.Prelude.{◌≤◌, length};
ghost use Rattle.word_layout.specs.Layout.{block_end};
ghost use Rattle.table_relettering.specs.Relisting.{Relisted};

use file_letters::numbering::new_letter;
use table_sets::{Listed, list_arc, listed_arc};
use word_layout::Block;

// The listed arcs of a block get the new numbers of their letters; a number beyond the list is left alone, and so the byte of the empty
// moves, 255.
// Cost: two accesses for each listed arc.
pub fn reletter(w: &mut [u64], block: Block, new: &[u8])
    requires { (length new.now ≤ 64) × (block.plain ≤ 2048) × (block_end block.base ≤ length w.old) }
    ensures { Relisted new.now w.old w.new block }
{
    let base = block.base;
    for k in 0..block.plain {
        let arc = listed_arc(w, base, k);
        let letter = new_letter(new, arc.letter);
        let target = arc.target;
        list_arc(w, base, k, Listed { letter, target });
    }
}
