// Face: what crates above read of an open file's block: its plain arcs in order, configuration after configuration.
ghost use Rattle.std.specs.Prelude.{◌≡◌, ℕ, ◌≤◌, ◌<◌, length};
ghost use Rattle.format.specs.Decoding.{letter_of};
ghost use Rattle.word_layout.specs.Layout.{block_end};
ghost use Rattle.table.specs.Face.{plain_at, plain_start, plain_end};

pub use table_sets::Listed;
use table_sets::{end_of, first_arc, listed_arc};
use word_layout::Block;

// Plain arc number i.
// Cost: constant.
pub fn plain_arc(w: &[u64], block: Block, i: usize) -> Listed
    requires { (i < 2048) × (block_end block.base ≤ length w.now) }
    ensures small { (result.letter < 256) × (result.target < 256) }
    ensures arc { (s : ℕ) → plain_at w.now block s i ≡ record { source = s; letter = letter_of result.letter; target = result.target } }
{
    listed_arc(w, block.base, i)
}

// The number of the first plain arc that leaves configuration s.
// Cost: constant.
// kept: docs/DECISIONS.md names `first_arc` of table_sets for crates that write the list; this one speaks of a block, by crates/table/specs/Face.antt
pub fn plain_start(w: &[u64], block: Block, s: usize) -> usize
    requires { (s < 256) × (block_end block.base ≤ length w.now) }
    ensures { result ≡ plain_start w.now block s }
{
    first_arc(w, block.base, s)
}

// The number behind the last plain arc that leaves configuration s.
// Cost: constant.
// kept: docs/DECISIONS.md names `end_of` of table_sets for crates that write the list; this one speaks of a block, by crates/table/specs/Face.antt
pub fn plain_end(w: &[u64], block: Block, s: usize) -> usize
    requires { (s < block.count) × (block.count ≤ 256) × (block_end block.base ≤ length w.now) }
    ensures { result ≡ plain_end w.now block s }
{
    end_of(w, block.base, block.count, block.plain, s)
}
