// Loading: an automaton is built in its block and made ready to be compared, or refused where it is beyond a limit.
ghost use Rattle.std.specs.Prelude.{◌≡◌, List, ◌≤◌, ℕ, Ok, length};
ghost use Rattle.file_fields.specs.Parts.{counts_of};
ghost use Rattle.format.specs.Reading.{reading_of};
ghost use Rattle.file_pair.specs.Lettered.{automaton_over};
ghost use Rattle.word_fields.specs.Frame.{KeptBut};
ghost use Rattle.word_layout.specs.Layout.{block_end, first_block};
ghost use Rattle.compare.specs.Loading.{Loads};

use file_fields::header::read_counts;
use format::Reason;
use table::block::build;
use table::finals::final_configurations;
use table_prune::prune;
use table_relettering::reletter;
use word_layout::{Block, FIRST_SETS};

// An automaton that is ready to be compared: its block, and the set of its final configurations.
#[derive(Clone, Copy)]
pub struct Standing {
    pub block: Block,
    pub finals: [u64; 4],
}

// Loads the automaton of a valid file into the block from `base` on, over the letters that its own have the numbers
// `new` among: it is built, its final configurations are taken, its plain arcs get the new numbers of their letters, and those that add
// nothing to a step are dropped. Its configurations stand until the next automaton is loaded, which takes their place. Refuses 21: more
// than 256 configurations; 22: more than 2,048 plain arcs.
// Cost: what building and pruning take, one look at each configuration, and at each plain arc where `new` is not empty.
pub fn load(file: &[u8], new: &[u8], w: &mut [u64], base: usize) -> Result<Standing, Reason>
    requires { (reading_of file.now ≡ Ok (counts_of file.now)) × (length new.now ≤ 64) × (first_block ≤ base) × (block_end base ≤ length w.old) }
    ensures kept { KeptBut 0 first_block base (block_end base) w.old w.new }
    ensures loads { (all : List ℕ) → length all ≤ 64 → Loads (automaton_over new.now all file.now) 2048 w.new base result }
{
    // Read from the header again: handing them on through the calls above costs more.
    let c = read_counts(file);
    let Some(sizes) = build(file, c, w, base) else {
        return Err(Reason::TooManyConfigurations);
    };
    let count = sizes.count;
    let plain = sizes.plain;
    if 2048 < plain {
        return Err(Reason::TooManyPlainArcs);
    }
    let finals = final_configurations(file, c, w, count);
    if 0 < new.len() {
        reletter(w, Block { base, count, plain }, new);
    }
    // Where there are so few, pruning leaves all; asked here, its call is not made.
    if plain < 2 * count {
        let block = Block { base, count, plain };
        return Ok(Standing { block, finals });
    }
    let block = prune(w, Block { base, count, plain }, FIRST_SETS);
    Ok(Standing { block, finals })
}
