// The walk: configurations in number order, the arcs of each in file order.
ghost use Rattle.std.specs.Prelude.{◌≡◌, cond, ◌&&◌, [], ◌∷◌, ℕ, ◌+◌, ◌^◌, ◌<◌, eqb, leb, get_or, drop};
ghost use Rattle.automata.specs.Automaton.{Automaton};
ghost use Rattle.format.specs.Decoding.{arcs_of};
ghost use Rattle.file_fields.specs.Parts.{first_arc};
ghost use Rattle.word_fields.specs.Fields.{field};
ghost use Rattle.word_fields.specs.Frame.{Kept, KeptBut};
ghost use Rattle.table_operations.specs.Arcs.{Walkable, Indexed, Linked};
ghost use Rattle.word_layout.specs.Layout.{offsets, configs, map_end, arcs_at, starts_at, block_end, Placed};
ghost use Rattle.table_operations.specs.Packed.{hops_in};
ghost use Rattle.table_configurations.specs.Tables.{Configured, Tabled, Safe, MetAll};
ghost use Rattle.table_explore.specs.Explores.{Explores};

use format::Counts;
use format::fields::byte;
use table_configurations::{Sizes, add_configuration, arrive};
use table_operations::arcs::{index_arcs, link_arcs};
use table_operations::configurations::{contents_of, state_of};
use table_operations::operations::operate_at;
use table_sets::start_arcs;
use word_fields::{fill, get16};
use word_layout::{ARC_HEADS, ARC_NEXTS, CONFIG_HEADS, CONFIGS, OFFSETS};

// Every arc that passes from configuration c, along the chain of its state; nothing where there come to be too many configurations. The first operation that fails drops the arc: the walk goes
// on with the next one from inside the loop over the operations (`operations::pass` performs an arc alone).
// Cost: one step for each operation of the arcs that leave the state of c, and what `arrive` takes for each that passes.
fn explore_one(
    file: &[u8],
    counts: Counts,
    w: &mut [u64],
    base: usize,
    c: usize,
    from_count: usize,
    from_plain: usize,
) -> Option<Sizes>
    requires walkable { Walkable counts file.now × Indexed counts file.now w.old × Linked counts file.now w.old }
    requires c_lt_from_count { (c < from_count) × (from_plain < 2 ^ 31) × Placed w.old base × Configured w.old from_count }
    ensures kept { KeptBut configs map_end base (starts_at base) w.old w.new }
    ensures safe { Safe w.new from_count (from_plain + counts.arcs) result }
    ensures met { MetAll w.old w.new base from_count from_plain c (hops_in counts file.now (get_or w.old (configs + c) 0)) result }
{
    let own = w[CONFIGS + c];
    let mut sizes = Sizes {
        count: from_count,
        plain: from_plain,
    };
    let mut j = get16(w, ARC_HEADS, state_of(own));
    // kept: the words are written while the chain is walked, and the inner loop leaves by this loop's label (docs/DECISIONS.md, "Forms of the code")
    'arcs: while j < counts.arcs {
        let at = get16(w, OFFSETS, j);
        j = get16(w, ARC_NEXTS, j);
        let p = byte(file, at + 3);
        let mut regs = contents_of(own);
        for k in 0..p {
            let Some(next) = operate_at(file, at + 4 + 2 * k, regs) else {
                continue 'arcs;
            };
            regs = next;
        }
        sizes = arrive(file, at, regs, w, base, c, sizes.count, sizes.plain)?;
    }
    Some(sizes)
}

// The chains of arcs, and the first configuration: state 0 with all registers empty.
// Cost: one step for each arc.
fn prepare(file: &[u8], counts: Counts, w: &mut [u64], base: usize)
    requires { Walkable counts file.now × Placed w.old base }
    ensures kept { KeptBut offsets map_end base (arcs_at base) w.old w.new }
    ensures arcs { Indexed counts file.now w.new × Linked counts file.now w.new }
    ensures first { Configured w.new 1 × Tabled w.new base 1 0 (0 ∷ []) [] }
{
    index_arcs(file, counts, w);
    link_arcs(file, counts, w);
    fill(w, CONFIG_HEADS, 128);
    add_configuration(w, base, 0, 0);
}

// The plain arcs of configuration c start at number `plain`: noted where there is room for that one.
// Cost: constant.
fn note_start(w: &mut [u64], base: usize, c: usize, plain: usize)
    requires { (c < 256) × Placed w.old base }
    ensures kept { Kept (starts_at base) (block_end base) w.old w.new }
    ensures noted { (s : ℕ) → field w.new (starts_at base) s ≡ cond (leb plain 2048 && eqb s c) plain (field w.old (starts_at base) s) }
{
    if plain <= 2048 {
        start_arcs(w, base, c, plain);
    }
}

// All configurations and plain arcs of the automaton whose file this is: how many there are, or nothing where there are more than 256
// configurations.
// Cost: one step for each arc, then for each configuration what `explore_one` takes.
pub fn explore_all(file: &[u8], counts: Counts, w: &mut [u64], base: usize) -> Option<Sizes>
    requires { Walkable counts file.now × Placed w.old base }
    ensures kept { KeptBut offsets map_end base (block_end base) w.old w.new }
    ensures arcs { Indexed counts file.now w.new × Linked counts file.now w.new }
    ensures explores { (x : Automaton) → x.registers ≡ counts.registers → x.arcs ≡ arcs_of counts.arcs (drop (first_arc counts) file.now) → Explores x 256 w.new base result }
{
    prepare(file, counts, w, base);
    let mut sizes = Sizes { count: 1, plain: 0 };
    let mut c: usize = 0;
    // kept: the number of configurations grows while they are walked, so no range says which are to come
    while c < sizes.count {
        note_start(w, base, c, sizes.plain);
        sizes = explore_one(file, counts, w, base, c, sizes.count, sizes.plain)?;
        c += 1;
    }
    Some(sizes)
}
