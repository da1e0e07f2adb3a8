// live_search: all live sets of one automaton that words lead to, from any live set on. The sets are walked in number order, each by all
// letters in their order, so sets are met in the order of words, each by the first word that leads to it.
#![tactic(auto)]

ghost use Rattle.std.specs.Prelude.{◌≡◌, List, [], ◌∷◌, ◌+◌, ◌<◌};
ghost use Rattle.std.proofs.Math.Option.{some};
ghost use Rattle.std.proofs.Math.ListN.{get_elem?};
ghost use Rattle.automata.specs.Exploration.{add_all};
ghost use Rattle.automata.specs.Live.{PlainArc, by_letter};
ghost use Rattle.automata.specs.LiveSets.{same_set};
ghost use Rattle.automata.specs.Pairs.{Pair, same_pair};
ghost use Rattle.automata.specs.Search.{Entry, entries, met, next_entries, origin};
ghost use Rattle.word_fields.specs.Frame.{Kept};
ghost use Rattle.word_sets.specs.Sets.{view, ε_closed_set};
ghost use Rattle.live_table.specs.Entries.{Holds, Side, along, alike};
ghost use Rattle.live_letters.specs.Meeting.{Grows, Outcome, Table};
ghost use Rattle.table_live.specs.Steps.{Outgoing};
ghost use Rattle.live_search.specs.Exploring.{Searchable, SetsOutcome, Twins};

use format::Counts;
use live_letters::meet_letters;
use live_table::{add_row, left};
use table_live::letters::step_letters;
use word_layout::{Block, INDEX_HEADS, SetTable};

// Every letter from set i: a step for all letters at once, and then the letters.
// Cost: that of `step_letters` and of `meet_letters`.
fn expand_set(
    file: &[u8],
    c: Counts,
    w: &mut [u64],
    block: Block,
    t: SetTable,
    acc: usize,
    i: usize,
    from: usize,
) -> Option<usize>
    requires searchable { Searchable file.now c w.old block t acc }
    requires i_lt_from { (i < from) × Table c.letters t w.old from }
    ensures kept { Kept t.rows (acc + 256) w.old w.new }
    ensures grows { Grows c.letters t w.new from result }
    ensures meets { (x y : Side) (es : List (Entry Pair)) (e : Entry Pair) → Twins file.now c w.old block x y → Holds t x y w.old from es → get_elem? es i ≡ some e
        → Outcome 512 t x y w.new (add_all alike es (next_entries (along x y) c.letters e)) result }
{
    let set = left(w, t, i);
    let met = step_letters(file, c, w, block, acc, set);
    meet_letters(w, t, [acc], [met], 0, c.letters, i, from)
}

// All live sets, from the one that stands first.
// Cost: that of `expand_set`, for each set.
fn explore_from(
    file: &[u8],
    c: Counts,
    w: &mut [u64],
    block: Block,
    t: SetTable,
    acc: usize,
) -> Option<usize>
    requires searchable { Searchable file.now c w.old block t acc }
    requires table { Table c.letters t w.old 1 }
    ensures kept { Kept t.rows (acc + 256) w.old w.new }
    ensures grows { Grows c.letters t w.new 1 result }
    ensures meets { (x y : Side) (q : Pair) → Twins file.now c w.old block x y → Holds t x y w.old 1 (origin q ∷ [])
        → Outcome 512 t x y w.new (entries same_pair (along x y) c.letters q 512) result }
{
    let mut n: usize = 1;
    let mut i: usize = 0;
    // kept: the number of sets grows while they are gone over, so no range says which are to come
    while i < n {
        n = expand_set(file, c, w, block, t, acc, i, n)?;
        i += 1;
    }
    Some(n)
}

// All live sets that words over the letters lead to from the set `start`, which no empty move leaves; each with the set and the letter by
// which it was met first. 512 at most. They stand in the table t, and the steps leave the sets of the letters from `acc` on.
// Cost: for each set one step by all letters, and a look into the table for each letter that is met.
pub fn explore_sets(
    file: &[u8],
    c: Counts,
    w: &mut [u64],
    block: Block,
    t: SetTable,
    acc: usize,
    start: [u64; 4],
) -> Option<usize>
    requires { Searchable file.now c w.old block t acc }
    ensures kept { Kept t.rows (acc + 256) w.old w.new }
    ensures grows { Grows c.letters t w.new 1 result }
    ensures meets { (arcs : List PlainArc) → Outgoing file.now c w.old block arcs → ε_closed_set block.count arcs start
        → SetsOutcome 512 block.count arcs t w.new (met same_set (by_letter block.count arcs) c.letters (view block.count start) 512) result }
{
    word_fields::fill(w, t.index + INDEX_HEADS, 128);
    add_row(w, t, 0, [start], 0);
    explore_from(file, c, w, block, t, acc)
}
