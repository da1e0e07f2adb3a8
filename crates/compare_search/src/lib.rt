// compare_search: all pairs of live sets that words lead to, of two automata that stand in blocks of the lent words. The pairs are the rows of a
// table; they are walked in number order, each by all letters in their order, so pairs are met in the order of words, each by the first
// word that leads to it.
#![tactic(auto)]

ghost use Rattle.std.specs.Prelude.{◌≡◌, List, [], ◌∷◌, ◌<◌};
ghost use Rattle.std.proofs.Math.Option.{some};
ghost use Rattle.std.proofs.Math.ListN.{get_elem?};
ghost use Rattle.automata.specs.Exploration.{add_all};
ghost use Rattle.automata.specs.Search.{Entry, next_entries, origin, entries};
ghost use Rattle.automata.specs.Pairs.{Pair, same_pair};
ghost use Rattle.word_fields.specs.Frame.{Kept};
ghost use Rattle.word_layout.specs.Layout.{pair_table, first_block};
ghost use Rattle.live_table.specs.Entries.{Side, along, begin, alike, Holds};
ghost use Rattle.live_letters.specs.Meeting.{Table, Grows, Outcome};
ghost use Rattle.compare_search.specs.Searching.{Ready, Both};

use live_letters::meet_letters;
use live_table::{add_row, left, right};
use table_list_steps::{start_set, step};
use word_layout::{Block, FIRST_SETS, INDEX_HEADS, PAIR_INDEX, PAIR_ROWS, SECOND_SETS, SetTable};

// Where the table of pairs stands.
// Cost: constant.
pub fn pair_table() -> SetTable
    ensures { result ≡ pair_table }
{
    SetTable {
        rows: PAIR_ROWS,
        sets: 2,
        index: PAIR_INDEX,
    }
}

// Every letter from pair i: a step from each of its sets, for all letters at once, and then the letters.
// Cost: one row for each arc of a live configuration, and that of `meet_letters`.
fn expand(w: &mut [u64], a: usize, i: usize, from: usize, one: Block, two: Block) -> Option<usize>
    requires ready { Ready a w.old one two }
    requires i_lt_from { (i < from) × Table a pair_table w.old from }
    ensures kept { Kept 0 first_block w.old w.new }
    ensures grows { Grows a pair_table w.new from result }
    ensures meets { (s t : Side) (es : List (Entry Pair)) (e : Entry Pair) → Both a s t w.old one two → Holds pair_table s t w.old from es → get_elem? es i ≡ some e
        → Outcome 512 pair_table s t w.new (add_all alike es (next_entries (along s t) a e)) result }
{
    let t = pair_table();
    let u = left(w, t, i);
    let v = right(w, t, i);
    let met1 = step(w, one, FIRST_SETS, u);
    let met2 = step(w, two, SECOND_SETS, v);
    meet_letters(w, t, [FIRST_SETS, SECOND_SETS], [met1, met2], 0, a, i, from)
}

// All pairs, from the one that stands first.
// Cost: that of `expand`, for each pair.
fn explore_from(w: &mut [u64], a: usize, one: Block, two: Block) -> Option<usize>
    requires ready { Ready a w.old one two }
    requires table { Table a pair_table w.old 1 }
    ensures kept { Kept 0 first_block w.old w.new }
    ensures grows { Grows a pair_table w.new 1 result }
    ensures meets { (s t : Side) (q : Pair) → Both a s t w.old one two → Holds pair_table s t w.old 1 (origin q ∷ [])
        → Outcome 512 pair_table s t w.new (entries same_pair (along s t) a q 512) result }
{
    let mut n: usize = 1;
    let mut i: usize = 0;
    // kept: the number of pairs grows while they are gone over, so no range says which are to come
    while i < n {
        n = expand(w, a, i, n, one, two)?;
        i += 1;
    }
    Some(n)
}

// All pairs that words over a letters lead to, from the live sets of the empty word in the two blocks; each with the pair and the letter by which it
// was met first. 512 at most.
// Cost: for each pair one row for each arc of a live configuration, and a look into the table for each letter that is met.
pub fn explore_pairs(w: &mut [u64], a: usize, one: Block, two: Block) -> Option<usize>
    requires { Ready a w.old one two }
    ensures kept { Kept 0 first_block w.old w.new }
    ensures grows { Grows a pair_table w.new 1 result }
    ensures meets { (s t : Side) → Both a s t w.old one two → Outcome 512 pair_table s t w.new (entries same_pair (along s t) a (begin s t) 512) result }
{
    let t = pair_table();
    word_fields::fill(w, t.index + INDEX_HEADS, 128);
    let u = start_set(w, one);
    let v = start_set(w, two);
    add_row(w, t, 0, [u, v], 0);
    explore_from(w, a, one, two)
}
