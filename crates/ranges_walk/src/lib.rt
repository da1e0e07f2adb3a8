// ranges_walk: the live sets behind the places of a word with ranges, one place after the other. Those before a place stand in rows of their own;
// a step from each, by the letters of the range, leads to those behind it, which are met in the table of live sets, each once, and then become
// those before the next place.
#![tactic(auto)]

ghost use Rattle.std.specs.Prelude.{◌≡◌, Bool, false, List, [], ◌∷◌, map, ℕ, ◌+◌, ◌-◌, ◌≤◌, ◌<◌, length};
ghost use Rattle.automata.specs.Exploration.{add_all};
ghost use Rattle.automata.specs.Lists.{count_from};
ghost use Rattle.automata.specs.LiveSets.{behind, same_set};
ghost use Rattle.fillings.specs.Fillings.{behind_place, from_to};
ghost use Rattle.format.specs.Decoding.{automaton_of};
ghost use Rattle.ranges_promise.specs.RangeAnswers.{bad_ranges, ranges_of};
ghost use Rattle.word_fields.specs.Frame.{Kept};
ghost use Rattle.word_layout.specs.Layout.{before_table, letter_sets, offsets, set_rows, set_table};
ghost use Rattle.live_table.specs.SetRows.{RowChain, left_row};
ghost use Rattle.ranges_walk.specs.Walking.{BehindPlace, Chained, LiveAt, Ready, SetsIn, Walked};

use format::Counts;
use live_building::set_table;
use live_letters::meet_letters;
use table_live::letters::step_letters;
use word_fields::fill;
use word_layout::{BEFORE_ROWS, Block, INDEX_HEADS, LETTER_SETS, SET_INDEX, SET_ROWS};
use word_rows::{load, store};

// From set i of those before a place, by the letters from `low` on, before `end`: the n sets behind it become more. Nobody asks for their
// parents, so 0 is noted.
// Cost: a step by all letters, and a look into the table for each of these letters that is met, and for one that is not.
fn expand(
    file: &[u8],
    c: Counts,
    w: &mut [u64],
    block: Block,
    low: usize,
    end: usize,
    i: usize,
    n: usize,
) -> Option<usize>
    requires ready { Ready file.now c w.old block × (end ≤ c.letters) }
    requires i_bound { (i < 512) × ((n ≤ 512) × RowChain set_table w.old n) }
    ensures kept { Kept set_rows (letter_sets + 256) w.old w.new }
    ensures chained { Chained w.new result }
    ensures meets { (S : List Bool) (sets : List (List Bool)) → LiveAt file.now w.old i S → SetsIn file.now set_table w.old n sets
        → BehindPlace file.now w.new (add_all same_set sets (map (behind (automaton_of file.now) 256 S) (count_from low (end - low)))) result }
{
    let set = load(w, BEFORE_ROWS, i);
    let met = step_letters(file, c, w, block, LETTER_SETS, set);
    meet_letters(w, set_table(), [LETTER_SETS], [met], low, end, 0, n)
}

// The live sets behind a place whose letter has a number from `low` to `high`, of the n before it; or that they are more than 512.
// Cost: that of `expand` for each of the n, and 128 words that are emptied.
fn behind_place(
    file: &[u8],
    c: Counts,
    w: &mut [u64],
    block: Block,
    low: usize,
    high: usize,
    n: usize,
) -> Option<usize>
    requires { Ready file.now c w.old block × ((high < c.letters) × (n ≤ 512)) }
    ensures kept { Kept set_rows (letter_sets + 256) w.old w.new }
    ensures chained { Chained w.new result }
    ensures meets { (sets : List (List Bool)) → SetsIn file.now before_table w.old n sets
        → BehindPlace file.now w.new (behind_place same_set (behind (automaton_of file.now) 256) sets (from_to low high)) result }
{
    fill(w, SET_INDEX + INDEX_HEADS, 128);
    let mut behind: usize = 0;
    for i in 0..n {
        behind = expand(file, c, w, block, low, high + 1, i, behind)?;
    }
    Some(behind)
}

// The n live sets behind a place become those before the next one.
// Cost: n rows.
fn copy_rows(w: &mut [u64], n: usize)
    requires { (n ≤ 512) × (8192 ≤ length w.old) }
    ensures kept { Kept 0 offsets w.old w.new }
    ensures rows { (i : ℕ) → i < n → left_row before_table w.new i ≡ left_row set_table w.old i }
{
    for i in 0..n {
        let set = load(w, SET_ROWS, i);
        store(w, BEFORE_ROWS, i, set);
    }
}

// From the live set that stands before the first place, the live sets behind the last one; or that there are more than 512 behind one of them.
// Cost: for each place that of `behind_place`, of the sets before it, and of `copy_rows`.
pub fn walk_places(
    file: &[u8],
    c: Counts,
    w: &mut [u64],
    block: Block,
    places: &[u8],
) -> Option<usize>
    requires { Ready file.now c w.old block × (bad_ranges c.letters places.now ≡ false) }
    ensures same { length w.new ≡ length w.old }
    ensures walked { (S : List Bool) → SetsIn file.now before_table w.old 1 (S ∷ []) → Walked file.now w.new (S ∷ []) (ranges_of places.now) result }
{
    let mut n: usize = 1;
    let mut i: usize = 0;
    while i < places.len() {
        n = behind_place(
            file,
            c,
            w,
            block,
            places[i] as usize,
            places[i + 1] as usize,
            n,
        )?;
        copy_rows(w, n);
        i += 2;
    }
    Some(n)
}
