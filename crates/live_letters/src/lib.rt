// live_letters: the letters of a range from a row of a table of live sets, of the sets that steps have left for each letter: one for each set of
// a row.
#![tactic(auto)]

ghost use Rattle.std.specs.Prelude.{◌≡◌, ◌↔◌, false, not, List, ℕ, ◌+◌, ◌-◌, ◌*◌, ◌≤◌, ◌<◌, get_or};
ghost use Rattle.std.proofs.Math.Option.{some};
ghost use Rattle.std.proofs.Math.ListN.{get_elem?};
ghost use Rattle.automata.specs.Exploration.{add_all};
ghost use Rattle.automata.specs.Lists.{count_from};
ghost use Rattle.automata.specs.Search.{Entry, next_entries};
ghost use Rattle.automata.specs.Pairs.{Pair};
ghost use Rattle.word_fields.specs.Frame.{Kept};
ghost use Rattle.word_sets.specs.Sets.{bit};
ghost use Rattle.word_layout.specs.Layout.{Tabled, table_end};
ghost use Rattle.live_table.specs.Entries.{Side, along, alike, Holds};
ghost use Rattle.live_table.specs.SetRows.{RowChain, Met};
ghost use Rattle.live_letters.specs.Meeting.{Table, Grows, LetterRoom, LetterSets, NextLetter, Outcome, left_set, right_set};
ghost use Rattle.live_letters.specs.MeetingAll.{MetAll};

use live_table::meet;
use table_sets::set_of;
use word_layout::SetTable;

// The letters that some side meets.
// Cost: constant.
fn met_by_some<const SETS: usize>(met: [u64; SETS]) -> u64
    ensures { (l : ℕ) → (bit result l ≡ false) ↔ ((j : ℕ) → j < SETS → bit (get_or met.entry j 0) l ≡ false) }
{
    let mut some = 0;
    for side in met.iter() {
        some = some | *side;
    }
    some
}

// Is letter l not met?
// Cost: constant.
pub fn unmet(met: u64, l: usize) -> bool
    requires { l < 64 }
    ensures { result ≡ not (bit met l) }
{
    met & (1u64 << l) == 0
}

// The letter to be met behind l, of those before `end`; `end` or more where none is left. Where `dead`, the row that letters lead to which are
// not met is known, and they are passed over.
// Cost: constant.
pub fn next_letter(met: u64, l: usize, end: usize, dead: bool) -> usize
    requires { (l < end) × (end ≤ 64) }
    ensures { NextLetter met dead l result }
{
    let next = l + 1;
    if !dead {
        return next;
    }
    if next < end {
        let rest = met >> next;
        if rest != 0 {
            return next + u64::trailing_zeros(rest) as usize;
        }
    }
    end
}

// Letter l from row i, of the sets that steps have left for each letter, those of each side from its word of `acc` on.
// Cost: as many steps as rows have the key of the one that is met.
fn meet_letter<const SETS: usize>(
    w: &mut [u64],
    t: SetTable,
    acc: [usize; SETS],
    met: [u64; SETS],
    i: usize,
    l: usize,
    n: usize,
) -> Option<usize>
    requires i_bound { (i < 512) × ((l < 64) × (n ≤ 512)) }
    requires tabled { (Tabled w.old t × (t.sets ≡ SETS)) × LetterRoom t w.old acc }
    requires row_chain { RowChain t w.old n }
    ensures { Met t w.old w.new n (left_set w.old acc.entry met.entry l) (right_set w.old acc.entry met.entry l) (i * 64 + l) result }
{
    let mut sets = [[0; 4]; SETS];
    for k in 0..SETS {
        sets[k] = set_of(w, acc[k], met[k], l);
    }
    meet(w, t, n, sets, i * 64 + l)
}

// The letters from `low` on, before `end`, of the sets that steps have left for each letter: the table of `from` rows becomes one of more. Row i
// is noted as the parent of those that are new.
// Cost: for each letter that is met, and one that is not, as `meet_letter`.
pub fn meet_letters<const SETS: usize>(
    w: &mut [u64],
    t: SetTable,
    acc: [usize; SETS],
    met: [u64; SETS],
    low: usize,
    end: usize,
    i: usize,
    from: usize,
) -> Option<usize>
    requires end_bound { (end ≤ 64) × ((i < 512) × (from ≤ 512)) }
    requires tabled { (Tabled w.old t × (t.sets ≡ SETS)) × LetterRoom t w.old acc }
    requires row_chain { RowChain t w.old from }
    ensures kept { Kept t.rows (table_end t) w.old w.new }
    ensures meets { MetAll t (left_set w.old acc.entry met.entry) (right_set w.old acc.entry met.entry) i (count_from low (end - low)) w.old from w.new result }
    ensures grows { i < from → Table end t w.old from → Grows end t w.new from result }
    ensures entries { low ≡ 0 → (x y : Side) (es : List (Entry Pair)) (e : Entry Pair) → LetterSets end x y w.old acc.entry met.entry e.state → Holds t x y w.old from es → get_elem? es i ≡ some e
        → Outcome 512 t x y w.new (add_all alike es (next_entries (along x y) end e)) result }
{
    let some = met_by_some(met);
    let mut n = from;
    let mut dead = false;
    let mut l = low;
    // kept: which letter is next depends on what was met, so no range says which are to come
    while l < end {
        n = meet_letter(w, t, acc, met, i, l, n)?;
        dead = dead | unmet(some, l);
        l = next_letter(some, l, end, dead);
    }
    Some(n)
}
