// count_targets: the numbers of the live sets that the letters lead to.
#![tactic(auto)]

ghost use Rattle.std.specs.Prelude.{◌≡◌, ℕ, ◌+◌, ◌*◌, ◌≤◌, ◌<◌, length};
ghost use Rattle.word_fields.specs.Fields.{field};
ghost use Rattle.word_fields.specs.Frame.{Kept};
ghost use Rattle.word_layout.specs.Layout.{letter_sets, set_table, targets};
ghost use Rattle.table_sets.specs.Stepping.{set_of};
ghost use Rattle.live_table.specs.SetRows.{RowChain};
ghost use Rattle.count_targets.specs.Counting.{Counting, Noted};
ghost use Rattle.count_targets.specs.Targets.{EmptyNumber, NumberOf, Numbers};

use format::Counts;
use live_building::set_table;
use live_table::{find_row, left};
use table_live::letters::step_letters;
use table_sets::set_of;
use word_fields::put16;
use word_layout::{Block, LETTER_SETS, TARGETS};

// The number of the set of letter l, among the n of the table; `none` is that of the empty set, or more than n while it is not known.
// Cost: a look into the table; constant where l is not met and the number of the empty set is known.
fn number_of(w: &[u64], n: usize, met: u64, l: usize, none: usize) -> usize
    requires l_bound { (l < 64) × (letter_sets + 256 ≤ length w.now) }
    requires n_bound { (n ≤ 512) × RowChain set_table w.now n }
    requires empty_number { EmptyNumber w.now n none }
    ensures { NumberOf w.now n (set_of w.now letter_sets met l) result }
{
    if met & (1u64 << l) != 0 {
        let set = set_of(w, LETTER_SETS, met, l);
        return find_row(w, set_table(), n, [set]).unwrap_or(n);
    }
    if none <= n {
        return none;
    }
    find_row(w, set_table(), n, [[0; 4]]).unwrap_or(n)
}

// The number of the set of each letter, among the n of the table, in the a fields from `from` on. Of many letters most are not met: the
// empty set, which is theirs, is looked up for the first of them only.
// Cost: for each letter that is met, and once for the others, a look into the table.
fn number_letters(w: &mut [u64], a: usize, n: usize, met: u64, from: usize)
    requires a_bound { (a ≤ 64) × ((from + a ≤ 4096) × (letter_sets + 256 ≤ length w.old)) }
    requires n_bound { (n ≤ 512) × RowChain set_table w.old n }
    ensures kept { Kept targets (targets + 1024) w.old w.new }
    ensures before { (k : ℕ) → k < from → field w.new targets k ≡ field w.old targets k }
    ensures numbers { Numbers w.old n met w.new from a }
{
    let mut none = n + 1;
    for l in 0..a {
        let number = number_of(w, n, met, l, none);
        put16(w, TARGETS, from + l, number);
        if met & (1u64 << l) == 0 {
            none = number;
        }
    }
}

// The numbers of the sets that the letters lead to from set i, among all n, in the fields of the slot `slot`, one for each letter.
// Cost: a step by all letters, and for each letter a look into the table.
pub fn note_targets(
    file: &[u8],
    c: Counts,
    w: &mut [u64],
    block: Block,
    n: usize,
    i: usize,
    slot: usize,
)
    requires counting { Counting file.now c w.old block n }
    requires i_lt_n { (i < n) × (slot * c.letters + c.letters ≤ 4096) }
    ensures kept { Kept targets (letter_sets + 256) w.old w.new }
    ensures before { (k : ℕ) → k < slot * c.letters → field w.new targets k ≡ field w.old targets k }
    ensures still { Counting file.now c w.new block n }
    ensures noted { Noted file.now n c.letters w.new i slot }
{
    let set = left(w, set_table(), i);
    let met = step_letters(file, c, w, block, LETTER_SETS, set);
    number_letters(w, c.letters, n, met, slot * c.letters);
}
