// count_sums: what counting does with words and numbers alone: a set's sum over its letters, the counts of one length taken over from those
// of the next, how many words of a length there are.
#![tactic(auto)]

ghost use Rattle.std.specs.Prelude.{◌≡◌, ℕ, ◌+◌, ◌*◌, ◌≤◌, ◌<◌, get_or, length};
ghost use Rattle.word_fields.specs.Frame.{Kept};
ghost use Rattle.word_layout.specs.Layout.{counts, next_counts};
ghost use Rattle.count_sums.specs.Sums.{Summable, TotalOf, targets_sum};

use word_fields::get16;
use word_layout::{COUNTS, NEXT_COUNTS, TARGETS};

// How many words of `size` letters there are over a letters, or none where 64 bits do not hold the number.
// Cost: `size` steps.
pub fn all_words(a: u64, size: u64) -> Option<u64>
    ensures { TotalOf 18446744073709551615 a size result }
{
    let mut total: u64 = 1;
    for _ in 0..size {
        total = total.checked_mul(a)?;
    }
    Some(total)
}

// For how many sets the numbers that their letters lead to are kept, in 4,096 fields with room for one set more.
// Cost: constant.
pub fn kept_sets(a: usize) -> usize
    requires { a ≤ 64 }
    ensures { (result + 1) * a ≤ 4096 }
{
    if a == 0 {
        return 0;
    }
    4096 / a - 1
}

// The sum of the counts of the sets whose numbers stand in the a fields from `from` on.
// Cost: a fields.
pub fn sum_targets(w: &[u64], a: usize, from: usize) -> u64
    requires { Summable w.now a from 18446744073709551615 }
    ensures { result ≡ targets_sum w.now a from }
{
    let mut sum: u64 = 0;
    for l in 0..a {
        sum += w[COUNTS + get16(w, TARGETS, from + l)];
    }
    sum
}

// The first n counts become those of the next length.
// Cost: n words.
pub fn take_next(w: &mut [u64], n: usize)
    requires { (n ≤ 512) × (next_counts + 512 ≤ length w.old) }
    ensures kept { Kept counts (counts + 512) w.old w.new }
    ensures taken { (i : ℕ) → i < n → get_or w.new (counts + i) 0 ≡ get_or w.old (next_counts + i) 0 }
{
    w.copy_within(NEXT_COUNTS..NEXT_COUNTS + n, COUNTS);
}
