// count_rounds: how many words of one length lead from each live set to one that is accepted, a length at a time. The numbers of the sets that
// the letters lead to are noted once for as many sets as there is room for, and anew in every round for the others.
#![tactic(auto)]

ghost use Rattle.std.specs.Prelude.{◌≡◌, ℕ, ◌+◌, ◌*◌, ◌≤◌, ◌<◌, length};
ghost use Rattle.automata.specs.Lengths.{accepted_many};
ghost use Rattle.automata.specs.Unfolding.{configurations, final_set};
ghost use Rattle.format.specs.Decoding.{automaton_of};
ghost use Rattle.word_fields.specs.Frame.{Kept};
ghost use Rattle.word_sets.specs.Sets.{Within, view};
ghost use Rattle.word_layout.specs.Layout.{counts, letter_sets, next_counts, targets};
ghost use Rattle.count_targets.specs.Counting.{Counting, Noted};
ghost use Rattle.count_rounds.specs.Rounds.{Counted, Ended, Fitting, Rounds, Summing, ends_in};

use count_sums::{kept_sets, sum_targets, take_next};
use count_targets::note_targets;
use format::Counts;
use live_building::set_table;
use live_table::left;
use word_layout::{Block, COUNTS, NEXT_COUNTS};

// How many words of no letters lead from the set to one with a final member: one, which leads to the set itself, or none.
// Cost: constant.
fn ends_in(set: [u64; 4], finals: [u64; 4]) -> u64
    ensures { (count : ℕ) → Within count set → result ≡ ends_in count set finals }
{
    u64::from(word_sets::meets(set, finals))
}

// The counts of words of no letters.
// Cost: n sets.
fn count_ends(w: &mut [u64], n: usize, finals: [u64; 4])
    requires { (n ≤ 512) × (letter_sets ≤ length w.old) }
    ensures kept { Kept counts (counts + 512) w.old w.new }
    ensures ended { Ended w.old n finals w.new }
{
    for i in 0..n {
        let set = left(w, set_table(), i);
        w[COUNTS + i] = ends_in(set, finals);
    }
}

// Notes the targets of the first `kept` sets.
// Cost: for each of them what `note_targets` takes.
fn note_kept(file: &[u8], c: Counts, w: &mut [u64], block: Block, n: usize, kept: usize)
    requires { Counting file.now c w.old block n × ((kept + 1) * c.letters ≤ 4096) }
    ensures { Rounds file.now c w.new block n kept }
{
    for i in 0..n.min(kept) {
        note_targets(file, c, w, block, n, i, i);
    }
}

// Where the numbers of the targets of set i stand: kept, or noted now.
// Cost: constant, or what `note_targets` takes.
fn slot_of(
    file: &[u8],
    c: Counts,
    w: &mut [u64],
    block: Block,
    n: usize,
    kept: usize,
    i: usize,
) -> usize
    requires { (i < n) × Rounds file.now c w.old block n kept }
    ensures kept { Kept targets (letter_sets + 256) w.old w.new }
    ensures still { Rounds file.now c w.new block n kept }
    ensures noted { (result ≤ kept) × Noted file.now n c.letters w.new i result }
{
    if i < kept {
        return i;
    }
    note_targets(file, c, w, block, n, i, kept);
    kept
}

// The counts of words that are one letter longer: over all letters the sum of the counts of the sets that they lead to.
// Cost: for each set one look at each letter, and what `note_targets` takes where its targets are not kept.
fn count_next(file: &[u8], c: Counts, w: &mut [u64], block: Block, n: usize, kept: usize)
    requires { Rounds file.now c w.old block n kept × Summing file.now c.letters w.old n }
    ensures still { Rounds file.now c w.new block n kept }
    ensures counted { (k : ℕ) → Counted file.now c.letters w.old counts n k → Counted file.now c.letters w.new next_counts n (k + 1) }
{
    for i in 0..n {
        let slot = slot_of(file, c, w, block, n, kept, i);
        w[NEXT_COUNTS + i] = sum_targets(w, c.letters, slot * c.letters);
    }
}

// How many words of `size` letters the automaton accepts. What stands below the building's tables is free.
// Cost: for each letter of the length what `count_next` takes, and before that for each set what `note_targets` takes.
pub fn count_rounds(
    file: &[u8],
    c: Counts,
    w: &mut [u64],
    block: Block,
    n: usize,
    finals: [u64; 4],
    size: u64,
) -> u64
    requires counting { Counting file.now c w.old block n × Fitting c.letters size }
    requires finals_value { view block.count finals ≡ final_set (automaton_of file.now) (configurations (automaton_of file.now) 256) }
    ensures { result ≡ accepted_many (automaton_of file.now) 256 size }
{
    let kept = kept_sets(c.letters);
    note_kept(file, c, w, block, n, kept);
    count_ends(w, n, finals);
    for _ in 0..size {
        count_next(file, c, w, block, n, kept);
        take_next(w, n);
    }
    w[COUNTS]
}
