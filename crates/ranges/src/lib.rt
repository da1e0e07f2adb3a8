// ranges: a word of which each letter is known only to lie in a range: is every filling accepted, are some, or none?
#![tactic(auto)]

ghost use Rattle.std.specs.Prelude.{◌≡◌, Bool, false, not, List, ℕ, ◌≤◌, Ok, length};
ghost use Rattle.std.specs.Bool.{beq};
ghost use Rattle.automata.specs.Lists.{any};
ghost use Rattle.automata.specs.Live.{PlainArc, meets};
ghost use Rattle.format.specs.Decoding.{automaton_of};
ghost use Rattle.format.specs.Reading.{reading_of};
ghost use Rattle.ranges_promise.specs.RangeAnswers.{bad_ranges, judged, ranged_of};
ghost use Rattle.word_sets.specs.Sets.{view};
ghost use Rattle.word_layout.specs.Layout.{before_table};
ghost use Rattle.live_search.specs.Exploring.{Sets};
ghost use Rattle.ranges_walk.specs.Walking.{Ready};
ghost use Rattle.ranges.specs.Answers.{limits_answer, sets_answer};

use format::{Automaton, Counts, Reason, Refusal};
use live_building::build_pruned;
pub use ranges_promise::Fillings;
use ranges_walk::walk_places;
use table::finals::final_configurations;
use table_list_steps::start_set;
use word_layout::{BEFORE_ROWS, Block, ONLY_BLOCK};
use word_rows::{load, store};

// Has each place a low that is not above its high, and a high below a, and is no byte left over?
// Cost: one pass over the bytes.
fn are_ranges(a: usize, places: &[u8]) -> bool
    ensures { result ≡ not (bad_ranges a places.now) }
{
    let mut rest = places;
    while let [low, high, behind @ ..] = rest {
        if *high < *low {
            return false;
        }
        if a <= usize::from(*high) {
            return false;
        }
        rest = behind;
    }
    rest.is_empty()
}

// Is one of the n live sets behind the last place accepted, or where `accepted` is false, not accepted? It is accepted where it has a
// final member.
// Cost: n rows.
fn some_set(w: &[u64], n: usize, finals: [u64; 4], accepted: bool) -> bool
    requires { (n ≤ 512) × (8192 ≤ length w.now) }
    ensures { (count : ℕ) (arcs : List PlainArc) (sets : List (List Bool)) → Sets count arcs before_table w.now n sets → result ≡ any (λ S. beq (meets S (view count finals)) accepted) sets }
{
    for i in 0..n {
        if word_sets::meets(load(w, BEFORE_ROWS, i), finals) == accepted {
            return true;
        }
    }
    false
}

// The answer, by the n live sets behind the last place.
// Cost: two passes over the n rows.
fn judge(w: &[u64], n: usize, finals: [u64; 4]) -> Fillings
    requires { (n ≤ 512) × (8192 ≤ length w.now) }
    ensures { (count : ℕ) (arcs : List PlainArc) (sets : List (List Bool)) → Sets count arcs before_table w.now n sets
        → result ≡ judged (any (λ S. meets S (view count finals)) sets) (any (λ S. not (meets S (view count finals))) sets) }
{
    if !some_set(w, n, finals, true) {
        return Fillings::Never;
    }
    if some_set(w, n, finals, false) {
        return Fillings::Sometimes;
    }
    Fillings::Always
}

// The automaton of a valid file stands in its block, and the places are ranges of its letters. They are walked, and the live sets behind the
// last one are judged. Refuses 23: more than 512 live sets behind one of them.
// Cost: that of `walk_places` and of `judge`, and a look at each configuration.
fn judge_places(
    file: &[u8],
    c: Counts,
    w: &mut [u64],
    block: Block,
    places: &[u8],
) -> Result<Fillings, Refusal>
    requires { Ready file.now c w.old block × (bad_ranges c.letters places.now ≡ false) }
    ensures same { length w.new ≡ length w.old }
    ensures answer { result ≡ sets_answer 256 512 (automaton_of file.now) places.now }
{
    let finals = final_configurations(file, c, w, block.count);
    let start = start_set(w, block);
    store(w, BEFORE_ROWS, 0, start);
    let Some(n) = walk_places(file, c, w, block, places) else {
        return Err(Reason::TooManyLiveSets.of_call());
    };
    Ok(judge(w, n, finals))
}

// The word of a valid file with the counts c. Refuses, in this order: 35, the bytes are no ranges of its letters; 21, more than 256
// configurations; 23.
// Cost: what building and `judge_places` take.
fn judge_valid(file: &[u8], c: Counts, w: &mut [u64], places: &[u8]) -> Result<Fillings, Refusal>
    requires { (reading_of file.now ≡ Ok c) × (8192 ≤ length w.old) }
    ensures same { length w.new ≡ length w.old }
    ensures answer { result ≡ limits_answer 256 512 (automaton_of file.now) places.now }
{
    if !are_ranges(c.letters, places) {
        return Err(Reason::BadRanges.of_call());
    }
    let Some(sizes) = build_pruned(file, c, w) else {
        return Err(Reason::TooManyConfigurations.of(Automaton::First));
    };
    let block = Block {
        base: ONLY_BLOCK,
        count: sizes.count,
        plain: sizes.plain,
    };
    judge_places(file, c, w, block, places)
}

// A word of which each letter is known only to lie in a range: does the automaton of the file accept every filling, some, or none? `places`
// has two bytes for each letter of the word, the lowest and the highest number that it can have, both included; a filling has a letter of
// each range. With no places the empty word is the only filling. Refuses, in this order: fewer than 8,192 working words, 24 (the automaton at
// fault is 0); a fault of the file, as `format::read` tells it; a byte left over, a low above its high, or a high that is no letter, 35 (0);
// more than 256 configurations, 21; more than 512 live sets behind one place, of all fillings of the places up to it, 23 (0). The working
// words are free again afterwards, whatever they held before. Place after place, the live sets of all fillings are followed, each once.
// Cost: b + k * o + k * k + q + n * (s + r) steps, where b is the number of bytes of the file, o that of its arcs and operations, k that of
// its configurations, q that of the places, n that of the live sets before each place, added up over the places, r the most letters of a range
// and s what a step by all letters takes: the plain arcs of the live configurations, or where there are more than 2,048 the arcs and
// operations that leave their states. Nothing is allocated.
pub fn accepts_ranges(file: &[u8], places: &[u8], work: &mut [u64]) -> Result<Fillings, Refusal>
    ensures same { length work.new ≡ length work.old }
    ensures answer { result ≡ ranged_of file.now places.now (length work.old) }
{
    if work.len() < 8192 {
        return Err(Reason::TooLittleMemoryLent.of_call());
    }
    let reading = format::read(file);
    let Ok(c) = reading else {
        return Err(reading.unwrap_err().reason.of(Automaton::First));
    };
    judge_valid(file, c, work, places)
}
