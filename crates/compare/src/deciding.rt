// Deciding: two automata that are loaded, each in its block, compared by the pairs of their live sets.
ghost use Rattle.std.specs.Prelude.{◌≡◌, ◌≤◌, length};
ghost use Rattle.automata.specs.Automaton.{Automaton};
ghost use Rattle.compare_promise.specs.Comparing.{count_refusals};
ghost use Rattle.compare_search.specs.Searching.{Ready};
ghost use Rattle.compare.specs.Answers.{Answers};
ghost use Rattle.compare.specs.Loading.{Comparable};

use super::Comparison;
use super::loading::Standing;
use compare_search::{explore_pairs, pair_table};
use compare_witness::{first_difference, judge_pair, put_word};
use format::Reason;

// All pairs are explored, whether or not one of them differs, and the word of the first that differs is shown in the bytes `letters`.
// Refuses 23: more than 512 pairs.
// Cost: for each pair one row for each plain arc of a live configuration, and a look into the table for each letter that is met.
pub fn decide(
    w: &mut [u64],
    one: Standing,
    two: Standing,
    letters: &[u8],
    word: &mut [u8],
) -> Comparison
    requires { Ready (length letters.now) w.old one.block two.block × (512 ≤ length word.old) }
    ensures same { length w.new ≡ length w.old }
    ensures answers { (x y : Automaton) → Comparable x y 256 w.old one two letters.now → Answers 256 512 (count_refusals 256 512 x y) x y word.old word.new result }
{
    let f = one.finals;
    let g = two.finals;
    let Some(n) = explore_pairs(w, letters.len(), one.block, two.block) else {
        return Comparison::Refused(Reason::TooManyLiveSets.of_call());
    };
    let t = pair_table();
    let Some(i) = first_difference(w, t, n, f, g) else {
        return Comparison::Same(n as u64);
    };
    let taker = judge_pair(w, t, i, f, g);
    let length = put_word(w, t, letters.len(), n, i, letters, word);
    Comparison::Different {
        pairs: n as u64,
        taker,
        length,
    }
}
