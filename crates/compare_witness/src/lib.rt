// compare_witness: the first row of a table of live sets that differs, and the word by which a row was met.
#![tactic(auto)]

ghost use Rattle.std.specs.Prelude.{◌≡◌, ◌++◌, map, ℕ, ◌≤◌, ◌<◌, drop, get_or, length};
ghost use Rattle.automata.specs.Live.{meets};
ghost use Rattle.live_table.specs.SetRows.{left_row, right_row};
ghost use Rattle.word_layout.specs.Layout.{Tabled};
ghost use Rattle.word_sets.specs.Sets.{Within, view};
ghost use Rattle.compare_witness.specs.Spelled.{Climb, FirstDifference, alone, word_of};

use word_layout::SetTable;

// Which automaton alone accepts the words of row i: 1, 2, or 0 where both or neither do. f and g are the final sets of the two.
// Cost: constant.
pub fn judge_pair(w: &[u64], t: SetTable, i: usize, f: [u64; 4], g: [u64; 4]) -> u8
    requires { (i < 512) × Tabled w.now t }
    ensures { (m n : ℕ) → Within m (left_row t w.now i) → Within n (right_row t w.now i) → result ≡ alone (meets (view m (left_row t w.now i)) (view m f)) (meets (view n (right_row t w.now i)) (view n g)) }
{
    let x = word_sets::meets(live_table::left(w, t, i), f);
    let y = word_sets::meets(live_table::right(w, t, i), g);
    match (x, y) {
        (true, false) => 1,
        (false, true) => 2,
        _ => 0,
    }
}

// The number of the first of n rows that differs, if one does: its word is the first that exactly one accepts.
// Cost: n rows at most.
pub fn first_difference(w: &[u64], t: SetTable, n: usize, f: [u64; 4], g: [u64; 4]) -> Option<usize>
    requires { (n ≤ 512) × Tabled w.now t }
    ensures { FirstDifference t w.now n f g result }
{
    for i in 0..n {
        if judge_pair(w, t, i, f, g) != 0 {
            return Some(i);
        }
    }
    None
}

// The length of the word of row `from`, one of n, whose letters are among a: as many as there are parents above it.
// Cost: its length.
fn word_length(w: &[u64], t: SetTable, a: usize, n: usize, from: usize) -> usize
    requires { Climb t w.now a n from }
    ensures { (result ≡ length (word_of t w.now from)) × (result ≤ from) }
{
    let mut k = from;
    let mut len: usize = 0;
    while k != 0 {
        k = word_fields::get16(w, t.index, k) / 64;
        len += 1;
    }
    len
}

// The word of row `from`, one of n, as the bytes of its letters at the front of the output; answers its length. The parents tell
// the letters from the last to the first.
// Cost: twice its length.
pub fn put_word(
    w: &[u64],
    t: SetTable,
    a: usize,
    n: usize,
    from: usize,
    letters: &[u8],
    out: &mut [u8],
) -> usize
    requires climb { Climb t w.now a n from }
    requires a_in_bounds { (a ≤ length letters.now) × (512 ≤ length out.old) }
    ensures long { result ≡ length (word_of t w.now from) }
    ensures put { out.new ≡ map (λ l. get_or letters.now l 0) (word_of t w.now from) ++ drop result out.old }
{
    let len = word_length(w, t, a, n, from);
    let mut k = from;
    let mut j = len;
    while k != 0 {
        let p = word_fields::get16(w, t.index, k);
        let place = j - 1;
        out[place] = letters[p % 64];
        k = p / 64;
        j -= 1;
    }
    len
}
