// live_table: a table of live sets in lent words, at places that the caller chooses. A row has two sets, one of each of two automata; or
// it has one set, which is then both its left and its right one. A row is found again along the chain of its key, so that meeting one
// does not look at all of them; and it has the row and the letter by which it was met.
#![tactic(auto)]

ghost use Rattle.std.specs.Prelude.{◌≡◌, ◌↔◌, ◌≤◌, ◌<◌, T};
ghost use Rattle.word_layout.specs.Layout.{Tabled};
ghost use Rattle.live_table.specs.SetRows.{turn, key_of, left_row, right_row, first_set, last_set, RowChain, LineAt, FoundRow, Added, Met};

use word_fields::chains::push;
use word_fields::{get16, put16};
use word_layout::{INDEX_HEADS, INDEX_NEXTS, SetTable};
use word_rows::{load, store};
use word_sets::same;

// The left set of row i.
// Cost: constant.
pub fn left(w: &[u64], t: SetTable, i: usize) -> [u64; 4]
    requires { (i < 512) × Tabled w.now t }
    ensures { result ≡ left_row t w.now i }
{
    load(w, t.rows, t.sets * i)
}

// The right set of row i: the left one, where a row has one set.
// Cost: constant.
pub fn right(w: &[u64], t: SetTable, i: usize) -> [u64; 4]
    requires { (i < 512) × Tabled w.now t }
    ensures { result ≡ right_row t w.now i }
{
    load(w, t.rows, t.sets * i + (t.sets - 1))
}

// The word with its digits moved up by k places, those that fall out put in below.
// Cost: constant.
fn turned(x: u64, k: u64) -> u64
    requires { (0 < k) × (k < 64) }
    ensures { result ≡ turn x k }
{
    (x << k) | (x >> (64 - k))
}

// The key of a row that holds u and v.
// Cost: constant.
pub fn key_of(u: [u64; 4], v: [u64; 4]) -> usize
    ensures { (result ≡ key_of u v) × (result < 509) }
{
    let x = u[0] ^ turned(u[1], 7) ^ turned(u[2], 19) ^ turned(u[3], 29);
    let y = x ^ turned(v[0], 37) ^ turned(v[1], 43) ^ turned(v[2], 53) ^ turned(v[3], 61);
    (y % 509) as usize
}

// Does row i hold these sets, the first of them and the last? Where a row has one set and two are asked for, it has to be both. A row whose
// left set differs is left at once, and where one set is asked for nothing is compared twice.
// Cost: constant.
fn is_row<const SETS: usize>(w: &[u64], t: SetTable, i: usize, sets: [[u64; 4]; SETS]) -> bool
    requires { (i < 512) × (Tabled w.now t × (t.sets ≤ SETS)) }
    ensures { T result ↔ LineAt t w.now sets.entry i }
{
    same(left(w, t, i), sets[0]) && (SETS == 1 || same(right(w, t, i), sets[SETS - 1]))
}

// The number of the row that holds these sets, the first of them and the last, if one of the first n does: along the chain of its key. In a
// table of one set a row two may be asked for, and no row holds two that differ.
// Cost: as many steps as rows have its key; n at most.
pub fn find_row<const SETS: usize>(
    w: &[u64],
    t: SetTable,
    n: usize,
    sets: [[u64; 4]; SETS],
) -> Option<usize>
    requires { (n ≤ 512) × ((Tabled w.now t × (t.sets ≤ SETS)) × RowChain t w.now n) }
    ensures { FoundRow t w.now (first_set sets.entry) (last_set sets.entry) n result }
{
    let mut g = get16(w, t.index + INDEX_HEADS, key_of(sets[0], sets[SETS - 1]));
    while g < n {
        if is_row(w, t, g, sets) {
            return Some(g);
        }
        g = get16(w, t.index + INDEX_NEXTS, g);
    }
    None
}

// Row n comes to hold these sets; `from` is its parent times 64 plus its letter.
// Cost: constant.
pub fn add_row<const SETS: usize>(
    w: &mut [u64],
    t: SetTable,
    n: usize,
    sets: [[u64; 4]; SETS],
    from: usize,
)
    requires n_bound { (n < 512) × (from < 65536) }
    requires sets { t.sets ≡ SETS }
    requires tabled { Tabled w.old t × RowChain t w.old n }
    ensures { Added t w.old w.new n (first_set sets.entry) (last_set sets.entry) from }
{
    for (k, set) in sets.iter().enumerate() {
        store(w, t.rows, SETS * n + k, *set);
    }
    put16(w, t.index, n, from);
    push(
        w,
        t.index + INDEX_HEADS,
        t.index + INDEX_NEXTS,
        key_of(sets[0], sets[SETS - 1]),
        n,
    );
}

// A row of the n holds these sets, or the next one comes to. How many rows there are then, if there is room for it.
// Cost: as many steps as rows have their key; n at most.
pub fn meet<const SETS: usize>(
    w: &mut [u64],
    t: SetTable,
    n: usize,
    sets: [[u64; 4]; SETS],
    from: usize,
) -> Option<usize>
    requires n_bound { (n ≤ 512) × (from < 65536) }
    requires tabled { (Tabled w.old t × (t.sets ≡ SETS)) × RowChain t w.old n }
    ensures { Met t w.old w.new n (first_set sets.entry) (last_set sets.entry) from result }
{
    if find_row(w, t, n, sets).is_some() {
        return Some(n);
    }
    if n == 512 {
        return None;
    }
    add_row(w, t, n, sets, from);
    Some(n + 1)
}
