// word_rows: sets in lent words, row i of those from base on, and the closure of the relation that a table of rows is.
#![tactic(auto)]

ghost use Rattle.std.specs.Prelude.{◌≡◌, ◌↔◌, ◌||◌, ◌&&◌, ℕ, ◌+◌, ◌*◌, ◌≤◌, ◌<◌, T, eqb, length};
ghost use Rattle.word_fields.specs.Frame.{Kept};
ghost use Rattle.word_sets.specs.Sets.{in_set};
ghost use Rattle.word_rows.specs.Rows.{row, related, Link, Closure};

use word_sets::places::{mask_of, word_of};
use word_sets::{common, empty, next_live, union, with};

// Row i.
// Cost: constant.
pub fn load(w: &[u64], base: usize, i: usize) -> [u64; 4]
    requires { base + 4 * i + 4 ≤ length w.now }
    ensures { result ≡ row w.now base i }
{
    let at = base + 4 * i;
    [w[at], w[at + 1], w[at + 2], w[at + 3]]
}

// Row i becomes the set.
// Cost: constant.
pub fn store(w: &mut [u64], base: usize, i: usize, set: [u64; 4])
    requires { base + 4 * i + 4 ≤ length w.old }
    ensures kept { Kept (base + 4 * i) (base + 4 * i + 4) w.old w.new }
    ensures set { row w.new base i ≡ set }
{
    let at = base + 4 * i;
    w[at] = set[0];
    w[at + 1] = set[1];
    w[at + 2] = set[2];
    w[at + 3] = set[3];
}

// Is k in row i? One word of the row tells.
// Cost: constant.
fn holds(w: &[u64], base: usize, i: usize, k: usize) -> bool
    requires { (k < 256) × (base + 4 * i + 4 ≤ length w.now) }
    ensures { result ≡ related w.now base i k }
{
    w[base + 4 * i + word_of(k)] & mask_of(k) != 0
}

// k joins row i. One word of the row changes.
// Cost: constant.
pub fn add(w: &mut [u64], base: usize, i: usize, k: usize)
    requires { (k < 256) × (base + 4 * i + 4 ≤ length w.old) }
    ensures kept { Kept (base + 4 * i) (base + 4 * i + 4) w.old w.new }
    ensures set { (j : ℕ) → related w.new base i j ≡ (eqb j k || related w.old base i j) }
{
    let at = base + 4 * i + word_of(k);
    w[at] = w[at] | mask_of(k);
}

// What k is related to, each row that has k is related to from then on as well. Row k is read once: it does not change.
// Cost: one word of n rows, and four of those that have k.
pub fn through(w: &mut [u64], base: usize, n: usize, k: usize)
    requires { (n ≤ 256) × ((k < n) × (base + 4 * n ≤ length w.old)) }
    ensures kept { Kept base (base + 4 * n) w.old w.new }
    ensures set { (i j : ℕ) → i < n → related w.new base i j ≡ (related w.old base i j || (related w.old base i k && related w.old base k j)) }
{
    let by = load(w, base, k);
    for i in 0..n {
        if holds(w, base, i, k) {
            store(w, base, i, union(load(w, base, i), by));
        }
    }
}

// Numbers among which is each that two of the first n rows hold.
// Cost: n rows.
fn held_twice(w: &[u64], base: usize, n: usize) -> [u64; 4]
    requires { base + 4 * n ≤ length w.now }
    ensures { (i m j : ℕ) → i < m → m < n → T (related w.now base i j) → T (related w.now base m j) → T (in_set result j) }
{
    let mut once = empty();
    let mut twice = empty();
    for i in 0..n {
        let set = load(w, base, i);
        let again = union(twice, common(once, set));
        twice = again;
        let all = union(once, set);
        once = all;
    }
    twice
}

// The reflexive and transitive closure of a reflexive relation, by Warshall's algorithm: through each k in turn. A k that no row but
// its own holds is passed over, since nothing else leads to it, and so is one whose row holds it alone, since it leads to nothing else.
// Cost: n rows, and n more for each k that is not passed over.
pub fn close_rows(w: &mut [u64], base: usize, n: usize)
    requires { (n ≤ 256) × ((base + 4 * n ≤ length w.old) × ((i : ℕ) → i < n → T (related w.old base i i))) }
    ensures kept { Kept base (base + 4 * n) w.old w.new }
    ensures closed { (i j : ℕ) → i < n → T (related w.new base i j) ↔ Closure (Link n (related w.old base)) i j }
{
    let inner = held_twice(w, base, n);
    let mut k = next_live(inner, 0);
    while k < n {
        let alone = load(w, base, k) == with(empty(), k);
        if !alone {
            through(w, base, n, k);
        }
        k = next_live(inner, k + 1);
    }
}
