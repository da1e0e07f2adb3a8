// Chains: entries found again by their key, and tables of words found again by their value.
ghost use Rattle.std.specs.Prelude.{◌≡◌, ℕ, ◌+◌, ◌/◌, ◌<◌, length};
ghost use Rattle.word_fields.specs.Frame.{Kept, Beside};
ghost use Rattle.word_fields.specs.Fields.{Apart};
ghost use Rattle.word_fields.specs.Chains.{Chain, FoundAt, slot, WordChain, WordAt, Room};

use super::{get16, put16};

// Entry n joins the chain of the key s: it becomes the head, and the head so far its next.
// Cost: constant.
pub fn push(w: &mut [u64], heads: usize, nexts: usize, s: usize, n: usize)
    requires { (heads + s / 4 < length w.old) × ((nexts + n / 4 < length w.old) × (n < 65536)) }
    ensures kept { Beside (heads + s / 4) (nexts + n / 4) w.old w.new }
    ensures chain { (key : ℕ → ℕ) (slots : ℕ) → Chain key w.old heads nexts slots n → Apart heads slots nexts (n + 1) → s < slots → key n ≡ s → Chain key w.new heads nexts slots (n + 1) }
{
    let before = get16(w, heads, s);
    put16(w, heads, s, n);
    put16(w, nexts, n, before);
}

// The key of a word.
// Cost: constant.
fn slot_of(x: u64) -> usize
    ensures { (result ≡ slot x) × (result < 509) }
{
    (x % 509) as usize
}

// The place of x among the first n words from `table` on, where it is there: along the chain of its key.
// Cost: as many steps as words have the key of x; n at most.
pub fn find_word(
    w: &[u64],
    table: usize,
    heads: usize,
    nexts: usize,
    n: usize,
    x: u64,
) -> Option<usize>
    requires { Room w.now table heads nexts n × WordChain w.now table heads nexts n }
    ensures { FoundAt (WordAt w.now table x) n result }
{
    let mut g = get16(w, heads, slot_of(x));
    while g < n {
        if w[table + g] == x {
            return Some(g);
        }
        g = get16(w, nexts, g);
    }
    None
}

// x becomes word n of the table, and joins the chain of its key.
// Cost: constant.
pub fn add_word(w: &mut [u64], table: usize, heads: usize, nexts: usize, n: usize, x: u64)
    requires { Room w.old table heads nexts (n + 1) }
    ensures kept { Kept (table + n) (nexts + n / 4 + 1) w.old w.new }
    ensures word { WordAt w.new table x n }
    ensures chain { WordChain w.old table heads nexts n → WordChain w.new table heads nexts (n + 1) }
{
    w[table + n] = x;
    push(w, heads, nexts, slot_of(x), n);
}
