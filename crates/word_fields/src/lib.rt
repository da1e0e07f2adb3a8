// word_fields: numbers of 16 bits in lent 64-bit words, four to a word; and chains by which entries are found again (chains.rt).
#![tactic(auto)]

ghost use Rattle.std.specs.Prelude.{◌≡◌, cond, ℕ, ◌+◌, ◌*◌, ◌/◌, ◌≤◌, ◌<◌, eqb, length};
ghost use Rattle.word_fields.specs.Frame.{Kept};
ghost use Rattle.word_fields.specs.Fields.{field};

pub mod chains;

// Field k of the words from base on.
// Cost: constant.
pub fn get16(w: &[u64], base: usize, k: usize) -> usize
    requires { base + k / 4 < length w.now }
    ensures { (result ≡ field w.now base k) × (result < 65536) }
{
    let x = w[base + k / 4] >> (16 * (k % 4));
    (x % 65536) as usize
}

// Field k becomes v; the others of its word stay. The old field is masked away and nothing is computed from it: the word may be one that was
// lent unfilled.
// Cost: constant.
pub fn put16(w: &mut [u64], base: usize, k: usize, v: usize)
    requires { (base + k / 4 < length w.old) × (v < 65536) }
    ensures kept { Kept (base + k / 4) (base + k / 4 + 1) w.old w.new }
    ensures set { (j : ℕ) → field w.new base j ≡ cond (eqb j k) v (field w.old base j) }
{
    let at = base + k / 4;
    let s = 16 * (k % 4);
    let mask: u64 = 65535 << s;
    w[at] = (w[at] & !mask) | ((v as u64) << s);
}

// Every field of the n words from base on becomes 65535, which stands for no entry of a chain.
// Cost: n words.
pub fn fill(w: &mut [u64], base: usize, n: usize)
    requires { base + n ≤ length w.old }
    ensures kept { Kept base (base + n) w.old w.new }
    ensures set { (k : ℕ) → k < 4 * n → field w.new base k ≡ 65535 }
{
    w[base..base + n].fill(0xFFFF_FFFF_FFFF_FFFF);
}
