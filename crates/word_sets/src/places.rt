// places: where a number below 256 stands in a set. Its word is the quotient by 64 and its digit the remainder; a shift and a mask find
// them, and nothing is divided.
ghost use Rattle.std.specs.Prelude.{◌≡◌, not, ◌&&◌, ℕ, ◌/◌, ◌%◌, ◌^◌, ◌<◌, T, eqb};
ghost use Rattle.word_sets.specs.Sets.{bit};

// The word of k.
// Cost: one shift.
pub fn word_of(k: usize) -> usize
    requires { k < 256 }
    ensures { result ≡ k / 64 }
{
    k >> 6
}

// The digit of k in its word.
// Cost: one mask.
pub fn digit_of(k: usize) -> usize
    requires { k < 256 }
    ensures { result ≡ k % 64 }
{
    k & 63
}

// The word whose one digit 1 is that of k.
// Cost: a mask and a shift.
pub fn mask_of(k: usize) -> u64
    requires { k < 256 }
    ensures { result ≡ 2 ^ (k % 64) }
{
    1u64 << digit_of(k)
}

// The place of the lowest digit 1 of a word that has one.
// Cost: constant.
pub fn lowest(x: u64) -> usize
    requires { 0 < x }
    ensures { (result < 64) × T (bit x result) × ((j : ℕ) → j < result → ¬ T (bit x j)) }
{
    x.trailing_zeros() as usize
}

// The word without its lowest digit 1, which stands in the place k.
// Cost: constant.
pub fn without_lowest(x: u64, k: usize) -> u64
    requires { T (bit x k) × ((j : ℕ) → j < k → ¬ T (bit x j)) }
    ensures less { result < x }
    ensures digits { (j : ℕ) → bit result j ≡ (not (eqb j k) && bit x j) }
{
    x & (x - 1)
}
