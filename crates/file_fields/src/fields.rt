// The places of a file's parts, the numbers that stand at a place, and the two halves of an operation's first byte.
ghost use Rattle.std.specs.Prelude.{◌≡◌, ◌+◌, ◌<◌, ◌≤◌, ◌/◌, ◌%◌, length, get_or, drop};
ghost use Rattle.file_fields.specs.Parts.{two, arc_size, flags_at, first_arc};

use super::Counts;

// Where the final flags of a file with the counts c begin: behind the header and the letters. Refuses nothing. Cost: constant.
pub fn flags_at(c: Counts) -> usize
    requires { c.letters ≤ 64 }
    ensures { result ≡ flags_at c }
{
    12 + c.letters
}

// Where its arcs begin: behind the flags. Refuses nothing. Cost: constant.
pub fn first_arc(c: Counts) -> usize
    requires { (c.letters ≤ 64) × (c.states ≤ 256) }
    ensures { result ≡ first_arc c }
{
    flags_at(c) + c.states
}

// The byte at a place. Refuses nothing. Cost: constant.
pub fn byte(s: &[u8], at: usize) -> usize
    requires { at < length s.now }
    ensures { (result ≡ get_or s.now at 0) × (result < 256) }
{
    s[at] as usize
}

// The two-byte number at a place, the low byte first. Refuses nothing. Cost: constant.
pub fn double(s: &[u8], at: usize) -> usize
    requires { at + 1 < length s.now }
    ensures { (result ≡ two s.now at) × (result < 65536) }
{
    byte(s, at) + 256 * byte(s, at + 1)
}

// How many bytes the arc at a place takes. Refuses nothing. Cost: constant.
pub fn arc_size(s: &[u8], at: usize) -> usize
    requires { at + 3 < length s.now }
    ensures { (result ≡ arc_size (drop at s.now)) × (result < 515) }
{
    4 + 2 * byte(s, at + 3)
}

// The kind of the operation with the first byte x: 0 reads, 1 writes. Refuses nothing. Cost: constant.
pub fn operation_kind(x: usize) -> usize
    ensures { result ≡ x / 16 }
{
    x >> 4
}

// The register of the operation with the first byte x. Refuses nothing. Cost: constant.
pub fn operation_register(x: usize) -> usize
    ensures { result ≡ x % 16 }
{
    x & 15
}
