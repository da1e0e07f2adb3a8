// The answer for a joined automaton, before any of it is written: 11, 25 or its length.
ghost use Rattle.std.specs.Prelude.{◌≡◌, ◌≤◌, Ok, length};
ghost use Rattle.format.specs.Reading.{reading_of};
ghost use Rattle.format.specs.Decoding.{automaton_of};
ghost use Rattle.format.specs.Encoding.{arcs_bytes};
ghost use Rattle.join_parts.specs.Joining.{many_counts, decided};

use format::fields::first_arc;
use format::{Counts, Reason, Refusal};

// How many bytes the arcs of a file with the counts c take. Cost: constant.
pub fn arcs_size(c: Counts, file: &[u8]) -> usize
    requires { reading_of file.now ≡ Ok c }
    ensures { (result ≡ length (arcs_bytes (automaton_of file.now).arcs)) × (result ≤ 41292) }
{
    file.len() - first_arc(c)
}

// Whether there are more states, registers or arcs than a file can have. Cost: constant.
pub fn is_beyond(c: Counts) -> bool
    ensures { result ≡ many_counts c }
{
    (256 < c.states) | (8 < c.registers) | (2048 < c.arcs)
}

// 11 where the counts are beyond a limit, 25 where the output is shorter than the result, else the result's length. Cost: constant.
pub fn decide(c: Counts, size: usize, space: usize) -> Result<usize, Refusal>
    ensures { result ≡ decided (many_counts c) size space }
{
    if is_beyond(c) {
        return Err(Reason::JoinedBeyondALimit.of_call());
    }
    if space < size {
        return Err(Reason::OutputTooShort.of_call());
    }
    Ok(size)
}
