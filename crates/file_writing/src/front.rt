// The front of a file: its header and its letters.
ghost use Rattle.std.specs.Prelude.{◌++◌, ◌+◌, ◌≤◌, length};
ghost use Rattle.format.specs.Encoding.{header_bytes};
ghost use Rattle.format.specs.Limits.{Ranges};
ghost use Rattle.file_writing.specs.Placing.{Appended};

use super::parts::{write_copy, write_header};
use format::Counts;

// The header of an automaton with the counts c, and these letters. Refuses nothing. Cost: the letters.
pub fn write_front(out: &mut [u8], c: Counts, letters: &[u8]) -> usize
    requires { Ranges c × (12 + length letters.now ≤ length out.old) }
    ensures { Appended 0 (header_bytes c ++ letters.now) out.old out.new result }
{
    let at = write_header(out, 0, c);
    write_copy(out, at, letters)
}
