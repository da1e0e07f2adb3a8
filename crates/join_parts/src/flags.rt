// What stands before the arcs of a joined file: its header and its letters, and the final flags.
ghost use Rattle.std.specs.Prelude.{◌≡◌, ◌++◌, Ok, map, ◌+◌, ◌-◌, ◌≤◌, length, replicate};
ghost use Rattle.format.specs.Reading.{reading_of};
ghost use Rattle.format.specs.Decoding.{automaton_of};
ghost use Rattle.format.specs.Encoding.{flag_byte, header_bytes};
ghost use Rattle.format.specs.Limits.{Ranges};
ghost use Rattle.file_writing.specs.Placing.{Appended};

use file_writing::front::write_front;
use file_writing::parts::{write_copy, write_zeros};
use format::Counts;
use format::fields::flags_at;

// The header of a joined file with the counts c, the letters of a file with the counts a, and 00 for those that are left of c's letters.
// Cost: c's letters.
pub fn write_roomy_front(out: &mut [u8], c: Counts, a: Counts, file: &[u8]) -> usize
    requires { Ranges c × (reading_of file.now ≡ Ok a) × (a.letters ≤ c.letters) × (12 + c.letters ≤ length out.old) }
    ensures { Appended 0 (header_bytes c ++ ((automaton_of file.now).alphabet ++ replicate (c.letters - a.letters) 0)) out.old out.new result }
{
    let end = flags_at(a);
    let at = write_front(out, c, &file[12..end]);
    write_zeros(out, at, c.letters - a.letters)
}

// The final flags of a file with the counts c. Cost: its states.
pub fn write_flags(out: &mut [u8], at: usize, c: Counts, file: &[u8]) -> usize
    requires { (reading_of file.now ≡ Ok c) × (at + c.states ≤ length out.old) }
    ensures { Appended at (map flag_byte (automaton_of file.now).finals) out.old out.new result }
{
    let flags = flags_at(c);
    let end = flags + c.states;
    write_copy(out, at, &file[flags..end])
}
