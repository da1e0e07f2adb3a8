// The final flags of the intersection: final where both are.
ghost use Rattle.std.specs.Prelude.{◌≡◌, Ok, map, ◌+◌, ◌*◌, ◌≤◌, length};
ghost use Rattle.automata.specs.Joins.{both_final};
ghost use Rattle.format.specs.Reading.{reading_of};
ghost use Rattle.format.specs.Decoding.{automaton_of, is_final};
ghost use Rattle.format.specs.Encoding.{flag_byte};
ghost use Rattle.file_writing.specs.Placing.{Appended};

use file_writing::parts::write_zeros;
use format::Counts;
use format::fields::flags_at;
use join_parts::flags::write_flags;

// For each of the flags, those of a file with the counts c where it is that of a final state, else 00 as often. Cost: the bytes written.
fn write_rows(out: &mut [u8], at: usize, flags: &[u8], c: Counts, file: &[u8]) -> usize
    requires { (reading_of file.now ≡ Ok c) × (at + length flags.now * c.states ≤ length out.old) }
    ensures { Appended at (map flag_byte (both_final (map is_final flags.now) (automaton_of file.now).finals)) out.old out.new result }
{
    let mut to = at;
    for flag in flags {
        let is_set = *flag == 1;
        if is_set {
            to = write_flags(out, to, c, file);
        } else {
            to = write_zeros(out, to, c.states);
        }
    }
    to
}

// For each state of the first file, the flags of the second where it is final, else 00 as often. Cost: the pairs of states.
pub fn write_both_flags(
    out: &mut [u8],
    at: usize,
    a: Counts,
    first: &[u8],
    b: Counts,
    second: &[u8],
) -> usize
    requires { (reading_of first.now ≡ Ok a) × (reading_of second.now ≡ Ok b) × (at + a.states * b.states ≤ length out.old) }
    ensures { Appended at (map flag_byte (both_final (automaton_of first.now).finals (automaton_of second.now).finals)) out.old out.new result }
{
    let flags = flags_at(a);
    let end = flags + a.states;
    write_rows(out, at, &first[flags..end], b, second)
}
