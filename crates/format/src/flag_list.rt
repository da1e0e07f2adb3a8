// The final flags of a file.
ghost use Rattle.std.specs.Prelude.{◌≡◌, ◌≤◌};
ghost use Rattle.file_fields.specs.Parts.{flags_front, flag_tests, first_fault};

use file_fields::fields::{first_arc, flags_at};
use file_fields::{Counts, Fault, Reason};

// How many bytes at the front are 00 or 01. Cost: one pass over them.
fn flags_front(s: &[u8]) -> usize
    ensures { result ≡ flags_front s.now }
{
    for (i, flag) in s.iter().enumerate() {
        if 1 < *flag {
            return i;
        }
    }
    s.len()
}

// The counts, or the first fault of the final flags. Cost: one pass over them.
pub fn read_flags(c: Counts, file: &[u8]) -> Result<Counts, Fault>
    requires { (c.letters ≤ 64) × (c.states ≤ 256) }
    ensures { result ≡ first_fault (flag_tests c file.now) c }
{
    let flags = flags_at(c);
    let arcs = first_arc(c);
    if file.len() < arcs {
        return Err(Reason::EndsInsideAField.at(flags));
    }
    let known = flags_front(&file[flags..arcs]);
    if known < c.states {
        return Err(Reason::FinalFlag.at(flags + known));
    }
    Ok(c)
}
