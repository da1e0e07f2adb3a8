// format: reading the file of an automaton (document 01, 'The book file', and the refusals of a file; document 02, changes 4 and 5).
// Each function computes one definition of specs/. file_laws' proofs/Promise.antt says what callers may rely on.
#![tactic(auto)]

ghost use Rattle.std.specs.Prelude.{◌≡◌};
ghost use Rattle.file_fields.specs.Parts.{counts_of, first_fault};
ghost use Rattle.format.specs.Reading.{front_tests, reading_of};

use file_fields::header::read_header;
pub use file_fields::{Automaton, Counts, Fault, Reason, Refusal, fields, letters};
use flag_list::read_flags;
use letter_list::read_letters;

mod flag_list;
mod letter_list;

// Answers the counts of a file whose header, letters and final flags have no fault, and of any other the number and the place of the first
// fault there, as `read` does; the arcs are not looked at.
// Cost: one pass over these; a second one over the letters where they do not ascend or may have both cases, and then for each capital one
// over those behind it.
pub fn read_front(file: &[u8]) -> Result<Counts, Fault>
    ensures { result ≡ first_fault (front_tests file.now) (counts_of file.now) }
{
    let c = read_header(file)?;
    read_letters(c, file)?;
    read_flags(c, file)
}

// Answers the counts of a valid file, and of any other the number of the fault that reading from left to right meets first, and its
// place, in bytes from the file's start:
// 1 the file ends inside a part (the header's 12 bytes, the letters, the flags, an arc's 4 bytes, its operations), each looked
// for before any of it is read; 2 mark; 3 version; 4 a count out of its range; 5 letters not strictly ascending, or a letter in both cases;
// 6 a final flag above 01; then of each arc in turn 7 its from-state, 32 its letter, 33 its to-state, 34 its number of operations,
// 8 an operation; 9 bytes after the last arc.
// The place is that of the first byte or operation that is wrong, or not to be there; of 1 that where the part begins, and of a letter in
// both cases that of its capital.
// Cost: that of `read_front`, and one pass over the arcs; a second one over these where they have a fault. None of it is copied.
pub fn read(file: &[u8]) -> Result<Counts, Fault>
    ensures { result ≡ reading_of file.now }
{
    let c = read_front(file)?;
    file_arcs::read_arcs(c, file, fields::first_arc(c))
}
