// join_union: a new state 0 with an empty move into each automaton; the states of the second stand behind those of the first. Each letter
// has the number that it has in its own file, and there is room for the letters of both; which letters these are plays no part.
#![tactic(auto)]

ghost use Rattle.std.specs.Prelude.{◌≡◌, ◌+◌, ◌≤◌, Ok, length};
ghost use Rattle.automata.specs.Automaton.{Automaton};
ghost use Rattle.automata.specs.Joins.{union};
ghost use Rattle.format.specs.Reading.{reading_of};
ghost use Rattle.format.specs.Decoding.{automaton_of};
ghost use Rattle.format.specs.Encoding.{sizes, arcs_bytes, bytes_of};
ghost use Rattle.format.specs.Limits.{Ranges};
ghost use Rattle.file_writing.specs.Placing.{Appended};
ghost use Rattle.file_writing.specs.Answers.{output_of};
ghost use Rattle.file_pair.specs.Pair.{Joinable, letters_of};
ghost use Rattle.join_parts.specs.Joining.{join_of, written_of};
ghost use Rattle.join_parts.specs.OwnNumbers.{roomy};

use file_writing::parts::write_byte;
use format::{Counts, Refusal};
use join_parts::answer::{arcs_size, decide};
use join_parts::flags::{write_flags, write_roomy_front};
use join_parts::groups::{write_entry, write_moved_arcs};

// The counts of the union of automata with these counts, with room for this number of letters. Cost: constant.
fn union_counts(letters: usize, a: Counts, b: Counts) -> Counts
    requires { Ranges a × Ranges b × (a.letters ≤ letters) }
    ensures { (x y : Automaton) → sizes x ≡ a → sizes y ≡ b → sizes (roomy letters (union x y)) ≡ result }
{
    Counts {
        letters,
        states: 1 + a.states + b.states,
        registers: a.registers.max(b.registers),
        symbols: a.symbols.max(b.symbols),
        arcs: 2 + a.arcs + b.arcs,
    }
}

// The arcs of the union: its added empty moves, the arcs of the first, then those of the second. Cost: the bytes written.
fn write_union_arcs(
    out: &mut [u8],
    at: usize,
    a: Counts,
    first: &[u8],
    b: Counts,
    second: &[u8],
) -> usize
    requires { (reading_of first.now ≡ Ok a) × (reading_of second.now ≡ Ok b) × (1 + a.states + b.states ≤ 256) × (at + length (arcs_bytes (union (automaton_of first.now) (automaton_of second.now)).arcs) ≤ length out.old) }
    ensures { Appended at (arcs_bytes (union (automaton_of first.now) (automaton_of second.now)).arcs) out.old out.new result }
{
    let shift = 1 + a.states;
    let next = write_entry(out, at, 1);
    let left = write_entry(out, next, shift);
    let right = write_moved_arcs(out, left, a, first, 1, 0);
    write_moved_arcs(out, right, b, second, shift, 0)
}

// The whole union, with the counts c, the letters of the first and 00 up to c's letters. Cost: the bytes written.
fn write_union(
    out: &mut [u8],
    c: Counts,
    a: Counts,
    first: &[u8],
    b: Counts,
    second: &[u8],
) -> usize
    requires { (reading_of first.now ≡ Ok a) × (reading_of second.now ≡ Ok b) × (sizes (roomy c.letters (union (automaton_of first.now) (automaton_of second.now))) ≡ c) × Ranges c × (a.letters ≤ c.letters) × (length (bytes_of (roomy c.letters (union (automaton_of first.now) (automaton_of second.now)))) ≤ length out.old) }
    ensures { Appended 0 (bytes_of (roomy c.letters (union (automaton_of first.now) (automaton_of second.now)))) out.old out.new result }
{
    let flags = write_roomy_front(out, c, a, first);
    let left = write_byte(out, flags, 0);
    let right = write_flags(out, left, a, first);
    let arcs = write_flags(out, right, b, second);
    write_union_arcs(out, arcs, a, first, b, second)
}

// The union of two valid files by the files' own numbers, with room for the letters of both, of which there are `letters`. The answer is that
// for the union over these letters. Cost: the bytes written.
pub fn unite(
    out: &mut [u8],
    a: Counts,
    first: &[u8],
    b: Counts,
    second: &[u8],
    letters: usize,
) -> Result<usize, Refusal>
    requires { Joinable a b first.now second.now × (letters ≡ length (letters_of first.now second.now)) }
    ensures answer { result ≡ written_of (join_of union first.now second.now) (length out.old) }
    ensures output { out.new ≡ output_of result (bytes_of (roomy letters (union (automaton_of first.now) (automaton_of second.now)))) out.old }
{
    let c = union_counts(letters, a, b);
    let size = 24 + c.letters + c.states + arcs_size(a, first) + arcs_size(b, second);
    let length = decide(c, size, out.len())?;
    write_union(out, c, a, first, b, second);
    Ok(length)
}
