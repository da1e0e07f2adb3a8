// join_concatenation: an empty move from each final state of the first automaton to the initial state of the second, whose states
// stand behind those of the first, and whose registers from 1 up behind its registers. Each letter has the number that it has in its own
// file, and there is room for the letters of both; which letters these are plays no part.
#![tactic(auto)]

ghost use Rattle.std.specs.Prelude.{◌≡◌, ◌+◌, ◌≤◌, Ok, length};
ghost use Rattle.automata.specs.Automaton.{Automaton};
ghost use Rattle.automata.specs.Joins.{final_states, concatenation};
ghost use Rattle.format.specs.Reading.{reading_of};
ghost use Rattle.format.specs.Decoding.{automaton_of};
ghost use Rattle.format.specs.Encoding.{sizes, arcs_bytes, bytes_of};
ghost use Rattle.format.specs.Limits.{Ranges};
ghost use Rattle.file_writing.specs.Placing.{Appended};
ghost use Rattle.file_writing.specs.Answers.{output_of};
ghost use Rattle.file_pair.specs.Pair.{Joinable, letters_of};
ghost use Rattle.join_parts.specs.Joining.{join_of, written_of};
ghost use Rattle.join_parts.specs.OwnNumbers.{roomy};

use file_writing::parts::write_zeros;
use format::{Counts, Refusal};
use join_parts::answer::{arcs_size, decide};
use join_parts::finals::{count_finals, write_final_arcs};
use join_parts::flags::{write_flags, write_roomy_front};
use join_parts::groups::write_moved_arcs;

// The counts of the concatenation of automata with these counts, the first with this number of final states, with room for this number of
// letters. Cost: constant.
fn concatenation_counts(letters: usize, a: Counts, finals: usize, b: Counts) -> Counts
    requires { Ranges a × (finals ≤ 256) × Ranges b × (a.letters ≤ letters) }
    ensures { (x y : Automaton) → sizes x ≡ a → length (final_states 0 x.finals) ≡ finals → sizes y ≡ b → sizes (roomy letters (concatenation x y)) ≡ result }
{
    Counts {
        letters,
        states: a.states + b.states,
        registers: a.registers + b.registers - 1,
        symbols: a.symbols.max(b.symbols),
        arcs: a.arcs + finals + b.arcs,
    }
}

// The arcs of the concatenation: those of the first, the added empty moves, then those of the second.
// Cost: the states of the first, and the bytes written.
fn write_concatenation_arcs(
    out: &mut [u8],
    at: usize,
    a: Counts,
    first: &[u8],
    b: Counts,
    second: &[u8],
) -> usize
    requires { (reading_of first.now ≡ Ok a) × (reading_of second.now ≡ Ok b) × (a.states + b.states ≤ 256) × (at + length (arcs_bytes (concatenation (automaton_of first.now) (automaton_of second.now)).arcs) ≤ length out.old) }
    ensures { Appended at (arcs_bytes (concatenation (automaton_of first.now) (automaton_of second.now)).arcs) out.old out.new result }
{
    let shift = a.registers - 1;
    let between = write_moved_arcs(out, at, a, first, 0, 0);
    let right = write_final_arcs(out, between, a, first, 0, a.states, 1);
    write_moved_arcs(out, right, b, second, a.states, shift)
}

// The whole concatenation, with the counts c, the letters of the first and 00 up to c's letters. Cost: the bytes written.
fn write_concatenation(
    out: &mut [u8],
    c: Counts,
    a: Counts,
    first: &[u8],
    b: Counts,
    second: &[u8],
) -> usize
    requires { (reading_of first.now ≡ Ok a) × (reading_of second.now ≡ Ok b) × (sizes (roomy c.letters (concatenation (automaton_of first.now) (automaton_of second.now))) ≡ c) × Ranges c × (a.letters ≤ c.letters) × (length (bytes_of (roomy c.letters (concatenation (automaton_of first.now) (automaton_of second.now)))) ≤ length out.old) }
    ensures { Appended 0 (bytes_of (roomy c.letters (concatenation (automaton_of first.now) (automaton_of second.now)))) out.old out.new result }
{
    let flags = write_roomy_front(out, c, a, first);
    let right = write_zeros(out, flags, a.states);
    let arcs = write_flags(out, right, b, second);
    write_concatenation_arcs(out, arcs, a, first, b, second)
}

// The concatenation of two valid files by the files' own numbers, with room for the letters of both, of which there are `letters`. The answer
// is that for the concatenation over these letters. Cost: the states of the first, and the bytes written.
pub fn append(
    out: &mut [u8],
    a: Counts,
    first: &[u8],
    b: Counts,
    second: &[u8],
    letters: usize,
) -> Result<usize, Refusal>
    requires { Joinable a b first.now second.now × (letters ≡ length (letters_of first.now second.now)) }
    ensures answer { result ≡ written_of (join_of concatenation first.now second.now) (length out.old) }
    ensures output { out.new ≡ output_of result (bytes_of (roomy letters (concatenation (automaton_of first.now) (automaton_of second.now)))) out.old }
{
    let finals = count_finals(a, first);
    let c = concatenation_counts(letters, a, finals, b);
    let moves = 6 * finals;
    let size = 12 + c.letters + c.states + arcs_size(a, first) + moves + arcs_size(b, second);
    let length = decide(c, size, out.len())?;
    write_concatenation(out, c, a, first, b, second);
    Ok(length)
}
