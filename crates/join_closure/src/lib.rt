// join_closure: a new state 0, initial and final, with an empty move into the automaton, and a return from each final state.
#![tactic(auto)]

ghost use Rattle.std.specs.Prelude.{◌≡◌, ◌+◌, ◌*◌, ◌≤◌, Ok, length};
ghost use Rattle.automata.specs.Automaton.{Automaton};
ghost use Rattle.automata.specs.Joins.{final_states, clearing, closure};
ghost use Rattle.format.specs.Reading.{reading_of};
ghost use Rattle.format.specs.Decoding.{automaton_of};
ghost use Rattle.format.specs.Encoding.{sizes, arcs_bytes, bytes_of};
ghost use Rattle.format.specs.Limits.{Ranges, Fits};
ghost use Rattle.file_writing.specs.Placing.{Appended};
ghost use Rattle.file_writing.specs.Answers.{output_of};
ghost use Rattle.join_parts.specs.Joining.{written_of};

use file_writing::front::write_front;
use file_writing::parts::write_byte;
use format::fields::flags_at;
use format::{Counts, Refusal};
use join_parts::answer::{arcs_size, decide};
use join_parts::finals::{count_finals, write_final_arcs};
use join_parts::flags::write_flags;
use join_parts::groups::{write_entry, write_moved_arcs};

// The counts of the closure of an automaton with these counts and this number of final states. Cost: constant.
fn closure_counts(a: Counts, finals: usize) -> Counts
    requires { Ranges a × (finals ≤ 256) }
    ensures { (x : Automaton) → sizes x ≡ a → length (final_states 0 x.finals) ≡ finals → sizes (closure x) ≡ result }
{
    Counts {
        letters: a.letters,
        states: 1 + a.states,
        registers: a.registers,
        symbols: a.symbols,
        arcs: 1 + a.arcs + finals,
    }
}

// How many bytes a return takes that clears the registers of an automaton with n of them. Cost: constant.
fn return_size(n: usize) -> usize
    requires { n ≤ 8 }
    ensures { (result ≡ 4 + 2 * length (clearing n)) × (result ≤ 18) }
{
    if n < 2 { 6 } else { 2 + 2 * n }
}

// The arcs of the closure: the added empty move, those of the file with their own letters, then a return from each final state.
// Cost: the states, and the bytes written.
fn write_closure_arcs(out: &mut [u8], at: usize, a: Counts, file: &[u8]) -> usize
    requires { (reading_of file.now ≡ Ok a) × (1 + a.states ≤ 256) × (at + length (arcs_bytes (closure (automaton_of file.now)).arcs) ≤ length out.old) }
    ensures { Appended at (arcs_bytes (closure (automaton_of file.now)).arcs) out.old out.new result }
{
    let arcs = write_entry(out, at, 1);
    let returns = write_moved_arcs(out, arcs, a, file, 1, 0);
    write_final_arcs(out, returns, a, file, 1, 1, a.registers)
}

// The whole closure, with the counts c. Cost: the bytes written.
fn write_closure(out: &mut [u8], c: Counts, a: Counts, file: &[u8]) -> usize
    requires { (reading_of file.now ≡ Ok a) × (sizes (closure (automaton_of file.now)) ≡ c) × Fits (closure (automaton_of file.now)) × (length (bytes_of (closure (automaton_of file.now))) ≤ length out.old) }
    ensures { Appended 0 (bytes_of (closure (automaton_of file.now))) out.old out.new result }
{
    let end = flags_at(a);
    let flags = write_front(out, c, &file[12..end]);
    let old = write_byte(out, flags, 1);
    let arcs = write_flags(out, old, a, file);
    write_closure_arcs(out, arcs, a, file)
}

// The closure of a valid file. Cost: the states, and the bytes written.
pub fn repeat(out: &mut [u8], a: Counts, file: &[u8]) -> Result<usize, Refusal>
    requires { reading_of file.now ≡ Ok a }
    ensures answer { result ≡ written_of (closure (automaton_of file.now)) (length out.old) }
    ensures output { out.new ≡ output_of result (bytes_of (closure (automaton_of file.now))) out.old }
{
    let finals = count_finals(a, file);
    let c = closure_counts(a, finals);
    let returns = finals * return_size(a.registers);
    let size = 18 + c.letters + c.states + arcs_size(a, file) + returns;
    let length = decide(c, size, out.len())?;
    write_closure(out, c, a, file);
    Ok(length)
}
