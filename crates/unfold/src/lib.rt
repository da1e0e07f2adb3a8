// unfold: the automaton without registers that accepts the same words (document 01, 'Unfolding').
// A configuration becomes a state, and each arc that passes there an arc with one operation, the read of register 0.
#![tactic(auto)]

ghost use Rattle.std.specs.Prelude.{◌≡◌};
ghost use Rattle.std.proofs.Math.ListN.{length};
ghost use Rattle.automata.specs.Unfolding.{unfolded};
ghost use Rattle.format.specs.Decoding.{automaton_of};
ghost use Rattle.format.specs.Encoding.{bytes_of};
ghost use Rattle.file_writing.specs.Answers.{output_of};
ghost use Rattle.unfold.specs.Unfolding.{unfolding_of};

use format::Refusal;
use result::write_result;
use table::open_file;

mod arcs;
mod flags;
mod result;

// Writes an automaton that accepts the words of the file's and has one register, which nothing writes: its states are the
// configurations that runs reach, numbered as they are met, and its arcs are the arcs that pass there, repeats kept. Answers its
// length in bytes. A refusal leaves the output as it was lent; else the file stands at its front, and the bytes behind it are as they
// were lent. The working words are free again afterwards, whatever they held before.
// Refuses, in this order: fewer than 8,192 working words, 24 (the automaton at fault is 0); a fault of the file, as `format::read` tells
// it; more than 256 configurations, 21; more than 2,048 plain arcs, 22; the output shorter than the result, 25 (the automaton at fault
// is 0).
// Cost: b + k * o steps, where b is the number of bytes of the file, o that of its arcs and operations and k that of its
// configurations, 256 at most; an arc that passes costs besides a look into the table of configurations. Then one step for each byte
// written. Nothing is allocated.
pub fn unfold(file: &[u8], work: &mut [u64], out: &mut [u8]) -> Result<usize, Refusal>
    ensures same { length work.new ≡ length work.old }
    ensures answer { result ≡ unfolding_of file.now (length work.old) (length out.old) }
    ensures output { out.new ≡ output_of result (bytes_of (unfolded (automaton_of file.now) 256)) out.old }
{
    let opened = open_file(file, work)?;
    write_result(out, file, opened.counts, work, opened.block)
}
