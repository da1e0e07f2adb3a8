// Result: the answer once all configurations are known, and the file of the unfolded automaton.
ghost use Rattle.std.specs.Prelude.{◌≡◌, ◌≤◌, length};
ghost use Rattle.automata.specs.Unfolding.{unfolded};
ghost use Rattle.format.specs.Decoding.{automaton_of};
ghost use Rattle.format.specs.Encoding.{bytes_of};
ghost use Rattle.file_writing.specs.Answers.{output_of};
ghost use Rattle.file_writing.specs.Placing.{Appended};
ghost use Rattle.table.specs.Opening.{Holds};
ghost use Rattle.unfold.specs.Unfolding.{result_of};

use super::arcs::write_arcs;
use super::flags::write_flags;
use file_writing::front::write_front;
use format::fields::flags_at;
use format::{Automaton, Counts, Reason, Refusal};
use table::finals::final_configurations;
use word_layout::Block;

// The whole file: header, letters, a flag for each configuration, the plain arcs. Cost: its bytes.
fn write_file(out: &mut [u8], file: &[u8], c: Counts, w: &[u64], block: Block) -> usize
    requires holds { Holds file.now c w.now block }
    requires plain_bound { (block.plain ≤ 2048) × (length (bytes_of (unfolded (automaton_of file.now) 256)) ≤ length out.old) }
    ensures { Appended 0 (bytes_of (unfolded (automaton_of file.now) 256)) out.old out.new result }
{
    let counts = Counts {
        letters: c.letters,
        states: block.count,
        registers: 1,
        symbols: 1,
        arcs: block.plain,
    };
    let end = flags_at(c);
    let flags = write_front(out, counts, &file[12..end]);
    let finals = final_configurations(file, c, w, block.count);
    let arcs = write_flags(out, flags, finals, block.count);
    write_arcs(out, arcs, w, block)
}

// 22 where there are more than 2,048 plain arcs, 25 where the output is shorter than the result; else the file is written, and its
// length answered. Nothing is written before both are decided. Cost: the bytes written.
pub fn write_result(
    out: &mut [u8],
    file: &[u8],
    c: Counts,
    w: &[u64],
    block: Block,
) -> Result<usize, Refusal>
    requires { Holds file.now c w.now block }
    ensures answer { result ≡ result_of 256 2048 (automaton_of file.now) (length out.old) }
    ensures output { out.new ≡ output_of result (bytes_of (unfolded (automaton_of file.now) 256)) out.old }
{
    if 2048 < block.plain {
        return Err(Reason::TooManyPlainArcs.of(Automaton::First));
    }
    let size = 12 + c.letters + block.count + 6 * block.plain;
    if out.len() < size {
        return Err(Reason::OutputTooShort.of_call());
    }
    write_file(out, file, c, w, block);
    Ok(size)
}
