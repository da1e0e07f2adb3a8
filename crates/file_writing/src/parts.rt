// The parts of a file before its arcs: single bytes, the header, letters and flags copied from another file.
ghost use Rattle.std.specs.Prelude.{◌∷◌, [], ◌+◌, ◌/◌, ◌%◌, ◌<◌, ◌≤◌, length, replicate};
ghost use Rattle.format.specs.Encoding.{header_bytes};
ghost use Rattle.format.specs.Limits.{Ranges};
ghost use Rattle.file_writing.specs.Placing.{Appended};

use format::Counts;

// One byte. Refuses nothing. Cost: constant.
pub fn write_byte(out: &mut [u8], at: usize, byte: u8) -> usize
    requires { at + 1 ≤ length out.old }
    ensures { Appended at (byte ∷ []) out.old out.new result }
{
    out[at] = byte;
    at + 1
}

// A two-byte number, the low byte first. Cost: constant.
fn write_double(out: &mut [u8], at: usize, number: usize) -> usize
    requires { (number < 65536) × (at + 2 ≤ length out.old) }
    ensures { Appended at ((number % 256) ∷ (number / 256) ∷ []) out.old out.new result }
{
    out[at] = (number % 256) as u8;
    out[at + 1] = (number / 256) as u8;
    at + 2
}

// The mark MLB and version 1. Cost: constant.
fn write_mark(out: &mut [u8], at: usize) -> usize
    requires { at + 5 ≤ length out.old }
    ensures { Appended at (0x4D ∷ 0x4C ∷ 0x42 ∷ 1 ∷ 0 ∷ []) out.old out.new result }
{
    out[at] = 0x4D;
    out[at + 1] = 0x4C;
    out[at + 2] = 0x42;
    out[at + 3] = 1;
    out[at + 4] = 0;
    at + 5
}

// The header of a file with these counts. Refuses nothing. Cost: constant.
pub fn write_header(out: &mut [u8], at: usize, c: Counts) -> usize
    requires { Ranges c × (at + 12 ≤ length out.old) }
    ensures { Appended at (header_bytes c) out.old out.new result }
{
    let letters = write_mark(out, at);
    let states = write_byte(out, letters, c.letters as u8);
    let registers = write_double(out, states, c.states);
    let symbols = write_byte(out, registers, c.registers as u8);
    let arcs = write_byte(out, symbols, c.symbols as u8);
    write_double(out, arcs, c.arcs)
}

// A copy of a part of a file. Refuses nothing. Cost: its length.
pub fn write_copy(out: &mut [u8], at: usize, part: &[u8]) -> usize
    requires { at + length part.now ≤ length out.old }
    ensures { Appended at part.now out.old out.new result }
{
    let end = at + part.len();
    out[at..end].copy_from_slice(part);
    end
}

// n bytes 00. Refuses nothing. Cost: n.
pub fn write_zeros(out: &mut [u8], at: usize, n: usize) -> usize
    requires { at + n ≤ length out.old }
    ensures { Appended at (replicate n 0) out.old out.new result }
{
    let end = at + n;
    out[at..end].fill(0);
    end
}
