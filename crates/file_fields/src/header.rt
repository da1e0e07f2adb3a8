// The header: mark, version and counts. Tests are joined by `&`, which costs no branch: what they look at is there.
ghost use Rattle.std.specs.Prelude.{◌≡◌, true, ◌&&◌, ◌≤◌, leb, length};
ghost use Rattle.file_fields.specs.Parts.{marked, counts_of, count_tests, header_tests, all_hold, first_fault};

use super::fields::{byte, double};
use super::{Counts, Fault, Reason};

// Whether the mark is MLB. Cost: constant.
fn has_mark(file: &[u8]) -> bool
    requires { 12 ≤ length file.now }
    ensures { result ≡ marked file.now }
{
    (file[0] == 0x4D) & (file[1] == 0x4C) & (file[2] == 0x42)
}

// The counts as they stand there, in their ranges or not. Refuses nothing. Cost: constant.
pub fn read_counts(file: &[u8]) -> Counts
    requires { 12 ≤ length file.now }
    ensures { result ≡ counts_of file.now }
{
    let letters = byte(file, 5);
    let states = double(file, 6);
    let registers = byte(file, 8);
    let symbols = byte(file, 9);
    let arcs = double(file, 10);
    Counts {
        letters,
        states,
        registers,
        symbols,
        arcs,
    }
}

// Whether each count is in its range. Cost: constant.
fn in_range(c: Counts) -> bool
    ensures { result ≡ all_hold true (count_tests c) }
{
    (c.letters <= 64)
        & ((1 <= c.states) & (c.states <= 256))
        & ((1 <= c.registers) & (c.registers <= 8))
        & ((1 <= c.symbols) & (c.symbols <= 16))
        & (c.arcs <= 2048)
}

// Whether a count lies between two others. Cost: constant.
fn within(low: usize, count: usize, high: usize) -> bool
    ensures { result ≡ (leb low count && leb count high) }
{
    (low <= count) & (count <= high)
}

// The fault of the first count that is out of its range, else the counts. Called only where one is. Cost: constant.
fn count_fault(c: Counts) -> Result<Counts, Fault>
    ensures { result ≡ first_fault (count_tests c) c }
{
    if 64 < c.letters {
        return Err(Reason::HeaderCount.at(5));
    }
    if !within(1, c.states, 256) {
        return Err(Reason::HeaderCount.at(6));
    }
    if !within(1, c.registers, 8) {
        return Err(Reason::HeaderCount.at(8));
    }
    if !within(1, c.symbols, 16) {
        return Err(Reason::HeaderCount.at(9));
    }
    if 2048 < c.arcs {
        return Err(Reason::HeaderCount.at(10));
    }
    Ok(c)
}

// The counts, or the header's first fault. Cost: constant.
pub fn read_header(file: &[u8]) -> Result<Counts, Fault>
    ensures { result ≡ first_fault (header_tests file.now) (counts_of file.now) }
{
    if file.len() < 12 {
        return Err(Reason::EndsInsideAField.at(0));
    }
    if !has_mark(file) {
        return Err(Reason::Mark.at(0));
    }
    if double(file, 3) != 1 {
        return Err(Reason::Version.at(3));
    }
    let c = read_counts(file);
    if !in_range(c) {
        return count_fault(c);
    }
    Ok(c)
}
