// file_arcs: reading the arcs of a file, each four bytes and its operations (document 01, 'The book file'). Tests are joined by `&`,
// which costs no branch: what they look at is there.
#![tactic(auto)]

ghost use Rattle.std.specs.Prelude.{◌≡◌, true, ℕ, ◌+◌, ◌*◌, ◌<◌, ◌≤◌, length, get_or, drop};
ghost use Rattle.file_fields.specs.Parts.{field_tests, well_op, well_ops, ops_front, arc_tests, arcs_tests, all_hold, first_fault};

use file_fields::fields::{arc_size, byte, operation_kind, operation_register};
use file_fields::{Counts, Fault, Reason};

// Whether the two bytes at a place are an operation, whatever the arc's letter. Cost: constant.
fn is_operation(c: Counts, s: &[u8], at: usize) -> bool
    requires { at + 1 < length s.now }
    ensures { (letter : ℕ) → result ≡ well_op c letter (get_or s.now at 0) (get_or s.now (at + 1) 0) }
{
    let x = byte(s, at);
    let symbol = byte(s, at + 1);
    // Two bytes 00, the only operation at register 0, are looked for first.
    if x + symbol == 0 {
        return (0 < c.registers) & (0 < c.symbols);
    }
    let kind = operation_kind(x);
    let register = operation_register(x);
    (kind <= 1) & (register < c.registers) & (symbol < c.symbols) & (register != 0)
}

// Whether the p pairs of bytes at the front are operations, whatever the arc's letter. Cost: at most p.
fn are_operations(c: Counts, s: &[u8], p: usize) -> bool
    requires { 2 * p ≤ length s.now }
    ensures { (letter : ℕ) → result ≡ well_ops c letter p s.now }
{
    for i in 0..p {
        if !is_operation(c, s, 2 * i) {
            return false;
        }
    }
    true
}

// How many of the p pairs of bytes at the front are operations, up to the first that is none, whatever the arc's letter. Cost: at most p.
fn operations_front(c: Counts, s: &[u8], p: usize) -> usize
    requires { 2 * p ≤ length s.now }
    ensures { (letter : ℕ) → result ≡ ops_front c letter p s.now }
{
    for i in 0..p {
        if !is_operation(c, s, 2 * i) {
            return i;
        }
    }
    p
}

// Whether the four bytes at the front begin an arc: from, letter, to, number of operations. Cost: constant.
fn are_fields(c: Counts, s: &[u8]) -> bool
    requires { 4 ≤ length s.now }
    ensures { result ≡ all_hold true (field_tests c 0 s.now) }
{
    let letter = byte(s, 1);
    let operations = byte(s, 3);
    (byte(s, 0) < c.states)
        & ((letter == 255) | (letter < c.letters))
        & (byte(s, 2) < c.states)
        & ((1 <= operations) & (operations <= 8))
}

// The fault of the first of the four bytes at the front that is out of its range, else the counts. Called only where one is. The
// arc stands at the place `at` of the file. Cost: constant.
fn field_fault(c: Counts, s: &[u8], at: usize) -> Result<Counts, Fault>
    requires { (4 ≤ length s.now) × (at + length s.now < 18446744073709551616) }
    ensures { result ≡ first_fault (field_tests c at s.now) c }
{
    // All four are there, so all are read first; then each is tested as in `field_tests`.
    let letters = c.letters;
    let states = c.states;
    let from = byte(s, 0);
    let letter = byte(s, 1);
    let to = byte(s, 2);
    let operations = byte(s, 3);
    if !(from < states) {
        return Err(Reason::ArcSource.at(at));
    }
    if !((letter == 255) | (letter < letters)) {
        return Err(Reason::ArcLetter.at(at + 1));
    }
    if !(to < states) {
        return Err(Reason::ArcTarget.at(at + 2));
    }
    if !((1 <= operations) & (operations <= 8)) {
        return Err(Reason::ArcOperations.at(at + 3));
    }
    Ok(c)
}

// Whether the arc at the front has no fault. Cost: at most its operations.
fn is_arc(c: Counts, s: &[u8]) -> bool
    ensures { result ≡ all_hold true (arc_tests c 0 s.now) }
{
    if s.len() < 4 {
        return false;
    }
    if !are_fields(c, s) {
        return false;
    }
    if s.len() < arc_size(s, 0) {
        return false;
    }
    are_operations(c, &s[4..], byte(s, 3))
}

// The counts, or the first fault of the arc at the front, which stands at the place `at` of the file.
// Cost: at most its operations.
pub fn read_arc(c: Counts, s: &[u8], at: usize) -> Result<Counts, Fault>
    requires { at + length s.now < 18446744073709551616 }
    ensures { result ≡ first_fault (arc_tests c at s.now) c }
{
    let size = s.len();
    if size < 4 {
        return Err(Reason::EndsInsideAField.at(at));
    }
    if !are_fields(c, s) {
        return field_fault(c, s, at);
    }
    if size < arc_size(s, 0) {
        return Err(Reason::EndsInsideAField.at(at + 4));
    }
    let p = byte(s, 3);
    let front = operations_front(c, &s[4..], p);
    if front < p {
        return Err(Reason::Operation.at(at + 4 + 2 * front));
    }
    Ok(c)
}

// Whether the arcs from a place on have no fault, and nothing is after them.
// Cost: one pass over them, up to the first that has a fault.
fn are_arcs(c: Counts, file: &[u8], from: usize) -> bool
    requires { from ≤ length file.now }
    ensures { result ≡ all_hold true (arcs_tests c.arcs c from (drop from file.now)) }
{
    let mut at = from;
    for _ in 0..c.arcs {
        if !is_arc(c, &file[at..]) {
            return false;
        }
        at += arc_size(file, at);
    }
    file.len() <= at
}

// The first fault of the arcs from a place on and of what is after them, else the counts. Called only where there is one: looking for
// its place in a pass of its own costs a file without a fault nothing. Cost: one pass over them, up to the fault.
fn arcs_fault(c: Counts, file: &[u8], from: usize) -> Result<Counts, Fault>
    requires { from ≤ length file.now }
    ensures { result ≡ first_fault (arcs_tests c.arcs c from (drop from file.now)) c }
{
    let mut at = from;
    for _ in 0..c.arcs {
        read_arc(c, &file[at..], at)?;
        at += arc_size(file, at);
    }
    if at < file.len() {
        return Err(Reason::BytesAfterTheLastArc.at(at));
    }
    Ok(c)
}

// The counts, or the first fault of the arcs from a place on and of what is after them.
// Cost: one pass over them, and a second one, up to the fault, where there is one.
pub fn read_arcs(c: Counts, file: &[u8], from: usize) -> Result<Counts, Fault>
    requires { from ≤ length file.now }
    ensures { result ≡ first_fault (arcs_tests c.arcs c from (drop from file.now)) c }
{
    if !are_arcs(c, file, from) {
        return arcs_fault(c, file, from);
    }
    Ok(c)
}
