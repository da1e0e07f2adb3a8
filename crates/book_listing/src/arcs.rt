// The arcs of a file that stand whole in front of the fault, and their lines in the text format.
ghost use Rattle.std.specs.Iterator.{at_most};
ghost use Rattle.std.specs.Prelude.{◌≡◌, ◌<◌, ◌≤◌, ◌-◌, IfSome, length};

use super::parts::say_letter;
use book_console::console::Console;
use book_console::words::Sayer;
use book_tokens::byte_at;
use file_fields::fields::{arc_size, operation_kind, operation_register};

// Says an operation as `R1=2` or `W1=2` behind a space; `writes` is the sign of a write. The space stands in one piece with the letter behind
// it, since each piece that is said is a write of its own. Cost: constant.
fn say_operation(line: Sayer<'_>, first: u8, symbol: u8, writes: &str) {
    let (letter, sign) = if operation_kind(usize::from(first)) == 0 {
        (" R", "=")
    } else {
        (" W", writes)
    };
    line.text(letter)
        .number(operation_register(usize::from(first)) as u64)
        .text(sign)
        .number(u64::from(symbol));
}

// Says the letter of an arc, whose number is that of its place among the letters, or that it has none. Cost: constant.
fn say_arc_letter(line: Sayer<'_>, letters: &[u8], number: u8) {
    match letters.get(usize::from(number)) {
        Some(letter) => say_letter(line, *letter),
        None => {
            line.text("empty");
        }
    }
}

// An arc that stands whole, and the arcs in front of it.
#[derive(Clone, Copy)]
pub struct Arc<'a> {
    pub in_front: &'a [u8],
    bytes: &'a [u8],
}

impl<'a> Arc<'a> {
    // The state that it comes from. Cost: constant.
    pub(crate) fn source(&self) -> u8 {
        byte_at(self.bytes, 0)
    }

    // The number of its letter, or FF. Cost: constant.
    pub(crate) fn letter(&self) -> u8 {
        byte_at(self.bytes, 1)
    }

    // The state that it leads to. Cost: constant.
    pub(crate) fn target(&self) -> u8 {
        byte_at(self.bytes, 2)
    }

    // Its operations, two bytes each. Cost: constant.
    fn operations(&self) -> &'a [u8] {
        match self.bytes.get(4..) {
            Some(operations) => operations,
            None => b"",
        }
    }

    // Is its only operation the read of register 0, which always passes? Cost: constant.
    pub fn is_plain(&self) -> bool {
        let operations = self.operations();
        operations.len() == 2 && byte_at(operations, 0) == 0
    }

    // Does it go between the same two states as the other? Cost: constant.
    pub(crate) fn has_same_ends(&self, other: &Arc<'a>) -> bool {
        self.source() == other.source() && self.target() == other.target()
    }

    // Does it, with the same operations? Cost: their operations.
    pub(crate) fn is_parallel(&self, other: &Arc<'a>) -> bool {
        self.has_same_ends(other) && self.operations() == other.operations()
    }

    // Says the operations in their order, each behind a space; of the read of register 0 alone nothing is said. Cost: the operations.
    pub fn say_operations(&self, console: &Console, writes: &str) {
        if self.is_plain() {
            return;
        }
        for bytes in self.operations().chunks_exact(2) {
            say_operation(console.out(), byte_at(bytes, 0), byte_at(bytes, 1), writes);
        }
    }
}

// Where the arc at a place ends; nothing where it does not stand there whole. Cost: constant.
pub fn arc_end(s: &[u8], at: usize) -> Option<usize>
    ensures { IfSome result (λ end. (at < end) × (end ≤ length s.now)) }
{
    if s.len() < 4 || s.len() - 4 < at {
        return None;
    }
    let size = arc_size(s, at);
    if s.len() - at < size {
        return None;
    }
    Some(at + size)
}

// The arcs from the front of `bytes` on, up to the first that does not stand there whole; those in front of `at` are passed.
#[derive(Drop)]
pub struct Arcs<'a> {
    bytes: &'a [u8],
    at: usize,
}

impl<'a> Iterator for Arcs<'a> {
    type Item = Arc<'a>;

    ghost remaining = { λ s. at_most (length s.bytes.now - s.at) };

    fn next(&mut self) -> Option<Arc<'a>> {
        let end = arc_end(self.bytes, self.at)?;
        let arc = Arc {
            in_front: &self.bytes[0..self.at],
            bytes: &self.bytes[self.at..end],
        };
        self.at = end;
        Some(arc)
    }
}

// The arcs from the front of `bytes` on that stand there whole. Cost: constant.
pub fn whole_arcs(bytes: &[u8]) -> Arcs<'_>
    ensures { (result.bytes.now ≡ bytes.now) × (result.at ≡ 0) }
{
    Arcs { bytes, at: 0 }
}

// The lines of the arcs from the front of s on that stand there whole. Cost: one pass over them.
pub fn list_arcs(console: &Console, letters: &[u8], s: &[u8]) {
    for arc in whole_arcs(s) {
        let line = console.out();
        line.text("arc ").number(u64::from(arc.source())).text(" ");
        say_arc_letter(line, letters, arc.letter());
        line.text(" ").number(u64::from(arc.target()));
        arc.say_operations(console, "=");
        line.text("\n");
    }
}
