// Empty moves of one automaton beside each state of the other, which they leave as it is.
ghost use Rattle.std.specs.Prelude.{◌≡◌, Ok, map, ℕ, ◌+◌, ◌*◌, ◌<◌, ◌≤◌, length, drop};
ghost use Rattle.automata.specs.Lists.{count_from};
ghost use Rattle.file_fields.specs.Parts.{arc_size};
ghost use Rattle.format.specs.Reading.{reading_of};
ghost use Rattle.format.specs.Decoding.{arc_of, automaton_of};
ghost use Rattle.format.specs.Encoding.{arc_bytes, arcs_bytes};
ghost use Rattle.file_writing.specs.Placing.{Appended};
ghost use Rattle.join_product_arcs.specs.JointArcs.{KnownAt, beside_arc};
ghost use Rattle.join_product_count.specs.ProductArcs.{empty_with};

use file_arc_writing::{Fields, write_arc};
use format::Counts;
use format::fields::{arc_size, byte, first_arc};

// How many states the other has, and where an empty move stands beside one of them: state s beside state i is
// s * scale + i * step. The registers from 1 up move by shift.
#[derive(Clone, Copy)]
pub struct Beside {
    pub states: usize,
    pub scale: usize,
    pub step: usize,
    pub shift: usize,
}

// The empty move at a place of a file, beside state i. Cost: its operations.
fn write_beside(out: &mut [u8], at: usize, file: &[u8], from: usize, b: Beside, i: usize) -> usize
    requires { (from + arc_size (drop from file.now) ≤ length file.now) × ((arc_of (drop from file.now)).source * b.scale + i * b.step < 256) × ((arc_of (drop from file.now)).target * b.scale + i * b.step < 256) × (b.shift ≤ 8) × (at + arc_size (drop from file.now) ≤ length out.old) × KnownAt file.now from }
    ensures { Appended at (arc_bytes (beside_arc b (arc_of (drop from file.now)) i)) out.old out.new result }
{
    let f = Fields {
        source: byte(file, from) * b.scale + i * b.step,
        letter: 255,
        target: byte(file, from + 2) * b.scale + i * b.step,
    };
    let p = byte(file, from + 3);
    let ops = from + 4;
    write_arc(out, at, f, &file[ops..], p, b.shift)
}

// The empty move at a place of a file, beside each state, ascending. Cost: the bytes written.
fn write_beside_each(out: &mut [u8], at: usize, file: &[u8], from: usize, b: Beside) -> usize
    requires { (from + arc_size (drop from file.now) ≤ length file.now) × ((i : ℕ) → i < b.states → (arc_of (drop from file.now)).source * b.scale + i * b.step < 256) × ((i : ℕ) → i < b.states → (arc_of (drop from file.now)).target * b.scale + i * b.step < 256) × (b.shift ≤ 8) × (at + length (arcs_bytes (map (beside_arc b (arc_of (drop from file.now))) (count_from 0 b.states))) ≤ length out.old) × KnownAt file.now from }
    ensures { Appended at (arcs_bytes (map (beside_arc b (arc_of (drop from file.now))) (count_from 0 b.states))) out.old out.new result }
{
    let mut to = at;
    for i in 0..b.states {
        to = write_beside(out, to, file, from, b, i);
    }
    to
}

// Each empty move of a file with the counts c, beside each state. Cost: the file's arcs, and the bytes written.
pub fn write_empty_moves(out: &mut [u8], at: usize, c: Counts, file: &[u8], b: Beside) -> usize
    requires { (reading_of file.now ≡ Ok c) × ((s i : ℕ) → s < c.states → i < b.states → s * b.scale + i * b.step < 256) × (b.shift ≤ 8) × (at + length (arcs_bytes (empty_with (beside_arc b) b.states (automaton_of file.now).arcs)) ≤ length out.old) }
    ensures { Appended at (arcs_bytes (empty_with (beside_arc b) b.states (automaton_of file.now).arcs)) out.old out.new result }
{
    let mut to = at;
    let mut from = first_arc(c);
    for _i in 0..c.arcs {
        if byte(file, from + 1) == 255 {
            to = write_beside_each(out, to, file, from, b);
        }
        from += arc_size(file, from);
    }
    to
}
