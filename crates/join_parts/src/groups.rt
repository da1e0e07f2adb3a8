// Arcs that joins write: an added empty move, and those of a file with other states and registers.
ghost use Rattle.std.specs.Prelude.{◌≡◌, Ok, map, ◌+◌, ◌<◌, ◌≤◌, length, drop, get_or};
ghost use Rattle.automata.specs.Joins.{empty_move, moved_arc};
ghost use Rattle.file_fields.specs.Parts.{arc_size};
ghost use Rattle.format.specs.Reading.{reading_of};
ghost use Rattle.format.specs.Decoding.{arc_of, automaton_of};
ghost use Rattle.format.specs.Encoding.{arc_bytes, arcs_bytes};
ghost use Rattle.file_writing.specs.Placing.{Appended};
ghost use Rattle.file_arc_writing.specs.Arcs.{KnownOps};

use file_arc_writing::{Fields, write_arc, write_plain_arc};
use format::Counts;
use format::fields::{arc_size, byte, first_arc};

// An added empty move from state 0 to the state t. Cost: constant.
pub fn write_entry(out: &mut [u8], at: usize, t: usize) -> usize
    requires { (t < 256) × (at + 6 ≤ length out.old) }
    ensures { Appended at (arc_bytes (empty_move 0 t)) out.old out.new result }
{
    let f = Fields {
        source: 0,
        letter: 255,
        target: t,
    };
    write_plain_arc(out, at, f)
}

// The arc at a place of a file, its states moved by s, its registers from 1 up by k. Cost: its operations.
fn write_moved_arc(out: &mut [u8], at: usize, file: &[u8], from: usize, s: usize, k: usize) -> usize
    requires { (from + arc_size (drop from file.now) ≤ length file.now) × (s + (arc_of (drop from file.now)).source < 256) × (s + (arc_of (drop from file.now)).target < 256) × (k ≤ 8) × (at + arc_size (drop from file.now) ≤ length out.old) × KnownOps (get_or file.now (from + 3) 0) (drop (from + 4) file.now) }
    ensures { Appended at (arc_bytes (moved_arc s k (arc_of (drop from file.now)))) out.old out.new result }
{
    let f = Fields {
        source: s + byte(file, from),
        letter: byte(file, from + 1),
        target: s + byte(file, from + 2),
    };
    let p = byte(file, from + 3);
    let ops = from + 4;
    write_arc(out, at, f, &file[ops..], p, k)
}

// All arcs of a file with the counts c, their states moved by s, their registers from 1 up by k. Cost: their bytes.
pub fn write_moved_arcs(
    out: &mut [u8],
    at: usize,
    c: Counts,
    file: &[u8],
    s: usize,
    k: usize,
) -> usize
    requires { (reading_of file.now ≡ Ok c) × (s + c.states ≤ 256) × (k ≤ 8) × (at + length (arcs_bytes (map (moved_arc s k) (automaton_of file.now).arcs)) ≤ length out.old) }
    ensures { Appended at (arcs_bytes (map (moved_arc s k) (automaton_of file.now).arcs)) out.old out.new result }
{
    let mut from = first_arc(c);
    let mut to = at;
    for _i in 0..c.arcs {
        to = write_moved_arc(out, to, file, from, s, k);
        from += arc_size(file, from);
    }
    to
}
