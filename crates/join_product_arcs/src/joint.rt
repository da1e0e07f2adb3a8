// Joint arcs: each lettered arc of the first file with each arc of the second of its letter, the first's operations first.
ghost use Rattle.std.specs.Prelude.{◌≡◌, ◌+◌, ◌-◌, ◌*◌, ◌≤◌, length, drop};
ghost use Rattle.automata.specs.Joins.{arc_both, both_arcs};
ghost use Rattle.format.specs.Decoding.{arc_of, automaton_of};
ghost use Rattle.format.specs.Encoding.{arc_bytes, arcs_bytes};
ghost use Rattle.file_writing.specs.Placing.{Appended};
ghost use Rattle.join_parts.specs.OwnNumbers.{by_first};
ghost use Rattle.join_product_count.specs.ProductArcs.{FirstArc, Matchable, joint_with};
ghost use Rattle.join_product_arcs.specs.JointArcs.{KnownAt, Writable};

use file_arc_writing::{Fields, write_joint_arc};
use format::Counts;
use format::fields::{arc_size, byte, first_arc};
use join_product_count::other_letter;

// The arc at a place of the first file with the one at a place of the second, which has n states, and whose registers from 1 up
// move by k. Cost: the operations of both.
fn write_joint(
    out: &mut [u8],
    at: usize,
    first: &[u8],
    from: usize,
    second: &[u8],
    other: usize,
    n: usize,
    k: usize,
) -> usize
    requires { Writable n k first.now from second.now other × (at + length (arc_bytes (arc_both n k (arc_of (drop from first.now)) (arc_of (drop other second.now)))) ≤ length out.old) }
    ensures { Appended at (arc_bytes (arc_both n k (arc_of (drop from first.now)) (arc_of (drop other second.now)))) out.old out.new result }
{
    let f = Fields {
        source: byte(first, from) * n + byte(second, other),
        letter: byte(first, from + 1),
        target: byte(first, from + 2) * n + byte(second, other + 2),
    };
    let p = byte(first, from + 3);
    let q = byte(second, other + 3);
    let left = from + 4;
    let right = other + 4;
    write_joint_arc(out, at, f, &first[left..], p, &second[right..], q, k)
}

// The arc at a place of the first file with each arc of the second of its letter, which is found there by its number in the second; an empty
// move has none. Cost: the arcs of the second, and the bytes written.
fn write_joint_with(
    out: &mut [u8],
    at: usize,
    first: &[u8],
    from: usize,
    b: Counts,
    second: &[u8],
    others: &[u8],
    k: usize,
) -> usize
    requires { FirstArc b first.now second.now others.now from × ((arc_of (drop from first.now)).source * b.states + b.states ≤ 256) × ((arc_of (drop from first.now)).target * b.states + b.states ≤ 256) × (k ≤ 8) × (at + length (arcs_bytes (joint_with b.states k (by_first first.now others.now second.now).arcs (arc_of (drop from first.now)))) ≤ length out.old) × KnownAt first.now from }
    ensures { Appended at (arcs_bytes (joint_with b.states k (by_first first.now others.now second.now).arcs (arc_of (drop from first.now)))) out.old out.new result }
{
    let letter = byte(first, from + 1);
    if letter == 255 {
        return at;
    }
    let own = other_letter(first, others, letter) as usize;
    let mut to = at;
    let mut other = first_arc(b);
    for _i in 0..b.arcs {
        if own == byte(second, other + 1) {
            to = write_joint(out, to, first, from, second, other, b.states, k);
        }
        other += arc_size(second, other);
    }
    to
}

// All joint arcs of two files, by the numbers of the first file's letters; the second's registers from 1 up move by k, behind those of the
// first. Cost: for each arc of the first, the arcs of the second; and the bytes written.
pub fn write_joint_arcs(
    out: &mut [u8],
    at: usize,
    a: Counts,
    first: &[u8],
    b: Counts,
    second: &[u8],
    others: &[u8],
    k: usize,
) -> usize
    requires { Matchable a b first.now second.now others.now × (a.states * b.states ≤ 256) × (k ≡ a.registers - 1) × (at + length (arcs_bytes (both_arcs (automaton_of first.now) (by_first first.now others.now second.now))) ≤ length out.old) }
    ensures { Appended at (arcs_bytes (both_arcs (automaton_of first.now) (by_first first.now others.now second.now))) out.old out.new result }
{
    let mut to = at;
    let mut from = first_arc(a);
    for _i in 0..a.arcs {
        to = write_joint_with(out, to, first, from, b, second, others, k);
        from += arc_size(first, from);
    }
    to
}
