// file_arc_writing: the bytes of an arc: four bytes, and the operations written behind the four bytes already there.
#![tactic(auto)]

ghost use Rattle.std.specs.Prelude.{◌≡◌, ◌∷◌, [], map, ◌++◌, ℕ, ◌+◌, ◌*◌, ◌<◌, ◌≤◌, length};
ghost use Rattle.automata.specs.Automaton.{writes};
ghost use Rattle.automata.specs.Lists.{count_from};
ghost use Rattle.automata.specs.Unfolding.{read_zero};
ghost use Rattle.automata.specs.Joins.{moved_op, clearing};
ghost use Rattle.format.specs.Decoding.{op_of, ops_of};
ghost use Rattle.format.specs.Encoding.{op_bytes, ops_bytes, arc_bytes};
ghost use Rattle.file_writing.specs.Placing.{placed, Appended};
ghost use Rattle.file_arc_writing.specs.Arcs.{AreBytes, KnownOps, arc_with};

use format::fields::{byte, operation_register};

// The first three bytes of an arc: from-state, letter (255 is the empty move), to-state.
#[derive(Clone, Copy)]
pub struct Fields {
    pub source: usize,
    pub letter: usize,
    pub target: usize,
}

// The four bytes of an arc with p operations. Cost: constant.
fn write_fields(out: &mut [u8], at: usize, f: Fields, p: usize) -> usize
    requires { AreBytes f × (p < 256) × (at + 4 ≤ length out.old) }
    ensures { Appended at (f.source ∷ f.letter ∷ f.target ∷ p ∷ []) out.old out.new result }
{
    out[at] = f.source as u8;
    out[at + 1] = f.letter as u8;
    out[at + 2] = f.target as u8;
    out[at + 3] = p as u8;
    at + 4
}

// The first byte of the operation with the first byte x, a read or a write, its register moved by k if it is 1 or above. Cost: constant.
fn moved_operation(x: usize, k: usize) -> usize
    requires { (x < 32) × (k ≤ 8) }
    ensures { ((y : ℕ) → op_bytes (moved_op k (op_of x y)) ≡ result ∷ y ∷ []) × (result < 40) }
{
    if operation_register(x) == 0 { x } else { x + k }
}

// At the front of the output the p operations at the front of `ops`, their registers moved. Cost: p.
fn write_ops(out: &mut [u8], ops: &[u8], p: usize, k: usize)
    requires { (k ≤ 8) × (2 * p ≤ length ops.now) × (2 * p ≤ length out.old) × KnownOps p ops.now }
    ensures { out.new ≡ placed 0 (ops_bytes (map (moved_op k) (ops_of p ops.now))) out.old }
{
    for i in 0..p {
        let first = moved_operation(byte(ops, 2 * i), k);
        out[2 * i] = first as u8;
        out[2 * i + 1] = ops[2 * i + 1];
    }
}

// At the front of the output the read of register 0. Cost: constant.
fn write_read(out: &mut [u8])
    requires { 2 ≤ length out.old }
    ensures { out.new ≡ placed 0 (ops_bytes read_zero) out.old }
{
    out[0] = 0;
    out[1] = 0;
}

// At the front of the output p operations, which write 0 to the registers 1 to p. Cost: p.
fn write_clearing(out: &mut [u8], p: usize)
    requires { (p ≤ 8) × (2 * p ≤ length out.old) }
    ensures { out.new ≡ placed 0 (ops_bytes (map (λ (i : ℕ). writes i 0) (count_from 1 p))) out.old }
{
    for i in 0..p {
        out[2 * i] = (17 + i) as u8;
        out[2 * i + 1] = 0;
    }
}

// An arc whose operations are the p at the front of `ops`, their registers from 1 up moved by k. Refuses nothing. Cost: p.
pub fn write_arc(out: &mut [u8], at: usize, f: Fields, ops: &[u8], p: usize, k: usize) -> usize
    requires { AreBytes f × (p < 256) × (k ≤ 8) × (2 * p ≤ length ops.now) × (at + (4 + 2 * p) ≤ length out.old) × KnownOps p ops.now }
    ensures { Appended at (arc_bytes (arc_with f (map (moved_op k) (ops_of p ops.now)))) out.old out.new result }
{
    write_fields(out, at, f, p);
    write_ops(&mut out[at + 4..], ops, p, k);
    at + 4 + 2 * p
}

// An arc with the operations of two: the p at the front of `left` as they are, then the q at the front of `right`, their
// registers from 1 up moved by k. Refuses nothing. Cost: p + q.
pub fn write_joint_arc(
    out: &mut [u8],
    at: usize,
    f: Fields,
    left: &[u8],
    p: usize,
    right: &[u8],
    q: usize,
    k: usize,
) -> usize
    requires { AreBytes f × (p + q < 256) × (k ≤ 8) × (2 * p ≤ length left.now) × (2 * q ≤ length right.now) × (at + (4 + 2 * (p + q)) ≤ length out.old) × KnownOps p left.now × KnownOps q right.now }
    ensures { Appended at (arc_bytes (arc_with f (ops_of p left.now ++ map (moved_op k) (ops_of q right.now)))) out.old out.new result }
{
    write_fields(out, at, f, p + q);
    write_ops(&mut out[at + 4..], left, p, 0);
    write_ops(&mut out[at + 4 + 2 * p..], right, q, k);
    at + 4 + 2 * p + 2 * q
}

// An arc whose one operation is the read of register 0: an added empty move, or a plain arc. Refuses nothing. Cost: constant.
pub fn write_plain_arc(out: &mut [u8], at: usize, f: Fields) -> usize
    requires { AreBytes f × (at + 6 ≤ length out.old) }
    ensures { Appended at (arc_bytes (arc_with f read_zero)) out.old out.new result }
{
    write_fields(out, at, f, 1);
    write_read(&mut out[at + 4..]);
    at + 6
}

// An arc whose operations write 0 to the registers 1 to n - 1; with one register, the read of register 0. Refuses nothing. Cost: n.
pub fn write_clearing_arc(out: &mut [u8], at: usize, f: Fields, n: usize) -> usize
    requires { AreBytes f × (n ≤ 8) × (at + (4 + 2 * length (clearing n)) ≤ length out.old) }
    ensures { Appended at (arc_bytes (arc_with f (clearing n))) out.old out.new result }
{
    if n < 2 {
        return write_plain_arc(out, at, f);
    }
    let p = n - 1;
    write_fields(out, at, f, p);
    write_clearing(&mut out[at + 4..], p);
    at + 4 + 2 * p
}
