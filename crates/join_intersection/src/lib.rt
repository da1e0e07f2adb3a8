// join_intersection: the intersection of two automata in files (document 01, 'Joining books'). Its arcs are counted first, so that a
// result beyond a limit is refused before anything is written; and they are counted only where states and registers are few enough. It has
// the numbers of the first file's letters, and room for the letters of both (document 02, change 6).
#![tactic(auto)]

ghost use Rattle.std.specs.Prelude.{◌≡◌, List, [], ℕ, ◌+◌, ◌*◌, ◌≤◌, length};
ghost use Rattle.automata.specs.Automaton.{Automaton};
ghost use Rattle.automata.specs.Joins.{intersection};
ghost use Rattle.relettering.specs.Relettering.{with_letters};
ghost use Rattle.format.specs.Decoding.{automaton_of};
ghost use Rattle.format.specs.Encoding.{sizes, arcs_bytes, bytes_of};
ghost use Rattle.format.specs.Limits.{Ranges};
ghost use Rattle.file_writing.specs.Placing.{Appended};
ghost use Rattle.file_writing.specs.Answers.{output_of};
ghost use Rattle.file_pair.specs.Pair.{Joinable, letters_of};
ghost use Rattle.join_parts.specs.Joining.{join_of, written_of};
ghost use Rattle.join_parts.specs.OwnNumbers.{Others, by_first, roomy};
ghost use Rattle.join_product_count.specs.ProductArcs.{Matchable, product_of, with_arcs};

use finals::write_both_flags;
use format::{Counts, Reason, Refusal};
use join_parts::answer::{decide, is_beyond};
use join_parts::flags::write_roomy_front;
use join_product_arcs::beside::{Beside, write_empty_moves};
use join_product_arcs::joint::write_joint_arcs;
use join_product_count::count_arcs;

mod finals;

// The counts of the intersection of automata with these counts, with room for this many letters, but this many arcs. Cost: constant.
fn product_counts(a: Counts, b: Counts, letters: usize, arcs: usize) -> Counts
    requires { Ranges a × Ranges b × (a.letters ≤ letters) }
    ensures { (x y : Automaton) (new : List ℕ) → sizes x ≡ a → sizes y ≡ b → with_arcs arcs (sizes (roomy letters (intersection x (with_letters new [] y)))) ≡ result }
{
    Counts {
        letters,
        states: a.states * b.states,
        registers: a.registers + b.registers - 1,
        symbols: a.symbols.max(b.symbols),
        arcs,
    }
}

// The arcs of the intersection: joint arcs, the empty moves of the first, then those of the second.
// Cost: for each arc of the first, the arcs of the second; and the bytes written.
fn write_product_arcs(
    out: &mut [u8],
    at: usize,
    a: Counts,
    first: &[u8],
    b: Counts,
    second: &[u8],
    others: &[u8],
) -> usize
    requires { Matchable a b first.now second.now others.now × (a.states * b.states ≤ 256) × (at + length (arcs_bytes (product_of first.now others.now second.now).arcs) ≤ length out.old) }
    ensures { Appended at (arcs_bytes (product_of first.now others.now second.now).arcs) out.old out.new result }
{
    let shift = a.registers - 1;
    let left = Beside {
        states: b.states,
        scale: b.states,
        step: 1,
        shift: 0,
    };
    let right = Beside {
        states: a.states,
        scale: 1,
        step: b.states,
        shift,
    };
    let lefts = write_joint_arcs(out, at, a, first, b, second, others, shift);
    let rights = write_empty_moves(out, lefts, a, first, left);
    write_empty_moves(out, rights, b, second, right)
}

// The whole intersection, with the counts c: room for c's letters. Cost: that of `write_product_arcs`.
fn write_product(
    out: &mut [u8],
    c: Counts,
    a: Counts,
    first: &[u8],
    b: Counts,
    second: &[u8],
    others: &[u8],
) -> usize
    requires { Matchable a b first.now second.now others.now × Ranges c × (a.letters ≤ c.letters) × (sizes (roomy c.letters (product_of first.now others.now second.now)) ≡ c) × (length (bytes_of (roomy c.letters (product_of first.now others.now second.now))) ≤ length out.old) }
    ensures { Appended 0 (bytes_of (roomy c.letters (product_of first.now others.now second.now))) out.old out.new result }
{
    let flags = write_roomy_front(out, c, a, first);
    let arcs = write_both_flags(out, flags, a, first, b, second);
    write_product_arcs(out, arcs, a, first, b, second, others)
}

// The intersection of two valid files, by the numbers of the first's letters, with room for the letters of both, which are so many; the
// second's letters are lent to match them, or none where the lists agree. Answers its length, or 11, beyond a limit on states, registers,
// arcs or operations of an arc, or 25, the output shorter than the result; a refusal leaves the output as it was. Cost: where states and
// registers alone are beyond a limit, constant; else for each arc of the first the arcs of the second to count them, and as many again and
// the bytes written to write it; and for each arc of the first the letters lent.
pub fn product(
    out: &mut [u8],
    a: Counts,
    first: &[u8],
    b: Counts,
    second: &[u8],
    others: &[u8],
    letters: usize,
) -> Result<usize, Refusal>
    requires { Joinable a b first.now second.now × (letters ≡ length (letters_of first.now second.now)) × Others first.now second.now others.now }
    ensures answer { result ≡ written_of (join_of intersection first.now second.now) (length out.old) }
    ensures output { out.new ≡ output_of result (bytes_of (roomy letters (intersection (automaton_of first.now) (by_first first.now others.now second.now)))) out.old }
{
    if is_beyond(product_counts(a, b, letters, 0)) {
        return Err(Reason::JoinedBeyondALimit.of_call());
    }
    let t = count_arcs(a, first, b, second, others);
    if t.many {
        return Err(Reason::JoinedBeyondALimit.of_call());
    }
    let c = product_counts(a, b, letters, t.arcs);
    let size = 12 + c.letters + c.states + t.size;
    let length = decide(c, size, out.len())?;
    write_product(out, c, a, first, b, second, others);
    Ok(length)
}
