// join: union, concatenation, intersection and closure of automata in files (document 01, 'Joining books').
// Each call answers the length of the joined file, or the refusal. A refusal leaves the
// output as it was lent; else the joined file stands at its front, and the bytes behind it are as they were lent. Two files are joined over
// the letters of both (document 02, change 6): the joined file lists the first file's bytes and those of the second that match none of
// them, ascending, and its arcs have the numbers of their letters there. It is written by each file's own numbers first; where the two lists
// differ, the letters of both and their numbers are then put in. So files with the same letters pay no more than a few tests for it.
#![tactic(auto)]

ghost use Rattle.std.specs.Prelude.{◌≡◌, cond, ◌+◌, ◌≤◌, length};
ghost use Rattle.automata.specs.Joins.{union, concatenation, intersection, closure};
ghost use Rattle.format.specs.Decoding.{automaton_of};
ghost use Rattle.format.specs.Encoding.{bytes_of};
ghost use Rattle.file_writing.specs.Answers.{output_of};
ghost use Rattle.join_parts.specs.Joining.{join_of, joined_of, closed_of};

use file_pair::{count_letters, read_files};
use format::fields::flags_at;
use format::{Automaton, Counts, Reason, Refusal};
use join_parts::letters::put_letters;

// Where the second file's letters end that an intersection is lent: all of them where the lists differ, none where they agree, since the same
// numbers are the same letters then. Cost: constant.
fn others_end(agree: bool, b: Counts) -> usize
    requires { b.letters ≤ 64 }
    ensures end { result ≡ cond agree 12 (12 + b.letters) }
    ensures inside { (12 ≤ result) × (result ≤ 12 + b.letters) }
{
    if agree {
        return 12;
    }
    flags_at(b)
}

// Writes an automaton that accepts the words of either: a new state 0 with an empty move into each.
// Refuses, in this order: the first file's fault, as `format::read` tells it; the second's; 11, more than 64 letters together, or the
// joined automaton beyond a limit on states or arcs; 25, the output shorter than the result.
// Cost: what reading each file takes, and one pass to write it; where the lists do not agree, also the pairs of letters and one pass over the
// arcs written.
pub fn union(first: &[u8], second: &[u8], out: &mut [u8]) -> Result<usize, Refusal>
    ensures answer { result ≡ joined_of union first.now second.now (length out.old) }
    ensures output { out.new ≡ output_of result (bytes_of (join_of union first.now second.now)) out.old }
{
    let pair = read_files(first, second)?;
    let letters = count_letters(pair.agree, pair.first, first, pair.second, second);
    if 64 < letters {
        return Err(Reason::JoinedBeyondALimit.of_call());
    }
    let size = join_union::unite(out, pair.first, first, pair.second, second, letters)?;
    if pair.agree {
        return Ok(size);
    }
    put_letters(out, first, second, true);
    Ok(size)
}

// Writes an automaton that accepts the words of the first, each followed by a word of the second: from each final state of the
// first an empty move to the initial state of the second, which has registers of its own.
// Refuses, in this order: the first file's fault, as `format::read` tells it; the second's; 11, more than 64 letters together, or the
// joined automaton beyond a limit on states, registers or arcs; 25, the output shorter than the result.
// Cost: what reading each file takes, and one pass to write it; where the lists do not agree, also the pairs of letters and one pass over the
// arcs written.
pub fn concatenate(first: &[u8], second: &[u8], out: &mut [u8]) -> Result<usize, Refusal>
    ensures answer { result ≡ joined_of concatenation first.now second.now (length out.old) }
    ensures output { out.new ≡ output_of result (bytes_of (join_of concatenation first.now second.now)) out.old }
{
    let pair = read_files(first, second)?;
    let letters = count_letters(pair.agree, pair.first, first, pair.second, second);
    if 64 < letters {
        return Err(Reason::JoinedBeyondALimit.of_call());
    }
    let size = join_concatenation::append(out, pair.first, first, pair.second, second, letters)?;
    if pair.agree {
        return Ok(size);
    }
    put_letters(out, first, second, true);
    Ok(size)
}

// Writes an automaton that accepts the words of both: its states are the pairs of theirs, and it has the registers of both.
// Refuses, in this order: the first file's fault, as `format::read` tells it; the second's; 11, more than 64 letters together, or the
// joined automaton beyond a limit on states, registers, arcs or operations of an arc; 25, the output shorter than the result.
// Cost: what reading each file takes, one pass over the pairs of arcs to count (none where states or registers are too many), one to write;
// where the lists do not agree, also the pairs of letters, for each arc of the first the letters of the second, and one pass over the arcs
// written.
pub fn intersect(first: &[u8], second: &[u8], out: &mut [u8]) -> Result<usize, Refusal>
    ensures answer { result ≡ joined_of intersection first.now second.now (length out.old) }
    ensures output { out.new ≡ output_of result (bytes_of (join_of intersection first.now second.now)) out.old }
{
    let pair = read_files(first, second)?;
    let letters = count_letters(pair.agree, pair.first, first, pair.second, second);
    if 64 < letters {
        return Err(Reason::JoinedBeyondALimit.of_call());
    }
    let end = others_end(pair.agree, pair.second);
    let others = &second[12..end];
    let size = join_intersection::product(
        out,
        pair.first,
        first,
        pair.second,
        second,
        others,
        letters,
    )?;
    if pair.agree {
        return Ok(size);
    }
    put_letters(out, first, second, false);
    Ok(size)
}

// Writes an automaton that accepts the finite sequences of the file's words: a new state 0, initial and final, an empty move
// to the old initial state, and from each final state an empty move back to it, which clears the registers.
// Refuses, in this order: the file's fault, as `format::read` tells it; 11, the joined automaton beyond a limit on states or arcs; 25,
// the output shorter than the result. Cost: what reading the file takes, and one pass to write it.
pub fn close(file: &[u8], out: &mut [u8]) -> Result<usize, Refusal>
    ensures answer { result ≡ closed_of file.now (length out.old) }
    ensures output { out.new ≡ output_of result (bytes_of (closure (automaton_of file.now))) out.old }
{
    let reading = format::read(file);
    let Ok(a) = reading else {
        return Err(reading.unwrap_err().reason.of(Automaton::First));
    };
    join_closure::repeat(out, a, file)
}
