// The letters of both files put into a joined file that stands in the output by the files' own numbers.
ghost use Rattle.std.specs.Prelude.{◌≡◌, cond, List, ◌++◌, ℕ, ◌+◌, ◌≤◌, length, drop, take};
ghost use Rattle.automata.specs.Automaton.{Automaton};
ghost use Rattle.automata.specs.Words.{places};
ghost use Rattle.file_fields.specs.Parts.{counts_of};
ghost use Rattle.format.specs.Decoding.{automaton_of};
ghost use Rattle.format.specs.Encoding.{bytes_of};
ghost use Rattle.format.specs.Placed.{whole};
ghost use Rattle.file_pair.specs.Pair.{Joinable, letters_of};
ghost use Rattle.join_parts.specs.OwnNumbers.{Standing, last_arcs, letters_put, relettered_bytes, roomy};

use file_fields::header::read_counts;
use file_letters::numbering::new_letter;
use file_pair::letter_files;
use file_writing::parts::write_copy;
use format::Counts;
use format::fields::{arc_size, byte, first_arc};

// The arcs at a place with the new numbers of their letters, each where it stands. Cost: the arcs.
fn reletter_arcs(out: &mut [u8], at: usize, count: usize, new: &[u8]) -> usize
    requires { at + whole count (drop at out.old) ≤ length out.old }
    ensures place { result ≡ at + whole count (drop at out.old) }
    ensures output { out.new ≡ take at out.old ++ relettered_bytes count new.now (drop at out.old) }
{
    let mut from = at;
    for _i in 0..count {
        let letter = new_letter(new, byte(out, from + 1));
        out[from + 1] = letter as u8;
        from += arc_size(out, from);
    }
    from
}

// How many arcs at the end of a joined file are those of a file with the counts c: all, where `of_second` says so, or none. Cost: constant.
fn last_arcs(of_second: bool, c: Counts) -> usize
    ensures { result ≡ cond of_second c.arcs 0 }
{
    if of_second { c.arcs } else { 0 }
}

// The letters of both files at their place in a joined file, and their numbers on its arcs: the last ones, as many as the second file has,
// by the second file's, where `of_second` says so, and all others by the first's. Counts are read from the headers, so that a call need not
// keep them until here. Refuses nothing. Cost: the pairs of letters, and the joined file's arcs.
pub fn put_letters(out: &mut [u8], first: &[u8], second: &[u8], of_second: bool)
    requires { Joinable (counts_of first.now) (counts_of second.now) first.now second.now × Standing first.now second.now of_second out.old }
    ensures { (z : Automaton) (behind : List ℕ) → out.old ≡ bytes_of (roomy (length (letters_of first.now second.now)) z) ++ behind → length z.alphabet ≤ length (letters_of first.now second.now) → last_arcs of_second second.now ≤ length z.arcs → out.new ≡ bytes_of (letters_put (last_arcs of_second second.now) (places (letters_of first.now second.now) (automaton_of first.now).alphabet) (places (letters_of first.now second.now) (automaton_of second.now).alphabet) (letters_of first.now second.now) z) ++ behind }
{
    let a = read_counts(first);
    let b = read_counts(second);
    let c = read_counts(out);
    let m = a.letters;
    let n = b.letters;
    let l = letter_files(a, first, b, second);
    let count = l.count;
    let one = l.first;
    let two = l.second;
    let letters = l.letters;
    write_copy(out, 12, &letters[0..count]);
    let last = last_arcs(of_second, b);
    let middle = reletter_arcs(out, first_arc(c), c.arcs - last, &one[0..m]);
    reletter_arcs(out, middle, last, &two[0..n]);
}
