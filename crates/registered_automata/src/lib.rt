// registered_automata: the calls for programs in C, Rust and other languages; registered_automata_c makes them a static library.
// c/registered_automata.h says what a caller needs to know of each. Reading and membership are those of the crate `scanner`, which is such a
// library by itself in scanner_c.
#![tactic(auto)]

ghost use Rattle.std.specs.Prelude.{◌≡◌, length};
ghost use Rattle.automata.specs.Joins.{union, concatenation, intersection, closure};
ghost use Rattle.automata.specs.Unfolding.{unfolded};
ghost use Rattle.format.specs.Decoding.{automaton_of};
ghost use Rattle.format.specs.Encoding.{bytes_of};
ghost use Rattle.format.specs.Reading.{reading_of};
ghost use Rattle.table.specs.Membership.{membership_of};
ghost use Rattle.table_words.specs.Words.{answered, answers_of, judged_of, words_in};
ghost use Rattle.scanner.specs.Results.{reading_fields, membership_fields, judged_fields};
ghost use Rattle.file_writing.specs.Answers.{output_of};
ghost use Rattle.join_parts.specs.Joining.{closed_of, join_of, joined_of};
ghost use Rattle.unfold.specs.Unfolding.{unfolding_of};
ghost use Rattle.compare_promise.specs.Comparing.{buffer_of, comparison_of, shown_word};
ghost use Rattle.count_promise.specs.WordCounts.{word_count_of};
ghost use Rattle.ranges_promise.specs.RangeAnswers.{ranged_of};
ghost use Rattle.registered_automata.specs.Results.{written_fields, comparison_fields, word_count_fields, ranged_fields};

use results::{Comparison, Ranged, WordCount, Written};
use scanner::results::{Membership, Reading, WordsJudged};

pub mod results;

// Is the file valid? Refusals and cost: `format::read`.
pub fn ra_read(file: &[u8]) -> Reading
    ensures { result ≡ reading_fields (reading_of file.now) }
{
    scanner::ra_read(file)
}

// Does the automaton of the file accept the word? Refusals and cost: `table::accepts`.
pub fn ra_accepts(file: &[u8], word: &[u8], work: &mut [u64]) -> Membership
    ensures same { length work.new ≡ length work.old }
    ensures answer { result ≡ membership_fields (membership_of file.now word.now (length work.old)) }
{
    scanner::ra_accepts(file, word, work)
}

// Which words, one behind the other and each with the separator behind it, does the automaton of the file accept? Refusals and cost:
// `table_words::accepts_words`.
pub fn ra_accepts_words(
    file: &[u8],
    words: &[u8],
    separator: u8,
    work: &mut [u64],
    answers: &mut [u64],
) -> WordsJudged
    ensures same { length work.new ≡ length work.old }
    ensures answer { result ≡ judged_fields (judged_of file.now words.now separator (length work.old) (length answers.old)) }
    ensures answers { answers.new ≡ answered (judged_of file.now words.now separator (length work.old) (length answers.old)) (answers_of file.now (words_in separator (length answers.old) words.now) (length work.old)) answers.old }
{
    scanner::ra_accepts_words(file, words, separator, work, answers)
}

// Writes the automaton without registers that accepts the same words. Refusals and cost: `unfold::unfold`.
pub fn ra_unfold(file: &[u8], work: &mut [u64], out: &mut [u8]) -> Written
    ensures same { length work.new ≡ length work.old }
    ensures answer { result ≡ written_fields (unfolding_of file.now (length work.old) (length out.old)) }
    ensures output { out.new ≡ output_of (unfolding_of file.now (length work.old) (length out.old)) (bytes_of (unfolded (automaton_of file.now) 256)) out.old }
{
    unfold::unfold(file, work, out).into()
}

// Writes the union of the two automata. Refusals and cost: `join::union`.
pub fn ra_union(first: &[u8], second: &[u8], out: &mut [u8]) -> Written
    ensures answer { result ≡ written_fields (joined_of union first.now second.now (length out.old)) }
    ensures output { out.new ≡ output_of (joined_of union first.now second.now (length out.old)) (bytes_of (join_of union first.now second.now)) out.old }
{
    join::union(first, second, out).into()
}

// Writes the concatenation of the two automata. Refusals and cost: `join::concatenate`.
pub fn ra_concatenate(first: &[u8], second: &[u8], out: &mut [u8]) -> Written
    ensures answer { result ≡ written_fields (joined_of concatenation first.now second.now (length out.old)) }
    ensures output { out.new ≡ output_of (joined_of concatenation first.now second.now (length out.old)) (bytes_of (join_of concatenation first.now second.now)) out.old }
{
    join::concatenate(first, second, out).into()
}

// Writes the intersection of the two automata. Refusals and cost: `join::intersect`.
pub fn ra_intersect(first: &[u8], second: &[u8], out: &mut [u8]) -> Written
    ensures answer { result ≡ written_fields (joined_of intersection first.now second.now (length out.old)) }
    ensures output { out.new ≡ output_of (joined_of intersection first.now second.now (length out.old)) (bytes_of (join_of intersection first.now second.now)) out.old }
{
    join::intersect(first, second, out).into()
}

// Writes the closure of the automaton. Refusals and cost: `join::close`.
pub fn ra_close(file: &[u8], out: &mut [u8]) -> Written
    ensures answer { result ≡ written_fields (closed_of file.now (length out.old)) }
    ensures output { out.new ≡ output_of (closed_of file.now (length out.old)) (bytes_of (closure (automaton_of file.now))) out.old }
{
    join::close(file, out).into()
}

// Do the two accept the same words? Else the first word that exactly one accepts is shown. Refusals and cost: `compare::compare`.
pub fn ra_compare(first: &[u8], second: &[u8], work: &mut [u64], word: &mut [u8]) -> Comparison
    ensures same { length work.new ≡ length work.old }
    ensures answer { result ≡ comparison_fields (comparison_of first.now second.now (length work.old) (length word.old)) }
    ensures shown { word.new ≡ buffer_of (comparison_of first.now second.now (length work.old) (length word.old)) (shown_word first.now second.now) word.old }
{
    compare::compare(first, second, work, word).into()
}

// How many words of `size` letters does the automaton of the file accept, and how many not? Refusals and cost: `count::count_words`.
pub fn ra_count_words(file: &[u8], size: u64, work: &mut [u64]) -> WordCount
    ensures same { length work.new ≡ length work.old }
    ensures answer { result ≡ word_count_fields (word_count_of file.now size (length work.old)) }
{
    count::count_words(file, size, work).into()
}

// Of a word of which each letter is known only to lie in a range: does the automaton of the file accept every filling, some, or none?
// Refusals and cost: `ranges::accepts_ranges`.
pub fn ra_accepts_ranges(file: &[u8], places: &[u8], work: &mut [u64]) -> Ranged
    ensures same { length work.new ≡ length work.old }
    ensures answer { result ≡ ranged_fields (ranged_of file.now places.now (length work.old)) }
{
    ranges::accepts_ranges(file, places, work).into()
}
