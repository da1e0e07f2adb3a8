// scanner: reading a file and judging words by it, with answers as other languages take them; scanner_c makes it a static library for
// programs that need nothing else, and registered_automata has the same functions among its own. c/registered_automata.h says what a caller
// needs to know of each.
#![tactic(auto)]

ghost use Rattle.std.specs.Prelude.{◌≡◌, length};
ghost use Rattle.format.specs.Reading.{reading_of};
ghost use Rattle.table.specs.Membership.{membership_of};
ghost use Rattle.table_words.specs.Words.{answered, answers_of, judged_of, words_in};
ghost use Rattle.scanner.specs.Results.{reading_fields, membership_fields, judged_fields};

use results::{Membership, Reading, WordsJudged};

pub mod results;

// Is the file valid? Refusals and cost: `format::read`.
pub fn ra_read(file: &[u8]) -> Reading
    ensures { result ≡ reading_fields (reading_of file.now) }
{
    format::read(file).into()
}

// Does the automaton of the file accept the word? Refusals and cost: `table::accepts`.
pub fn ra_accepts(file: &[u8], word: &[u8], work: &mut [u64]) -> Membership
    ensures same { length work.new ≡ length work.old }
    ensures answer { result ≡ membership_fields (membership_of file.now word.now (length work.old)) }
{
    table::accepts(file, word, work).into()
}

// Which words, one behind the other and each with the separator behind it, does the automaton of the file accept? Refusals and cost:
// `table_words::accepts_words`.
pub fn ra_accepts_words(
    file: &[u8],
    words: &[u8],
    separator: u8,
    work: &mut [u64],
    answers: &mut [u64],
) -> WordsJudged
    ensures same { length work.new ≡ length work.old }
    ensures answer { result ≡ judged_fields (judged_of file.now words.now separator (length work.old) (length answers.old)) }
    ensures answers { answers.new ≡ answered (judged_of file.now words.now separator (length work.old) (length answers.old)) (answers_of file.now (words_in separator (length answers.old) words.now) (length work.old)) answers.old }
{
    table_words::accepts_words(file, words, separator, work, answers).into()
}
