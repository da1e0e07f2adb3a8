// line_comparison: the line that tells what comparing answers, written into bytes that the caller lends.
// Each function answers how many bytes the line takes, its newline included; what has no room is cut.
#![tactic(auto)]

ghost use Rattle.std.specs.Prelude.{◌≤◌, length};
ghost use Rattle.line_text.specs.Writing.{Writes};
ghost use Rattle.line_comparison.specs.ComparisonLines.{comparison_case_line, comparison_line, different_line, line_of, same_told, taker_line, told_line};

use compare::Comparison;
use line_text::Line;

// The words of a line: that the two accept the same, what ends that line, which automaton accepts the shown word, and that they are refused.
#[derive(Clone, Copy)]
struct Words<'a> {
    same: &'a [u8],
    end: &'a [u8],
    first: &'a [u8],
    second: &'a [u8],
    refused: &'a [u8],
}

// The two accept the same words. Cost: the bytes of the line.
fn same_line(answer: &[u8], pairs: u64, end: &[u8], out: &mut [u8]) -> usize
    ensures { Writes (same_told answer.now pairs end.now) 0 result out.old out.new }
{
    let mut line = Line { out, at: 0 };
    line.put(answer);
    line.decimal_field(pairs);
    line.put(end);
    line.at
}

// The two differ: a word for that, the number of pairs, and the n bytes at the front of `word`, or all where there are fewer.
// Cost: the bytes of the line.
fn different_line(answer: &[u8], pairs: u64, word: &[u8], n: usize, out: &mut [u8]) -> usize
    ensures { Writes (different_line answer.now pairs word.now n) 0 result out.old out.new }
{
    let mut line = Line { out, at: 0 };
    line.put(answer);
    line.decimal_field(pairs);
    line.front_field(word, n);
    line.put_byte(b'\n');
    line.at
}

// The same, where the answer is `one` if automaton 1 accepts the word, else `two`. Cost: the bytes of the line.
fn taker_line(
    one: &[u8],
    two: &[u8],
    taker: u8,
    pairs: u64,
    word: &[u8],
    n: usize,
    out: &mut [u8],
) -> usize
    ensures { Writes (taker_line one.now two.now taker pairs word.now n) 0 result out.old out.new }
{
    if taker == 1 {
        return different_line(one, pairs, word, n, out);
    }
    different_line(two, pairs, word, n, out)
}

// What comparing answers, in these words; the shown word stands at the front of `word`. Cost: the bytes of the line.
fn told_line(words: Words, r: Comparison, word: &[u8], out: &mut [u8]) -> usize
    ensures { Writes (told_line words.entry.same.now words.entry.end.now words.entry.first.now words.entry.second.now words.entry.refused.now r word.now) 0 result out.old out.new }
{
    match r {
        Comparison::Same(pairs) => same_line(words.same, pairs, words.end, out),
        Comparison::Different {
            pairs,
            taker,
            length,
        } => taker_line(words.first, words.second, taker, pairs, word, length, out),
        Comparison::Refused(refusal) => {
            let number = refusal.reason.number();
            let automaton = refusal.automaton_number();
            line_answers::refusal_line(words.refused, number, automaton, out)
        }
    }
}

// What comparing answers, as the program `bookcompare` tells it; the shown word stands at the front of `word`.
// Cost: the bytes of the line.
pub fn answer_line(r: Comparison, word: &[u8], out: &mut [u8]) -> usize
    ensures { Writes (comparison_line r word.now) 0 result out.old out.new }
{
    let words = Words {
        same: b"SAME",
        end: b" -\n",
        first: b"TAKES1",
        second: b"TAKES2",
        refused: b"REFUSED",
    };
    told_line(words, r, word, out)
}

// What comparing answers, as the program `cases` tells it; the shown word stands at the front of `word`.
// Cost: the bytes of the line.
pub fn case_line(r: Comparison, word: &[u8], out: &mut [u8]) -> usize
    ensures { Writes (comparison_case_line r word.now) 0 result out.old out.new }
{
    let words = Words {
        same: b"same",
        end: b"\n",
        first: b"takes1",
        second: b"takes2",
        refused: b"refused",
    };
    told_line(words, r, word, out)
}

// Compares two files with the working memory lent, and writes the line of the answer.
// Cost: that of comparing, and the bytes of the line.
fn compared_line(
    first: &[u8],
    second: &[u8],
    work: &mut [u64; 8192],
    word: &mut [u8; 512],
    out: &mut [u8],
) -> usize
    ensures writes { Writes (line_of first.now second.now) 0 result out.old out.new }
    ensures short { length (line_of first.now second.now) ≤ 1036 }
{
    let r = compare::compare(first, second, work, word);
    answer_line(r, word, out)
}

// The line that `bookcompare` writes of two files: they accept the same words, or the first word that exactly one accepts, or a refusal.
// Any files are answered, and no line is cut where the output has 1,036 bytes. Cost: that of comparing, whose working memory lies on the
// stack, 66,048 bytes.
pub fn comparison_line(first: &[u8], second: &[u8], out: &mut [u8]) -> usize
    ensures writes { Writes (line_of first.now second.now) 0 result out.old out.new }
    ensures short { length (line_of first.now second.now) ≤ 1036 }
{
    let mut work = [0u64; 8192];
    let mut word = [0u8; 512];
    compared_line(first, second, &mut work, &mut word, out)
}
