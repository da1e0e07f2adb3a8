// line_counts: the line that tells how many words of one length are accepted and how many are not, written into bytes that the caller
// lends. Each function answers how many bytes the line takes, its newline included; what has no room is cut.
#![tactic(auto)]

ghost use Rattle.line_text.specs.Writing.{Writes};
ghost use Rattle.line_counts.specs.CountLines.{counted_line, word_count_line};

use count_promise::WordCount;
use format::Refusal;
use line_text::Line;

// The words that are accepted, then those that are not. Cost: the bytes written.
fn counted_line(accepted: u64, rejected: u64, out: &mut [u8]) -> usize
    ensures { Writes (counted_line accepted rejected) 0 result out.old out.new }
{
    let mut line = Line { out, at: 0 };
    line.put(b"counted");
    line.decimal_field(accepted);
    line.decimal_field(rejected);
    line.put_byte(b'\n');
    line.at
}

// What counting answers, as the program `cases` tells it. Cost: the bytes written.
pub fn word_count_line(r: Result<WordCount, Refusal>, out: &mut [u8]) -> usize
    ensures { Writes (word_count_line r) 0 result out.old out.new }
{
    match r {
        Ok(n) => counted_line(n.accepted, n.rejected, out),
        Err(refusal) => line_answers::refused_line(refusal, out),
    }
}
