// line_ranges: the line that tells what is answered of a word with ranges, written into bytes that the caller lends. The function answers
// how many bytes the line takes, its newline included; what has no room is cut.
#![tactic(auto)]

ghost use Rattle.line_text.specs.Writing.{Writes};
ghost use Rattle.line_ranges.specs.RangeLines.{ranged_line};

use format::Refusal;
use line_text::Line;
use ranges_promise::Fillings;

// A line of these bytes alone. Cost: the bytes written.
fn word_line(text: &[u8], out: &mut [u8]) -> usize
    ensures { Writes text.now 0 result out.old out.new }
{
    let mut line = Line { out, at: 0 };
    line.put(text);
    line.at
}

// What is answered of a word with ranges, as the program `cases` tells it. Cost: the bytes written.
pub fn ranged_line(answer: Result<Fillings, Refusal>, out: &mut [u8]) -> usize
    ensures { Writes (ranged_line answer) 0 result out.old out.new }
{
    match answer {
        Ok(Fillings::Always) => word_line(b"always\n", out),
        Ok(Fillings::Sometimes) => word_line(b"sometimes\n", out),
        Ok(Fillings::Never) => word_line(b"never\n", out),
        Err(refusal) => line_answers::refused_line(refusal, out),
    }
}
