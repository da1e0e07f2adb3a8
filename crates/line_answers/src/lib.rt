// line_answers: the line that tells an answer, written into bytes that the caller lends.
// Each function answers how many bytes the line takes, its newline included; what has no room is cut.
#![tactic(auto)]

ghost use Rattle.line_text.specs.Writing.{Writes};
ghost use Rattle.file_fields.specs.Parts.{automaton_number, number_of};
ghost use Rattle.line_answers.specs.Lines.{refusal_line, refused_line, valid_line, reading_line, count_line, membership_line, wrote_line, written_line};

use format::{Automaton, Counts, Fault, Refusal};
use line_text::Line;
use table::Membership;

// A refusal: a word for it, its number, and the automaton at fault. Cost: the bytes written.
pub fn refusal_line(answer: &[u8], number: u8, automaton: u8, out: &mut [u8]) -> usize
    ensures { Writes (refusal_line answer.now number automaton) 0 result out.old out.new }
{
    let mut line = Line { out, at: 0 };
    line.put(answer);
    line.decimal_field(u64::from(number));
    line.decimal_field(u64::from(automaton));
    line.put_byte(b'\n');
    line.at
}

// A refusal, as the program `cases` tells it. Cost: the bytes written.
pub fn refused_line(refusal: Refusal, out: &mut [u8]) -> usize
    ensures { Writes (refused_line (number_of refusal.reason) (automaton_number refusal.automaton)) 0 result out.old out.new }
{
    let number = refusal.reason.number();
    refusal_line(b"refused", number, refusal.automaton_number(), out)
}

// A valid file: the counts of its header. Cost: the bytes written.
fn valid_line(c: Counts, out: &mut [u8]) -> usize
    ensures { Writes (valid_line c) 0 result out.old out.new }
{
    let mut line = Line { out, at: 0 };
    line.put(b"valid");
    line.decimal_field(c.letters as u64);
    line.decimal_field(c.states as u64);
    line.decimal_field(c.registers as u64);
    line.decimal_field(c.symbols as u64);
    line.decimal_field(c.arcs as u64);
    line.put_byte(b'\n');
    line.at
}

// What reading a file answers. Cost: the bytes written.
pub fn reading_line(r: Result<Counts, Fault>, out: &mut [u8]) -> usize
    ensures { Writes (reading_line r) 0 result out.old out.new }
{
    match r {
        Ok(c) => valid_line(c, out),
        Err(fault) => refused_line(fault.reason.of(Automaton::First), out),
    }
}

// A word for the answer, and a number. Cost: the bytes written.
pub fn count_line(answer: &[u8], n: u64, out: &mut [u8]) -> usize
    ensures { Writes (count_line answer.now n) 0 result out.old out.new }
{
    let mut line = Line { out, at: 0 };
    line.put(answer);
    line.decimal_field(n);
    line.put_byte(b'\n');
    line.at
}

// What membership answers. Cost: the bytes written.
pub fn membership_line(r: Result<Membership, Refusal>, out: &mut [u8]) -> usize
    ensures { Writes (membership_line r) 0 result out.old out.new }
{
    match r {
        Ok(Membership::Accepted(n)) => count_line(b"taken", n, out),
        Ok(Membership::Rejected(n)) => count_line(b"not", n, out),
        Err(refusal) => refused_line(refusal, out),
    }
}

// A file that was written: the n bytes at the front of the output, or all where there are fewer. Cost: one pass over those n bytes.
fn wrote_line(file: &[u8], n: usize, out: &mut [u8]) -> usize
    ensures { Writes (wrote_line file.now n) 0 result out.old out.new }
{
    let mut line = Line { out, at: 0 };
    line.put(b"wrote");
    line.front_field(file, n);
    line.put_byte(b'\n');
    line.at
}

// What a call that writes a file answers; `file` is the output that it was lent. Cost: the bytes written.
pub fn written_line(r: Result<usize, Refusal>, file: &[u8], out: &mut [u8]) -> usize
    ensures { Writes (written_line r file.now) 0 result out.old out.new }
{
    match r {
        Ok(n) => wrote_line(file, n, out),
        Err(refusal) => refused_line(refusal, out),
    }
}
