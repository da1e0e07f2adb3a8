// book_assembling: the file of the automaton that a text tells, in the text format of docs/TEXT.md. What was built is read before it is
// answered: where bytes are answered, they are a valid file.
#![tactic(auto)]

ghost use Rattle.std.specs.Prelude.{IfOk};
ghost use Rattle.book_assembling.specs.Assembling.{AssembledTo, ValidFront};

use arrayvec::ArrayVec;
use book_draft::{Declarations, Fault, State, TextFault, TextReason};
use building::build;
use lines::read_text;

mod arcs;
mod building;
mod lines;

// How many bytes of the file stand at the front of the output.
#[derive(Clone, Copy, PartialEq, Eq, Debug)]
pub struct Assembled {
    pub size: usize,
}

// The same, and the automaton's states, each with whether a chain of arcs leads to it.
#[derive(Clone, Drop)]
pub struct AssembledStates {
    pub assembled: Assembled,
    pub states: ArrayVec<State, 256>,
}

// The first n bytes are as many, where they are a valid file. Cost: that of reading it.
fn checked(out: &[u8], n: usize) -> Result<usize, Fault>
    ensures { IfOk result (λ size. ValidFront out.now size) }
{
    if out.len() < n {
        return Err(TextReason::NoValidFile.at(0));
    }
    let Ok(_) = format::read(&out[0..n]) else {
        return Err(TextReason::NoValidFile.at(0));
    };
    Ok(n)
}

// Reads the text of the declarations into them, and writes its file; the fault is told at its place. Cost: that of `assemble`.
fn assemble_declared(declared: &mut Declarations<'_>, out: &mut [u8]) -> Result<Assembled, Fault>
    ensures { IfOk result (λ whole. ValidFront out.new whole.size) }
{
    if out.len() < 41292 {
        return Err(TextReason::OutputTooShort.at(0));
    }
    read_text(declared)?;
    if declared.states.is_empty() {
        return Err(TextReason::NoStates.at(declared.text.len()));
    }
    let n = build(declared.draft(), out);
    let size = checked(out, n)?;
    Ok(Assembled { size })
}

// Writes the file of the automaton that the text tells to the front of `out`, and answers how many bytes it has, or the text's first
// fault. It is lent room for the longest file; less is told as a fault. The room may hold anything afterwards.
// Cost: one pass over the text, and for each name a look at those that are declared.
pub fn assemble(text: &[u8], out: &mut [u8]) -> Result<Assembled, TextFault>
    ensures { AssembledTo out.new result }
{
    let mut declared = Declarations::new(text);
    assemble_declared(&mut declared, out).map_err(|fault| fault.told(text))
}

// The same, and answers the states of the automaton too. Cost: that of `assemble`, and for each state a pass over the arcs.
pub fn assemble_with_states(text: &[u8], out: &mut [u8]) -> Result<AssembledStates, TextFault>
    ensures { IfOk result (λ whole. ValidFront out.new whole.assembled.size) }
{
    let mut declared = Declarations::new(text);
    let assembled = assemble_declared(&mut declared, out).map_err(|fault| fault.told(text))?;
    declared.mark_reached();
    Ok(AssembledStates {
        assembled,
        states: declared.states,
    })
}
