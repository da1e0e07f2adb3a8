// The faults of a text: what is wrong, and where.
ghost use Rattle.std.specs.Prelude.{◌≡◌};
ghost use Rattle.book_draft.specs.Numbers.{number_of};

use book_tokens::{Place, place_in};
use std::fmt;

// What is wrong with a text. docs/TEXT.md has a number and a column for each.
#[derive(Clone, Copy, PartialEq, Eq, Debug)]
pub enum TextReason {
    FirstWord,
    Registers,
    RegistersTwice,
    BehindRegisters,
    TooManySymbols,
    SymbolTwice,
    Letter,
    TooManyLetters,
    LetterTwice,
    LetterBehindAnArc,
    TooManyStates,
    StateTwice,
    NoState,
    NoLetter,
    WordMissing,
    TooManyArcs,
    TooManyOperations,
    Operation,
    NoRegister,
    RegisterZeroWritten,
    RegisterZeroSymbol,
    NoSymbol,
    NoStates,
    OutputTooShort,
    NoValidFile,
}

impl TextReason {
    // The number by which it is told. Cost: constant.
    pub fn number(self) -> u8
        ensures { result ≡ number_of self }
    {
        match self {
            TextReason::FirstWord => 1,
            TextReason::Registers => 2,
            TextReason::RegistersTwice => 3,
            TextReason::BehindRegisters => 22,
            TextReason::TooManySymbols => 4,
            TextReason::SymbolTwice => 5,
            TextReason::Letter => 6,
            TextReason::TooManyLetters => 7,
            TextReason::LetterTwice => 8,
            TextReason::LetterBehindAnArc => 9,
            TextReason::TooManyStates => 10,
            TextReason::StateTwice => 11,
            TextReason::NoState => 12,
            TextReason::NoLetter => 13,
            TextReason::WordMissing => 14,
            TextReason::TooManyArcs => 15,
            TextReason::TooManyOperations => 16,
            TextReason::Operation => 17,
            TextReason::NoRegister => 18,
            TextReason::RegisterZeroWritten => 19,
            TextReason::RegisterZeroSymbol => 20,
            TextReason::NoSymbol => 21,
            TextReason::NoStates => 23,
            TextReason::OutputTooShort => 24,
            TextReason::NoValidFile => 25,
        }
    }

    // The fault at a place of the text. Cost: constant.
    pub fn at(self, place: usize) -> Fault
        ensures { result ≡ record { what = self; place = place } }
    {
        Fault { what: self, place }
    }
}

// The sentence that a person reads.
impl fmt::Display for TextReason {
    fn fmt<W: fmt::Write>(&self, f: &mut fmt::Formatter<W>) -> fmt::Result {
        f.write_str(match self {
            TextReason::FirstWord => {
                "a line begins with registers, symbols, letters, states, final, arc or path"
            }
            TextReason::Registers => "the number of registers is a number from 1 to 8",
            TextReason::RegistersTwice => "the number of registers is told a second time",
            TextReason::BehindRegisters => "nothing stands behind the number of registers",
            TextReason::TooManySymbols => "there are more than 16 symbols",
            TextReason::SymbolTwice => "the symbol is declared a second time",
            TextReason::Letter => {
                "a letter is one byte, as it stands or as 0x and two hexadecimal digits"
            }
            TextReason::TooManyLetters => "there are more than 64 letters",
            TextReason::LetterTwice => {
                "the letter is listed a second time, as it stands or as a capital or small letter"
            }
            TextReason::LetterBehindAnArc => "letters are listed in front of the first arc",
            TextReason::TooManyStates => "there are more than 256 states",
            TextReason::StateTwice => "the state is declared a second time",
            TextReason::NoState => "no line in front declares this state",
            TextReason::NoLetter => "this is none of the letters",
            TextReason::WordMissing => {
                "an arc has a state, a letter or empty, and a state; a path a state, a word and a state"
            }
            TextReason::TooManyArcs => "there are more than 2,048 arcs",
            TextReason::TooManyOperations => "the arc has more than 8 operations",
            TextReason::Operation => {
                "an operation is R or W, a register from 0 to 7, = and a symbol"
            }
            TextReason::NoRegister => "the register is not below the number of registers",
            TextReason::RegisterZeroWritten => "register 0 is not written",
            TextReason::RegisterZeroSymbol => "register 0 holds the first symbol and no other",
            TextReason::NoSymbol => "no line in front declares this symbol",
            TextReason::NoStates => "no line declares a state",
            TextReason::OutputTooShort => "the memory lent is too short",
            TextReason::NoValidFile => "what was built is no valid file",
        })
    }
}

// A fault at a place, in bytes from the text's start.
#[derive(Clone, Copy, PartialEq, Eq, Debug)]
pub struct Fault {
    pub what: TextReason,
    pub place: usize,
}

impl Fault {
    // The same with the line and the column of its place. Cost: one pass over the text up to there.
    pub fn told(self, text: &[u8]) -> TextFault
        ensures { result.what ≡ self.what }
    {
        let Place { line, column } = place_in(text, self.place);
        TextFault {
            what: self.what,
            line,
            column,
        }
    }
}

// A fault as a person is told it: the line and the column in bytes are counted from 1.
#[derive(Clone, Copy, PartialEq, Eq, Debug)]
pub struct TextFault {
    pub what: TextReason,
    pub line: u64,
    pub column: u64,
}

impl fmt::Display for TextFault {
    fn fmt<W: fmt::Write>(&self, f: &mut fmt::Formatter<W>) -> fmt::Result {
        write!(f, "{}:{}: {}", self.line, self.column, self.what)
    }
}
