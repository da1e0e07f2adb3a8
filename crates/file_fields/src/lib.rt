// file_fields: what reading a file answers, the numbers that stand at its places, its header and its letters (document 01, 'The book
// file'). Each function computes one definition of specs/.
#![tactic(auto)]

ghost use Rattle.std.specs.Prelude.{◌≡◌, None, Some};
ghost use Rattle.file_fields.specs.Parts.{automaton_number, number_of};

pub mod fields;
pub mod header;
pub mod letters;
mod sentences;

// The counts that a file's header says: letters, states, registers, register symbols, arcs.
#[derive(Clone, Copy, PartialEq, Eq, Debug)]
pub struct Counts {
    pub letters: usize,
    pub states: usize,
    pub registers: usize,
    pub symbols: usize,
    pub arcs: usize,
}

// Why a file or a call is refused: first the faults of a file, in the order of reading, then what else the calls refuse.
#[derive(Clone, Copy, PartialEq, Eq, Debug)]
pub enum Reason {
    EndsInsideAField,
    Mark,
    Version,
    HeaderCount,
    LettersNotAscending,
    FinalFlag,
    ArcSource,
    ArcLetter,
    ArcTarget,
    ArcOperations,
    Operation,
    BytesAfterTheLastArc,
    JoinedBeyondALimit,
    TooManyConfigurations,
    TooManyPlainArcs,
    TooManyLiveSets,
    TooLittleMemoryLent,
    OutputTooShort,
    LengthTooLarge,
    BadRanges,
}

impl Reason {
    // The number by which it is told. Cost: constant.
    pub fn number(self) -> u8
        ensures { result ≡ number_of self }
    {
        match self {
            Reason::EndsInsideAField => 1,
            Reason::Mark => 2,
            Reason::Version => 3,
            Reason::HeaderCount => 4,
            Reason::LettersNotAscending => 5,
            Reason::FinalFlag => 6,
            Reason::ArcSource => 7,
            Reason::ArcLetter => 32,
            Reason::ArcTarget => 33,
            Reason::ArcOperations => 34,
            Reason::Operation => 8,
            Reason::BytesAfterTheLastArc => 9,
            Reason::JoinedBeyondALimit => 11,
            Reason::TooManyConfigurations => 21,
            Reason::TooManyPlainArcs => 22,
            Reason::TooManyLiveSets => 23,
            Reason::TooLittleMemoryLent => 24,
            Reason::OutputTooShort => 25,
            Reason::LengthTooLarge => 31,
            Reason::BadRanges => 35,
        }
    }

    // It as a file's fault, at a place of the file. Cost: constant.
    pub fn at(self, place: usize) -> Fault
        ensures { result ≡ record { reason = self; place = place } }
    {
        Fault {
            reason: self,
            place,
        }
    }

    // It as a call's refusal, for which one automaton is at fault. Cost: constant.
    pub fn of(self, automaton: Automaton) -> Refusal
        ensures { result ≡ record { reason = self; automaton = Some automaton } }
    {
        Refusal {
            reason: self,
            automaton: Some(automaton),
        }
    }

    // It as a call's refusal, for which no automaton is at fault alone. Cost: constant.
    pub fn of_call(self) -> Refusal
        ensures { result ≡ record { reason = self; automaton = None } }
    {
        Refusal {
            reason: self,
            automaton: None,
        }
    }
}

// The first fault of a file, and its place, in bytes from the file's start.
#[derive(Clone, Copy, PartialEq, Eq, Debug)]
pub struct Fault {
    pub reason: Reason,
    pub place: usize,
}

// Which automaton of a call; the only one of a call with one is the first.
#[derive(Clone, Copy, PartialEq, Eq, Debug)]
pub enum Automaton {
    First,
    Second,
}

// Why a call refuses, and the automaton at fault, none where no one alone is.
#[derive(Clone, Copy, PartialEq, Eq, Debug)]
pub struct Refusal {
    pub reason: Reason,
    pub automaton: Option<Automaton>,
}

impl Refusal {
    // The number of the automaton at fault, 1 or 2; 0 where none is. Cost: constant.
    pub fn automaton_number(self) -> u8
        ensures { result ≡ automaton_number self.automaton }
    {
        match self.automaton {
            None => 0,
            Some(Automaton::First) => 1,
            Some(Automaton::Second) => 2,
        }
    }
}
