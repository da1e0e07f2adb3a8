// The answers as other languages take them: structs of numbers with the layout of C, and the struct that tells each answer.
ghost use Rattle.std.specs.Prelude.{◌≡◌};
ghost use Rattle.scanner.specs.Results.{reading_fields, membership_fields, judged_fields};

use format::{Counts, Fault, Refusal};
use table_words::Judged;

// The counts of a valid file, with number 0; or the number of the fault, its place in bytes from the file's start, the automaton at
// fault, which is 1, and counts of 0.
// kept: numbers for answers, the C interface (c/registered_automata.h)
#[repr(C)]
#[derive(Clone, Copy, PartialEq, Eq, Debug)]
pub struct Reading {
    pub letters: u64,
    pub states: u64,
    pub registers: u64,
    pub symbols: u64,
    pub arcs: u64,
    pub place: u64,
    pub number: u8,
    pub automaton: u8,
}

// How many configurations are live after the word, and 1 where it is accepted, else 0, with number 0; or the number of the
// refusal and the automaton at fault, and 0 elsewhere.
// kept: numbers for answers, the C interface (c/registered_automata.h)
#[repr(C)]
#[derive(Clone, Copy, PartialEq, Eq, Debug)]
pub struct Membership {
    pub live: u64,
    pub number: u8,
    pub automaton: u8,
    pub accepted: u8,
}

// How many words were judged, and how many bytes they take with the separator behind each, with number 0; or the number of the refusal and
// the automaton at fault, and 0 elsewhere.
// kept: numbers for answers, the C interface (c/registered_automata.h)
#[repr(C)]
#[derive(Clone, Copy, PartialEq, Eq, Debug)]
pub struct WordsJudged {
    pub count: u64,
    pub bytes: u64,
    pub number: u8,
    pub automaton: u8,
}

impl From<Result<Counts, Fault>> for Reading {
    ghost from_gives = { λ answer fields. fields ≡ reading_fields answer };

    // The struct of what reading answers. Cost: constant.
    fn from(answer: Result<Counts, Fault>) -> Reading {
        match answer {
            Ok(c) => Reading {
                letters: c.letters as u64,
                states: c.states as u64,
                registers: c.registers as u64,
                symbols: c.symbols as u64,
                arcs: c.arcs as u64,
                place: 0,
                number: 0,
                automaton: 0,
            },
            Err(fault) => Reading {
                letters: 0,
                states: 0,
                registers: 0,
                symbols: 0,
                arcs: 0,
                place: fault.place as u64,
                number: fault.reason.number(),
                automaton: 1,
            },
        }
    }
}

impl From<Result<table::Membership, Refusal>> for Membership {
    ghost from_gives = { λ answer fields. fields ≡ membership_fields answer };

    // The struct of what membership answers. Cost: constant.
    fn from(answer: Result<table::Membership, Refusal>) -> Membership {
        match answer {
            Ok(table::Membership::Accepted(live)) => Membership {
                live,
                number: 0,
                automaton: 0,
                accepted: 1,
            },
            Ok(table::Membership::Rejected(live)) => Membership {
                live,
                number: 0,
                automaton: 0,
                accepted: 0,
            },
            Err(refusal) => Membership {
                live: 0,
                number: refusal.reason.number(),
                automaton: refusal.automaton_number(),
                accepted: 0,
            },
        }
    }
}

impl From<Result<Judged, Refusal>> for WordsJudged {
    ghost from_gives = { λ answer fields. fields ≡ judged_fields answer };

    // The struct of what judging many words answers. Cost: constant.
    fn from(answer: Result<Judged, Refusal>) -> WordsJudged {
        match answer {
            Ok(judged) => WordsJudged {
                count: judged.count as u64,
                bytes: judged.bytes as u64,
                number: 0,
                automaton: 0,
            },
            Err(refusal) => WordsJudged {
                count: 0,
                bytes: 0,
                number: refusal.reason.number(),
                automaton: refusal.automaton_number(),
            },
        }
    }
}
