// The answers as other languages take them: structs of numbers with the layout of C, and the struct that tells each answer.
ghost use Rattle.std.specs.Prelude.{◌≡◌};
ghost use Rattle.registered_automata.specs.Results.{written_fields, comparison_fields, word_count_fields, ranged_fields};

use format::Refusal;
use ranges_promise::Fillings;

// The length of the file that was written, with number 0; or the number of the refusal, the automaton at fault, and length 0.
// kept: numbers for answers, the C interface (c/registered_automata.h)
#[repr(C)]
#[derive(Clone, Copy, PartialEq, Eq, Debug)]
pub struct Written {
    pub length: u64,
    pub number: u8,
    pub automaton: u8,
}

// The number of pairs, the automaton that alone accepts the shown word, 0 where the two accept the same words, and the length of
// that word, with number 0; or the number of the refusal and the automaton at fault, and 0 elsewhere.
// kept: numbers for answers, the C interface (c/registered_automata.h)
#[repr(C)]
#[derive(Clone, Copy, PartialEq, Eq, Debug)]
pub struct Comparison {
    pub pairs: u64,
    pub length: u64,
    pub number: u8,
    pub automaton: u8,
    pub taker: u8,
}

// How many words of the length are accepted and how many are not, with number 0; or the number of the refusal and the automaton at
// fault, and 0 elsewhere.
// kept: numbers for answers, the C interface (c/registered_automata.h)
#[repr(C)]
#[derive(Clone, Copy, PartialEq, Eq, Debug)]
pub struct WordCount {
    pub accepted: u64,
    pub rejected: u64,
    pub number: u8,
    pub automaton: u8,
}

// 1 where every filling is accepted, 2 where some are and some are not, 3 where none is, with number 0; or the number of the refusal and
// the automaton at fault, and 0 elsewhere.
// kept: numbers for answers, the C interface (c/registered_automata.h)
#[repr(C)]
#[derive(Clone, Copy, PartialEq, Eq, Debug)]
pub struct Ranged {
    pub number: u8,
    pub automaton: u8,
    pub answer: u8,
}

impl From<Result<usize, Refusal>> for Written {
    ghost from_gives = { λ answer fields. fields ≡ written_fields answer };

    // The struct of what a call that writes a file answers. Cost: constant.
    fn from(answer: Result<usize, Refusal>) -> Written {
        match answer {
            Ok(n) => Written {
                length: n as u64,
                number: 0,
                automaton: 0,
            },
            Err(refused) => Written {
                length: 0,
                number: refused.reason.number(),
                automaton: refused.automaton_number(),
            },
        }
    }
}

impl From<compare::Comparison> for Comparison {
    ghost from_gives = { λ answer fields. fields ≡ comparison_fields answer };

    // The struct of what comparing answers. Cost: constant.
    fn from(answer: compare::Comparison) -> Comparison {
        match answer {
            compare::Comparison::Same(n) => Comparison {
                pairs: n,
                length: 0,
                number: 0,
                automaton: 0,
                taker: 0,
            },
            compare::Comparison::Different {
                pairs,
                taker,
                length,
            } => Comparison {
                pairs,
                length: length as u64,
                number: 0,
                automaton: 0,
                taker,
            },
            compare::Comparison::Refused(refusal) => Comparison {
                pairs: 0,
                length: 0,
                number: refusal.reason.number(),
                automaton: refusal.automaton_number(),
                taker: 0,
            },
        }
    }
}

impl From<Result<count_promise::WordCount, Refusal>> for WordCount {
    ghost from_gives = { λ answer fields. fields ≡ word_count_fields answer };

    // The struct of what counting answers. Cost: constant.
    fn from(answer: Result<count_promise::WordCount, Refusal>) -> WordCount {
        match answer {
            Ok(count) => WordCount {
                accepted: count.accepted,
                rejected: count.rejected,
                number: 0,
                automaton: 0,
            },
            Err(refusal) => WordCount {
                accepted: 0,
                rejected: 0,
                number: refusal.reason.number(),
                automaton: refusal.automaton_number(),
            },
        }
    }
}

impl From<Result<Fillings, Refusal>> for Ranged {
    ghost from_gives = { λ answer fields. fields ≡ ranged_fields answer };

    // The struct of what is answered of a word with ranges. Cost: constant.
    fn from(answer: Result<Fillings, Refusal>) -> Ranged {
        match answer {
            Ok(Fillings::Always) => Ranged {
                number: 0,
                automaton: 0,
                answer: 1,
            },
            Ok(Fillings::Sometimes) => Ranged {
                number: 0,
                automaton: 0,
                answer: 2,
            },
            Ok(Fillings::Never) => Ranged {
                number: 0,
                automaton: 0,
                answer: 3,
            },
            Err(refusal) => Ranged {
                number: refusal.reason.number(),
                automaton: refusal.automaton_number(),
                answer: 0,
            },
        }
    }
}
