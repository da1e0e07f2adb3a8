// What is said of each reason, in a sentence without its full stop. A reason doesn't know its call: a sentence tells all that it may mean.
use super::Reason;
use std::fmt;

impl fmt::Display for Reason {
    fn fmt<W: fmt::Write>(&self, f: &mut fmt::Formatter<W>) -> fmt::Result {
        f.write_str(match self {
            Reason::EndsInsideAField => "the file ends inside a field",
            Reason::Mark => "the file does not begin with the mark MLB",
            Reason::Version => "the version is not 1",
            Reason::HeaderCount => {
                "a count is out of its range: letters 0 to 64, states 1 to 256, registers 1 to 8, symbols 1 to 16, arcs 0 to 2048"
            }
            Reason::LettersNotAscending => {
                "the letters do not ascend strictly, or a letter stands there as a capital and as a small letter"
            }
            Reason::FinalFlag => "a final flag is neither 00 nor 01",
            Reason::ArcSource => {
                "an arc's from-state, its first byte, is not below the number of states"
            }
            Reason::ArcLetter => {
                "an arc's letter, its second byte, is neither below the number of letters nor FF"
            }
            Reason::ArcTarget => {
                "an arc's to-state, its third byte, is not below the number of states"
            }
            Reason::ArcOperations => {
                "an arc's number of operations, its fourth byte, is not 1 to 8"
            }
            Reason::Operation => {
                "an operation is not one: kind 0 or 1, register and symbol below their counts, register 0 only with the read of symbol 0"
            }
            Reason::BytesAfterTheLastArc => "bytes follow the last arc",
            Reason::JoinedBeyondALimit => {
                "the letters of both files are more than 64, or the result would be beyond a limit: 256 states, 8 registers, 2048 arcs, 8 operations on an arc"
            }
            Reason::TooManyConfigurations => "more than 256 configurations can be reached",
            Reason::TooManyPlainArcs => {
                "more than 2048 plain arcs: passing arcs, counted at each configuration"
            }
            Reason::TooManyLiveSets => {
                "words lead to more than 512 live sets, or to more than 512 pairs of them where two automata are compared, or to more than 512 behind one place of a word with ranges"
            }
            Reason::TooLittleMemoryLent => {
                "less working memory than 8192 words, or less room for a word than 512 bytes"
            }
            Reason::OutputTooShort => "less room than the result has bytes",
            Reason::LengthTooLarge => {
                "the length is above 64, or more than 18446744073709551615 words have it"
            }
            Reason::BadRanges => {
                "a byte is left over, or a range has its low above its high or its high not below the number of letters"
            }
        })
    }
}
