// ranges_promise: what is answered of a word with ranges of letters, and what is promised of it; no function.
// specs/ holds RangeAnswers, what is answered, with which the contract of the call is an equation; Promised, what that means.
#![tactic(auto)]

// Of a word with ranges, over all its fillings: every one is accepted, some are and some are not, or none is.
#[derive(Clone, Copy, PartialEq, Eq, Debug)]
pub enum Fillings {
    Always,
    Sometimes,
    Never,
}
