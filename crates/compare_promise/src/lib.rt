// compare_promise: what comparing answers, and what is promised of it; no function.
// specs/ holds Comparing, what is answered, with which the contract of the call is an equation; Promised, what that means. The call is
// the crate compare's.
#![tactic(auto)]

use format::Refusal;

// What comparing answers: the two accept the same words; or they differ, with the automaton that accepts the shown word and that
// word's length; or why it refuses. The number of pairs is that of the distinct pairs of live sets.
#[derive(Clone, Copy, PartialEq, Eq, Debug)]
pub enum Comparison {
    Same(u64),
    Different {
        pairs: u64,
        taker: u8,
        length: usize,
    },
    Refused(Refusal),
}
