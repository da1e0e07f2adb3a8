// count_promise: what counting the words of one length answers, and what is promised of it; no function.
// specs/ holds WordCounts, what is answered, with which the contract of the call is an equation; Promised, what that means.
#![tactic(auto)]

// What counting tells: how many words of the length the automaton accepts, and how many it does not.
#[derive(Clone, Copy, PartialEq, Eq, Debug)]
pub struct WordCount {
    pub accepted: u64,
    pub rejected: u64,
}
