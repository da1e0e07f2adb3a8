// file_writing: the bytes of an automaton written into a lent output, part by part (document 01, 'The book file').
// Each writer puts its bytes at a place, leaves all else as it was, and answers the place behind them.
#![tactic(auto)]

pub mod front;
pub mod parts;
