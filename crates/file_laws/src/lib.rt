// file_laws: what a valid file is, and what reading and writing are to each other: laws of the definitions of crate format, and no code.
// proofs/Promise.antt has the ones to read first.
#![tactic(auto)]
