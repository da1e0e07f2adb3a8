// relettering: an automaton with the letters of a longer list (document 02, change 6), as definitions in specs/ and laws in proofs/. It has
// no function.
#![tactic(auto)]
