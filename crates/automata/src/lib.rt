// automata: the mathematics of finite-state registered automata, and no code.
// specs/ holds the definitions: Automaton and Words first, then the rest; proofs/ holds their laws, and proofs/Laws.antt the ones to
// read first.
#![tactic(auto)]
