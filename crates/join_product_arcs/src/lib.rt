// join_product_arcs: writing the arcs of an intersection (document 01, 'Joining books'): joint arcs of the two automata, and empty moves of
// one beside the states of the other.
#![tactic(auto)]

pub mod beside;
pub mod joint;
