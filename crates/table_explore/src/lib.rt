// table_explore: the configurations of an automaton and its plain arcs, found from the bytes of its file.
#![tactic(auto)]

pub use table_configurations::Sizes;

pub mod walk;
