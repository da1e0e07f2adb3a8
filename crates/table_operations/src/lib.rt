// table_operations: a configuration as one word, what the operations of an arc make of it, and the arcs of a file found again by number and
// by the state that they leave. The word has the contents of the registers in the low 32 bits, four bits each, and the state above them.
#![tactic(auto)]

pub mod arcs;
pub mod configurations;
pub mod operations;
