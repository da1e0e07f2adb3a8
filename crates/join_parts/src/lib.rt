// join_parts: what joins of automata in files are made of (document 01, 'Joining books'): the files and their refusals, the counts and
// the length of the result, the writers of its parts, and the letters of both files put into it.
#![tactic(auto)]

pub mod answer;
pub mod finals;
pub mod flags;
pub mod groups;
pub mod letters;
