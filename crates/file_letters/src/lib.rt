// file_letters: the letter lists of two files (document 02, changes 4 and 6): whether they agree, how many letters both have together, and
// the joined list with the new numbers of each list's letters.
#![tactic(auto)]

pub mod agreeing;
pub mod joining;
pub mod numbering;
