// book_console: what the programs share: files named by arguments, refusals told in words, results written to files, and the statuses that
// a run ends with. What went wrong is told on standard error; a listing and the line of a comparison tell it on standard output too.
#![tactic(auto)]

pub mod calls;
pub mod console;
pub mod files;
pub mod paths;
pub mod refusals;
pub mod saving;
pub mod words;
