// bookranges FILE: which words from standard input, of which some letters are not sure, the automaton of the file accepts in every filling, in
// some or in none. Its body is run_ranges's.
#![tactic(auto)]

use book_console::console::Console;
use std::process::ExitCode;

// The status is not told: the front `mlb` tells it. Cost: that of `run_ranges::run`.
fn main(rt: HostRuntime) -> ExitCode {
    let console = Console::new(rt);
    run_ranges::run(&console);
    console.last_status()
}
