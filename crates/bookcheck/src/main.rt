// bookcheck FILE: which words from standard input the automaton of the file accepts. Its body is run_check's.
#![tactic(auto)]

use book_console::console::Console;
use std::process::ExitCode;

// The status is not told: the front `mlb` tells it. Cost: that of `run_check::run`.
fn main(rt: HostRuntime) -> ExitCode {
    let console = Console::new(rt);
    run_check::run(&console);
    console.last_status()
}
