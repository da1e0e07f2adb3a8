// bookunfold FILE RESULT: writes the automaton without registers that accepts the same words. Its body is run_unfold's.
#![tactic(auto)]

use book_console::console::Console;
use std::process::ExitCode;

// The status is not told: the front `mlb` tells it. Cost: that of `run_unfold::run`.
fn main(rt: HostRuntime) -> ExitCode {
    let console = Console::new(rt);
    run_unfold::run(&console);
    console.last_status()
}
