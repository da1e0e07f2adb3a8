// bookcount FILE LENGTH: how many words of LENGTH letters the automaton of the file accepts, and how many it does not. Its body is run_count's.
#![tactic(auto)]

use book_console::console::Console;
use std::process::ExitCode;

// The status is not told: the front `mlb` tells it. Cost: that of `run_count::run`.
fn main(rt: HostRuntime) -> ExitCode {
    let console = Console::new(rt);
    run_count::run(&console);
    console.last_status()
}
