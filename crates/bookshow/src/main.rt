// bookshow [--dot] FILE: a file as a text or as a graph, with the place of its fault. Its body is run_show's.
#![tactic(auto)]

use book_console::console::Console;
use std::process::ExitCode;

// The status is not told: the front `mlb` tells it. Cost: that of `run_show::run`.
fn main(rt: HostRuntime) -> ExitCode {
    let console = Console::new(rt);
    run_show::run(&console);
    console.last_status()
}
