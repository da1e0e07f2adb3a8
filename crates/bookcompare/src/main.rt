// bookcompare [FIRST SECOND]: compares two files, first.mlb and second.mlb where none is named, and writes the line of the answer. Its body is
// run_compare's.
#![tactic(auto)]

use book_console::console::Console;
use std::process::ExitCode;

// The status is not told: the front `mlb` tells it. Cost: that of `run_compare::run`.
fn main(rt: HostRuntime) -> ExitCode {
    let console = Console::new(rt);
    run_compare::run(&console);
    console.last_status()
}
