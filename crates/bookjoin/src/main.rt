// bookjoin union|concat|intersect FIRST SECOND RESULT, bookjoin closure FIRST RESULT: joins files, and writes the joined file. Its body is
// run_join's.
#![tactic(auto)]

use book_console::console::Console;
use std::process::ExitCode;

// The status is not told: the front `mlb` tells it. Cost: that of `run_join::run`.
fn main(rt: HostRuntime) -> ExitCode {
    let console = Console::new(rt);
    run_join::run(&console);
    console.last_status()
}
