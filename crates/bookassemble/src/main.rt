// bookassemble TEXT RESULT: writes the file of the automaton that a text tells. Its body is run_assemble's.
#![tactic(auto)]

use book_console::console::Console;
use std::process::ExitCode;

// The status is not told: the front `mlb` tells it. Cost: that of `run_assemble::run`.
fn main(rt: HostRuntime) -> ExitCode {
    let console = Console::new(rt);
    run_assemble::run(&console);
    console.last_status()
}
