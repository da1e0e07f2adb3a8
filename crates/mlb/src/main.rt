// mlb: the front of the programs, with a status that a script can trust. What a command prints is what the program of the same body prints.
#![tactic(auto)]

use book_console::calls::{Status, status_of};
use book_console::console::{Console, Stream};
use book_console::words::{fail, say};
use std::process::ExitCode;

// The commands, what each takes and answers, and what the statuses mean.
const COMMANDS: &[u8] = b"usage: mlb COMMAND ARGUMENTS, mlb COMMAND --help
  check FILE                         words from standard input, one a line: accepted or rejected
  count FILE LENGTH                  how many words of LENGTH letters are accepted, and how many are not
  ranges FILE                        words from standard input, of which some letters are not sure: always, sometimes or never
  join union FIRST SECOND RESULT     the words of either; also concat, a word of each, and intersect, the words of both
  join closure FIRST RESULT          the finite sequences of words
  unfold FILE RESULT                 the same words without registers
  compare [FIRST SECOND]             whether the two accept the same words
  show [--dot] FILE                  a file as a text, or as a graph
  assemble TEXT RESULT               the file of the automaton that a text tells
status: 0 yes (same, all accepted, written), 1 no (different, a word not accepted), 2 refused or failed
";

// The status of the command that the first argument names; usage where it names none. Cost: that of the command.
fn run_command(console: &Console) -> Status {
    let mut text = [0u8; 4096];
    match console.command(&mut text) {
        b"check" => run_check::run(console),
        b"count" => run_count::run(console),
        b"ranges" => run_ranges::run(console),
        b"join" => run_join::run(console),
        b"unfold" => run_unfold::run(console),
        b"compare" => run_compare::run(console),
        b"show" => run_show::run(console),
        b"assemble" => run_assemble::run(console),
        b"--help" | b"help" => status_of(say(console, Stream::Out, COMMANDS)),
        _ => {
            say(console, Stream::Err, COMMANDS);
            Status::Failed
        }
    }
}

// mlb COMMAND ARGUMENTS: answers the status. A standard output that is closed is told at once, before a file that is opened can take its
// number. Cost: that of the command.
pub fn mlb_run(console: &Console) -> Status {
    if let Err(error) = console.check_output() {
        fail(console, b"standard output", &error);
        return Status::Failed;
    }
    run_command(console)
}

// The status is the process's. A pipe that nobody reads is an error of the write and not the end of the process. Cost: that of `mlb_run`.
fn main(rt: HostRuntime) -> ExitCode {
    ExitCode::from(mlb_run(&Console::front(rt)))
}
