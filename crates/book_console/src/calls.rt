// How a program was called, and the status that it ends with. A program is called by its own name, `bookcheck FILE`, or as a command of the
// front, `mlb check FILE`.
ghost use Rattle.std.specs.Prelude.{◌≡◌, ◌⊎◌, IsFalse, T, ℕ};
ghost use Rattle.std.specs.declared.option.Option.TheVariants.{Some};
ghost use Rattle.book_console.specs.declared.calls.Status.TheVariants.{Yes, Failed};

use super::console::{Console, Stream};
use super::words::{is_argument, say};
use std::process::ExitCode;

// How a run ended: with yes, with no, or refused or failed. Of two that are in place the greater one is answered.
#[derive(Clone, Copy, PartialEq, Eq, PartialOrd, Ord, Debug)]
pub enum Status {
    Yes,
    No,
    Failed,
}

impl From<Status> for ExitCode {
    fn from(status: Status) -> ExitCode {
        ExitCode::from(match status {
            Status::Yes => 0u8,
            Status::No => 1,
            Status::Failed => 2,
        })
    }
}

// The status of a run whose last output passed or not. Cost: constant.
pub fn status_of(is_written: bool) -> Status
    ensures { (T is_written × (result ≡ Yes)) ⊎ (IsFalse is_written × (result ≡ Failed)) }
{
    if is_written {
        Status::Yes
    } else {
        Status::Failed
    }
}

// How a program is to be called: its command, and what it takes in each of the ways to call it.
#[derive(Clone, Copy)]
pub struct Usage {
    pub command: &'static [u8],
    pub ways: &'static [&'static [u8]],
}

impl Usage {
    // The usage: the command as it was called, and what it takes. Cost: the text.
    fn say(&self, console: &Console, stream: Stream) -> bool {
        say(console, stream, b"usage: ");
        for (i, way) in self.ways.iter().enumerate() {
            if i > 0 {
                say(console, stream, b", ");
            }
            say(console, stream, console.caller());
            say(console, stream, self.command);
            say(console, stream, way);
        }
        say(console, stream, b"\n")
    }

    // Runs the body of a program, which is told how many arguments there are, and answers no status where it is not to be called so: then
    // that is told, with the usage. `--help` alone asks for the usage. Cost: that of the body.
    pub fn run<F: FnOnce(usize) -> Option<Status>>(&self, console: &Console, body: F) -> Status
        requires { F.IsAlwaysCallable body }
        ensures { (result ≡ Yes) ⊎ (result ≡ Failed) ⊎ ((count : ℕ) × F.post body count (Some result)) }
    {
        let count = console.own_count();
        if count == Some(1) && is_argument(console, 0, b"--help") {
            return status_of(self.say(console, Stream::Out));
        }
        match count.and_then(body) {
            Some(status) => status,
            None => {
                self.say(console, Stream::Err);
                Status::Failed
            }
        }
    }
}
