// What a program has of the system that it runs on: its runtime, which tells its arguments and opens its files, and what its standard
// output and standard error still take.
ghost use Rattle.std.specs.Prelude.{◌≡◌, T, IfOk};
ghost use Rattle.book_console.specs.Inputs.{IsFrontOf, IsFrontOrEmpty};

use std::cell::Cell;
use std::env::{Env, FillError};
use std::io;
use std::io::ErrorKind;
use std::os::fd::AsFd;
use std::process::ExitCode;

// Numbers by which the system tells what failed: a file is not open; a file of that name is there; there is no such argument; a name is too
// long.
const EBADF: i32 = 9;

pub const EEXIST: i32 = 17;

const EINVAL: i32 = 22;

pub const ENAMETOOLONG: i32 = 36;

// The status by which a shell tells that a pipe which nobody reads has ended a program: 128, and the number of that signal.
const CUT_OFF: u8 = 141;

// Where a program says things: on standard output or on standard error.
#[derive(Clone, Copy, PartialEq, Eq, Debug)]
pub enum Stream {
    Out,
    Err,
}

// The runtime that `main` is given; whether the program is the front, whose first argument is a command, and to which a pipe that nobody
// reads is a write that fails as any other, while it cuts another program off; and whether standard output and standard error have ended,
// and whether such a pipe ended them. What has ended takes nothing more.
#[derive(Drop)]
pub struct Console {
    pub rt: HostRuntime,
    is_front: bool,
    is_output_ended: Cell<bool>,
    is_error_ended: Cell<bool>,
    is_cut_off: Cell<bool>,
}

impl Console {
    // A program that has said nothing yet. Cost: constant.
    fn begin(rt: HostRuntime, is_front: bool) -> Console
        ensures { result.is_front ≡ is_front }
    {
        Console {
            rt,
            is_front,
            is_output_ended: Cell::new(false),
            is_error_ended: Cell::new(false),
            is_cut_off: Cell::new(false),
        }
    }

    // A program that is called by its own name. Cost: constant.
    pub fn new(rt: HostRuntime) -> Console {
        Console::begin(rt, false)
    }

    // The front of the programs. Cost: constant.
    pub fn front(rt: HostRuntime) -> Console
        ensures { T result.is_front }
    {
        Console::begin(rt, true)
    }

    // Whether standard output or standard error has ended. Cost: constant.
    fn ended(&self, stream: Stream) -> &Cell<bool> {
        match stream {
            Stream::Out => &self.is_output_ended,
            Stream::Err => &self.is_error_ended,
        }
    }

    // Whether nothing more is to be said there. Cost: constant.
    pub fn is_ended(&self, stream: Stream) -> bool {
        self.ended(stream).get()
    }

    // Nothing more is to be said there. Cost: constant.
    pub fn end(&self, stream: Stream) {
        self.ended(stream).set(true);
    }

    // Where the error is that of a pipe which nobody reads, and no write that fails as others do, nothing more is to be said anywhere.
    // Cost: constant.
    pub fn note(&self, error: &io::Error) {
        if error.kind() == ErrorKind::BrokenPipe && !self.is_front {
            self.is_cut_off.set(true);
            self.end(Stream::Out);
            self.end(Stream::Err);
        }
    }

    // The status of a program that tells none: 0, or that of one which was cut off. Cost: constant.
    pub fn last_status(&self) -> ExitCode {
        if self.is_cut_off.get() {
            return ExitCode::from(CUT_OFF);
        }
        ExitCode::SUCCESS
    }

    // Writes bytes to standard output or standard error; what has ended is a file that is not open. Cost: the bytes.
    pub fn write(&self, stream: Stream, bytes: &[u8]) -> io::Result<()> {
        if self.is_ended(stream) {
            return Err(io::Error::from_raw_os_error(EBADF));
        }
        let written = match stream {
            Stream::Out => self.rt.stdout().write_all(bytes),
            Stream::Err => self.rt.stderr().write_all(bytes),
        };
        if let Err(error) = &written {
            self.note(error);
        }
        written
    }

    // Whether standard output is open: of a file that is not, there is no second descriptor. Cost: two calls.
    pub fn check_output(&self) -> io::Result<()> {
        let stdout = self.rt.stdout();
        let _second = stdout.as_fd().try_clone_to_owned()?;
        Ok(())
    }

    // What stands in front of a command's name where the program is called: `book` of a program, the front's own name of the front.
    // Cost: constant.
    pub(crate) fn caller(&self) -> &'static [u8] {
        if self.is_front { b"mlb " } else { b"book" }
    }

    // How many arguments stand in front of those that a command takes: the program's name, and of the front the command too. Cost: constant.
    fn before(&self) -> usize {
        if self.is_front { 2 } else { 1 }
    }

    // Whether there is an argument with this number; the program's own name is number 0. Cost: constant.
    fn has_given(&self, number: usize) -> bool {
        let mut first = [0u8; 1];
        !matches!(self.rt.arg(number, &mut first), Err(FillError::NotPresent))
    }

    // Puts the argument with this number at the front of the buffer, and answers it there; the program's own name is number 0. Cost: the text.
    pub fn given<'a>(&self, number: usize, buffer: &'a mut [u8]) -> io::Result<&'a [u8]>
        ensures { IfOk result (IsFrontOf buffer.entry) }
    {
        match self.rt.arg(number, buffer) {
            Ok(n) => Ok(&buffer[..n]),
            Err(FillError::NotPresent) => Err(io::Error::from_raw_os_error(EINVAL)),
            Err(FillError::TooLong) => Err(io::Error::from_raw_os_error(ENAMETOOLONG)),
        }
    }

    // How many arguments the program was started with, its own name among them. Cost: constant for each.
    pub fn argument_count(&self) -> usize {
        for number in 0..usize::MAX {
            if !self.has_given(number) {
                return number;
            }
        }
        usize::MAX
    }

    // How many of these are a command's own; nothing where not even what stands in front of them is there. Cost: that of `argument_count`.
    pub fn own_count(&self) -> Option<usize> {
        self.argument_count().checked_sub(self.before())
    }

    // Puts an argument of a command at the front of the buffer, and answers it there; its first one is argument 0. Cost: the text.
    pub fn argument<'a>(&self, argument: usize, buffer: &'a mut [u8]) -> io::Result<&'a [u8]>
        ensures { IfOk result (IsFrontOf buffer.entry) }
    {
        self.given(argument.saturating_add(self.before()), buffer)
    }

    // Puts the command that the front was given at the front of the buffer, and answers it there; none is empty, and so is one that has no
    // room. Cost: the text.
    pub fn command<'a>(&self, buffer: &'a mut [u8]) -> &'a [u8]
        ensures { IsFrontOrEmpty buffer.entry result }
    {
        self.given(1, buffer).unwrap_or(b"")
    }
}

// Whether a write failed because its file is not open. Cost: constant.
pub fn is_not_open(error: &io::Error) -> bool {
    error.raw_os_error() == Some(EBADF)
}
