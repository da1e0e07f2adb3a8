// Words and numbers on standard output and standard error; words among the arguments.
ghost use Rattle.std.specs.Prelude.{◌≡◌};
ghost use Rattle.book_console.specs.Inputs.{Asked};
ghost use Rattle.book_console.specs.declared.console.Stream.TheVariants.{Out, Err};

use super::console::{Console, Stream, is_not_open};
use arrayvec::ArrayString;
use std::fmt::{Display, Write};
use std::{fmt, io};

// The text of an error without the number that the system has for it. Cost: the text.
fn without_number(text: &str) -> &str {
    match text.split_once(" (os error ") {
        Some((reason, _)) => reason,
        None => text,
    }
}

// What an error says; no error of the library says more than 320 bytes. Cost: the text.
fn say_reason(console: &Console, error: &io::Error) {
    let mut text = ArrayString::<320>::new();
    let _ = write!(text, "{error}");
    let reason = without_number(text.as_str());
    let _ = console.write(Stream::Err, reason.as_bytes());
}

// Tells on standard error what failed, as the caller names it, and why; a pipe that nobody reads is told only where the program tells it.
// Cost: the line.
pub fn fail(console: &Console, what: &[u8], error: &io::Error) {
    console.note(error);
    let _ = console.write(Stream::Err, what);
    let _ = console.write(Stream::Err, b": ");
    say_reason(console, error);
    let _ = console.write(Stream::Err, b"\n");
}

// Writes the text, and answers whether that passed. That it failed is told on standard error, once: nothing more is said there then, and
// that what is not open takes nothing is not told. Cost: the text.
pub fn say(console: &Console, stream: Stream, text: &[u8]) -> bool {
    match console.write(stream, text) {
        Ok(()) => true,
        Err(error) => {
            if !is_not_open(&error) {
                fail(console, b"standard output", &error);
                console.end(stream);
            }
            false
        }
    }
}

// Writes bytes to standard output, and answers whether that passed; that it failed is told on standard error. Cost: the bytes.
pub fn write_out(console: &Console, bytes: &[u8]) -> bool {
    match console.write(Stream::Out, bytes) {
        Ok(()) => true,
        Err(error) => {
            fail(console, b"standard output", &error);
            false
        }
    }
}

// Standard output or standard error, on which a line is said piece by piece, each in one write: `console.out().text("arc ").number(3)`. For
// `write!` it is a writer that takes each part of a text as `text` does; a number and a byte have methods of their own, since a failure of
// theirs is not told.
#[derive(Clone, Copy)]
pub struct Sayer<'a> {
    console: &'a Console,
    stream: Stream,
}

impl Console {
    // What is said on standard output. Cost: constant.
    pub fn out(&self) -> Sayer<'_>
        ensures { result.stream ≡ Out }
    {
        Sayer {
            console: self,
            stream: Stream::Out,
        }
    }

    // What is said on standard error. Cost: constant.
    pub fn err(&self) -> Sayer<'_>
        ensures { result.stream ≡ Err }
    {
        Sayer {
            console: self,
            stream: Stream::Err,
        }
    }

    // What is said on the one or the other. Cost: constant.
    pub fn on(&self, stream: Stream) -> Sayer<'_>
        ensures { result.stream ≡ stream }
    {
        Sayer {
            console: self,
            stream,
        }
    }
}

impl<'a> fmt::Write for Sayer<'a> {
    fn write_str(&mut self, text: &str) -> fmt::Result {
        if say(self.console, self.stream, text.as_bytes()) {
            Ok(())
        } else {
            Err(fmt::Error)
        }
    }
}

impl<'a> Sayer<'a> {
    // Says the text as `say` does, and answers the same stream for what stands behind it. Cost: the text.
    pub fn text(self, text: &str) -> Sayer<'a>
        ensures { result.stream ≡ self.entry.stream }
    {
        say(self.console, self.stream, text.as_bytes());
        self
    }

    // Says the digits in one write, and answers the same stream. That it failed is not told: each line has text behind its numbers, and that
    // text's writing tells what failed. Cost: the digits.
    fn digits<D: Display + Drop>(self, digits: D) -> Sayer<'a>
        ensures { result.stream ≡ self.entry.stream }
    {
        if !self.console.is_ended(self.stream) {
            let _ = match self.stream {
                Stream::Out => self.console.rt.print(digits),
                Stream::Err => self.console.rt.eprint(digits),
            };
        }
        self
    }

    // Says a number in decimal, and answers the same stream. Text has to stand behind it, whose writing tells what failed. Cost: its digits.
    pub fn number(self, n: u64) -> Sayer<'a>
        ensures { result.stream ≡ self.entry.stream }
    {
        self.digits(n)
    }

    // Says a byte in two hexadecimal digits, and answers the same stream. Text has to stand behind it, as behind a number. Cost: constant.
    pub fn hex(self, byte: u8) -> Sayer<'a>
        ensures { result.stream ≡ self.entry.stream }
    {
        self.digits(format_args!("{byte:02x}"))
    }
}

// A number in decimal. Each line has text behind its numbers, and that text's writing tells what failed. Cost: its digits.
pub fn say_number(console: &Console, stream: Stream, n: u64) {
    console.on(stream).number(n);
}

// A byte in two hexadecimal digits, on standard output. Its line has text behind it, whose writing tells what failed. Cost: constant.
pub fn say_hex(console: &Console, byte: u8) {
    console.out().hex(byte);
}

// The argument as it was given. Cost: the text.
pub fn say_argument(console: &Console, stream: Stream, argument: usize) {
    let mut text = [0u8; 4096];
    if let Ok(text) = console.argument(argument, &mut text) {
        say(console, stream, text);
    }
}

// Whether an argument is this word; one that is not there, or too long, is the empty one. Cost: the bytes of both.
pub fn is_argument(console: &Console, argument: usize, word: &[u8]) -> bool
    ensures { Asked word.now result }
{
    let mut text = [0u8; 4096];
    console.argument(argument, &mut text).unwrap_or(b"") == word
}
