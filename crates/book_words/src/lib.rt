// book_words: words from standard input, one a line, and the lines of their answers to standard output, many bytes to a call of the system.
// The bytes of the input stand in a buffer, and the places in it are a struct; so it is with the output. What waits in the output is
// written when it has no room for a further line, before the input is waited for, and before anything is told on standard error.
#![tactic(auto)]

ghost use Rattle.std.specs.Prelude.{◌≡◌, ◌≤◌, ◌<◌, T, length};
ghost use Rattle.book_console.specs.declared.calls.Status.TheVariants.{Failed};
ghost use Rattle.book_words.specs.Places.{FirstFeed, MovedFront, Standing};

use book_console::calls::Status;
use book_console::console::{Console, Stream};
use book_console::words::{fail, say, say_number, write_out};
use std::io::Read;

// The longest line of an answer: a word, and what stands in front of it and behind it.
pub const LONGEST_LINE: usize = 65600;

// Where the bytes of the input stand in their buffer. The word that is not judged yet begins at `from`, has no line feed in front of
// `seen`, and the bytes end at `to`. Lines count from 1. The rest of a word that is too long is skipped, up to its line feed.
#[derive(Clone, Copy, Debug)]
pub struct Input {
    pub from: usize,
    pub seen: usize,
    pub to: usize,
    pub line: u64,
    pub is_skipping: bool,
    pub is_ended: bool,
}

// The lines of the answers, of which so many bytes wait in `out` to be written; the status so far; whether the run is over.
#[derive(Drop)]
pub struct Answers<'a> {
    pub out: &'a mut [u8],
    pub waiting: usize,
    pub status: Status,
    pub is_over: bool,
}

// A word of the input, without its line feed: it stood in the buffer of the input.
#[derive(Clone, Copy)]
pub struct Word<'a> {
    pub bytes: &'a [u8],
    ghost short: { length bytes.now ≤ 65536 },
}

impl<'a> Answers<'a> {
    // So many bytes wait after a word with this status; a failure is told before a no. Cost: constant.
    pub fn answered(&mut self, waiting: usize, status: Status) {
        self.waiting = waiting;
        self.status = self.status.max(status);
    }

    // A word could not be judged; the run goes on. Cost: constant.
    pub fn not_judged(&mut self) {
        self.status = Status::Failed;
    }

    // The run ends with a failure. Cost: constant.
    pub fn fail(&mut self)
        ensures { (self.new.waiting ≡ 0) × ((self.new.status ≡ Failed) × T self.new.is_over) }
    {
        self.status = Status::Failed;
        self.end();
    }

    // The run is over; the status stays. Cost: constant.
    fn end(&mut self)
        ensures { (self.new.waiting ≡ 0) × ((self.new.status ≡ self.old.status) × T self.new.is_over) }
    {
        self.waiting = 0;
        self.is_over = true;
    }

    // Writes what waits; where that fails it is told, and the run is over. Cost: one pass over what waits.
    pub fn flush(&mut self, console: &Console) {
        let n = self.waiting;
        let is_written = match self.out.get(..n) {
            Some(waiting) => write_out(console, waiting),
            None => false,
        };
        if is_written {
            self.waiting = 0;
        } else {
            self.fail();
        }
    }

    // Makes room for a further line. Cost: constant, or that of `flush`.
    pub fn make_room(&mut self, console: &Console) {
        if self.out.len().saturating_sub(self.waiting) < LONGEST_LINE {
            self.flush(console);
        }
    }
}

// The place of the first line feed from a place on, or the end where there is none. Cost: the bytes up to it.
pub fn line_feed(text: &[u8], from: usize, to: usize) -> usize
    requires { (from ≤ to) × (to ≤ length text.now) }
    ensures { FirstFeed text.now from to result }
{
    for i in from..to {
        if text[i] == b'\n' {
            return i;
        }
    }
    to
}

// Moves the bytes between two places to the front. Cost: one pass over them.
fn move_to_front(text: &mut [u8], from: usize, to: usize)
    requires { (from ≤ to) × (to ≤ length text.old) }
    ensures { MovedFront from to text.old text.new }
{
    text.copy_within(from..to, 0);
}

// Tells that a word has more bytes than there is room for. Cost: the text.
fn tell_long(console: &Console, line: u64) {
    say(console, Stream::Err, b"line ");
    say_number(console, Stream::Err, line);
    say(
        console,
        Stream::Err,
        b": a word of more than 65535 bytes is not judged\n",
    );
}

impl Input {
    // A run in front of its first word. Cost: constant.
    pub fn begin() -> Input
        ensures { Standing 0 result }
    {
        Input {
            from: 0,
            seen: 0,
            to: 0,
            line: 1,
            is_skipping: false,
            is_ended: false,
        }
    }

    // The word whose line feed stands at a place is passed. Cost: constant.
    pub fn pass(&mut self, feed: usize)
        requires { feed < self.old.to }
        ensures { (self.new.from ≤ self.new.seen) × ((self.new.seen ≤ self.new.to) × (self.new.to ≡ self.old.to)) }
    {
        self.from = feed + 1;
        self.seen = feed + 1;
        self.line = self.line.saturating_add(1);
        self.is_skipping = false;
    }

    // So many bytes stand at the front, and none of those in front of `seen` is a line feed. Cost: constant.
    fn stand(&mut self, seen: usize, to: usize)
        requires { seen ≤ to }
        ensures { (self.new.from ≡ 0) × ((self.new.seen ≡ seen) × (self.new.to ≡ to)) }
    {
        self.from = 0;
        self.seen = seen;
        self.to = to;
    }

    // The input ends behind the first n bytes. Where a word stands there it gets the line feed that it lacks. Cost: constant.
    fn end<'a>(&mut self, text: &mut [u8], n: usize, answers: &mut Answers<'a>)
        requires { n < length text.old }
        ensures { Standing (length text.new) self.new }
    {
        self.is_ended = true;
        if n == 0 {
            self.stand(0, 0);
            answers.end();
            return;
        }
        text[n] = b'\n';
        self.stand(n, n + 1);
    }

    // Reads more of the input behind the first n bytes of the buffer. Cost: one read.
    fn read_behind<'a>(
        &mut self,
        console: &Console,
        text: &mut [u8],
        n: usize,
        answers: &mut Answers<'a>,
    )
        requires { n < length text.old }
        ensures { Standing (length text.new) self.new }
    {
        match console.rt.stdin().read(&mut text[n..]) {
            Ok(0) => self.end(text, n, answers),
            Ok(k) => self.stand(n, n + k),
            Err(error) => {
                fail(console, b"standard input", &error);
                answers.fail();
                self.is_ended = true;
                self.stand(n, n);
            }
        }
    }

    // Where the bytes begin that are still needed. Cost: constant.
    fn first_needed(&self) -> usize
        requires { self.now.from ≤ self.now.to }
        ensures { result ≤ self.now.to }
    {
        if self.is_skipping { self.to } else { self.from }
    }

    // Reads more of the input, behind the word that stands in the buffer without its line feed. A word that fills the buffer is told, and its
    // rest is skipped. Cost: one pass over that word, and one read.
    fn read_more<'a>(&mut self, console: &Console, text: &mut [u8], answers: &mut Answers<'a>)
        requires { Standing (length text.old) self.old }
        ensures { Standing (length text.new) self.new }
    {
        let from = self.first_needed();
        let n = self.to - from;
        move_to_front(text, from, self.to);
        if n < text.len() {
            self.read_behind(console, text, n, answers);
            return;
        }
        tell_long(console, self.line);
        answers.not_judged();
        self.is_skipping = true;
        self.stand(0, 0);
    }

    // No line feed stands in the bytes that were read: what waits in the output is written, and more of the input is read, or the run is
    // over. Cost: that of `flush`, and one read.
    pub fn refill<'a>(&mut self, console: &Console, text: &mut [u8], answers: &mut Answers<'a>)
        requires { Standing (length text.old) self.old }
        ensures { Standing (length text.new) self.new }
    {
        answers.flush(console);
        if self.is_ended || answers.is_over {
            answers.end();
            return;
        }
        self.read_more(console, text, answers);
    }
}

// Judges the words of standard input, one after the other: each is handed to `judge`, which tells its answer. Answers the status. A word that
// does not fit `text` is told on standard error, and is not judged; `out` has room for what waits and for the longest line.
// Cost: that of judging, one pass over the input, and one over what is written.
pub fn each_line<F: FnMut(Word<'_>, &mut Answers<'_>)>(
    console: &Console,
    text: &mut [u8],
    out: &mut [u8],
    mut judge: F,
) -> Status
    requires callable { F.IsAlwaysCallable judge }
    requires room { length text.old ≤ 65536 }
{
    let mut input = Input::begin();
    let mut answers = Answers {
        out,
        waiting: 0,
        status: Status::Yes,
        is_over: false,
    };
    for _turns in 0..u64::MAX {
        if answers.is_over {
            break;
        }
        let feed = line_feed(text, input.seen, input.to);
        if feed < input.to {
            let from = input.from;
            let is_skipped = input.is_skipping;
            input.pass(feed);
            if !is_skipped {
                let word = Word {
                    bytes: &text[from..feed],
                };
                judge(word, &mut answers);
            }
        } else {
            input.refill(console, text, &mut answers);
        }
    }
    answers.status
}
