// table: the table of an automaton, built from its file in lent words; what crates above read of it; and membership.
#![tactic(auto)]

ghost use Rattle.std.specs.Prelude.{◌≡◌, length};
ghost use Rattle.table.specs.Membership.{membership_of};
ghost use Rattle.table.specs.Judging.{PreparedBy};
ghost use Rattle.table.specs.Opening.{opened_of, HeldBy};

use format::{Automaton, Counts, Reason, Refusal};
use judging::{judge, make_ready};
use table_explore::walk::explore_all;
use word_layout::{Block, FIRST_BLOCK};

pub mod block;
pub mod face;
pub mod finals;
pub mod judging;

// An open file: its counts and the block of its automaton.
#[derive(Clone, Copy, PartialEq, Eq, Debug)]
pub struct Opened {
    pub counts: Counts,
    pub block: Block,
}

// The file is read and its configurations and plain arcs are found, in the first block, whose rows are not closed. Refuses, in this
// order: fewer than 8,192 working words, 24 (the automaton at fault is 0); a fault of the file, as `format::read` tells it; more than 256
// configurations, 21.
// Cost: one step for each byte of the file, and what exploring takes.
pub fn open_file(file: &[u8], work: &mut [u64]) -> Result<Opened, Refusal>
    ensures same { length work.new ≡ length work.old }
    ensures answer { result ≡ opened_of file.now (length work.old) }
    ensures block { HeldBy file.now work.new result }
{
    if work.len() < 8192 {
        return Err(Reason::TooLittleMemoryLent.of_call());
    }
    let reading = format::read(file);
    let Ok(c) = reading else {
        return Err(reading.unwrap_err().reason.of(Automaton::First));
    };
    let Some(sizes) = explore_all(file, c, work, FIRST_BLOCK) else {
        return Err(Reason::TooManyConfigurations.of(Automaton::First));
    };
    let block = Block {
        base: FIRST_BLOCK,
        count: sizes.count,
        plain: sizes.plain,
    };
    Ok(Opened { counts: c, block })
}

// The file is opened and made ready for words to be judged by `judging::judge`, as many as there are: the table is built once. Refuses what
// opening the file does.
// Cost: that of `open_file` and of `judging::make_ready`.
pub fn prepare(file: &[u8], work: &mut [u64]) -> Result<Opened, Refusal>
    ensures same { length work.new ≡ length work.old }
    ensures ready { PreparedBy file.now (length work.old) work.new result }
{
    let opened = open_file(file, work)?;
    let block = make_ready(file, opened.counts, work, opened.block);
    Ok(Opened {
        counts: opened.counts,
        block,
    })
}

// What membership answers where nothing is refused: whether the word is accepted, with the number of configurations live after it.
#[derive(Clone, Copy, PartialEq, Eq, Debug)]
pub enum Membership {
    Accepted(u64),
    Rejected(u64),
}

// Does the automaton of the file accept the word, and how many configurations are live after it? A byte stands for its letter in
// either case, whichever of the two the file lists. A word with a byte that is no letter is rejected, and leaves none live. Refuses,
// in this order: fewer than 8,192 working words, 24 (the automaton at fault is 0); a fault of the file, as `format::read` tells it; more
// than 256 configurations, 21. The working words are free again afterwards, whatever they held before. All configurations are numbered,
// the runs of empty moves among them are closed once, and the set of live configurations goes from one letter of the word to the next.
// Cost: b + 68 * a + k * o + k * k + n * k * o steps, where b is the number of bytes of the file, a that of its letters, o that of its arcs
// and operations, k that of its configurations, 256 at most, and n that of the word's bytes up to the one behind which nothing is live. An
// arc that passes costs besides a look into the table of configurations: as many steps as configurations have the key of its target, k at
// most. Where there are at most 2,048 plain arcs, the word costs no such looks, and a letter one step for each plain arc with that letter
// that leaves a live configuration. Nothing is allocated.
pub fn accepts(file: &[u8], word: &[u8], work: &mut [u64]) -> Result<Membership, Refusal>
    ensures same { length work.new ≡ length work.old }
    ensures answer { result ≡ membership_of file.now word.now (length work.old) }
{
    let opened = prepare(file, work)?;
    Ok(judge(file, opened.counts, word, work, opened.block))
}
