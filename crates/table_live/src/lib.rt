// table_live: the live sets of one automaton, by the listed plain arcs where all are listed, else by the arcs in the file: after one more
// letter, for all letters at once; and after a word of bytes, one letter after the other.
#![tactic(auto)]

ghost use Rattle.std.specs.Prelude.{◌≡◌, List, ℕ, ◌+◌, ◌<◌, ◌≤◌, length};
ghost use Rattle.std.proofs.Math.Option.{none, some};
ghost use Rattle.automata.specs.Counting.{Apart};
ghost use Rattle.automata.specs.Letters.{keys};
ghost use Rattle.automata.specs.Live.{PlainArc, by_letter};
ghost use Rattle.automata.specs.Words.{letter_with};
ghost use Rattle.word_layout.specs.Layout.{first_sets, byte_letters, lettered_end};
ghost use Rattle.file_fields.specs.Parts.{letter_bytes};
ghost use Rattle.table_letters.specs.Lettered.{Lettered};
ghost use Rattle.word_fields.specs.Frame.{Kept};
ghost use Rattle.word_sets.specs.Sets.{view, ε_closed_set};
ghost use Rattle.table_sets.specs.Stepping.{FromList, Held};
ghost use Rattle.table_live.specs.Steps.{LetterNumbers, Outgoing, Steppable, live_bytes};

use format::Counts;
use format::letters::key_of;
use table_file_steps::step_file;
use table_letters::follow;
use table_sets::set_of;
use word_fields::{fill, get16, put16};
use word_layout::{BYTE_LETTERS, Block, FIRST_SETS};

pub mod letters;

// The live set after the letter l, where the plain arcs are too many to be listed.
// Cost: one step for each operation of the arcs that leave the state of a live configuration, and a look into the table of configurations
// for each that passes.
fn step_in_file(
    file: &[u8],
    c: Counts,
    w: &mut [u64],
    block: Block,
    set: [u64; 4],
    l: usize,
) -> [u64; 4]
    requires { (l < 64) × (Steppable file.now c w.old block first_sets × (2048 < block.plain)) }
    ensures kept { Kept first_sets (first_sets + 256) w.old w.new }
    ensures set { (arcs : List PlainArc) → Outgoing file.now c w.old block arcs → ε_closed_set block.count arcs set → l < c.letters
        → (view block.count result ≡ by_letter block.count arcs (view block.count set) l) × ε_closed_set block.count arcs result }
{
    let met = step_file(file, c, w, block, FIRST_SETS, set);
    set_of(w, FIRST_SETS, met, l)
}

// The numbers of the letters of the file with the counts c, by their keys.
// Cost: 64 words, and one step for each letter.
pub fn number_letters(file: &[u8], c: Counts, w: &mut [u64])
    requires { (12 + c.letters ≤ length file.now) × ((c.letters ≤ 64) × (lettered_end ≤ length w.old)) }
    ensures kept { Kept byte_letters lettered_end w.old w.new }
    ensures numbered { LetterNumbers (letter_bytes c file.now) w.new }
{
    fill(w, BYTE_LETTERS, 64);
    for (i, letter) in file[12..12 + c.letters].iter().enumerate() {
        put16(w, BYTE_LETTERS, usize::from(key_of(*letter)), i);
    }
}

// The number of the letter that the byte stands for, from 64 on where it is no letter.
// Cost: constant.
fn letter_of(w: &[u64], byte: u8) -> usize
    requires { lettered_end ≤ length w.now }
    ensures letter { (alphabet : List ℕ) → LetterNumbers alphabet w.now → Apart (keys alphabet) → length alphabet ≤ 64 → result < 64 → letter_with alphabet byte ≡ some result }
    ensures none { (alphabet : List ℕ) → LetterNumbers alphabet w.now → Apart (keys alphabet) → length alphabet ≤ 64 → 64 ≤ result → letter_with alphabet byte ≡ none }
{
    get16(w, BYTE_LETTERS, usize::from(key_of(byte)))
}

// The live set of a word, from the set `from` on, by the listed arcs; empty where a byte is no letter. Where nothing is live any more, the
// rest of the word decides nothing.
// Cost: for each byte, up to the one behind which nothing is live, one row for each listed arc that is taken.
pub fn walk_listed(word: &[u8], w: &[u64], block: Block, letters: usize, from: [u64; 4]) -> [u64; 4]
    requires { Lettered letters w.now block }
    ensures { (alphabet : List ℕ) (arcs : List PlainArc) → LetterNumbers alphabet w.now → Apart (keys alphabet) → length alphabet ≡ letters
        → Held block.count letters arcs (FromList w.now block.base block.count block.plain) → ε_closed_set block.count arcs from
        → (view block.count result ≡ live_bytes alphabet arcs block.count (view block.count from) word.now) × ε_closed_set block.count arcs result }
{
    let mut set = from;
    for byte in word {
        let l = letter_of(w, *byte);
        if letters <= l {
            return [0; 4];
        }
        let next = follow(w, block, letters, set, l);
        if word_sets::is_empty(next) {
            return [0; 4];
        }
        set = next;
    }
    set
}

// The same of the automaton whose file has the counts c, where the plain arcs are too many to be listed.
// Cost: for each byte, up to the one behind which nothing is live, one step for each operation of the arcs that leave the state of a live
// configuration, and a look into the table of configurations for each that passes.
pub fn walk_file(
    file: &[u8],
    c: Counts,
    word: &[u8],
    w: &mut [u64],
    block: Block,
    from: [u64; 4],
) -> [u64; 4]
    requires { Steppable file.now c w.old block first_sets × ((2048 < block.plain) × ((lettered_end ≤ length w.old) × ((c.letters ≤ 64) × (LetterNumbers (letter_bytes c file.now) w.old × Apart (keys (letter_bytes c file.now)))))) }
    ensures kept { Kept first_sets (first_sets + 256) w.old w.new }
    ensures set { (arcs : List PlainArc) → Outgoing file.now c w.old block arcs → ε_closed_set block.count arcs from
        → (view block.count result ≡ live_bytes (letter_bytes c file.now) arcs block.count (view block.count from) word.now) × ε_closed_set block.count arcs result }
{
    let mut set = from;
    for byte in word {
        let l = letter_of(w, *byte);
        if 64 <= l {
            return [0; 4];
        }
        let next = step_in_file(file, c, w, block, set, l);
        if word_sets::is_empty(next) {
            return [0; 4];
        }
        set = next;
    }
    set
}
