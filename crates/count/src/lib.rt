// count: how many words of one length are accepted, and how many are not?
#![tactic(auto)]

ghost use Rattle.std.specs.Prelude.{◌≡◌, ◌^◌, ◌≤◌, Ok, length};
ghost use Rattle.format.specs.Decoding.{automaton_of};
ghost use Rattle.format.specs.Reading.{reading_of};
ghost use Rattle.word_layout.specs.Layout.{only_block};
ghost use Rattle.table.specs.Standing.{Stands};
ghost use Rattle.count_promise.specs.WordCounts.{word_count_of};
ghost use Rattle.count.specs.Answers.{limits_answer, sets_answer};

pub use count_promise::WordCount;
use count_rounds::count_rounds;
use count_sums::all_words;
use format::{Automaton, Counts, Reason, Refusal};
use live_building::{build_pruned, set_table};
use live_search::explore_sets;
use table::finals::final_configurations;
use table_list_steps::start_set;
use word_layout::{Block, LETTER_SETS, ONLY_BLOCK};

// The automaton of a valid file stands in its block, and there are `total` words of `size` letters. All its live sets are found, and the
// words are counted by them. Refuses 23: more than 512 live sets.
// Cost: for each live set two steps by all letters; then what `count_rounds` takes.
fn count_sets(
    file: &[u8],
    c: Counts,
    w: &mut [u64],
    block: Block,
    size: u64,
    total: u64,
) -> Result<WordCount, Refusal>
    requires stands { Stands file.now c w.old block × ((block.base ≡ only_block) × (8192 ≤ length w.old)) }
    requires total_value { total ≡ c.letters ^ size }
    ensures same { length w.new ≡ length w.old }
    ensures answer { result ≡ sets_answer 256 512 (automaton_of file.now) size }
{
    let finals = final_configurations(file, c, w, block.count);
    let start = start_set(w, block);
    let Some(n) = explore_sets(file, c, w, block, set_table(), LETTER_SETS, start) else {
        return Err(Reason::TooManyLiveSets.of_call());
    };
    let accepted = count_rounds(file, c, w, block, n, finals, size);
    Ok(WordCount {
        accepted,
        rejected: total - accepted,
    })
}

// The words of a valid file with the counts c. Refuses, in this order: 31, a length above 64, or more words than 64 bits can count; 21, more
// than 256 configurations; 23.
// Cost: what building and `count_sets` take.
fn count_valid(file: &[u8], c: Counts, w: &mut [u64], size: u64) -> Result<WordCount, Refusal>
    requires { (reading_of file.now ≡ Ok c) × (8192 ≤ length w.old) }
    ensures same { length w.new ≡ length w.old }
    ensures answer { result ≡ limits_answer 256 512 64 18446744073709551615 (automaton_of file.now) size }
{
    if 64 < size {
        return Err(Reason::LengthTooLarge.of_call());
    }
    let Some(total) = all_words(c.letters as u64, size) else {
        return Err(Reason::LengthTooLarge.of_call());
    };
    let Some(sizes) = build_pruned(file, c, w) else {
        return Err(Reason::TooManyConfigurations.of(Automaton::First));
    };
    let block = Block {
        base: ONLY_BLOCK,
        count: sizes.count,
        plain: sizes.plain,
    };
    count_sets(file, c, w, block, size, total)
}

// How many words of `size` letters does the automaton of the file accept, and how many not? A word counts once, however many runs spell
// it. Refuses, in this order: fewer than 8,192 working words, 24 (the automaton at fault is 0); a fault of the file, as `format::read`
// tells it; a size above 64, or more words of that size than 18,446,744,073,709,551,615, 31 (0); more than 256 configurations, 21; words
// of all lengths that lead to more than 512 live sets, 23 (0). The working words are free again afterwards, whatever they held before.
// Each live set is found once; then, letter after letter of the length, each has as many accepted words as the sets that its letters lead
// to have together.
// Cost: b + k * o + k * k + n * (2 * s + a) + size * n * a steps, where b is the number of bytes of the file, o that of its arcs and
// operations, k that of its configurations, n that of its live sets, a that of its letters and s what a step by all letters takes: the plain
// arcs of the live configurations, or where there are more than 2,048 the arcs and operations that leave their states. Where (n + 1) * a is
// above 4,096, the sets behind the first 4096 / a - 1 take a step more for each letter of the length. Nothing is allocated.
pub fn count_words(file: &[u8], size: u64, work: &mut [u64]) -> Result<WordCount, Refusal>
    ensures same { length work.new ≡ length work.old }
    ensures answer { result ≡ word_count_of file.now size (length work.old) }
{
    if work.len() < 8192 {
        return Err(Reason::TooLittleMemoryLent.of_call());
    }
    let reading = format::read(file);
    let Ok(c) = reading else {
        return Err(reading.unwrap_err().reason.of(Automaton::First));
    };
    count_valid(file, c, work, size)
}
