// table_configurations: a passing arc meets a configuration, which gets a number if it has none, and the plain arc is noted.
#![tactic(auto)]

ghost use Rattle.std.specs.Prelude.{◌≡◌, cond, ◌&&◌, ◌||◌, List, [], ◌∷◌, ◌++◌, ℕ, ◌+◌, ◌*◌, ◌^◌, ◌<◌, ◌≤◌, eqb, ltb, length, get_or};
ghost use Rattle.automata.specs.Exploration.{add, number};
ghost use Rattle.automata.specs.Live.{PlainArc};
ghost use Rattle.format.specs.Decoding.{letter_of};
ghost use Rattle.word_fields.specs.Fields.{field};
ghost use Rattle.word_fields.specs.Frame.{Kept, KeptBut};
ghost use Rattle.word_rows.specs.Rows.{related};
ghost use Rattle.word_layout.specs.Layout.{configs, map_end, arcs_at, starts_at, packed_arc, Placed};
ghost use Rattle.table_configurations.specs.Known.{plain_arc};
ghost use Rattle.table_configurations.specs.Tables.{Configured, Tabled, Safe, Met};

use format::fields::byte;
use table_operations::configurations::configuration;
use table_sets::Listed;
use word_fields::chains::{add_word, find_word};
use word_layout::{CONFIG_HEADS, CONFIG_NEXTS, CONFIGS};
use word_rows::{load, store};
use word_sets::{empty, with};

// What exploring finds where there are no more than 256 configurations: how many there are, and how many plain arcs.
#[derive(Clone, Copy, PartialEq, Eq, Debug)]
pub struct Sizes {
    pub count: usize,
    pub plain: usize,
}

// A new configuration gets the number `count`, and a row that holds it alone.
// Cost: constant.
pub fn add_configuration(w: &mut [u64], base: usize, count: usize, key: u64)
    requires { (count < 256) × (key < 2 ^ 40) × Placed w.old base × Configured w.old count }
    ensures kept { KeptBut configs map_end base (arcs_at base) w.old w.new }
    ensures configured { Configured w.new (count + 1) }
    ensures tabled { (plain : ℕ) (all : List ℕ) (plains : List PlainArc) → Tabled w.old base count plain all plains → number eqb key all ≡ count → Tabled w.new base (count + 1) plain (add eqb all key) plains }
{
    add_word(w, CONFIGS, CONFIG_HEADS, CONFIG_NEXTS, count, key);
    store(w, base, count, with(empty(), count));
}

// Row c gains the target where the letter's byte is that of the empty move.
// Cost: constant.
fn note_empty_move(w: &mut [u64], base: usize, c: usize, letter: usize, target: usize)
    requires { (c < 256) × (target < 256) × Placed w.old base }
    ensures kept { Kept base (arcs_at base) w.old w.new }
    ensures noted { (i j : ℕ) → related w.new base i j ≡ ((eqb letter 255 && eqb i c && eqb j target) || related w.old base i j) }
{
    if letter == 255 {
        store(w, base, c, with(load(w, base, c), target));
    }
}

// Plain arc number `plain` is listed where there is room for it.
// Cost: constant.
fn list_arc(w: &mut [u64], base: usize, plain: usize, letter: usize, target: usize)
    requires { (letter < 256) × (target < 256) × Placed w.old base }
    ensures kept { Kept (arcs_at base) (starts_at base) w.old w.new }
    ensures listed { (k : ℕ) → field w.new (arcs_at base) k ≡ cond (ltb plain 2048 && eqb k plain) (packed_arc letter target) (field w.old (arcs_at base) k) }
{
    if plain < 2048 {
        table_sets::list_arc(w, base, plain, Listed { letter, target });
    }
}

// The plain arc number `plain`, from configuration c to one that has a number.
// Cost: constant.
fn note_arc(w: &mut [u64], base: usize, c: usize, plain: usize, letter: usize, target: usize)
    requires { (c < 256) × (letter < 256) × (target < 256) × Placed w.old base }
    ensures kept { Kept base (starts_at base) w.old w.new }
    ensures tabled { (count : ℕ) (all : List ℕ) (plains : List PlainArc) → Tabled w.old base count plain all plains → c < count → count ≤ 256 → Tabled w.new base count (plain + 1) all (plains ++ plain_arc c (letter_of letter) target ∷ []) }
{
    note_empty_move(w, base, c, letter, target);
    list_arc(w, base, plain, letter, target);
}

// An arc with this letter's byte leads from configuration c to `key`. Answers how many configurations and plain arcs there are then, or
// nothing where that would be configuration 257.
// Cost: as many steps as configurations have the key of `key` in the chains.
fn meet(
    w: &mut [u64],
    base: usize,
    c: usize,
    count: usize,
    plain: usize,
    letter: usize,
    key: u64,
) -> Option<Sizes>
    requires { (c < count) × (letter < 256) × (key < 2 ^ 40) × (plain < 2 ^ 32) × Placed w.old base × Configured w.old count }
    ensures kept { KeptBut configs map_end base (starts_at base) w.old w.new }
    ensures safe { Safe w.new count (plain + 1) result }
    ensures met { Met w.old w.new base count plain c (letter_of letter) key result }
{
    if let Some(target) = find_word(w, CONFIGS, CONFIG_HEADS, CONFIG_NEXTS, count, key) {
        note_arc(w, base, c, plain, letter, target);
        return Some(Sizes {
            count,
            plain: plain + 1,
        });
    }
    if count == 256 {
        return None;
    }
    add_configuration(w, base, count, key);
    note_arc(w, base, c, plain, letter, count);
    Some(Sizes {
        count: count + 1,
        plain: plain + 1,
    })
}

// The arc at a place of the file has passed from configuration c, and left `regs` in the registers. Answers as `meet`.
// Cost: as `meet`.
pub fn arrive(
    file: &[u8],
    at: usize,
    regs: u64,
    w: &mut [u64],
    base: usize,
    c: usize,
    count: usize,
    plain: usize,
) -> Option<Sizes>
    requires { (at + 4 ≤ length file.now) × (regs < 2 ^ 32) × (c < count) × (plain < 2 ^ 32) × Placed w.old base × Configured w.old count }
    ensures kept { KeptBut configs map_end base (starts_at base) w.old w.new }
    ensures safe { Safe w.new count (plain + 1) result }
    ensures met { Met w.old w.new base count plain c (letter_of (get_or file.now (at + 1) 0)) (regs + get_or file.now (at + 2) 0 * 2 ^ 32) result }
{
    let key = configuration(byte(file, at + 2), regs);
    meet(w, base, c, count, plain, byte(file, at + 1), key)
}
