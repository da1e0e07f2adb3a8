// word_layout: where everything stands in the 8,192 lent words, each place once (specs/Layout.antt says what stands there).
#![tactic(auto)]

// The block of an automaton: the word that it starts at, and how many configurations and plain arcs the automaton has.
#[derive(Clone, Copy, PartialEq, Eq, Debug)]
pub struct Block {
    pub base: usize,
    pub count: usize,
    pub plain: usize,
}

// A table of live sets: the word that its rows start at, how many sets a row has, one or two, and the word that its index starts at.
#[derive(Clone, Copy, PartialEq, Eq, Debug)]
pub struct SetTable {
    pub rows: usize,
    pub sets: usize,
    pub index: usize,
}

// The tables of the building.
pub const OFFSETS: usize = 2048;

pub const ARC_NEXTS: usize = 2560;

pub const ARC_HEADS: usize = 3072;

pub const CONFIGS: usize = 3136;

pub const CONFIG_HEADS: usize = 3392;

pub const CONFIG_NEXTS: usize = 3520;

// The parts of a table's index from its first word on: the parents come first.
pub const INDEX_HEADS: usize = 128;

pub const INDEX_NEXTS: usize = 256;

// The table of comparing, of pairs of live sets.
pub const PAIR_ROWS: usize = 0;

pub const PAIR_INDEX: usize = 4096;

// The sets of the letters that a step leaves.
pub const FIRST_SETS: usize = 4480;

pub const SECOND_SETS: usize = 4736;

// The blocks, and the parts of a block from its first word on.
pub const FIRST_BLOCK: usize = 4992;

pub const SECOND_BLOCK: usize = 6592;

pub const BLOCK_ARCS: usize = 1024;

pub const BLOCK_STARTS: usize = 1536;

// The listed arcs of the only automaton by their letter and source, and the letters' numbers by the bytes of words.
pub const LETTER_HEADS: usize = 0;

pub const LETTER_NEXTS: usize = 6592;

pub const LETTER_SOURCES: usize = 7104;

pub const BYTE_LETTERS: usize = 7364;

pub const FINAL_ROW: usize = 7428;

// The places of a call on one automaton whose live sets are met: where words are counted, where the sets before a place of a word with
// ranges stand, and what both use.
pub const COUNTS: usize = 0;

pub const NEXT_COUNTS: usize = 512;

pub const TARGETS: usize = 1024;

pub const BEFORE_ROWS: usize = 0;

pub const ONLY_BLOCK: usize = 3584;

pub const SET_ROWS: usize = 5184;

pub const SET_INDEX: usize = 7232;

pub const LETTER_SETS: usize = 7616;
