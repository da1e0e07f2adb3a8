// A graph in the DOT language: the states as nodes, the arcs as edges. Arcs between the same two states are one edge; those of them with
// the same operations are one line of its label, which lists their letters.
use super::arcs::{Arc, whole_arcs};
use super::parts::{say_letter, say_letter_as_byte};
use book_console::console::Console;
use book_console::words::Sayer;
use book_tokens::byte_at;

// What stands in front of the nodes. The margins are narrow, so that many states fit a page.
const FRONT: &str =
    "digraph automaton {\n  nodesep=0.15;\n  ranksep=0.3;\n  node [shape=circle, fontsize=10, margin=0.02, width=0.3, height=0.3];\n  edge [fontsize=9, arrowsize=0.6];\n  start [shape=point, width=0.1, height=0.1];\n  start -> 0;\n";

// The letters of an edge: a bit for each letter number, and whether it has the empty move.
#[derive(Clone, Copy)]
struct Gathered {
    letters: u64,
    is_empty: bool,
}

impl Gathered {
    // Is the letter with this number among these? Cost: constant.
    fn has(&self, i: usize) -> bool {
        i < 64 && (self.letters >> (i as u64)) % 2 == 1
    }

    // Does a run of neighbouring letters begin with this number? Cost: constant.
    fn begins(&self, i: usize) -> bool {
        self.has(i) && (i == 0 || !self.has(i - 1))
    }

    // Adds a letter by its number, or the empty move. Cost: constant.
    fn add(&mut self, number: u8) {
        if number < 64 {
            self.letters |= 1u64 << u64::from(number);
        } else {
            self.is_empty = true;
        }
    }
}

// Says a letter in a label, where a comma, a hyphen, a quote and a backslash have a meaning: those by their bytes. Cost: constant.
fn label_letter(label: Sayer<'_>, letter: u8) {
    match letter {
        b',' | b'-' | b'"' | b'\\' => say_letter_as_byte(label, letter),
        _ => say_letter(label, letter),
    }
}

// What stands in front of the nodes. Cost: the text.
pub fn begin_graph(console: &Console) {
    console.out().text(FRONT);
}

// The direction of a graph: few states stand beside one another, many below one another, where labels take less room. Cost: the text.
pub fn direct_graph(console: &Console, states: usize) {
    if states < 50 {
        console.out().text("  rankdir=LR;\n");
    }
}

// The nodes of the states with these flags, from state 0 on: a double circle where one is final. Cost: the flags.
pub fn draw_states(console: &Console, flags: &[u8]) {
    for (state, flag) in flags.iter().enumerate() {
        let shape = if *flag == 1 {
            " [shape=doublecircle]"
        } else {
            ""
        };
        console
            .out()
            .text("  ")
            .number(state as u64)
            .text(shape)
            .text(";\n");
    }
}

// A run of letters, from one number up to the one in front of `to`: one by itself, two with a comma, more as their first and their last.
// Cost: constant.
fn label_run(console: &Console, list: &[u8], from: usize, to: usize) {
    let label = console.out();
    label_letter(label, byte_at(list, from));
    let between = match to.saturating_sub(from) {
        0 | 1 => return,
        2 => ",",
        _ => "-",
    };
    label_letter(label.text(between), byte_at(list, to.saturating_sub(1)));
}

// The letters of an edge, run by run, with commas between. Cost: the letters.
fn label_letters(console: &Console, list: &[u8], g: Gathered) {
    let mut is_behind = g.is_empty;
    for i in 0..list.len() {
        if g.begins(i) {
            if is_behind {
                console.out().text(",");
            }
            is_behind = true;
            let end = (i..list.len()).find(|j| !g.has(*j));
            label_run(console, list, i, end.unwrap_or(list.len()));
        }
    }
}

// The letters of an arc and of all arcs of s that are parallel to it. Cost: one pass over s.
fn gather<'a>(arc: &Arc<'a>, s: &'a [u8]) -> Gathered {
    let mut g = Gathered {
        letters: 0,
        is_empty: false,
    };
    for other in whole_arcs(s) {
        if arc.is_parallel(&other) {
            g.add(other.letter());
        }
    }
    g
}

// A line of a label: letters, and behind a stroke operations. Cost: the line.
fn say_line<'a>(console: &Console, list: &[u8], arc: &Arc<'a>, g: Gathered) {
    if g.is_empty {
        console.out().text("empty");
    }
    label_letters(console, list, g);
    if !arc.is_plain() {
        console.out().text(" /");
    }
    arc.say_operations(console, ":=");
}

// The lines of the edge of an arc, which are those of the arcs between the same states, each where no arc in front is on its line.
// Cost: for each arc on the edge three passes over s.
fn say_lines<'a>(console: &Console, list: &[u8], edge: &Arc<'a>, s: &'a [u8]) {
    for arc in whole_arcs(s) {
        if edge.has_same_ends(&arc)
            && !whole_arcs(arc.in_front).any(|other| arc.is_parallel(&other))
        {
            if whole_arcs(arc.in_front).any(|other| arc.has_same_ends(&other)) {
                console.out().text("\\n");
            }
            say_line(console, list, &arc, gather(&arc, s));
        }
    }
}

// The edges of the arcs from the front of s on that stand there whole, each where the first of its arcs stands.
// Cost: for each arc a few passes over s.
pub fn draw_arcs(console: &Console, list: &[u8], s: &[u8]) {
    for arc in whole_arcs(s) {
        if !whole_arcs(arc.in_front).any(|other| arc.has_same_ends(&other)) {
            console
                .out()
                .text("  ")
                .number(u64::from(arc.source()))
                .text(" -> ")
                .number(u64::from(arc.target()))
                .text(" [label=\"");
            say_lines(console, list, &arc, s);
            console.out().text("\"];\n");
        }
    }
}
