// The letters and the states that stand in front of the fault, as lines of the text format.
use book_console::console::Console;
use book_console::words::Sayer;
use std::fmt::Write;

// Says a letter as its byte in hexadecimal. Cost: constant.
pub fn say_letter_as_byte(line: Sayer<'_>, letter: u8) {
    line.text("0x").hex(letter);
}

// Says a letter by itself where it is a visible character, else as its byte in hexadecimal. Cost: constant.
pub fn say_letter(mut line: Sayer<'_>, letter: u8) {
    if letter.is_ascii_graphic() {
        let _ = line.write_char(char::from(letter));
    } else {
        say_letter_as_byte(line, letter);
    }
}

// The line of the letters. Cost: the letters.
pub fn list_letters(console: &Console, letters: &[u8]) {
    let line = console.out().text("letters");
    for letter in letters {
        say_letter(line.text(" "), *letter);
    }
    line.text("\n");
}

// The numbers below a count, each behind a space: names of symbols. Cost: the numbers.
pub fn say_names(console: &Console, count: usize) {
    for i in 0..count {
        console.out().text(" ").number(i as u64);
    }
}

// The lines of the states, whose names are their numbers, sixteen to a line. Cost: the states.
fn list_names(console: &Console, count: usize) {
    let line = console.out().text("states");
    for state in 0..count {
        if state % 16 == 0 && state != 0 {
            line.text("\nstates");
        }
        line.text(" ").number(state as u64);
    }
    line.text("\n");
}

// The lines of all states, and of those with these flags that are final. Cost: the states.
pub fn list_states(console: &Console, count: usize, flags: &[u8]) {
    list_names(console, count);
    let line = console.out().text("final");
    for (state, flag) in flags.iter().enumerate() {
        if *flag == 1 {
            line.text(" ").number(state as u64);
        }
    }
    line.text("\n");
}
