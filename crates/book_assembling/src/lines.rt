// A text line by line, and the lines that are lists of words.
use super::arcs::{read_arc, read_path};
use book_draft::{Declarations, Fault, TextReason};
use book_tokens::{Word, Words, lines_of, next_word};

// The line that tells the number of registers, behind its first word. Cost: the line.
fn read_registers(declared: &mut Declarations<'_>, line: Word) -> Result<(), Fault> {
    let text = declared.text;
    if declared.registers.is_some() {
        return Err(TextReason::RegistersTwice.at(line.from));
    }
    let word = next_word(text, line.to);
    let [digit @ b'1'..=b'8'] = word.bytes(text) else {
        return Err(TextReason::Registers.at(word.from));
    };
    let behind = next_word(text, word.to);
    if !behind.is_empty() {
        return Err(TextReason::BehindRegisters.at(behind.from));
    }
    declared.registers = Some(*digit - b'0');
    Ok(())
}

// A line by its words; one with no word tells nothing. Cost: that of what it tells.
fn read_line(declared: &mut Declarations<'_>, mut words: Words<'_>) -> Result<(), Fault> {
    let Some(line) = words.next() else {
        return Ok(());
    };
    match line.bytes(declared.text) {
        b"arc" => read_arc(declared, line),
        b"path" => read_path(declared, line),
        b"final" => words.try_for_each(|word| declared.add_final(word)),
        b"states" => words.try_for_each(|word| declared.add_state(word)),
        b"letters" => words.try_for_each(|word| declared.add_letter(word)),
        b"symbols" => words.try_for_each(|word| declared.add_symbol(word)),
        b"registers" => read_registers(declared, line),
        _ => Err(TextReason::FirstWord.at(line.from)),
    }
}

// Reads the text of the declarations into them, up to the first fault. Cost: that of each line.
pub fn read_text(declared: &mut Declarations<'_>) -> Result<(), Fault> {
    lines_of(declared.text).try_for_each(|words| read_line(declared, words))
}
