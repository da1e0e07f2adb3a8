// The lines of arcs and paths.
use arrayvec::ArrayVec;
use book_draft::letters::letter_told;
use book_draft::{Arc, Declarations, Draft, Fault, Kind, Operation, TextReason};
use book_tokens::{Word, is_word, next_word, words_from};

// The operation that a word tells. Cost: a look at each symbol.
fn operation_told(draft: Draft<'_>, word: Word) -> Result<Operation, Fault> {
    let from = word.from;
    let (kind, register) = match word.bytes(draft.text) {
        [b'R', digit @ b'0'..=b'7', b'=', _, ..] => (Kind::Read, *digit - b'0'),
        [b'W', digit @ b'0'..=b'7', b'=', _, ..] => (Kind::Write, *digit - b'0'),
        _ => return Err(TextReason::Operation.at(from)),
    };
    if draft.register_count() <= register {
        return Err(TextReason::NoRegister.at(from + 1));
    }
    if register == 0 && kind == Kind::Write {
        return Err(TextReason::RegisterZeroWritten.at(from));
    }
    let name = Word {
        from: from + 3,
        to: word.to,
    };
    let Some(symbol) = draft.symbol_named(name) else {
        return Err(TextReason::NoSymbol.at(name.from));
    };
    if register == 0 && symbol != 0 {
        return Err(TextReason::RegisterZeroSymbol.at(name.from));
    }
    Ok(Operation {
        kind,
        register,
        symbol,
    })
}

// The operations that an arc's line tells from a place on; where it tells none, the read of register 0, which always passes.
// Cost: that of each.
fn operations_from(draft: Draft<'_>, at: usize) -> Result<ArrayVec<Operation, 8>, Fault> {
    let mut operations = ArrayVec::new();
    for word in words_from(draft.text, at) {
        if operations.is_full() {
            return Err(TextReason::TooManyOperations.at(word.from));
        }
        operations.push(operation_told(draft, word)?);
    }
    if operations.is_empty() {
        operations.push(Operation {
            kind: Kind::Read,
            register: 0,
            symbol: 0,
        });
    }
    Ok(operations)
}

// What the line of an arc or a path tells: its own place, the number of its first state, a letter or a word, and its last state's name.
#[derive(Clone, Copy)]
struct Told {
    place: usize,
    source: u8,
    word: Word,
    last: Word,
}

// The number of a state that a line in front declares. Cost: a look at each state.
fn known_state(draft: Draft<'_>, name: Word) -> Result<u8, Fault> {
    draft
        .state_named(name)
        .ok_or(TextReason::NoState.at(name.from))
}

// The three words behind the first of a line. Cost: the words, and a look at each state.
fn told_by(draft: Draft<'_>, line: Word) -> Result<Told, Fault> {
    let text = draft.text;
    let first = next_word(text, line.to);
    let word = next_word(text, first.to);
    let last = next_word(text, word.to);
    if last.is_empty() {
        return Err(TextReason::WordMissing.at(last.from));
    }
    let source = known_state(draft, first)?;
    Ok(Told {
        place: line.from,
        source,
        word,
        last,
    })
}

// One arc more, with the operations that the text tells from the place `at` on; that there are too many arcs is told of the line's place.
// Cost: that of the operations.
fn add_arc(
    declared: &mut Declarations<'_>,
    place: usize,
    source: u8,
    letter: Option<u8>,
    target: u8,
    at: usize,
) -> Result<(), Fault> {
    if declared.arcs.is_full() {
        return Err(TextReason::TooManyArcs.at(place));
    }
    let operations = operations_from(declared.draft(), at)?;
    declared.arcs.push(Arc {
        source,
        letter,
        target,
        operations,
    });
    Ok(())
}

// The letter of an arc's line, none of the empty move. Cost: a look at each letter.
fn arc_letter(draft: Draft<'_>, word: Word) -> Result<Option<u8>, Fault> {
    let text = draft.text;
    if is_word(text, word, b"empty") {
        return Ok(None);
    }
    let told = letter_told(text, word).and_then(|byte| draft.letter_number(byte));
    match told {
        Some(letter) => Ok(Some(letter)),
        None => Err(TextReason::NoLetter.at(word.from)),
    }
}

// The line of an arc: two states, a letter between them, operations. Cost: that of the arc.
pub fn read_arc(declared: &mut Declarations<'_>, line: Word) -> Result<(), Fault> {
    let draft = declared.draft();
    let told = told_by(draft, line)?;
    let letter = arc_letter(draft, told.word)?;
    let target = known_state(draft, told.last)?;
    add_arc(
        declared,
        told.place,
        told.source,
        letter,
        target,
        told.last.to,
    )
}

// The line of a path: two states, the word between them that the path spells through states of its own, operations, which stand on the
// first of its arcs. Cost: that of the arcs, and for each byte a look at each letter.
pub(crate) fn read_path(declared: &mut Declarations<'_>, line: Word) -> Result<(), Fault> {
    let text = declared.text;
    let draft = declared.draft();
    let told = told_by(draft, line)?;
    let from = told.word.from;
    let spelled = told.word.bytes(text);
    if let Some(i) = spelled
        .iter()
        .position(|byte| draft.letter_number(*byte).is_none())
    {
        return Err(TextReason::NoLetter.at(from + i));
    }
    let target = known_state(draft, told.last)?;
    let mut source = told.source;
    for (i, byte) in spelled.iter().enumerate() {
        let letter = declared.draft().letter_number(*byte);
        let behind = if i + 1 == spelled.len() {
            target
        } else {
            declared.new_state(Word::default(), from + i)?
        };
        let operations_at = if i == 0 { told.last.to } else { text.len() };
        add_arc(declared, told.place, source, letter, behind, operations_at)?;
        source = behind;
    }
    Ok(())
}
