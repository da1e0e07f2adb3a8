// The file of a draft: the header, the letters, the flags, the arcs.
use book_draft::{Draft, Kind, Operation};

// What a file has in place of a letter's number where the arc is an empty move.
const EMPTY_MOVE: u8 = 255;

// The front of the lent bytes, up to the end of what is written.
#[derive(Drop)]
struct Front<'a> {
    bytes: &'a mut [u8],
    end: usize,
}

impl<'a> Front<'a> {
    // One byte more, if there is room. Cost: constant.
    fn put(&mut self, byte: u8) {
        if let Some(place) = self.bytes.get_mut(self.end) {
            *place = byte;
            self.end += 1;
        }
    }

    // Bytes more. Cost: the bytes.
    fn put_all(&mut self, bytes: &[u8]) {
        for byte in bytes {
            self.put(*byte);
        }
    }
}

// The mark, the version and the counts. Cost: constant.
fn put_header(front: &mut Front<'_>, draft: Draft<'_>) {
    let [letters, ..] = draft.letters.len().to_le_bytes();
    let [states, more_states, ..] = draft.states.len().to_le_bytes();
    let [symbols, ..] = draft.symbol_count().to_le_bytes();
    let [arcs, more_arcs, ..] = draft.arcs.len().to_le_bytes();
    front.put_all(b"MLB");
    front.put_all(&[1, 0, letters, states, more_states]);
    front.put_all(&[draft.register_count(), symbols, arcs, more_arcs]);
}

// The two bytes of an operation: its kind and its register, its symbol. Cost: constant.
fn operation_bytes(operation: Operation) -> [u8; 2] {
    let kind = match operation.kind {
        Kind::Read => 0,
        Kind::Write => 16,
    };
    [kind | operation.register, operation.symbol]
}

// Writes the file to the front of the output, and answers how many bytes it has. Cost: one pass over it.
pub fn build(draft: Draft<'_>, out: &mut [u8]) -> usize {
    let mut front = Front { bytes: out, end: 0 };
    put_header(&mut front, draft);
    front.put_all(draft.letters);
    for state in draft.states {
        front.put(u8::from(state.is_final));
    }
    for arc in draft.arcs {
        let [operations, ..] = arc.operations.len().to_le_bytes();
        front.put_all(&[
            arc.source,
            arc.letter.unwrap_or(EMPTY_MOVE),
            arc.target,
            operations,
        ]);
        for operation in &arc.operations {
            front.put_all(&operation_bytes(*operation));
        }
    }
    front.end
}
