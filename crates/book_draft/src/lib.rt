// book_draft: what a text has told so far: registers, symbols, letters, states and which of them are final, arcs. Names are kept as the
// places where the text has them. What is declared takes its place in the lists, or is refused with its fault, which ends the reading.
#![tactic(auto)]

ghost use Rattle.std.specs.Prelude.{◌≡◌, ◌∷◌, ◌++◌, [], false, length, IfOk, OnOk, OnErr};
ghost use Rattle.book_draft.specs.Letters.{IsInserted};

use arrayvec::ArrayVec;
use book_tokens::{Word, same_words};
use file_fields::letters::key_of;
use letters::letter_told;

mod faults;
pub mod letters;

pub use faults::{Fault, TextFault, TextReason};

// A state: where the text has its name, whether it is final, and whether a chain of arcs leads to it from the first state. A state of a
// path's own has no name.
#[derive(Clone, Copy, PartialEq, Eq, Debug, Default)]
pub struct State {
    pub name: Word,
    pub is_final: bool,
    pub is_reached: bool,
}

// What an operation does with its register.
#[derive(Clone, Copy, PartialEq, Eq, Debug, Default)]
pub enum Kind {
    #[default]
    Read,
    Write,
}

// An operation of an arc, with the number of its symbol.
#[derive(Clone, Copy, PartialEq, Eq, Debug, Default)]
pub struct Operation {
    pub kind: Kind,
    pub register: u8,
    pub symbol: u8,
}

// An arc, by the numbers of its states and of its letter; the empty move has no letter.
#[derive(Clone, Debug, Default, Drop)]
pub struct Arc {
    pub source: u8,
    pub letter: Option<u8>,
    pub target: u8,
    pub operations: ArrayVec<Operation, 8>,
}

// How far the reading of a text came, to be read and handed on. There are no registers where no line told their number.
#[derive(Clone, Copy)]
pub struct Draft<'a> {
    pub text: &'a [u8],
    pub registers: Option<u8>,
    pub symbols: &'a [Word],
    pub letters: &'a [u8],
    pub states: &'a [State],
    pub arcs: &'a [Arc],
}

// The place of the first for which this holds, which is below 256. Cost: a look at each.
fn number_where<T, F: Fn(&T) -> bool>(list: &[T], is_wanted: F) -> Option<u8>
    requires { F.IsAlwaysCallable is_wanted }
{
    let place = list.iter().position(is_wanted)?;
    u8::try_from(place).ok()
}

impl Draft<'_> {
    // How many registers there are: 1 where no line told it. Cost: constant.
    pub fn register_count(self) -> u8 {
        self.registers.unwrap_or(1)
    }

    // How many symbols there are: 1, without a name, where no line told any. Cost: constant.
    pub fn symbol_count(self) -> usize {
        self.symbols.len().max(1)
    }

    // The number of the symbol with this name. Cost: a look at each symbol.
    pub fn symbol_named(self, word: Word) -> Option<u8> {
        number_where(self.symbols, |name| same_words(self.text, *name, word))
    }

    // The number of the state with this name. Cost: a look at each state.
    pub fn state_named(self, word: Word) -> Option<u8> {
        number_where(self.states, |state| same_words(self.text, state.name, word))
    }

    // The number of the letter that the byte stands for, in whichever case the list has it. Cost: a look at each letter.
    pub fn letter_number(self, byte: u8) -> Option<u8> {
        let wanted = key_of(byte);
        number_where(self.letters, |letter| key_of(*letter) == wanted)
    }
}

// The lists of what a text declares, which grow as it is read.
#[derive(Clone, Drop)]
pub struct Declarations<'a> {
    pub text: &'a [u8],
    pub registers: Option<u8>,
    pub symbols: ArrayVec<Word, 16>,
    pub letters: ArrayVec<u8, 64>,
    pub states: ArrayVec<State, 256>,
    pub arcs: ArrayVec<Arc, 2048>,
}

impl<'a> Declarations<'a> {
    // Of a text of which nothing is read. Cost: constant.
    pub fn new(text: &'a [u8]) -> Declarations<'a> {
        Declarations {
            text,
            registers: None,
            symbols: ArrayVec::new(),
            letters: ArrayVec::new(),
            states: ArrayVec::new(),
            arcs: ArrayVec::new(),
        }
    }

    // What was declared so far. Cost: constant.
    pub fn draft(&self) -> Draft<'_>
        ensures text { (result.text.now ≡ self.now.text.now) × (result.registers ≡ self.now.registers) }
        ensures names { (result.symbols.now ≡ self.now.symbols.items) × (result.states.now ≡ self.now.states.items) }
        ensures letters { (result.letters.now ≡ self.now.letters.items) × (result.arcs.now ≡ self.now.arcs.items) }
    {
        Draft {
            text: self.text,
            registers: self.registers,
            symbols: &self.symbols,
            letters: &self.letters,
            states: &self.states,
            arcs: &self.arcs,
        }
    }

    // One symbol more. Cost: a look at each symbol.
    pub fn add_symbol(&mut self, word: Word) -> Result<(), Fault>
        ensures added { OnOk result (self.new.symbols.items ≡ self.old.symbols.items ++ word ∷ []) }
        ensures refused { OnErr result (self.new ≡ self.old) }
    {
        if self.symbols.is_full() {
            return Err(TextReason::TooManySymbols.at(word.from));
        }
        if self.draft().symbol_named(word).is_some() {
            return Err(TextReason::SymbolTwice.at(word.from));
        }
        self.symbols.push(word);
        Ok(())
    }

    // One letter more, which stands in its place by its byte whatever the order of the text. Cost: two looks at each letter.
    pub fn add_letter(&mut self, word: Word) -> Result<(), Fault>
        ensures added { OnOk result (IsInserted self.old.letters.items self.new.letters.items) }
        ensures refused { OnErr result (self.new ≡ self.old) }
    {
        if !self.arcs.is_empty() {
            return Err(TextReason::LetterBehindAnArc.at(word.from));
        }
        let Some(byte) = letter_told(self.text, word) else {
            return Err(TextReason::Letter.at(word.from));
        };
        if self.letters.is_full() {
            return Err(TextReason::TooManyLetters.at(word.from));
        }
        if self.draft().letter_number(byte).is_some() {
            return Err(TextReason::LetterTwice.at(word.from));
        }
        let count = self.letters.len();
        let place = self.letters.iter().position(|letter| byte < *letter);
        self.letters.insert(place.unwrap_or(count), byte);
        Ok(())
    }

    // One state more, not final, with this name, and its number; the states that a path goes through have none. Its fault stands at `place`.
    // Cost: constant.
    pub fn new_state(&mut self, name: Word, place: usize) -> Result<u8, Fault>
        ensures added { IfOk result (λ number. (number ≡ length self.old.states.items) × (self.new.states.items ≡ self.old.states.items ++ (record { name = name; is_final = false; is_reached = false }) ∷ [])) }
        ensures refused { OnErr result (self.new ≡ self.old) }
    {
        let Ok(number) = u8::try_from(self.states.len()) else {
            return Err(TextReason::TooManyStates.at(place));
        };
        self.states.push(State {
            name,
            is_final: false,
            is_reached: false,
        });
        Ok(number)
    }

    // One state more of a name that the text tells. Cost: a look at each state.
    pub fn add_state(&mut self, word: Word) -> Result<(), Fault>
        ensures added { OnOk result (self.new.states.items ≡ self.old.states.items ++ (record { name = word; is_final = false; is_reached = false }) ∷ []) }
        ensures refused { OnErr result (self.new ≡ self.old) }
    {
        if self.draft().state_named(word).is_some() {
            return Err(TextReason::StateTwice.at(word.from));
        }
        self.new_state(word, word.from)?;
        Ok(())
    }

    // One final state more. Cost: a look at each state.
    pub fn add_final(&mut self, word: Word) -> Result<(), Fault>
        ensures { OnErr result (self.new ≡ self.old) }
    {
        let Some(number) = self.draft().state_named(word) else {
            return Err(TextReason::NoState.at(word.from));
        };
        if let Some(state) = self.states.get_mut(usize::from(number)) {
            state.is_final = true;
        }
        Ok(())
    }

    // Marks the states that chains of arcs lead to from the first state, whatever their operations: a chain through all states needs as many
    // passes. Cost: for each state a pass over the arcs.
    pub fn mark_reached(&mut self)
        ensures states { length self.new.states.items ≡ length self.old.states.items }
        ensures others { self.new ≡ record { text = self.old.text; registers = self.old.registers; symbols = self.old.symbols; letters = self.old.letters; states = self.new.states; arcs = self.old.arcs } }
    {
        if let Some(first) = self.states.get_mut(0) {
            first.is_reached = true;
        }
        for _ in 0..self.states.len() {
            reach_on(&mut self.states, &self.arcs);
        }
    }
}

// Marks each state that an arc leads to from a marked one, once for each arc. Cost: one pass over the arcs.
fn reach_on(states: &mut [State], arcs: &[Arc])
    ensures { length states.new ≡ length states.old }
{
    for arc in arcs {
        let source = states.get(usize::from(arc.source));
        if source.is_some_and(|state| state.is_reached) {
            if let Some(target) = states.get_mut(usize::from(arc.target)) {
                target.is_reached = true;
            }
        }
    }
}
