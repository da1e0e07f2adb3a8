// book_tokens: the words of a text, one line after the other, as docs/TEXT.md has them; the line and the column of a place.
// A place is a number of bytes from the text's start. Every function takes any place: behind the text there is nothing.
#![tactic(auto)]

ghost use Rattle.std.specs.Prelude.{◌≡◌, ◌-◌, ◌≤◌, ◌<◌, ◌↔◌, T, length};
ghost use Rattle.std.specs.Iterator.{at_most};
ghost use Rattle.book_tokens.specs.Words.{WordFrom};

// A word stands from one place to another. Where both are one place, there is none: the line ends there, or a comment begins.
#[derive(Clone, Copy, PartialEq, Eq, Debug, Default)]
pub struct Word {
    pub from: usize,
    pub to: usize,
}

impl Word {
    // Is there no word? Cost: constant.
    pub fn is_empty(self) -> bool
        ensures { T result ↔ (self.to ≤ self.from) }
    {
        self.to <= self.from
    }

    // Its bytes in the text; none where the text has no such places. Cost: constant.
    pub fn bytes(self, text: &[u8]) -> &[u8]
        ensures { length result.now ≤ self.to - self.from }
    {
        text.get(self.from..self.to).unwrap_or(&[])
    }
}

// The line and the column of a byte, each from 1 on.
#[derive(Clone, Copy, PartialEq, Eq, Debug)]
pub struct Place {
    pub line: u64,
    pub column: u64,
}

// The byte at a place; behind the text an end of line. Cost: constant.
pub fn byte_at(text: &[u8], at: usize) -> u8 {
    text.get(at).copied().unwrap_or(b'\n')
}

// Is the byte between words? A carriage return is, so that lines may end in one. Cost: constant.
fn is_blank(b: u8) -> bool {
    matches!(b, b' ' | b'\t' | b'\r')
}

// The first place from this one on whose byte is as asked, or the text's end. Cost: the bytes up to there.
fn place_where<F: Fn(u8) -> bool>(text: &[u8], at: usize, is_wanted: F) -> usize
    requires inside { at ≤ length text.now }
    requires callable { F.IsAlwaysCallable is_wanted }
    ensures { (at ≤ result) × (result ≤ length text.now) }
{
    match text[at..].iter().position(|b| is_wanted(*b)) {
        Some(behind) => at + behind,
        None => text.len(),
    }
}

// Does a comment begin here? Cost: constant.
fn is_comment(text: &[u8], at: usize) -> bool {
    text.get(at..).is_some_and(|rest| rest.starts_with(b"--"))
}

// The next word of the line from this place on, or none. Cost: the bytes up to its end.
pub fn next_word(text: &[u8], at: usize) -> Word
    ensures { WordFrom text.now at result }
{
    let from = place_where(text, at.min(text.len()), |b| !is_blank(b));
    if is_comment(text, from) {
        return Word { from, to: from };
    }
    Word {
        from,
        to: place_where(text, from, |b| is_blank(b) || b == b'\n'),
    }
}

// The place where the next line begins. Cost: the bytes up to there.
pub fn next_line(text: &[u8], at: usize) -> usize
    requires { at < length text.now }
    ensures { (at < result) × (result ≤ length text.now) }
{
    match text[at..].iter().position(|b| *b == b'\n') {
        Some(behind) => at + behind + 1,
        None => text.len(),
    }
}

// The words of a line that are still to come. Cost of each: the bytes up to its end.
#[derive(Clone, Copy, Debug)]
pub struct Words<'a> {
    text: &'a [u8],
    at: usize,
}

// The words of the line that goes on at a place. Cost: constant.
pub fn words_from(text: &[u8], at: usize) -> Words<'_>
    ensures { (result.text.now ≡ text.now) × (result.at ≡ at) }
{
    Words { text, at }
}

impl<'a> Iterator for Words<'a> {
    type Item = Word;

    ghost remaining = { λ s. at_most (length s.text.now - s.at) };

    fn next(&mut self) -> Option<Word> {
        let word = next_word(self.text, self.at);
        if word.is_empty() {
            return None;
        }
        self.at = word.to;
        Some(word)
    }
}

// The lines of a text that are still to come, each as its words. Cost of each: its bytes.
#[derive(Clone, Copy, Debug)]
pub struct Lines<'a> {
    text: &'a [u8],
    at: usize,
}

// The lines of a text. Cost: constant.
pub fn lines_of(text: &[u8]) -> Lines<'_>
    ensures { (result.text.now ≡ text.now) × (result.at ≡ 0) }
{
    Lines { text, at: 0 }
}

impl<'a> Iterator for Lines<'a> {
    type Item = Words<'a>;

    ghost remaining = { λ s. at_most (length s.text.now - s.at) };

    fn next(&mut self) -> Option<Words<'a>> {
        if self.text.len() <= self.at {
            return None;
        }
        let words = words_from(self.text, self.at);
        self.at = next_line(self.text, self.at);
        Some(words)
    }
}

// The line and the column of a place. Cost: one pass over the text up to there.
pub fn place_in(text: &[u8], at: usize) -> Place {
    let front = &text[..at.min(text.len())];
    let mut feeds = 0;
    let mut start = 0;
    for (i, b) in front.iter().enumerate() {
        if *b == b'\n' {
            feeds += 1;
            start = i + 1;
        }
    }
    Place {
        line: feeds + 1,
        column: (front.len() - start) as u64 + 1,
    }
}

// Whether two texts are the same bytes. Cost: the bytes up to the first that differs.
pub fn same_bytes(left: &[u8], right: &[u8]) -> bool {
    left == right
}

// Whether a word of a text is this one; none is that does not lie in the text. Cost: its bytes.
pub fn is_word(text: &[u8], word: Word, other: &[u8]) -> bool
    ensures { T result → (word.from ≤ word.to) × (word.to ≤ length text.now) }
{
    match text.get(word.from..word.to) {
        Some(bytes) => bytes == other,
        None => false,
    }
}

// Whether two words of a text are the same bytes; none is that does not lie in the text. Cost: their bytes.
pub fn same_words(text: &[u8], word: Word, other: Word) -> bool
    ensures word { T result → (word.from ≤ word.to) × (word.to ≤ length text.now) }
    ensures other { T result → (other.from ≤ other.to) × (other.to ≤ length text.now) }
{
    match text.get(other.from..other.to) {
        Some(bytes) => is_word(text, word, bytes),
        None => false,
    }
}
