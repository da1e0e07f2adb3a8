// book_ranges: a word that is typed by the letters themselves, with `[x-y]` where a letter is only known to lie between two, as the bytes
// that tell its places to `ranges::accepts_ranges`: two for each, the lowest and the highest letter number.
#![tactic(auto)]

ghost use Rattle.std.specs.Prelude.{◌≡◌, ◌*◌, ◌<◌, ◌≤◌, drop, length};
ghost use Rattle.automata.specs.Counting.{Apart};
ghost use Rattle.automata.specs.Letters.{keys};
ghost use Rattle.book_ranges.specs.Typing.{bytes_of, in_front, place_front, places_of, range_between, range_front, typed_of};

use file_fields::letters::letter_in;

// Why a text tells no word: a byte comes first that is no letter; or a `[` comes first that begins no range of letters, at this byte of the
// text, counted from 1.
#[derive(Clone, Copy, PartialEq, Eq, Debug)]
pub enum Unread {
    NoLetter,
    NoRange(usize),
}

// A place at the front of a text: the lowest and the highest number of its letter, and how many bytes of the text it takes.
#[derive(Clone, Copy, PartialEq, Eq, Debug)]
struct Place {
    low: u8,
    high: u8,
    taken: usize,
}

// Why no place stands at the front of a text: its byte is no letter, or is a `[` that begins no range of letters.
#[derive(Clone, Copy, PartialEq, Eq, Debug)]
enum NoPlace {
    Foreign,
    NoRange,
}

// The place of a range with these bounds; none where one of them is no letter. Cost: constant.
fn range_between(low: Option<u8>, high: Option<u8>) -> Result<Place, NoPlace>
    ensures { result ≡ range_between low high }
{
    match (low, high) {
        (Some(low), Some(high)) => Ok(Place {
            low,
            high,
            taken: 5,
        }),
        _ => Err(NoPlace::NoRange),
    }
}

// What stands at byte i of the text, which is a `[`. Cost: at most four looks at each letter.
fn range_at(letters: &[u8], text: &[u8], i: usize) -> Result<Place, NoPlace>
    requires { (length letters.now ≤ 64) × (Apart (keys letters.now) × (i < length text.now)) }
    ensures { result ≡ range_front letters.now (drop i text.now) }
{
    if text.len() - i < 5 {
        return Err(NoPlace::NoRange);
    }
    if text[i + 2] != b'-' {
        return Err(NoPlace::NoRange);
    }
    if text[i + 4] != b']' {
        return Err(NoPlace::NoRange);
    }
    let low = letter_in(letters, text[i + 1]);
    let high = letter_in(letters, text[i + 3]);
    range_between(low, high)
}

// What stands at byte i of the text. Cost: at most four looks at each letter.
fn place_at(letters: &[u8], text: &[u8], i: usize) -> Result<Place, NoPlace>
    requires { (length letters.now ≤ 64) × (Apart (keys letters.now) × (i < length text.now)) }
    ensures { result ≡ place_front letters.now (drop i text.now) }
{
    if text[i] == b'[' {
        return range_at(letters, text, i);
    }
    let Some(letter) = letter_in(letters, text[i]) else {
        return Err(NoPlace::Foreign);
    };
    Ok(Place {
        low: letter,
        high: letter,
        taken: 1,
    })
}

// Reads a typed word, and writes two bytes for each of its places to the front of `places`, which has room for as many as there can be. Each
// place is a letter, or a range of letters: `[`, a letter, `-`, a letter, `]`, taken by their places, whatever the letters are. Letters are
// those of the list, at most 64, no two of them one letter; a capital and its small letter are one. Refuses nothing; where the text is no
// word, the bytes of the places before that stand in front. Cost: for each place at most four looks at each letter.
pub fn read_places(letters: &[u8], text: &[u8], places: &mut [u8]) -> Result<usize, Unread>
    requires { (length letters.now ≤ 64) × (Apart (keys letters.now) × (2 * length text.now ≤ length places.old)) }
    ensures answer { result ≡ typed_of letters.now text.now }
    ensures written { places.new ≡ in_front (bytes_of (places_of letters.now text.now)) places.old }
{
    let mut n: usize = 0;
    let mut i: usize = 0;
    // kept: each turn passes as many bytes as its place takes, so no `for` is plainer.
    while i < text.len() {
        match place_at(letters, text, i) {
            Ok(place) => {
                places[n] = place.low;
                places[n + 1] = place.high;
                n += 2;
                i += place.taken;
            }
            Err(NoPlace::Foreign) => {
                return Err(Unread::NoLetter);
            }
            Err(NoPlace::NoRange) => {
                return Err(Unread::NoRange(i + 1));
            }
        }
    }
    Ok(n)
}
