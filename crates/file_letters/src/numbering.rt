// The numbers of letters: the places of their bytes in a list, and the new number of a letter.
ghost use Rattle.std.specs.Prelude.{◌≡◌, ◌≤◌, ◌<◌, length, take};
ghost use Rattle.std.specs.List.{position};
ghost use Rattle.automata.specs.Letters.{same_key};
ghost use Rattle.automata.specs.Words.{places};
ghost use Rattle.relettering.specs.Relettering.{letter_by};

use file_fields::fields::byte;
use file_fields::letters::key_of;

// The place in the list of the letter that the byte stands for, where it is there. Refuses nothing. Cost: at most one look at each letter.
pub fn place_of(letters: &[u8], byte: u8) -> Option<usize>
    ensures { result ≡ position (same_key byte) letters.now }
{
    let wanted = key_of(byte);
    // kept: `position` with a closure has the same calls compiled otherwise, and intersecting small costs 3.0 % more instead of 2.5 %
    for (i, letter) in letters.iter().enumerate() {
        if wanted == key_of(*letter) {
            return Some(i);
        }
    }
    None
}

// The new numbers of the letters `own`: their places in the list `all`. What stands behind them means nothing. Refuses nothing. Cost: the
// pairs of letters.
pub fn number_letters(own: &[u8], all: &[u8]) -> [u8; 64]
    requires { (length own.now ≤ 64) × (length all.now ≤ 64) }
    ensures { take (length own.now) result ≡ places all.now own.now }
{
    let mut new = [0; 64];
    for (i, letter) in own.iter().enumerate() {
        new[i] = place_of(all, *letter).unwrap_or(all.len()) as u8;
    }
    new
}

// The new number of a letter, or of the empty move; a number beyond the list is left alone. Refuses nothing. Cost: constant.
pub fn new_letter(new: &[u8], letter: usize) -> usize
    ensures { (result ≡ letter_by new.now letter) × (letter < 256 → result < 256) }
{
    if letter < new.len() {
        return byte(new, letter);
    }
    letter
}
