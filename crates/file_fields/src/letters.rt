// The letter that a byte stands for: a capital and its small letter are one (document 02, change 4).
ghost use Rattle.std.specs.Prelude.{◌≡◌, ◌≤◌, length};
ghost use Rattle.automata.specs.Counting.{Apart};
ghost use Rattle.automata.specs.Letters.{key, keys};
ghost use Rattle.file_fields.specs.Letters.{letter_number};

// The byte that stands for the same letter in every list: of a capital its small letter, else the byte itself. Cost: constant.
pub fn key_of(byte: u8) -> u8
    ensures { result ≡ key byte }
{
    if (0x41 <= byte) & (byte <= 0x5A) {
        return byte + 0x20;
    }
    byte
}

// The number of the letter that the byte stands for, in whichever case the list has it. Cost: at most one look at each letter.
fn letter_by_key(letters: &[u8], byte: u8) -> Option<u8>
    requires { length letters.now ≤ 64 }
    ensures { result ≡ letter_number letters.now byte }
{
    let wanted = key_of(byte);
    for (i, letter) in letters.iter().enumerate() {
        if key_of(*letter) == wanted {
            return Some(i as u8);
        }
    }
    None
}

// The number of the letter that the byte stands for, none where it is no letter of the list. Words are mostly written in the list's own
// bytes, so these are looked through first. The letters are at most 64, no two of them one letter. Refuses nothing. Cost: at most one look
// at each letter, two where the byte itself is none.
pub fn letter_in(letters: &[u8], byte: u8) -> Option<u8>
    requires { (length letters.now ≤ 64) × Apart (keys letters.now) }
    ensures { result ≡ letter_number letters.now byte }
{
    for (i, letter) in letters.iter().enumerate() {
        if *letter == byte {
            return Some(i as u8);
        }
    }
    letter_by_key(letters, byte)
}
