// The letter that a word tells.
ghost use Rattle.std.specs.Prelude.{◌<◌, IfSome};

use book_tokens::Word;

// The value of a hexadecimal digit. Cost: constant.
fn digit_value(b: u8) -> Option<u8>
    ensures { IfSome result (λ value. value < 16) }
{
    match b {
        b'0'..=b'9' => Some(b - b'0'),
        b'A'..=b'F' => Some(b - b'A' + 10),
        b'a'..=b'f' => Some(b - b'a' + 10),
        _ => None,
    }
}

// The byte of two hexadecimal digits. Cost: constant.
fn byte_of_digits(high: u8, low: u8) -> Option<u8> {
    let high = digit_value(high)?;
    let low = digit_value(low)?;
    Some(high * 16 + low)
}

// The letter that a word tells: itself where it is one byte, or 0x and two hexadecimal digits. Cost: constant.
pub fn letter_told(text: &[u8], word: Word) -> Option<u8> {
    match word.bytes(text) {
        [byte] => Some(*byte),
        [b'0', b'x', high, low] => byte_of_digits(*high, *low),
        _ => None,
    }
}
