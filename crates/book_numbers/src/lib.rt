// book_numbers: the number that a text tells in decimal digits, as an argument of a program does.
#![tactic(auto)]

ghost use Rattle.std.specs.Prelude.{◌≡◌, ◌+◌, ◌*◌, ◌<◌, min};
ghost use Rattle.book_numbers.specs.Numbers.{is_digit, number_in};

// Is the byte a decimal digit? Cost: constant.
fn is_digit(b: u8) -> bool
    ensures { result ≡ is_digit b }
{
    matches!(b, b'0'..=b'9')
}

// A number with one digit more behind it; one that has no room in 64 bits is the largest that has. Cost: constant.
fn with_digit(n: u64, digit: u8) -> u64
    requires { digit < 10 }
    ensures { result ≡ min (10 * n + digit) 18446744073709551615 }
{
    n.saturating_mul(10).saturating_add(u64::from(digit))
}

// The number of the digits that a text consists of; none where it has another byte, or no byte. One that has no room in 64 bits is told as the largest that has.
// Cost: one pass over the text.
pub fn number_in(text: &[u8]) -> Option<u64>
    ensures { result ≡ number_in text.now }
{
    if text.is_empty() {
        return None;
    }
    let mut n: u64 = 0;
    for b in text {
        if !is_digit(*b) {
            return None;
        }
        n = with_digit(n, *b - b'0');
    }
    Some(n)
}
