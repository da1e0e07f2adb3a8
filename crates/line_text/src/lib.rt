// line_text: numbers, bytes and words as ASCII text in bytes that the caller lends (document 01, `bookcompare`).
// A line is put together by one call after the other, each of which writes behind the one before. What has no room is cut: a line that
// ends below the length of its bytes tells that nothing was.
#![tactic(auto)]

ghost use Rattle.std.specs.Prelude.{◌≡◌, ◌<◌, [], ◌∷◌, take};
ghost use Rattle.line_text.specs.Digits.{decimal_of, digit_of, hex_digits, hex_of};
ghost use Rattle.line_text.specs.Putting.{Puts};

// Bytes that the caller lends, and the place in them behind what is written so far.
#[derive(Drop)]
pub struct Line<'a> {
    pub out: &'a mut [u8],
    pub at: usize,
}

// The digit of a number below 16. Cost: constant.
fn digit(d: u8) -> u8
    requires { d < 16 }
    ensures { result ≡ digit_of d }
{
    if d < 10 { b'0' + d } else { b'a' + (d - 10) }
}

impl<'a> Line<'a> {
    // One byte. Cost: constant.
    pub fn put_byte(&mut self, b: u8)
        ensures { Puts (b ∷ []) self.old self.new }
    {
        if self.at < self.out.len() {
            self.out[self.at] = b;
            self.at += 1;
        }
    }

    // The bytes of `s` as they are. Cost: one pass over `s`.
    pub fn put(&mut self, s: &[u8])
        ensures { Puts s.now self.old self.new }
    {
        for b in s {
            self.put_byte(*b);
        }
    }

    // A number in decimal digits. Cost: its digits.
    pub fn decimal(&mut self, n: u64)
        ensures { Puts (decimal_of n) self.old self.new }
    {
        let last = b'0' + (n % 10) as u8;
        if n < 10 {
            self.put_byte(last);
            return;
        }
        self.decimal(n / 10);
        self.put_byte(last);
    }

    // One byte in two hexadecimal digits. Cost: constant.
    fn hex_byte(&mut self, b: u8)
        ensures { Puts (hex_digits (b ∷ [])) self.old self.new }
    {
        self.put_byte(digit(b / 16));
        self.put_byte(digit(b % 16));
    }

    // The bytes of `s` in hexadecimal. Cost: one pass over `s`.
    fn hex_bytes(&mut self, s: &[u8])
        ensures { Puts (hex_digits s.now) self.old self.new }
    {
        for b in s {
            self.hex_byte(*b);
        }
    }

    // The bytes of `s` as a field of a line: in hexadecimal, `.` for none. Cost: one pass over `s`.
    pub fn hex(&mut self, s: &[u8])
        ensures { Puts (hex_of s.now) self.old self.new }
    {
        if s.is_empty() {
            self.put_byte(b'.');
            return;
        }
        self.hex_bytes(s);
    }

    // A further field of a line: a space, then a number in decimal digits. Cost: its digits.
    pub fn decimal_field(&mut self, n: u64)
        ensures { Puts (32 ∷ decimal_of n) self.old self.new }
    {
        self.put_byte(b' ');
        self.decimal(n);
    }

    // A further field of a line: a space, then the bytes of `s` in hexadecimal, `.` for none. Cost: one pass over `s`.
    pub fn hex_field(&mut self, s: &[u8])
        ensures { Puts (32 ∷ hex_of s.now) self.old self.new }
    {
        self.put_byte(b' ');
        self.hex(s);
    }

    // The same of the first n bytes of `s`, and of all where there are fewer. Cost: one pass over them.
    pub fn front_field(&mut self, s: &[u8], n: usize)
        ensures { Puts (32 ∷ hex_of (take n s.now)) self.old self.new }
    {
        self.hex_field(&s[0..n.min(s.len())]);
    }
}
