// The characters of a lent string, one byte a character or two (wide): how many, the code of each, and the digits among them.
// Document 01, "PostScript name and version number". It takes any bytes, and relies on `bigendian` for a character of two.
#![tactic(auto)]

ghost use Rattle.std.specs.Prelude.{◌≤◌, min, ◌≡◌, true, length};
ghost use Rattle.characters.specs.Strings.{odd, characters, char};
ghost use Rattle.characters.specs.Digits.{digit, longer};

// A lent string, one byte a character or two (wide).
#[derive(Clone, Copy)]
pub struct Characters<'a> {
    pub text: &'a [u8],
    pub wide: bool,
}

impl Characters<'_> {
    // Whether it is a two-byte string of odd length.
    pub fn is_odd(self) -> bool
        ensures { result ≡ odd self.entry.wide self.entry.text.now }
    {
        self.wide & (self.text.len() % 2 == 1)
    }

    // The number of characters.
    pub fn count(self) -> usize
        ensures { result ≡ length (characters self.entry.wide self.entry.text.now) }
    {
        if self.wide {
            self.text.len() / 2
        } else {
            self.text.len()
        }
    }

    // The code of the character at a place, and 0 past the end.
    pub fn code(self, at: usize) -> u16
        ensures { result ≡ char (characters self.entry.wide self.entry.text.now) at }
    {
        if self.count() <= at {
            return 0;
        }
        if self.wide {
            return bigendian::read_u16(self.text, at * 2);
        }
        widened(self.text[at])
    }
}

// Tried: with `u16::from` in its place a PostScript name of 63 characters takes 1.21 times as long as tuned Rust, above the bar of 1.10; with this it takes 1.03 times.
fn widened(byte: u8) -> u16
    ensures { result ≡ byte }
{
    byte as u16
}

// Whether a code is that of a digit.
pub fn is_digit(code: u16) -> bool
    ensures { result ≡ digit code }
{
    (48 <= code) & (code <= 57)
}

// A figure with one digit more behind it, held at `most`.
pub fn with_digit(figure: u32, code: u16, most: u32) -> u32
    requires { (digit code ≡ true) × (figure ≤ most) × (most ≤ 65535) }
    ensures { result ≡ min most (longer figure code) }
{
    let value = figure * 10 + u32::from(code - 48);
    most.min(value)
}
