// Lines of text: the buffer that a line is put together in, the line of a refusal, and the line of an input that is too long.
// Document 01, end of "Examples to check against".
// It relies on `outcomes` for a refusal in document 01's numbers, and on `characters` for what a text's codes are.
#![tactic(auto)]

ghost use Rattle.std.specs.Prelude.{◌+◌, ◌≤◌, ◌≡◌, List, ℕ, [], ◌++◌, length, take, drop};
ghost use Rattle.outcomes.specs.Outcomes.{refusal_of};
ghost use Rattle.lines.specs.Numerals.{most_digits, decimal};
ghost use Rattle.lines.specs.Lines.{refusal_room, refusal_line, too_long};
ghost use Rattle.lines.specs.Pieces.{Put};

use outcomes::Told;
use std::marker::Model;

// The bytes that a line has room for.
pub const LINE_ROOM: usize = 160;

// The most digits of a number of 64 bits.
const MOST_DIGITS: usize = 20;

// So many bytes at most, each put behind those before it. A clause sees the bytes put.
#[derive(Drop)]
pub struct Buffer<const ROOM: usize> {
    bytes: [u8; ROOM],
    len: usize,
}

impl<const ROOM: usize> Model for Buffer<ROOM> {
    ghost Value = { List ℕ };

    ghost view = { λ b. take b.len b.bytes };

    ghost invariant = { λ b. b.len ≤ ROOM };
}

// A line with its newline.
pub type Line = Buffer<LINE_ROOM>;

impl<const ROOM: usize> Buffer<ROOM> {
    // One with no bytes yet.
    pub fn new() -> Self
        ensures { result ≡ [] }
    {
        Buffer {
            bytes: [0; ROOM],
            len: 0,
        }
    }

    // One with the first `len` of these bytes, or with all of them, where there are not so many.
    pub fn of(bytes: [u8; ROOM], len: usize) -> Self
        ensures { result ≡ take len bytes.entry }
    {
        Buffer {
            bytes,
            len: len.min(ROOM),
        }
    }

    // The bytes put.
    pub fn as_bytes(&self) -> &[u8]
        ensures all { result.now ≡ self.now }
        ensures room { length self.now ≤ ROOM }
    {
        &self.bytes[..self.len]
    }

    // Takes all bytes out.
    pub fn clear(&mut self)
        ensures { self.new ≡ [] }
    {
        self.len = 0;
    }

    // Puts a text behind the others.
    pub fn put(&mut self, text: &[u8])
        requires { length self.old + length text.now ≤ ROOM }
        ensures holds { self.new ≡ self.old ++ text.now }
        ensures room { length self.new ≡ length self.old + length text.now }
    {
        let bytes = &mut self.bytes[..];
        let end = self.len + text.len();
        bytes[self.len..end].copy_from_slice(text);
        self.len = end;
    }

    // Puts a number's digits.
    pub fn put_number(&mut self, n: u64)
        requires { length self.old + most_digits ≤ ROOM }
        ensures holds { self.new ≡ self.old ++ decimal n }
        ensures room { length self.new ≤ length self.old + most_digits }
    {
        let mut digits = [0u8; MOST_DIGITS];
        let start = spell(&mut digits, n);
        self.put(&digits[start..]);
    }

    // Puts a text and a number's digits behind it.
    pub fn put_numbered(&mut self, text: &[u8], n: u64)
        requires { length self.old + length text.now + most_digits ≤ ROOM }
        ensures holds { self.new ≡ self.old ++ (text.now ++ decimal n) }
        ensures room { length self.new ≤ length self.old + length text.now + most_digits }
    {
        self.put(text);
        self.put_number(n);
    }

    // Puts the line of a refusal, with what it carries.
    #[tactic(auto, using(std::proofs::Common::append_assoc))]
    pub fn put_refusal(&mut self, told: Told)
        requires { length self.old + refusal_room ≤ ROOM }
        ensures holds { self.new ≡ self.old ++ refusal_line (refusal_of told) }
        ensures room { length self.new ≤ length self.old + refusal_room }
    {
        self.put_numbered(b"refused ", u64::from(told.number));
        if let Some(k) = told.carried {
            self.put_numbered(b" at ", k as u64);
        }
        self.put(b"\n");
    }
}

// Puts what a buffer holds behind the first `at` of lent bytes, and answers where it ends.
pub fn append<const ROOM: usize>(out: &mut [u8], at: usize, piece: &Buffer<ROOM>) -> usize
    requires { at + length piece.now ≤ length out.old }
    ensures { Put out.old at out.new result (length piece.now) piece.now }
{
    let text = piece.as_bytes();
    let end = at + text.len();
    out[at..end].copy_from_slice(text);
    end
}

// The line of a refusal.
pub fn refusal_line(told: Told) -> Line
    ensures { result ≡ refusal_line (refusal_of told) }
{
    let mut line = Line::new();
    line.put_refusal(told);
    line
}

// The line of an input that is too long.
#[tactic(auto, unfolding(crate::specs::Lines::too_long))]
pub fn too_long() -> Line
    ensures { result ≡ too_long }
{
    let mut line = Line::new();
    line.put(b"too long\n");
    line
}

// Puts the digits of a number at the end of as many bytes as any has, and answers where they start.
// By hand: the clause of `put_number` holds of every call, and the library's formatting promises the digits only where it answers Ok, and never that it does.
fn spell(digits: &mut [u8; MOST_DIGITS], n: u64) -> usize
    ensures { (result ≤ most_digits) × (drop result digits.new ≡ decimal n) }
{
    let mut rest = n;
    for k in (0..MOST_DIGITS).rev() {
        digits[k] = 48 + (rest % 10) as u8;
        if rest < 10 {
            return k;
        }
        rest /= 10;
    }
    0
}
