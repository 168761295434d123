// The version number in a lent string, one byte a character or two (wide).
// Document 01, "PostScript name and version number", and refusal 25. It takes any bytes, and relies on `characters` for the string's characters and
// digits, and on `outcomes` for what an answer says.
#![tactic(auto)]

ghost use Rattle.std.specs.Prelude.{◌≡◌};
ghost use Rattle.characters.specs.Strings.{characters, char};
ghost use Rattle.characters.specs.Digits.{digit};
ghost use Rattle.version_text.specs.Versions.{may_start, version_in, said};

use characters::{Characters, with_digit};

// A version number: the figures before and after the period.
#[derive(Clone, Copy, Debug, PartialEq, Eq)]
pub struct Version {
    pub major: u16,
    pub minor: u16,
}

const PERIOD: u16 = 46;

// The least figure that is too large; the search holds every larger one here.
const LARGE: u32 = 65535;

// The number at the first start, from the left, that yields one; 25 where none does. A digit group is read at most once as a first
// group and once as a second, so the search takes time linear in the text's length.
pub fn version_of(string: Characters<'_>) -> Option<Version>
    ensures { said result ≡ version_in string.entry.wide string.entry.text.now }
{
    if string.is_odd() {
        return None;
    }
    let count = string.count();
    let mut next = 0;
    // Document 01 names this shape: loops over starts and over digit groups, and a label that leaves both with the number, which no `for` is left with.
    'starts: loop {
        if count <= next {
            break 'starts None;
        }
        let start = next;
        next += 1;
        if !may_start(string, start) {
            continue 'starts;
        }
        // The first digit group, as long as it goes.
        let mut major = 0;
        let mut end = start;
        while digit_at(string, end) {
            major = with_digit(major, string.code(end), LARGE);
            end += 1;
        }
        // A period and a digit behind it.
        if string.code(end) != PERIOD {
            continue 'starts;
        }
        let second = end + 1;
        if !digit_at(string, second) {
            continue 'starts;
        }
        // The second digit group; where it ends, the start is decided.
        let mut minor = 0;
        let mut stop = second;
        loop {
            if !digit_at(string, stop) {
                if LARGE <= major {
                    continue 'starts;
                }
                if LARGE <= minor {
                    continue 'starts;
                }
                break 'starts Some(Version {
                    major: major as u16,
                    minor: minor as u16,
                });
            }
            minor = with_digit(minor, string.code(stop), LARGE);
            stop += 1;
        }
    }
}

// Whether a digit stands at a place that follows no digit.
fn may_start(string: Characters<'_>, at: usize) -> bool
    ensures { result ≡ may_start (characters string.entry.wide string.entry.text.now) at }
{
    if at == 0 {
        return digit_at(string, 0);
    }
    if digit_at(string, at - 1) {
        return false;
    }
    digit_at(string, at)
}

// Whether a digit stands at a place.
fn digit_at(string: Characters<'_>, at: usize) -> bool
    ensures { result ≡ digit (char (characters string.entry.wide string.entry.text.now) at) }
{
    characters::is_digit(string.code(at))
}
