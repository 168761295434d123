// Reading a line of the input, and writing a piece of the output.
ghost use Rattle.std.specs.Prelude.{◌≤◌, length};

use outcomes::Told;
use std::io;

// The number that is a line's word k, from 0, below 4,294,967,296: 0 where there is no such word.
pub fn number(line: &[u8], k: usize) -> u32 {
    match line.split(|byte| *byte == b' ').nth(k) {
        Some(word) => figures(word),
        None => 0,
    }
}

// The number that a word's figures make. What comes before the figure 0 is none.
fn figures(word: &[u8]) -> u32 {
    word.iter()
        .filter_map(|byte| byte.checked_sub(b'0'))
        .fold(0u32, |n, figure| {
            n.wrapping_mul(10).wrapping_add(u32::from(figure))
        })
}

// The number of a line's last word, from 0.
pub fn last_word(line: &[u8]) -> usize
    ensures { result ≤ length line.now }
{
    line.iter().filter(|byte| **byte == b' ').count()
}

// Writes what a call gives, or its refusal.
pub fn outcome<T, E: Into<Told>, F: FnOnce(T) -> io::Result<()>>(
    rt: &impl Print,
    given: Result<T, E>,
    value: F,
) -> io::Result<()>
    requires { F.IsAlwaysCallable value }
{
    match given {
        Ok(x) => value(x),
        Err(why) => refused(rt, why.into()),
    }
}

// A refusal, with what it carries.
fn refused(rt: &impl Print, why: Told) -> io::Result<()> {
    print!(rt; "refused {}", why.number)?;
    if let Some(k) = why.carried {
        print!(rt; " at {k}")?;
    }
    Ok(())
}
