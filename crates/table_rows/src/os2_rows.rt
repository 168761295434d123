// The rows of 'OS/2' tables: acceptance at a level and the seven questions.
ghost use Rattle.std.specs.Prelude.{◌≡◌, ◌≤◌, length};

use crate::pieces::{last_word, number, outcome};
use os2::{Answer, AnyReply, Question, Reply};
use os2_style::{EmbeddingRights, OpticalSizes, StylePosition};
use std::io;

// Writes the answer to a question on the table of a line.
pub fn answer(rt: &impl Print, question: &[u8], line: &[u8]) -> io::Result<()> {
    let bytes = table(line);
    let size = (number(line, 2) as usize).min(100);
    ask(rt, question, &bytes[..size])
}

// Zero bytes but weight 400, width 5, and then the line's numbers from word 3 on, each behind its offset.
fn table(line: &[u8]) -> [u8; 100]
    ensures { 100 ≡ length result }
{
    let mut t = [0; 100];
    put(&mut t, 4, 400);
    put(&mut t, 6, 5);
    for word in (3..last_word(line)).step_by(2) {
        let at = (number(line, word) as usize).min(98);
        put(&mut t, at, number(line, word + 1));
    }
    t
}

// Puts a number's lowest 16 bits at a place of a table.
fn put(t: &mut [u8; 100], at: usize, n: u32)
    requires { at ≤ 98 }
{
    let [high, low] = ((n % 65536) as u16).to_be_bytes();
    t[at] = high;
    t[at + 1] = low;
}

// A line ends with `at level` and the level, before which the question's own number stands.
fn ask(rt: &impl Print, line: &[u8], table: &[u8]) -> io::Result<()> {
    let last = last_word(line);
    let level = number(line, last);
    if line.get(4) == Some(&b'k') {
        return outcome(rt, os2::check(table, level), |_| print!(rt; "accepted"));
    }
    let own = last.checked_sub(3).map_or(0, |k| number(line, k));
    match os2::ask(table, level, question(line, own)) {
        AnyReply::Number(r) => reply(rt, r, |x| whole(rt, x)),
        AnyReply::Rights(r) => reply(rt, r, |x| rights(rt, x)),
        AnyReply::Style(r) => reply(rt, r, |x| style(rt, x)),
        AnyReply::Optical(r) => reply(rt, r, |x| optical(rt, x)),
    }
}

// The question of a line, by its fifth letter, in which all differ.
fn question(line: &[u8], own: u32) -> Question {
    match line.get(4) {
        Some(b'd') => Question::Field(own),
        Some(b'l') => Question::SelectionBit(own),
        Some(b'o') => Question::UnicodeBit(own),
        Some(b' ') => Question::CodePageBit(own),
        Some(b't') => Question::Rights,
        Some(b'e') => Question::StylePosition,
        _ => Question::OpticalSizes,
    }
}

// A reply, with what writes its value.
fn reply<T, F: FnOnce(T) -> io::Result<()>>(
    rt: &impl Print,
    given: Reply<T>,
    value: F,
) -> io::Result<()>
    requires { F.IsAlwaysCallable value }
{
    outcome(rt, given, |answer| match answer {
        Answer::Absent => print!(rt; "absent"),
        Answer::NotKnown => print!(rt; "not known"),
        Answer::Value(x) => value(x),
    })
}

// A number that is not negative, or that it is.
fn whole(rt: &impl Print, x: i64) -> io::Result<()> {
    if 0 <= x {
        print!(rt; "{x}")
    } else {
        print!(rt; "negative")
    }
}

fn rights(rt: &impl Print, x: EmbeddingRights) -> io::Result<()> {
    match x {
        EmbeddingRights::Installable => print!(rt; "installable"),
        EmbeddingRights::Restricted => print!(rt; "restricted"),
        EmbeddingRights::Preview => print!(rt; "preview"),
        EmbeddingRights::Editable => print!(rt; "editable"),
    }
}

// Floats are written by their bits, as eight hexadecimal digits.
fn style(rt: &impl Print, x: StylePosition) -> io::Result<()> {
    print!(rt;
        "weight {:08x} width {:08x}",
        bits_of(x.weight),
        bits_of(x.width)
    )
}

fn optical(rt: &impl Print, x: OpticalSizes) -> io::Result<()> {
    match x {
        OpticalSizes::Every => print!(rt; "every size"),
        OpticalSizes::Upwards(low) => print!(rt; "upwards from {:08x}", bits_of(low)),
        OpticalSizes::Between(low, high) => {
            print!(rt; "between {:08x} and {:08x}", bits_of(low), bits_of(high))
        }
    }
}

// A float's bits. No answer is a float that differs from itself.
fn bits_of(x: f32) -> u32 {
    if x.is_nan() {
        return 0;
    }
    x.to_bits()
}
