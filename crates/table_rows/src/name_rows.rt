// The rows of 'name' tables: check, lookup, PostScript name and version number.
ghost use Rattle.std.specs.Prelude.{◌≤◌};

use crate::pieces::{number, outcome};
use name_lookup::{Key, Text};
use name_strings::VersionAt;
use std::io;

// Where the digits start in a table's line, behind `= name `.
const DIGITS: usize = 7;

// Writes the answer to a question on the table of a line.
pub fn answer(rt: &impl Print, question: &[u8], line: &[u8]) -> io::Result<()> {
    let digits = line.get(DIGITS..).unwrap_or(b"");
    if digits.starts_with(b"l") {
        return ask_largest(rt, question);
    }
    let bytes = packed(digits);
    let size = packed_size(digits);
    ask(rt, question, &bytes[..size])
}

// Writes the answer to a question on the largest table. A call of its own, so that the other questions have no room for that table.
#[inline(never)]
fn ask_largest(rt: &impl Print, question: &[u8]) -> io::Result<()> {
    let mut table = [0; 65536];
    fill_largest(&mut table);
    ask(rt, question, &table)
}

fn ask(rt: &impl Print, question: &[u8], table: &[u8]) -> io::Result<()> {
    match question.first() {
        Some(b'c') => outcome(rt, name::check(table), |_| print!(rt; "accepted")),
        Some(b'l') => look_up(rt, question, table),
        Some(b'p') => outcome(rt, name_strings::postscript(table), |x| string(rt, x)),
        _ => outcome(rt, name_strings::version(table), |x| version(rt, x)),
    }
}

// The string that has the four numbers of a line, and how many records were looked at.
fn look_up(rt: &impl Print, question: &[u8], table: &[u8]) -> io::Result<()> {
    let key = Key {
        platform: number(question, 1),
        encoding: number(question, 2),
        language: number(question, 3),
        name: number(question, 4),
    };
    let looked_up = name_lookup::lookup(table, key);
    outcome(rt, looked_up.answer, |x| string(rt, x))?;
    print!(rt; " looked {}", looked_up.looked)
}

fn string(rt: &impl Print, found: Text) -> io::Result<()> {
    print!(rt;
        "start {} length {} record {}",
        found.start, found.len, found.record
    )
}

fn version(rt: &impl Print, found: VersionAt) -> io::Result<()> {
    print!(rt; "{} {} record {}", found.major, found.minor, found.record)
}

// The bytes of some hexadecimal digits; zeros after them. What is too much for 256 bytes goes into the last one.
fn packed(digits: &[u8]) -> [u8; 256] {
    let mut bytes = [0; 256];
    for (k, digit) in digits.iter().filter(|c| is_digit(**c)).enumerate() {
        let at = (k / 2).min(255);
        bytes[at] = bytes[at] % 16 * 16 + value(*digit);
    }
    bytes
}

// How many bytes these are.
fn packed_size(digits: &[u8]) -> usize
    ensures { result ≤ 256 }
{
    let count = digits.iter().filter(|c| is_digit(**c)).count();
    count.div_ceil(2).min(256)
}

// Whether a character of the digits is one, and no space.
fn is_digit(character: u8) -> bool {
    character != b' '
}

// The figure of a digit, 0 to 9 or a to f.
fn value(character: u8) -> u8
    ensures { result ≤ 15 }
{
    if b'a' <= character {
        return (character - b'a') % 6 + 10;
    }
    character % 16
}

// The table of 5,460 records, which ends where the storage starts, 65,526, and the ten bytes of storage.
fn fill_largest(table: &mut [u8; 65536]) {
    for (k, word) in table.chunks_exact_mut(2).enumerate() {
        word.copy_from_slice(&largest_word(k).to_be_bytes());
    }
}

// Its 16-bit numbers: record i has the key (3, 1, 1033, i) and one byte of storage, number i modulo 10.
fn largest_word(k: usize) -> u16 {
    match k {
        1 => 5460,
        2 => 65526,
        3..=32762 => record_word((k - 3) / 6, (k - 3) % 6),
        _ => 0,
    }
}

fn record_word(i: usize, k: usize) -> u16 {
    match k {
        0 => 3,
        1 => 1,
        2 => 1033,
        3 => (i % 65536) as u16,
        4 => 1,
        _ => (i % 10) as u16,
    }
}
