// Writes what the readers answer for the rows of its input: document 01's examples and easy slips, and the edges of its rules.
// The stored output is made by the second program, whose `rows` reads the same lines. A line that begins with # is written as it
// stands, one that begins with = is a table, and any other is a question on the latest table, which is written with its answer.
// - `= name` with a table in hexadecimal digits, at most 256 bytes of it, or `= name largest`. Its questions are `check`, `postscript`,
//   `version`, and `lookup` with platform, encoding, language and name.
// - `= os2` with a length, at most 100: zero bytes but weight 400, width 5, and then pairs of an offset and the 16-bit number that
//   stands there. Its questions are those of document 01, as `field 39 at level 5`, and `check at level 5`; a float is written by its bits.
#![tactic(auto)]

mod name_rows;
mod os2_rows;
mod pieces;

use std::io;

fn main(rt: HostRuntime) -> io::Result<()> {
    let mut lines = [0u8; 65536];
    let n = listing_io::read_full(&mut rt.stdin(), &mut lines);
    rows(&rt, &lines[..n])
}

// A row for each line. The first line stands for the table where none has come yet.
fn rows(rt: &impl Print, lines: &[u8]) -> io::Result<()> {
    let mut table = lines.split(|byte| *byte == b'\n').next().unwrap_or(lines);
    for piece in lines.split_inclusive(|byte| *byte == b'\n') {
        let line = piece.strip_suffix(b"\n").unwrap_or(piece);
        if line.starts_with(b"=") {
            table = line;
        }
        row(rt, line, table)?;
    }
    Ok(())
}

// Writes a line, and the answer where it is a question.
fn row(rt: &impl Print, line: &[u8], table: &[u8]) -> io::Result<()> {
    if line.starts_with(b"=") {
        return Ok(());
    }
    rt.write_all(line)?;
    if !line.starts_with(b"#") {
        print!(rt; ": ")?;
        answer(rt, line, table)?;
    }
    println!(rt)
}

fn answer(rt: &impl Print, question: &[u8], table: &[u8]) -> io::Result<()> {
    match table.get(2) {
        Some(b'o') => os2_rows::answer(rt, question, table),
        _ => name_rows::answer(rt, question, table),
    }
}
