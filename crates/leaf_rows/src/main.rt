// Rows of the leaves that both tables stand on: what some numbers are as a level, the characters of a PostScript name, and what version texts read.
// Document 01, "Levels", "PostScript name and version number" and its version rows. The version texts have one byte a character: those of the input, one
// a line, and one of its own. A row is the text and its two figures or the refusal's number; the stored ones are made by the second program, `rows versions`.
#![tactic(auto)]

ghost use Rattle.std.specs.Prelude.{◌≡◌};

use characters::Characters;
use level::Level;
use std::io;

fn main(rt: HostRuntime) -> io::Result<()> {
    levels(&rt)?;
    characters_allowed(&rt)?;
    let mut lines = [0u8; 4096];
    let n = listing_io::read_full(&mut rt.stdin(), &mut lines);
    rows(&rt, &lines[..n])?;
    long_row(&rt)
}

// A row for each of some numbers.
fn levels(rt: &impl Print) -> io::Result<()> {
    for number in [0, 1, 2, 3, 4, 5, 6, u32::MAX] {
        level_row(rt, number)?;
    }
    Ok(())
}

// The number, and the bytes of the level's table or the refusal's number.
fn level_row(rt: &impl Print, number: u32) -> io::Result<()> {
    match Level::try_from(number) {
        Ok(known) => println!(rt; "{number} table size {}", known.table_size()),
        Err(_) => println!(rt; "{number} refused 1"),
    }
}

// A row for each line of the input, which a newline ends.
fn rows(rt: &impl Print, lines: &[u8]) -> io::Result<()> {
    for line in lines.split_inclusive(|byte| *byte == b'\n') {
        if let Some(text) = line.strip_suffix(b"\n") {
            text_row(rt, text)?;
        }
    }
    Ok(())
}

// A text as long as a record allows: one digit group.
fn long_row(rt: &impl Print) -> io::Result<()> {
    let sevens = [b'7'; 65535];
    print!(rt; "65,535 sevens")?;
    version_row(rt, &sevens)
}

// The text, and its version.
fn text_row(rt: &impl Print, text: &[u8]) -> io::Result<()> {
    print!(rt; "`")?;
    rt.write_all(text)?;
    print!(rt; "`")?;
    version_row(rt, text)
}

// What stands in a row behind its text.
fn version_row(rt: &impl Print, text: &[u8]) -> io::Result<()> {
    match version_text::version_of(Characters { text, wide: false }) {
        Some(found) => println!(rt; " version {} {}", found.major, found.minor),
        None => println!(rt; " version refused 25"),
    }
}

// The characters of a PostScript name, and how many they are.
fn characters_allowed(rt: &impl Print) -> io::Result<()> {
    write_allowed(rt)?;
    println!(rt; "\n{} characters", count_allowed())
}

fn write_allowed(rt: &impl Print) -> io::Result<()> {
    for code in 0..=u8::MAX {
        if charset::is_allowed(code) {
            rt.write_all(&[code])?;
        }
    }
    Ok(())
}

fn count_allowed() -> usize
    ensures { result ≡ 84 }
{
    let mut count = 0;
    for code in 0..=u8::MAX {
        if charset::is_allowed(code) {
            count += 1;
        }
    }
    count
}
