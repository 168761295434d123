// Lists an 'OS/2' table as a level reads it: `os2_listing LEVEL [FILE]`, and further pairs of a level and a file one after another. A level without
// a file reads standard input. docs/DECISIONS.md has the lines. It only reads, loops and writes: the lines are the libraries'.
#![tactic(auto)]

use level::Level;
use listing_io::{NoTable, Page, say};
use os2_acceptance::{Accepted, Refusal};
use os2_lines::LINE_COUNT;
use outcomes::Told;

fn main(rt: HostRuntime) {
    let count = listing_io::arguments(&rt).end;
    if count < 2 {
        say(&rt, b"os2_listing: no level\n");
    }
    for pair in 0..count / 2 {
        let level = 2 * pair + 1;
        list_arguments(&rt, level, level + 1);
    }
}

// The listing at the level that one argument gives, of the file that another names.
fn list_arguments(rt: &HostRuntime, level: usize, file: usize) {
    // An argument has at most 131,071 bytes on Linux.
    let mut word = [0u8; 131072];
    let Some(n) = listing_io::argument(rt, level, b"level", &mut word) else {
        return;
    };
    match level::level_in(&word[..n]) {
        Some(number) => list_input(rt, number, file),
        None => {
            say(rt, &word[..n]);
            say(rt, b": no level\n");
        }
    }
}

// The same at a level; standard input where there is no such argument.
fn list_input(rt: &HostRuntime, level: u32, file: usize) {
    let mut table = [0u8; 65536];
    match listing_io::read_table(rt, file, &mut table) {
        Ok(n) => list_table(rt, &table[..n], level),
        Err(NoTable::TooLong) => listing_io::write_line(rt, lines::too_long()),
        Err(NoTable::Unread) => {}
    }
}

// A table's lines, or its one line of refusal.
fn list_table(rt: &HostRuntime, table: &[u8], level: u32) {
    if let Err(why) = list_accepted(rt, table, level) {
        listing_io::write_line(rt, lines::refusal_line(Told::from(why)));
    }
}

// The lines of a table that the level accepts, or why it does not.
fn list_accepted(rt: &HostRuntime, table: &[u8], level: u32) -> Result<(), Refusal> {
    let known = Level::try_from(level)?;
    os2_acceptance::judge(table, known)?;
    list_lines(
        rt,
        &Accepted {
            bytes: table,
            known,
        },
    );
    Ok(())
}

// The lines of a table that the level accepts.
fn list_lines(rt: &HostRuntime, table: &Accepted<'_>) {
    let mut page = Page::new();
    for k in 0..LINE_COUNT {
        page.put(rt, os2_lines::line(table, k));
    }
    page.write(rt);
}
