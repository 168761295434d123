// Lists what differs between two tables: `compare os2 LEVEL LEFT RIGHT` and `compare name LEFT RIGHT`, where LEFT and RIGHT name files, and further
// comparisons one after another. Document 02, Ask 2; docs/DECISIONS.md has the lines. It only reads, loops and writes: rows and lines are the libraries'.
#![tactic(auto)]

ghost use Rattle.std.specs.Prelude.{◌<◌};

use compare_lines::{blame_line, name_line, os2_line, too_long_line};
use comparing::{Blame, ROW_SIZE, Side};
use level::Level;
use lines::Line;
use listing_io::{NoTable, Page, argument, arguments, read_table, say, write_line};
use os2_acceptance::Refusal;
use outcomes::Told;

// The numbers of as many rows as two 'name' tables have records: at most 5,460 each.
const NAME_NUMBERS: usize = 54600;

// The numbers of a row for each field.
const OS2_NUMBERS: usize = 240;

fn main(rt: HostRuntime) {
    let count = arguments(&rt).end;
    if count < 2 {
        say(&rt, b"compare: neither os2 nor name\n");
        return;
    }
    // Not a `for`: how many words a comparison has, it says itself.
    let mut i = 1;
    while i < count {
        i = compare_from(&rt, i, count);
    }
}

// The comparison whose first word is argument i, of so many; answers which argument comes after its last word.
fn compare_from(rt: &HostRuntime, i: usize, count: usize) -> usize
    requires { i < count }
    ensures { i < result }
{
    let mut word = [0u8; 4096];
    let Some(n) = argument(rt, i, b"os2 or name", &mut word) else {
        return count;
    };
    match &word[..n] {
        b"name" => {
            if count - i < 3 {
                say(rt, b"compare: name LEFT RIGHT\n");
                return count;
            }
            compare_names(rt, i + 1, i + 2);
            i + 3
        }
        b"os2" => {
            if count - i < 4 {
                say(rt, b"compare: os2 LEVEL LEFT RIGHT\n");
                return count;
            }
            compare_at_word(rt, i + 1, i + 2, i + 3);
            i + 4
        }
        other => {
            say(rt, other);
            say(rt, b": neither os2 nor name\n");
            count
        }
    }
}

// The lines of rows.
fn write_rows<R, F: Fn(&R) -> Line>(rt: &HostRuntime, rows: &[R], line: F)
    requires { F.IsAlwaysCallable line }
{
    let mut page = Page::new();
    for row in rows {
        page.put(rt, line(row));
    }
    page.write(rt);
}

// ---- two 'name' tables

// The comparison of the two files that two arguments name.
fn compare_names(rt: &HostRuntime, left: usize, right: usize) {
    let mut first = [0u8; 65536];
    let mut second = [0u8; 65536];
    let on_left = read_table(rt, left, &mut first);
    let on_right = read_table(rt, right, &mut second);
    match (on_left, on_right) {
        (Err(NoTable::Unread), _) | (_, Err(NoTable::Unread)) => {}
        (Err(NoTable::TooLong), _) => write_line(rt, too_long_line(Some(Side::Left))),
        (Ok(n), Err(NoTable::TooLong)) => write_line(rt, right_name_too_long(&first[..n])),
        (Ok(n), Ok(m)) => list_names(rt, &first[..n], &second[..m]),
    }
}

// Where only the right input is too long: the left table's refusal, which comes first, or that line.
fn right_name_too_long(left: &[u8]) -> Line {
    match name::check(left) {
        Ok(()) => too_long_line(Some(Side::Right)),
        Err(why) => blame_line(Blame::new(Some(Side::Left), Told::from(why))),
    }
}

fn list_names(rt: &HostRuntime, left: &[u8], right: &[u8]) {
    let mut rows = [0u16; NAME_NUMBERS];
    match name_compare::compare(left, right, &mut rows) {
        Ok(n) => write_rows(rt, &rows.as_chunks::<ROW_SIZE>().0[..n], name_line),
        Err(why) => write_line(rt, blame_line(Blame::from(why))),
    }
}

// ---- two 'OS/2' tables

// The comparison at the level that one argument gives, of the two files that two others name.
fn compare_at_word(rt: &HostRuntime, level: usize, left: usize, right: usize) {
    // An argument has at most 131,071 bytes on Linux.
    let mut word = [0u8; 131072];
    let Some(n) = argument(rt, level, b"level", &mut word) else {
        return;
    };
    match level::level_in(&word[..n]) {
        Some(number) => compare_os2(rt, number, left, right),
        None => {
            say(rt, &word[..n]);
            say(rt, b": no level\n");
        }
    }
}

// The same at a level.
fn compare_os2(rt: &HostRuntime, level: u32, left: usize, right: usize) {
    let mut first = [0u8; 65536];
    let mut second = [0u8; 65536];
    let on_left = read_table(rt, left, &mut first);
    let on_right = read_table(rt, right, &mut second);
    match (on_left, on_right) {
        (Err(NoTable::Unread), _) | (_, Err(NoTable::Unread)) => {}
        (Err(NoTable::TooLong), _) => write_line(rt, left_os2_too_long(level)),
        (Ok(n), Err(NoTable::TooLong)) => write_line(rt, right_os2_too_long(&first[..n], level)),
        (Ok(n), Ok(m)) => list_os2(rt, &first[..n], &second[..m], level),
    }
}

// Where the left input is too long: the level's refusal, which comes first, or that line.
fn left_os2_too_long(level: u32) -> Line {
    match Level::try_from(level) {
        Ok(_) => too_long_line(Some(Side::Left)),
        Err(above) => blame_line(Blame::new(None, Told::from(Refusal::from(above)))),
    }
}

// Where only the right input is too long: the level's refusal, the left table's, or that line.
fn right_os2_too_long(left: &[u8], level: u32) -> Line {
    let known = match Level::try_from(level) {
        Ok(known) => known,
        Err(above) => return blame_line(Blame::new(None, Told::from(Refusal::from(above)))),
    };
    match os2_acceptance::judge(left, known) {
        Ok(()) => too_long_line(Some(Side::Right)),
        Err(why) => blame_line(Blame::new(Some(Side::Left), Told::from(why))),
    }
}

fn list_os2(rt: &HostRuntime, left: &[u8], right: &[u8], level: u32) {
    let mut rows = [0i64; OS2_NUMBERS];
    match os2_compare::compare(left, right, level, &mut rows) {
        Ok(n) => write_rows(rt, &rows.as_chunks::<ROW_SIZE>().0[..n], os2_line),
        Err(why) => write_line(rt, blame_line(Blame::from(why))),
    }
}
