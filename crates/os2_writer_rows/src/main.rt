// Runs the writer: each version written, read back and rewritten; each refusal of the writer and of rewriting; and each setting of fsType's
// bits 1 to 3 in versions 2 and 3.
// A room is lent filled with 170. A row ends with the room's first byte and, of a room of 101 bytes, its last, which no table reaches.
// The stored output is made by the second program, `writer_rows`.
#![tactic(auto)]

use os2::{Answer, Reply};
use os2_fields::FIELD_COUNT;
use outcomes::Told;
use std::io;

fn main(rt: HostRuntime) -> io::Result<()> {
    for number in 0..6 {
        version(&rt, number)?;
    }
    versions_refused(&rt)?;
    room_refused(&rt)?;
    room_refused_first(&rt)?;
    values_refused(&rt)?;
    rules_refused(&rt)?;
    rewritings_refused(&rt)?;
    rewriting_without_room(&rt)?;
    rights(&rt, 2)?;
    rights(&rt, 3)?;
    round_trip(&rt, sample_with(2, 14))
}

// Numbers of a version that it accepts, some of them negative or the largest of their fields.
fn sample(version: i64) -> [i64; FIELD_COUNT] {
    let mut numbers: [i64; FIELD_COUNT] = [0; FIELD_COUNT];
    numbers[0] = version;
    numbers[1] = -1;
    numbers[2] = 400;
    numbers[3] = 5;
    numbers[4] = 8;
    numbers[15] = -32768;
    numbers[16] = 255;
    numbers[26] = 4294967295;
    numbers[30] = 1094861636;
    numbers[31] = 64;
    numbers[34] = 32767;
    numbers[38] = 65535;
    numbers[39] = 1;
    numbers[40] = 2147483648;
    numbers[41] = -500;
    numbers[45] = 3;
    numbers[46] = 0;
    numbers[47] = 65535;
    numbers
}

// A version written, read back and rewritten.
fn version(rt: &impl Print, version: i64) -> io::Result<()> {
    round_trip(rt, sample(version))
}

// Numbers written, read back field by field, and rewritten into another room.
fn round_trip(rt: &impl Print, numbers: [i64; FIELD_COUNT]) -> io::Result<()> {
    let mut room: [u8; 101] = [170; 101];
    say(rt, "written", os2_writer::write(numbers, &mut room))?;
    ends(rt, room[0], room[100])?;
    read_back(rt, numbers, &room)?;
    let mut other: [u8; 101] = [170; 101];
    say(rt, "rewritten", os2_writer::rewrite(&room, &mut other))?;
    ends(rt, other[0], other[100])?;
    read_back(rt, numbers, &other)
}

// A sign for each field, read at level 5.
fn read_back(rt: &impl Print, numbers: [i64; FIELD_COUNT], table: &[u8]) -> io::Result<()> {
    for (k, &number) in numbers.iter().enumerate() {
        print!(rt; "{}", sign(os2::field(table, 5, k as u32), number))?;
    }
    println!(rt)
}

// = for the number, - for absent, ! for anything else.
fn sign(reply: Reply<i64>, number: i64) -> &'static str {
    if reply == Ok(Answer::Value(number)) {
        return "=";
    }
    match reply {
        Ok(Answer::Absent) => "-",
        _ => "!",
    }
}

// Versions outside 0 to 5, also where there is no room.
fn versions_refused(rt: &impl Print) -> io::Result<()> {
    row(rt, sample(6))?;
    row(rt, sample(-1))?;
    let mut room: [u8; 1] = [170; 1];
    say(rt, "written", os2_writer::write(sample(6), &mut room))?;
    end(rt, room[0])
}

// A room one byte too short.
fn room_refused(rt: &impl Print) -> io::Result<()> {
    let mut room: [u8; 77] = [170; 77];
    say(rt, "written", os2_writer::write(sample(0), &mut room))?;
    end(rt, room[0])
}

// The same for a value that does not fit.
fn room_refused_first(rt: &impl Print) -> io::Result<()> {
    let mut room: [u8; 99] = [170; 99];
    let mut numbers = sample(5);
    numbers[2] = 70000;
    say(rt, "written", os2_writer::write(numbers, &mut room))?;
    end(rt, room[0])
}

// Values that do not fit: the lowest field is told, before any rule; one of a field that the version lacks is not looked at.
fn values_refused(rt: &impl Print) -> io::Result<()> {
    let mut numbers = sample(5);
    numbers[47] = 65536;
    row(rt, numbers)?;
    numbers[2] = 70000;
    row(rt, numbers)?;
    numbers[1] = 32768;
    row(rt, numbers)?;
    let mut early = sample(0);
    early[47] = 65536;
    row(rt, early)
}

// The first rule broken.
fn rules_refused(rt: &impl Print) -> io::Result<()> {
    let mut numbers = sample(5);
    numbers[46] = 65535;
    row(rt, numbers)?;
    numbers[31] = 65;
    row(rt, numbers)?;
    numbers[2] = 0;
    row(rt, numbers)
}

// Tables that the reader refuses, and one of version 6.
fn rewritings_refused(rt: &impl Print) -> io::Result<()> {
    rewriting(rt, b"\x00")?;
    rewriting(rt, &[0; 78])?;
    let mut later: [u8; 100] = [0; 100];
    later[1] = 6;
    rewriting(rt, &later)
}

// A room that is too short for the table.
fn rewriting_without_room(rt: &impl Print) -> io::Result<()> {
    let mut table: [u8; 78] = [0; 78];
    table[5] = 1;
    table[7] = 1;
    let mut room: [u8; 77] = [170; 77];
    say(rt, "rewritten", os2_writer::rewrite(&table, &mut room))?;
    end(rt, room[0])
}

// Each setting of fsType's bits 1 to 3, which exclude each other only from version 3 on.
fn rights(rt: &impl Print, version: i64) -> io::Result<()> {
    for fstype in [0, 2, 4, 6, 8, 10, 12, 14] {
        row(rt, sample_with(version, fstype))?;
    }
    Ok(())
}

// The same numbers with this fsType.
fn sample_with(version: i64, fstype: i64) -> [i64; FIELD_COUNT] {
    let mut numbers = sample(version);
    numbers[4] = fstype;
    numbers
}

// A table rewritten into a room that is long enough for every version.
fn rewriting(rt: &impl Print, table: &[u8]) -> io::Result<()> {
    let mut room: [u8; 101] = [170; 101];
    say(rt, "rewritten", os2_writer::rewrite(table, &mut room))?;
    ends(rt, room[0], room[100])
}

// The numbers written into a room that is long enough for every version.
fn row(rt: &impl Print, numbers: [i64; FIELD_COUNT]) -> io::Result<()> {
    let mut room: [u8; 101] = [170; 101];
    say(rt, "written", os2_writer::write(numbers, &mut room))?;
    ends(rt, room[0], room[100])
}

// The size, or document 01's number and what the refusal carries.
fn say<E: Into<Told>>(rt: &impl Print, word: &str, size: Result<usize, E>) -> io::Result<()> {
    match size {
        Ok(size) => print!(rt; "{word} {size}"),
        Err(why) => refused(rt, why.into()),
    }
}

fn refused(rt: &impl Print, why: Told) -> io::Result<()> {
    print!(rt; "refused {}", why.number)?;
    match why.carried {
        Some(place) => print!(rt; " at {place}"),
        None => Ok(()),
    }
}

fn ends(rt: &impl Print, first: u8, last: u8) -> io::Result<()> {
    println!(rt; ", room {first} {last}")
}

fn end(rt: &impl Print, first: u8) -> io::Result<()> {
    println!(rt; ", room {first}")
}
