// The lines of an 'OS/2' table's listing at a level: the 48 fields, rights, style position and optical sizes.
// Document 01, "Questions on an accepted OS/2 table"; docs/DECISIONS.md has how the lines read.
// It relies on `os2_questions` for which case an answer is, on `os2_fields` and `os2_style` for the values, on `os2_figures` for the values as text, and
// on the lines of `lines`.
#![tactic(auto)]

ghost use Rattle.std.specs.Prelude.{◌+◌, ◌≤◌, ◌≡◌, ◌++◌, length};
ghost use Rattle.lines.specs.Numerals.{most_digits};
ghost use Rattle.lines.specs.Lines.{line_room};
ghost use Rattle.level.specs.Levels.{number_of};
ghost use Rattle.os2_questions.specs.Questions.{since, on_whole};
ghost use Rattle.os2_answers.specs.Asking.{value_of, given};
ghost use Rattle.os2_lines.specs.Listings.{answer_room, value_text, answer_text, question_of, name_of, line_at};
ghost use Rattle.os2_lines.specs.Reading.{asked, named, InRange, Given};

use lines::Line;
use os2_acceptance::Accepted;
use os2_fields::{
    FSTYPE_ENTRY, LOWER_SIZE_ENTRY, UPPER_SIZE_ENTRY, WEIGHT_ENTRY, WIDTH_ENTRY, word,
};
use os2_questions::{Case, case_of};

// How many lines there are.
pub const LINE_COUNT: usize = 51;

// What a line is of.
#[derive(Clone, Copy)]
enum Row {
    // A field, 0 to 47.
    Field(usize),
    Rights,
    StylePosition,
    OpticalSizes,
}

impl Row {
    // Line k's. The fields come first, optical sizes last.
    #[tactic(auto, unfolding(crate::specs::Listings::question_of, crate::specs::Listings::name_of))]
    fn of(k: usize) -> Row
        ensures question { asked result ≡ question_of k }
        ensures name { named result ≡ name_of k }
        ensures range { InRange result }
    {
        match k {
            0..=47 => Row::Field(k),
            48 => Row::Rights,
            49 => Row::StylePosition,
            _ => Row::OpticalSizes,
        }
    }

    // The version that what the line says came in with.
    #[tactic(auto, unfolding(os2_questions::specs::Questions::since))]
    fn since(self) -> u32
        requires { InRange self }
        ensures { result ≡ since (asked self) }
    {
        let entry = match self {
            Row::Field(k) => os2_fields::entry(k),
            Row::Rights => FSTYPE_ENTRY,
            Row::StylePosition => WEIGHT_ENTRY,
            Row::OpticalSizes => LOWER_SIZE_ENTRY,
        };
        u32::from(entry.since)
    }

    // Whether it is of the whole of a table, and not of a field.
    #[tactic(auto, unfolding(os2_questions::specs::Questions::on_whole))]
    fn is_whole(self) -> bool
        ensures { result ≡ on_whole (asked self) }
    {
        !matches!(self, Row::Field(_))
    }
}

// Line k of a table that the level accepts.
#[tactic(auto, unfolding(crate::specs::Listings::line_at))]
pub fn line(table: &Accepted<'_>, k: usize) -> Line
    ensures { result ≡ line_at (number_of table.now.known) table.now.bytes.now k }
{
    let row = Row::of(k);
    let mut line = Line::new();
    put_name(&mut line, row);
    line.put(b" ");
    put_answer(&mut line, table, row);
    line.put(b"\n");
    line
}

// Puts what a line starts with.
fn put_name(line: &mut Line, row: Row)
    requires { length line.old + most_digits ≤ line_room }
    ensures holds { line.new ≡ line.old ++ named row }
    ensures room { length line.new ≤ length line.old + most_digits }
{
    match row {
        Row::Field(k) => line.put_number(k as u64),
        Row::Rights => line.put(b"rights"),
        Row::StylePosition => line.put(b"style position"),
        Row::OpticalSizes => line.put(b"optical sizes"),
    }
}

// Puts the answer to what a line asks.
fn put_answer(line: &mut Line, table: &Accepted<'_>, row: Row)
    requires { (length line.old + answer_room ≤ line_room) × InRange row }
    ensures holds { line.new ≡ line.old ++ answer_text table.now.bytes.now (given (number_of table.now.known) table.now.bytes.now (asked row)) }
    ensures room { length line.new ≤ length line.old + answer_room }
{
    match case_of(table.bytes, table.known, row.since(), row.is_whole()) {
        Case::NotKnown => line.put(b"not known"),
        Case::Absent => line.put(b"absent"),
        Case::Value => put_value(line, table.bytes, row),
    }
}

// Puts the value that a line says, from the stored numbers.
#[tactic(auto, unfolding(os2_answers::specs::Asking::value_of, os2_fields::specs::Catalogue::field_of, os2_fields::specs::Catalogue::catalogue))]
fn put_value(line: &mut Line, table: &[u8], row: Row)
    requires { (length line.old + answer_room ≤ line_room) × Given table.now row }
    ensures holds { line.new ≡ line.old ++ value_text table.now (value_of table.now (asked row)) }
    ensures room { length line.new ≤ length line.old + answer_room }
{
    match row {
        Row::Field(k) => {
            os2_figures::put_signed(line, os2_fields::value(table, os2_fields::entry(k)));
        }
        Row::Rights => {
            os2_figures::put_rights(line, os2_style::rights_of(word(table, FSTYPE_ENTRY)));
        }
        Row::StylePosition => {
            let weight = word(table, WEIGHT_ENTRY);
            os2_figures::put_position(line, weight, word(table, WIDTH_ENTRY));
        }
        Row::OpticalSizes => {
            let lower = word(table, LOWER_SIZE_ENTRY);
            os2_figures::put_sizes(line, lower, word(table, UPPER_SIZE_ENTRY));
        }
    }
}
