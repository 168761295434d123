// Two 'OS/2' tables compared at a level: the fields whose answers differ, with both answers, in field order.
// Document 02, Ask 2, and refusal 29. It relies on `os2_acceptance` for whether a level accepts a table, on `os2_questions` and `os2_fields` for a field's
// answer, and on `comparing` for the list and its rows.
#![tactic(auto)]

ghost use Rattle.std.specs.Prelude.{◌≡◌, ◌+◌, ◌/◌, ◌≤◌, length};
ghost use Rattle.std.proofs.lemmas.List.Edits.{sets};
ghost use Rattle.level.specs.Levels.{number_of};
ghost use Rattle.os2_answers.specs.declared.Answer.{Answer};
ghost use Rattle.comparing.specs.Rooms.{rows_of, front};
ghost use Rattle.comparing.specs.Comparisons.{blamed_of};
ghost use Rattle.os2_compare.specs.Differences.{answer_in, kind_of, figure_of, differ, row_of, differences};
ghost use Rattle.os2_compare.specs.Comparisons.{compared_of, room_of, said_refusal, said_compared};
ghost use Rattle.os2_compare.specs.Steps.{Accepted, Entry};

use comparing::{Blame, ROW_SIZE, Side, too_many};
use level::Level;
use os2_answers::Answer;
use os2_fields::Field;
use os2_questions::{Case, case_of};
use outcomes::Told;

// What an answer is in a row, which C reads as numbers: a value, absent, not known.
const VALUE: u32 = 1;

const ABSENT: u32 = 2;

const NOT_KNOWN: u32 = 3;

// Why nothing is listed.
#[derive(Clone, Copy, Debug, PartialEq, Eq)]
pub enum Refusal {
    // 1: the level is above 5.
    LevelAbove,
    // 2 or 3 of the left table.
    Left(os2_acceptance::Refusal),
    // 2 or 3 of the right table.
    Right(os2_acceptance::Refusal),
    // 29: more differences than rows.
    TooManyDifferences,
}

// Its side, its number, and what it carries.
impl From<Refusal> for Blame {
    ghost from_gives = { λ why blame. blamed_of blame ≡ said_refusal why };

    fn from(why: Refusal) -> Blame {
        match why {
            Refusal::LevelAbove => Blame::new(None, Told::bare(1)),
            Refusal::Left(refusal) => Blame::new(Some(Side::Left), Told::from(refusal)),
            Refusal::Right(refusal) => Blame::new(Some(Side::Right), Told::from(refusal)),
            Refusal::TooManyDifferences => Blame::new(None, Told::bare(29)),
        }
    }
}

// Lists the fields whose answers differ in rows of five numbers: the field; on the left what the answer is (1 a value, 2 absent, 3 not known) and the value,
// 0 where there is none; the same on the right.
pub fn compare(left: &[u8], right: &[u8], level: u32, rows: &mut [i64]) -> Result<usize, Refusal>
    ensures { (said_compared result ≡ compared_of level left.now right.now (length rows.old)) ×
        (rows.new ≡ room_of level left.now right.now rows.old) }
{
    let Ok(known) = Level::try_from(level) else {
        return Err(Refusal::LevelAbove);
    };
    if let Err(why) = os2_acceptance::judge(left, known) {
        return Err(Refusal::Left(why));
    }
    if let Err(why) = os2_acceptance::judge(right, known) {
        return Err(Refusal::Right(why));
    }
    let count = count_differences(left, right, known);
    if too_many(count, rows.len()) {
        return Err(Refusal::TooManyDifferences);
    }
    write_differences(left, right, known, count, rows);
    Ok(count)
}

// How many fields differ between two tables that the level accepts. (One level for both: an `Accepted` of each would have it twice, and the fact that it is the same.)
fn count_differences(left: &[u8], right: &[u8], known: Level) -> usize
    requires { Accepted (number_of known) left.now right.now }
    ensures { result ≡ length (differences (number_of known) left.now right.now) }
{
    let fields = os2_fields::entries();
    let mut count = 0;
    for &f in &fields {
        if differ(answer(left, known, f), answer(right, known, f)) {
            count += 1;
        }
    }
    count
}

// Writes a row for each field that differs, and looks no further than the last of them.
fn write_differences(left: &[u8], right: &[u8], known: Level, count: usize, rows: &mut [i64])
    requires { Accepted (number_of known) left.now right.now × (count ≡ length (differences (number_of known) left.now right.now)) × (count ≤ length rows.old / 5) }
    ensures { rows.new ≡ front (rows_of row_of (differences (number_of known) left.now right.now)) rows.old }
{
    let fields = os2_fields::entries();
    let mut done = 0;
    for (k, &f) in fields.iter().enumerate() {
        if done == count {
            break;
        }
        let on_left = answer(left, known, f);
        let on_right = answer(right, known, f);
        if differ(on_left, on_right) {
            put(rows, ROW_SIZE * done, k as u32, on_left, on_right);
            done += 1;
        }
    }
}

// The answer on a field of the catalogue.
fn answer(table: &[u8], known: Level, f: Field) -> Answer<i64>
    requires { Entry (number_of known) table.now f }
    ensures { result ≡ answer_in (number_of known) table.now f }
{
    match case_of(table, known, f.since as u32, false) {
        Case::NotKnown => Answer::NotKnown,
        Case::Absent => Answer::Absent,
        Case::Value => Answer::Value(os2_fields::value(table, f)),
    }
}

// Whether two answers differ. (By the derived `!=`: tried, and the proof did not close, since what it ensures of a generic enum speaks of the enum's layout.)
fn differ(a: Answer<i64>, b: Answer<i64>) -> bool
    ensures { result ≡ differ a b }
{
    if kind(a) != kind(b) {
        return true;
    }
    figure(a) != figure(b)
}

// What an answer is.
fn kind(a: Answer<i64>) -> u32
    ensures { result ≡ kind_of a }
{
    match a {
        Answer::Value(_) => VALUE,
        Answer::Absent => ABSENT,
        Answer::NotKnown => NOT_KNOWN,
    }
}

// Its value, 0 where there is none.
fn figure(a: Answer<i64>) -> i64
    ensures { result ≡ figure_of a }
{
    match a {
        Answer::Value(x) => x,
        Answer::Absent => 0,
        Answer::NotKnown => 0,
    }
}

// Writes a field's row from a place on.
fn put(rows: &mut [i64], at: usize, field: u32, a: Answer<i64>, b: Answer<i64>)
    requires { at + 5 ≤ length rows.old }
    ensures { rows.new ≡ sets rows.old at (row_of (record { field = field; left = a; right = b })) }
{
    rows[at] = i64::from(field);
    rows[at + 1] = i64::from(kind(a));
    rows[at + 2] = figure(a);
    rows[at + 3] = i64::from(kind(b));
    rows[at + 4] = figure(b);
}
