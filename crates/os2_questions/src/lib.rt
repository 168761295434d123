// The seven questions before any value is read: the refusal of a question's own number, the version that what it asks for came in with, and the three cases
// of an answer. Document 01, "Questions on an accepted OS/2 table".
// Relies on `level` for levels, `os2_fields` for the table's version and the catalogue, and `os2_acceptance` for the enum of the refusals.
#![tactic(auto)]

ghost use Rattle.std.specs.Prelude.{◌≡◌, ◌≤◌, ltb, length};
ghost use Rattle.std.proofs.Math.Option.{none};
ghost use Rattle.outcomes.specs.Firsts.{when};
ghost use Rattle.level.specs.Levels.{number_of};
ghost use Rattle.os2_fields.specs.Fields.{version};
ghost use Rattle.os2_acceptance.specs.Replies.{said_refusal, said_found};
ghost use Rattle.os2_questions.specs.Questions.{own_refusal, since};
ghost use Rattle.os2_questions.specs.Cases.{above, unknown, case_of};

use level::Level;
use os2_acceptance::Refusal;
use os2_fields::FSSELECTION_ENTRY;

// The seven questions.
#[derive(Clone, Copy, Debug, PartialEq, Eq)]
pub enum Question {
    // A field, 0 to 47; 6 above.
    Field(u32),
    // A bit of fsSelection, 0 to 9; 7 above.
    SelectionBit(u32),
    // A bit of the Unicode ranges, 0 to 127; 7 above.
    UnicodeBit(u32),
    // A bit of the code pages, 0 to 63; 7 above.
    CodePageBit(u32),
    Rights,
    StylePosition,
    OpticalSizes,
}

// Which of document 01's three things an answer is.
#[derive(Clone, Copy, Debug, PartialEq, Eq)]
pub enum Case {
    // What is asked for came in after the level, or is asked of the whole of a table that did.
    NotKnown,
    // The table's version is below that of what is asked for.
    Absent,
    Value,
}

// The version that bits 7 to 9 of fsSelection came in with.
const LATER_BITS_SINCE: u32 = 4;

// Refusals 6 and 7.
pub fn in_range(question: Question) -> Result<(), Refusal>
    ensures { said_found result ≡ own_refusal question }
{
    match question {
        Question::Field(number) => at_most(number, 47, Refusal::NoField),
        Question::SelectionBit(number) => at_most(number, 9, Refusal::NoBit),
        Question::UnicodeBit(number) => at_most(number, 127, Refusal::NoBit),
        Question::CodePageBit(number) => at_most(number, 63, Refusal::NoBit),
        Question::Rights | Question::StylePosition | Question::OpticalSizes => Ok(()),
    }
}

// The refusal of a number above the largest.
fn at_most(number: u32, largest: u32, why: Refusal) -> Result<(), Refusal>
    ensures { said_found result ≡ when (ltb largest number) (said_refusal why) }
{
    if largest < number {
        return Err(why);
    }
    Ok(())
}

// The version that a bit of fsSelection came in with.
pub fn selection_since(n: u32) -> u32
    ensures { result ≡ since (Question.SelectionBit n) }
{
    if n < 7 {
        FSSELECTION_ENTRY.since as u32
    } else {
        LATER_BITS_SINCE
    }
}

// The version that a bit of the code pages came in with.
pub fn code_page_since(n: u32) -> u32
    requires { own_refusal (Question.CodePageBit n) ≡ none }
    ensures { result ≡ since (Question.CodePageBit n) }
{
    let pages = os2_fields::code_pages(n / 32);
    pages.since as u32
}

// The case of what came in with version p; two bytes of the table are asked, as in `os2_fields`, and no type says it. `whole` is for the three questions that are not known of a newer table.
// It reads the table's version itself, and only where the level knows of p: the compiler then tells the cases apart by a jump each, and makes no number of them.
pub fn case_of(table: &[u8], known: Level, p: u32, whole: bool) -> Case
    requires { 2 ≤ length table.now }
    ensures { result ≡ case_of p whole (number_of known) (version table.now) }
{
    if unknown(table, known, p, whole) {
        return Case::NotKnown;
    }
    if above(p, os2_fields::version_of(table)) {
        return Case::Absent;
    }
    Case::Value
}

// Whether it is not known to the level.
fn unknown(table: &[u8], known: Level, p: u32, whole: bool) -> bool
    requires { 2 ≤ length table.now }
    ensures { result ≡ unknown p whole (number_of known) (version table.now) }
{
    let level = known.number();
    if above(p, level) {
        return true;
    }
    if whole {
        return above(os2_fields::version_of(table), level);
    }
    false
}

// Whether a version is above a level, or above another version.
fn above(p: u32, bound: u32) -> bool
    ensures { result ≡ above p bound }
{
    bound < p
}
