// What answers a question on an 'OS/2' table that a level accepts: which of the three things the answer is, then the value.
// Document 01, "Questions on an accepted OS/2 table", and demand 3.
// Relies on `os2_questions` for the case of an answer, `os2_acceptance` for acceptance, `os2_fields` for what stands in the fields, and `os2_style` for the last
// three questions' values.
#![tactic(auto)]

ghost use Rattle.std.specs.Prelude.{◌≡◌, false, ◌<◌, pos};
ghost use Rattle.std.proofs.Math.Option.{none};
ghost use Rattle.level.specs.Levels.{number_of};
ghost use Rattle.os2_rules.specs.Bits.{bit};
ghost use Rattle.os2_fields.specs.Catalogue.{field_count};
ghost use Rattle.os2_fields.specs.Fields.{raw_in, version};
ghost use Rattle.os2_fields.specs.Reading.{Lies};
ghost use Rattle.os2_questions.specs.Questions.{own_refusal};
ghost use Rattle.os2_questions.specs.Cases.{case_of};
ghost use Rattle.os2_answers.specs.Values.{integer, field_value};
ghost use Rattle.os2_answers.specs.Asking.{said_case, given};
ghost use Rattle.os2_answers.specs.Reading.{BitIn};
ghost use Rattle.os2_answers.specs.Replies.{said_answer, said_rights_answer, said_style_answer, said_optical_answer};

use os2_acceptance::Accepted;
use os2_fields::{
    FSSELECTION_ENTRY, FSTYPE_ENTRY, Field, LOWER_SIZE_ENTRY, UPPER_SIZE_ENTRY, WEIGHT_ENTRY,
    WIDTH_ENTRY,
};
use os2_questions::{Case, Question, case_of, code_page_since, selection_since};
use os2_style::{EmbeddingRights, OpticalSizes, StylePosition};

// An answer: of a field or a bit, which is 0 or 1, a number; of rights, the style position and optical sizes, what they are.
#[derive(Clone, Copy, Debug, PartialEq, Eq)]
pub enum Answer<T> {
    Value(T),
    // Never given on rights and the style position, which came in with version 0.
    Absent,
    NotKnown,
}

// Each answer matches the three cases itself. (Tried: one function that takes the value as a closure; the proof of each caller then speaks of that closure's layout.)
// A field of an accepted table.
pub fn field_answer(table: &Accepted<'_>, k: usize) -> Answer<i64>
    requires { k < field_count }
    ensures { said_answer result ≡ given (number_of table.now.known) table.now.bytes.now (Question.Field k) }
{
    let f = os2_fields::entry(k);
    match case_of(table.bytes, table.known, f.since as u32, false) {
        Case::NotKnown => Answer::NotKnown,
        Case::Absent => Answer::Absent,
        Case::Value => Answer::Value(field_value(table.bytes, f)),
    }
}

// The whole number that stands in a field, which lies in the table, as in `os2_fields`.
fn field_value(table: &[u8], f: Field) -> i64
    requires { Lies table.now f }
    ensures { result ≡ field_value table.now f }
{
    os2_fields::value(table, f)
}

// A bit of fsSelection of an accepted table.
pub fn selection_answer(table: &Accepted<'_>, n: u32) -> Answer<i64>
    requires { own_refusal (Question.SelectionBit n) ≡ none }
    ensures { said_answer result ≡ given (number_of table.now.known) table.now.bytes.now (Question.SelectionBit n) }
{
    bit_in(table, selection_since(n), FSSELECTION_ENTRY, n)
}

// A Unicode bit of an accepted table.
pub fn unicode_answer(table: &Accepted<'_>, n: u32) -> Answer<i64>
    requires { own_refusal (Question.UnicodeBit n) ≡ none }
    ensures { said_answer result ≡ given (number_of table.now.known) table.now.bytes.now (Question.UnicodeBit n) }
{
    let range = os2_fields::unicode_range(n / 32);
    bit_in(table, range.since as u32, range, n % 32)
}

// A code page bit of an accepted table.
pub fn code_page_answer(table: &Accepted<'_>, n: u32) -> Answer<i64>
    requires { own_refusal (Question.CodePageBit n) ≡ none }
    ensures { said_answer result ≡ given (number_of table.now.known) table.now.bytes.now (Question.CodePageBit n) }
{
    let pages = os2_fields::code_pages(n / 32);
    bit_in(table, code_page_since(n), pages, n % 32)
}

// A bit of a field of an accepted table, of what came in with version p.
fn bit_in(table: &Accepted<'_>, p: u32, f: Field, n: u32) -> Answer<i64>
    requires { BitIn (number_of table.now.known) table.now.bytes.now p f n }
    ensures { said_answer result ≡ said_case (case_of p false (number_of table.now.known) (version table.now.bytes.now)) (integer (pos (bit n (raw_in table.now.bytes.now f)))) }
{
    match case_of(table.bytes, table.known, p, false) {
        Case::NotKnown => Answer::NotKnown,
        Case::Absent => Answer::Absent,
        Case::Value => {
            let number = os2_fields::number(table.bytes, f);
            Answer::Value(i64::from(os2_fields::bit_of(number, n)))
        }
    }
}

// Rights of an accepted table.
pub fn rights_answer(table: &Accepted<'_>) -> Answer<EmbeddingRights>
    ensures { said_rights_answer result ≡ given (number_of table.now.known) table.now.bytes.now Question.Rights }
{
    match case_of(table.bytes, table.known, FSTYPE_ENTRY.since as u32, true) {
        Case::NotKnown => Answer::NotKnown,
        Case::Absent => Answer::Absent,
        Case::Value => Answer::Value(os2_style::rights_of(os2_fields::word(
            table.bytes,
            FSTYPE_ENTRY,
        ))),
    }
}

// The style position of an accepted table.
pub fn style_answer(table: &Accepted<'_>) -> Answer<StylePosition>
    ensures { said_style_answer result ≡ given (number_of table.now.known) table.now.bytes.now Question.StylePosition }
{
    match case_of(table.bytes, table.known, WEIGHT_ENTRY.since as u32, true) {
        Case::NotKnown => Answer::NotKnown,
        Case::Absent => Answer::Absent,
        Case::Value => Answer::Value(os2_style::position_of(
            os2_fields::word(table.bytes, WEIGHT_ENTRY),
            os2_fields::word(table.bytes, WIDTH_ENTRY),
        )),
    }
}

// Optical sizes of an accepted table.
pub fn optical_answer(table: &Accepted<'_>) -> Answer<OpticalSizes>
    ensures { said_optical_answer result ≡ given (number_of table.now.known) table.now.bytes.now Question.OpticalSizes }
{
    match case_of(
        table.bytes,
        table.known,
        LOWER_SIZE_ENTRY.since as u32,
        true,
    ) {
        Case::NotKnown => Answer::NotKnown,
        Case::Absent => Answer::Absent,
        Case::Value => Answer::Value(os2_style::sizes_of(
            os2_fields::word(table.bytes, LOWER_SIZE_ENTRY),
            os2_fields::word(table.bytes, UPPER_SIZE_ENTRY),
        )),
    }
}
