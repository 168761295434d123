// The 'OS/2' reader: whether a level accepts a table, and the seven questions.
// Document 01, "Questions on an accepted OS/2 table", in its order of refusals.
// Relies on `level` for levels, `os2_acceptance` for refusals 2 and 3, `os2_questions` for refusals 6 and 7, and `os2_answers` for the answers on an accepted table.
#![tactic(auto)]

ghost use Rattle.std.specs.Prelude.{◌≡◌};
ghost use Rattle.outcomes.specs.Firsts.{◌then◌};
ghost use Rattle.outcomes.specs.Outcomes.{answered, unless};
ghost use Rattle.level.specs.Levels.{number_of};
ghost use Rattle.os2_acceptance.specs.Acceptance.{judged, checked};
ghost use Rattle.os2_acceptance.specs.Replies.{said_check};
ghost use Rattle.os2_answers.specs.Asking.{before_table, ask};
ghost use Rattle.os2.specs.Replies.{said_opening, said_reply, said_rights_reply, said_style_reply, said_optical_reply, said_any_reply, kind_of};

use level::Level;
use os2_acceptance::Accepted;
pub use os2_acceptance::Refusal;
pub use os2_answers::Answer;
pub use os2_questions::Question;
use os2_style::{EmbeddingRights, OpticalSizes, StylePosition};

// The reply to a question: its answer, or the refusal.
pub type Reply<T> = Result<Answer<T>, Refusal>;

// The reply to any question, of its own kind.
#[derive(Clone, Copy, Debug, PartialEq)]
pub enum AnyReply {
    Number(Reply<i64>),
    Rights(Reply<EmbeddingRights>),
    Style(Reply<StylePosition>),
    Optical(Reply<OpticalSizes>),
}

// Whether a level accepts a table.
pub fn check(table: &[u8], level: u32) -> Result<(), Refusal>
    ensures { said_check result ≡ checked level table.now }
{
    let known = Level::try_from(level)?;
    if os2_acceptance::surely_accepts(table, known) {
        return Ok(());
    }
    os2_acceptance::judge(table, known)
}

// Any of the seven questions.
pub fn ask(table: &[u8], level: u32, question: Question) -> AnyReply
    ensures { said_any_reply result ≡ (kind_of question, ask level table.now question) }
{
    match question {
        Question::Field(number) => AnyReply::Number(field(table, level, number)),
        Question::SelectionBit(number) => AnyReply::Number(selection_bit(table, level, number)),
        Question::UnicodeBit(number) => AnyReply::Number(unicode_bit(table, level, number)),
        Question::CodePageBit(number) => AnyReply::Number(code_page_bit(table, level, number)),
        Question::Rights => AnyReply::Rights(rights(table, level)),
        Question::StylePosition => AnyReply::Style(style_position(table, level)),
        Question::OpticalSizes => AnyReply::Optical(optical_sizes(table, level)),
    }
}

// The value of a field, by its number in the catalogue.
pub fn field(table: &[u8], level: u32, number: u32) -> Reply<i64>
    ensures { said_reply result ≡ ask level table.now (Question.Field number) }
{
    let known = opened(table, level, Question::Field(number))?;
    Ok(os2_answers::field_answer(
        &Accepted {
            bytes: table,
            known,
        },
        number as usize,
    ))
}

// Bit 0 to 9 of fsSelection. (No generic function stands for the seven questions: C calls each by its name.)
pub fn selection_bit(table: &[u8], level: u32, number: u32) -> Reply<i64>
    ensures { said_reply result ≡ ask level table.now (Question.SelectionBit number) }
{
    let known = opened(table, level, Question::SelectionBit(number))?;
    Ok(os2_answers::selection_answer(
        &Accepted {
            bytes: table,
            known,
        },
        number,
    ))
}

// Unicode bit 0 to 127: bit n mod 32 of range n div 32.
pub fn unicode_bit(table: &[u8], level: u32, number: u32) -> Reply<i64>
    ensures { said_reply result ≡ ask level table.now (Question.UnicodeBit number) }
{
    let known = opened(table, level, Question::UnicodeBit(number))?;
    Ok(os2_answers::unicode_answer(
        &Accepted {
            bytes: table,
            known,
        },
        number,
    ))
}

// Code page bit 0 to 63, likewise.
pub fn code_page_bit(table: &[u8], level: u32, number: u32) -> Reply<i64>
    ensures { said_reply result ≡ ask level table.now (Question.CodePageBit number) }
{
    let known = opened(table, level, Question::CodePageBit(number))?;
    Ok(os2_answers::code_page_answer(
        &Accepted {
            bytes: table,
            known,
        },
        number,
    ))
}

// Rights: what fsType allows.
pub fn rights(table: &[u8], level: u32) -> Reply<EmbeddingRights>
    ensures { said_rights_reply result ≡ ask level table.now Question.Rights }
{
    let known = opened(table, level, Question::Rights)?;
    Ok(os2_answers::rights_answer(&Accepted {
        bytes: table,
        known,
    }))
}

// The style position: weight and width percent.
pub fn style_position(table: &[u8], level: u32) -> Reply<StylePosition>
    ensures { said_style_reply result ≡ ask level table.now Question.StylePosition }
{
    let known = opened(table, level, Question::StylePosition)?;
    Ok(os2_answers::style_answer(&Accepted {
        bytes: table,
        known,
    }))
}

// Optical sizes, in points.
pub fn optical_sizes(table: &[u8], level: u32) -> Reply<OpticalSizes>
    ensures { said_optical_reply result ≡ ask level table.now Question.OpticalSizes }
{
    let known = opened(table, level, Question::OpticalSizes)?;
    Ok(os2_answers::optical_answer(&Accepted {
        bytes: table,
        known,
    }))
}

// What comes before the answer, in two halves: what needs no table, then the table.
fn opened(table: &[u8], level: u32, question: Question) -> Result<Level, Refusal>
    ensures { said_opening result ≡ unless (before_table level question then judged level table.now) (answered level) }
{
    on_table(table, before_table(level, question)?)
}

// Refusal 1, then the question's own, 6 or 7; else the level to answer at.
pub fn before_table(level: u32, question: Question) -> Result<Level, Refusal>
    ensures { said_opening result ≡ unless (before_table level question) (answered level) }
{
    let known = Level::try_from(level)?;
    os2_questions::in_range(question)?;
    Ok(known)
}

// Refusals 2 and 3; else the level.
pub fn on_table(table: &[u8], known: Level) -> Result<Level, Refusal>
    ensures { said_opening result ≡ unless (judged (number_of known) table.now) (answered (number_of known)) }
{
    if !os2_acceptance::surely_accepts(table, known) {
        os2_acceptance::judge(table, known)?;
    }
    Ok(known)
}
