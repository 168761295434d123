// The answers on an 'OS/2' table, and those of the writers of either table, in the words of C.
// Document 01, "Questions on an accepted OS/2 table" and "The writer"; `gv_number`, `gv_rights`, `gv_style`, `gv_optical` and `gv_written`
// in `include/gyalvindor.h`.
// Relies on `refusal_words` for a refusal's words, and on `os2` for what an answer says.
#![tactic(auto)]

ghost use Rattle.std.specs.Prelude.{◌≡◌, IfOk, IfErr};
ghost use Rattle.outcomes.specs.declared.Told.{Told};
ghost use Rattle.outcomes.specs.Outcomes.{answered, refusing, refusal_of};
ghost use Rattle.os2_style.specs.Style.{said_sizes};
ghost use Rattle.os2_answers.specs.Values.{value, sizes};
ghost use Rattle.os2.specs.Replies.{said_reply, said_rights_reply, said_style_reply, said_optical_reply};
ghost use Rattle.os2_words.specs.Words.{number_words, rights_words, style_words, optical_words, written_words};

use os2::{Answer, Reply};
use os2_style::{EmbeddingRights, OpticalSizes, StylePosition};
use outcomes::Told;
use refusal_words::{GvRefusal, NO_REFUSAL};

// What an answer on an 'OS/2' table is: none, the call being refused; a value; absent; not known.
const REFUSED: u32 = 0;

const VALUE: u32 = 1;

const ABSENT: u32 = 2;

const NOT_KNOWN: u32 = 3;

// The answer on a field or a bit.
#[repr(C)]
#[derive(Clone, Copy, Debug, PartialEq)]
pub struct GvNumber {
    pub refusal: GvRefusal,
    pub kind: u32,
    pub value: i64,
}

// `new`, here and below: a proof can hardly rewrite a struct that is made of what a call gives.
impl GvNumber {
    fn new(refusal: GvRefusal, kind: u32, number: i64) -> GvNumber
        ensures { result ≡ record { refusal = refusal; kind = kind; value = number } }
    {
        GvNumber {
            refusal,
            kind,
            value: number,
        }
    }
}

// The answer on rights: 0 installable, 1 restricted, 2 preview, 3 editable.
#[repr(C)]
#[derive(Clone, Copy, Debug, PartialEq)]
pub struct GvRights {
    pub refusal: GvRefusal,
    pub kind: u32,
    pub rights: u32,
}

impl GvRights {
    fn new(refusal: GvRefusal, kind: u32, rights: u32) -> GvRights
        ensures { result ≡ record { refusal = refusal; kind = kind; rights = rights } }
    {
        GvRights {
            refusal,
            kind,
            rights,
        }
    }
}

// The answer on the style position: the weight, and the width in percent.
#[repr(C)]
#[derive(Clone, Copy, Debug, PartialEq)]
pub struct GvStyle {
    pub refusal: GvRefusal,
    pub kind: u32,
    pub weight: f32,
    pub width: f32,
}

impl GvStyle {
    fn new(refusal: GvRefusal, kind: u32, weight: f32, width: f32) -> GvStyle
        ensures { result ≡ record { refusal = refusal; kind = kind; weight = weight; width = width } }
    {
        GvStyle {
            refusal,
            kind,
            weight,
            width,
        }
    }
}

// What optical sizes are: none; every size; from `lower` upwards; between `lower` and `upper`.
const NO_SIZES: u32 = 0;

const EVERY: u32 = 1;

const UPWARDS: u32 = 2;

const BETWEEN: u32 = 3;

// The answer on optical sizes, in points.
#[repr(C)]
#[derive(Clone, Copy, Debug, PartialEq)]
pub struct GvOptical {
    pub refusal: GvRefusal,
    pub kind: u32,
    pub sizes: u32,
    pub lower: f32,
    pub upper: f32,
}

impl GvOptical {
    fn new(refusal: GvRefusal, kind: u32, which: u32, lower: f32, upper: f32) -> GvOptical
        ensures { result ≡ record { refusal = refusal; kind = kind; sizes = which; lower = lower; upper = upper } }
    {
        GvOptical {
            refusal,
            kind,
            sizes: which,
            lower,
            upper,
        }
    }
}

// The answer of a writer and of rewriting: the bytes written.
#[repr(C)]
#[derive(Clone, Copy, Debug, PartialEq)]
pub struct GvWritten {
    pub refusal: GvRefusal,
    pub size: usize,
}

impl GvWritten {
    fn new(refusal: GvRefusal, size: usize) -> GvWritten
        ensures { result ≡ record { refusal = refusal; size = size } }
    {
        GvWritten { refusal, size }
    }
}

// ---- the reader's answers in words

// What a question on a field or a bit says. In C each of the four answers is a struct of its own.
pub fn number_words(reply: Reply<i64>) -> GvNumber
    ensures { result ≡ number_words (said_reply reply) }
{
    match reply {
        Err(why) => GvNumber::new(GvRefusal::from(Told::from(why)), REFUSED, 0),
        Ok(answer) => match answer {
            Answer::Value(value) => GvNumber::new(NO_REFUSAL, VALUE, value),
            Answer::Absent => GvNumber::new(NO_REFUSAL, ABSENT, 0),
            Answer::NotKnown => GvNumber::new(NO_REFUSAL, NOT_KNOWN, 0),
        },
    }
}

// What the question on rights says.
pub fn rights_words(reply: Reply<EmbeddingRights>) -> GvRights
    ensures { result ≡ rights_words (said_rights_reply reply) }
{
    match reply {
        Err(why) => GvRights::new(GvRefusal::from(Told::from(why)), REFUSED, 0),
        Ok(answer) => match answer {
            Answer::Value(rights) => GvRights::new(NO_REFUSAL, VALUE, rights.number()),
            Answer::Absent => GvRights::new(NO_REFUSAL, ABSENT, 0),
            Answer::NotKnown => GvRights::new(NO_REFUSAL, NOT_KNOWN, 0),
        },
    }
}

// What the question on the style position says.
pub fn style_words(reply: Reply<StylePosition>) -> GvStyle
    ensures { result ≡ style_words (said_style_reply reply) }
{
    match reply {
        Err(why) => GvStyle::new(GvRefusal::from(Told::from(why)), REFUSED, 0.0, 0.0),
        Ok(answer) => match answer {
            Answer::Value(position) => {
                GvStyle::new(NO_REFUSAL, VALUE, position.weight, position.width)
            }
            Answer::Absent => GvStyle::new(NO_REFUSAL, ABSENT, 0.0, 0.0),
            Answer::NotKnown => GvStyle::new(NO_REFUSAL, NOT_KNOWN, 0.0, 0.0),
        },
    }
}

// What the question on optical sizes says.
pub fn optical_words(reply: Reply<OpticalSizes>) -> GvOptical
    ensures { result ≡ optical_words (said_optical_reply reply) }
{
    match reply {
        Err(why) => {
            let refusal = GvRefusal::from(Told::from(why));
            GvOptical::new(refusal, REFUSED, NO_SIZES, 0.0, 0.0)
        }
        Ok(answer) => match answer {
            Answer::Value(found) => sizes_words(found),
            Answer::Absent => GvOptical::new(NO_REFUSAL, ABSENT, NO_SIZES, 0.0, 0.0),
            Answer::NotKnown => GvOptical::new(NO_REFUSAL, NOT_KNOWN, NO_SIZES, 0.0, 0.0),
        },
    }
}

// Sizes that a table has.
fn sizes_words(found: OpticalSizes) -> GvOptical
    ensures { result ≡ optical_words (answered (value (sizes (said_sizes found)))) }
{
    match found {
        OpticalSizes::Every => GvOptical::new(NO_REFUSAL, VALUE, EVERY, 0.0, 0.0),
        OpticalSizes::Upwards(lower) => GvOptical::new(NO_REFUSAL, VALUE, UPWARDS, lower, 0.0),
        OpticalSizes::Between(lower, upper) => {
            GvOptical::new(NO_REFUSAL, VALUE, BETWEEN, lower, upper)
        }
    }
}

// ---- the writers' answers in words

// What a writer says, whatever its refusals are: that of an 'OS/2' table, the rewriting of one, and that of a 'name' table.
pub fn written_words<E: Into<Told>>(done: Result<usize, E>) -> GvWritten
    ensures written { IfOk done (λ size. result ≡ written_words (answered size)) }
    ensures refused { IfErr done (λ why. (told : Told) × E.converts why told × (result ≡ written_words (refusing (refusal_of told)))) }
{
    match done {
        Ok(size) => GvWritten::new(NO_REFUSAL, size),
        Err(why) => GvWritten::new(GvRefusal::from(why.into()), 0),
    }
}
