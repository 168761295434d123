// The answers on a 'name' table in the words of C: a string, a version number, and the check's verdict.
// Document 01, the check of a 'name' table, lookup, and "PostScript name and version number"; document 02, Asks 4 and 8; `gv_found`, `gv_text` and `gv_version` in
// `include/gyalvindor.h`.
// Relies on `refusal_words` for a refusal's words, and on `name`, `name_lookup` and `name_answers` for what an answer says.
#![tactic(auto)]

ghost use Rattle.std.specs.Prelude.{◌≡◌};
ghost use Rattle.name_lookup.specs.Answers.{said_lookup};
ghost use Rattle.name_answers.specs.Names.{said_name};
ghost use Rattle.name_answers.specs.Versions.{said_version};
ghost use Rattle.name_words.specs.Words.{found_words, text_words, version_words};

use name_answers::{PostscriptRefusal, VersionAt, VersionRefusal};
use name_lookup::{LookedUp, Text};
use outcomes::Told;
use refusal_words::{GvRefusal, NO_REFUSAL};

// The answer of a lookup: the string's start and length, the number of its record, and how many records were looked at, found or not.
#[repr(C)]
#[derive(Clone, Copy, Debug, PartialEq, Eq)]
pub struct GvFound {
    pub refusal: GvRefusal,
    pub start: usize,
    pub length: usize,
    pub record: usize,
    pub looked: usize,
}

// `new`, here and below: a proof can hardly rewrite a struct that is made of what a call gives.
impl GvFound {
    fn new(refusal: GvRefusal, start: usize, len: usize, number: usize, looked: usize) -> GvFound
        ensures { result ≡ record { refusal = refusal; start = start; length = len; «record» = number; looked = looked } }
    {
        GvFound {
            refusal,
            start,
            length: len,
            record: number,
            looked,
        }
    }
}

// The answer of the PostScript question: the string's start and length, and the number of its record.
#[repr(C)]
#[derive(Clone, Copy, Debug, PartialEq, Eq)]
pub struct GvText {
    pub refusal: GvRefusal,
    pub start: usize,
    pub length: usize,
    pub record: usize,
}

impl GvText {
    fn new(refusal: GvRefusal, start: usize, len: usize, number: usize) -> GvText
        ensures { result ≡ record { refusal = refusal; start = start; length = len; «record» = number } }
    {
        GvText {
            refusal,
            start,
            length: len,
            record: number,
        }
    }
}

// The answer of the version question: the figures before and after the period, and the number of the record whose string they stand in.
#[repr(C)]
#[derive(Clone, Copy, Debug, PartialEq, Eq)]
pub struct GvVersion {
    pub refusal: GvRefusal,
    pub major: u32,
    pub minor: u32,
    pub record: usize,
}

impl GvVersion {
    fn new(refusal: GvRefusal, major: u32, minor: u32, number: usize) -> GvVersion
        ensures { result ≡ record { refusal = refusal; major = major; minor = minor; «record» = number } }
    {
        GvVersion {
            refusal,
            major,
            minor,
            record: number,
        }
    }
}

// What a lookup says.
pub fn found_words(found: LookedUp) -> GvFound
    ensures { result ≡ found_words (said_lookup found) found.looked }
{
    match found.answer {
        Ok(text) => GvFound::new(NO_REFUSAL, text.start, text.len, text.record, found.looked),
        Err(why) => GvFound::new(GvRefusal::from(Told::from(why)), 0, 0, 0, found.looked),
    }
}

// What the PostScript question says.
pub fn named_words(answer: Result<Text, PostscriptRefusal>) -> GvText
    ensures { result ≡ text_words (said_name answer) }
{
    match answer {
        Ok(text) => GvText::new(NO_REFUSAL, text.start, text.len, text.record),
        Err(why) => GvText::new(GvRefusal::from(Told::from(why)), 0, 0, 0),
    }
}

// What the version question says.
pub fn version_words(answer: Result<VersionAt, VersionRefusal>) -> GvVersion
    ensures { result ≡ version_words (said_version answer) }
{
    match answer {
        Ok(version) => GvVersion::new(
            NO_REFUSAL,
            version.major as u32,
            version.minor as u32,
            version.record,
        ),
        Err(why) => GvVersion::new(GvRefusal::from(Told::from(why)), 0, 0, 0),
    }
}
