// Two questions on the strings of an accepted 'name' table: its PostScript name and its version number.
// Document 01, "PostScript name and version number", and refusals 20 to 25; document 02, Ask 4: both answers "carry the number of the record that they used".
// It relies on the table's check, on the search in an accepted table, and on the character and version tests of a string.
#![tactic(auto)]

ghost use Rattle.std.specs.Prelude.{◌≡◌, true, false, not, ◌<◌};
ghost use Rattle.outcomes.specs.Firsts.{when};
ghost use Rattle.outcomes.specs.Outcomes.{bare, refusal_of};
ghost use Rattle.name_layout.specs.Layout.{count, bytes_of};
ghost use Rattle.name_search.specs.Searches.{text_of};
ghost use Rattle.characters.specs.Strings.{characters};
ghost use Rattle.charset.specs.Allowed.{allowed};
ghost use Rattle.version_text.specs.Versions.{version_in};
ghost use Rattle.name_answers.specs.Forms.{wrong_count, ill_formed, differ};
ghost use Rattle.name_answers.specs.Names.{from_strings, postscript_of, said_name_refusal, said_name};
ghost use Rattle.name_answers.specs.Versions.{read_from, version_of, said_version_refusal, said_version};
ghost use Rattle.name_answers.specs.declared.PostscriptRefusal.TheVariants as names;
ghost use Rattle.name_answers.specs.declared.VersionRefusal.TheVariants as versions;

use characters::Characters;
use name::{Accepted, Refusal};
use name_layout::{Key, RecordAt};
use name_search::Text;
use outcomes::Told;

// The record of the PostScript name that has one byte a character, and the one that has two.
const POSTSCRIPT_NARROW: Key<u16> = Key {
    platform: 1,
    encoding: 0,
    language: 0,
    name: 6,
};

const POSTSCRIPT_WIDE: Key<u16> = Key {
    platform: 3,
    encoding: 1,
    language: 0x409,
    name: 6,
};

// The record of the version that has one byte a character, and the one that has two.
const VERSION_NARROW: Key<u16> = Key {
    platform: 1,
    encoding: 0,
    language: 0,
    name: 5,
};

const VERSION_WIDE: Key<u16> = Key {
    platform: 3,
    encoding: 1,
    language: 0x409,
    name: 5,
};

// Why the PostScript question refuses.
#[derive(Clone, Copy, Debug, PartialEq, Eq)]
pub enum PostscriptRefusal {
    // 10 to 19 and 27: the table's own refusal.
    Table(Refusal),
    // 21: neither record is there.
    NoRecord,
    // 22: exactly one is.
    OneRecord,
    // 23: a string is ill-formed.
    IllFormed,
    // 24: the strings' characters differ.
    Different,
}

// Why the version question refuses.
#[derive(Clone, Copy, Debug, PartialEq, Eq)]
pub enum VersionRefusal {
    // 10 to 19 and 27: the table's own refusal.
    Table(Refusal),
    // 20: neither record is there.
    NoRecord,
    // 25: no version number in the string.
    NoNumber,
}

// A version number: the figures before and after the period, and the number of the record whose string they stand in.
#[derive(Clone, Copy, Debug, PartialEq, Eq)]
pub struct VersionAt {
    pub major: u16,
    pub minor: u16,
    pub record: usize,
}

impl From<Refusal> for PostscriptRefusal {
    ghost from_gives = { λ why r. r ≡ names.Table why };

    fn from(why: Refusal) -> PostscriptRefusal {
        PostscriptRefusal::Table(why)
    }
}

impl From<Refusal> for VersionRefusal {
    ghost from_gives = { λ why r. r ≡ versions.Table why };

    fn from(why: Refusal) -> VersionRefusal {
        VersionRefusal::Table(why)
    }
}

// Document 01's number, and what it carries.
impl From<PostscriptRefusal> for Told {
    ghost from_gives = { λ why told. refusal_of told ≡ said_name_refusal why };

    fn from(why: PostscriptRefusal) -> Told {
        match why {
            PostscriptRefusal::Table(refusal) => Told::from(refusal),
            PostscriptRefusal::NoRecord => Told::bare(21),
            PostscriptRefusal::OneRecord => Told::bare(22),
            PostscriptRefusal::IllFormed => Told::bare(23),
            PostscriptRefusal::Different => Told::bare(24),
        }
    }
}

impl From<VersionRefusal> for Told {
    ghost from_gives = { λ why told. refusal_of told ≡ said_version_refusal why };

    fn from(why: VersionRefusal) -> Told {
        match why {
            VersionRefusal::Table(refusal) => Told::from(refusal),
            VersionRefusal::NoRecord => Told::bare(20),
            VersionRefusal::NoNumber => Told::bare(25),
        }
    }
}

// The PostScript name of an accepted table: 21, 22, 23, 24 in this order, else the string of the record (1, 0, 0, 6), with that record's number.
pub fn accepted_postscript(table: &Accepted<'_>) -> Result<Text, PostscriptRefusal>
    ensures { said_name result ≡ postscript_of table.now.bytes.now }
{
    let first = name_search::find(table, POSTSCRIPT_NARROW).found;
    let second = name_search::find(table, POSTSCRIPT_WIDE).found;
    match first {
        Some(i) => match second {
            Some(j) => from_records(table, i, j),
            None => Err(PostscriptRefusal::OneRecord),
        },
        None => match second {
            Some(_) => Err(PostscriptRefusal::OneRecord),
            None => Err(PostscriptRefusal::NoRecord),
        },
    }
}

// The version number of an accepted table, from the record (3, 1, 0x409, 5); only if that is not there, from (1, 0, 0, 5).
pub fn accepted_version(table: &Accepted<'_>) -> Result<VersionAt, VersionRefusal>
    ensures { said_version result ≡ version_of table.now.bytes.now }
{
    if let Some(i) = name_search::find(table, VERSION_WIDE).found {
        return version_at(table, i, true);
    }
    if let Some(i) = name_search::find(table, VERSION_NARROW).found {
        return version_at(table, i, false);
    }
    Err(VersionRefusal::NoRecord)
}

// The answer from the strings of two records, i of platform 1 and j of platform 3.
fn from_records(table: &Accepted<'_>, i: usize, j: usize) -> Result<Text, PostscriptRefusal>
    requires { (i < count table.now.bytes.now) × (j < count table.now.bytes.now) }
    ensures { said_name result ≡ from_strings (text_of table.now.bytes.now i)
        (bytes_of table.now.bytes.now i) (bytes_of table.now.bytes.now j) }
{
    let name = name_search::text_of(&RecordAt {
        table: table.bytes,
        i,
    });
    from_strings(
        name,
        name_search::string_of(table, i),
        name_search::string_of(table, j),
    )
}

// The answer from the bytes of the two strings; the first is the name's own.
fn from_strings(name: Text, first: &[u8], second: &[u8]) -> Result<Text, PostscriptRefusal>
    ensures { said_name result ≡ from_strings name first.now second.now }
{
    let narrow = Characters {
        text: first,
        wide: false,
    };
    let wide = Characters {
        text: second,
        wide: true,
    };
    if ill_formed(narrow) {
        return Err(PostscriptRefusal::IllFormed);
    }
    if ill_formed(wide) {
        return Err(PostscriptRefusal::IllFormed);
    }
    if differ(narrow, wide) {
        return Err(PostscriptRefusal::Different);
    }
    Ok(name)
}

// Whether a PostScript string is ill-formed, one byte a character or two.
fn ill_formed(string: Characters<'_>) -> bool
    ensures { when result (bare 23) ≡ ill_formed string.entry.wide string.entry.text.now }
{
    if string.is_odd() {
        return true;
    }
    let count = string.count();
    if wrong_count(count) {
        return true;
    }
    for i in 0..count {
        if is_other(string.code(i)) {
            return true;
        }
    }
    false
}

// Whether so many characters are too few or too many for a PostScript name.
fn wrong_count(n: usize) -> bool
    ensures { result ≡ wrong_count n }
{
    n < 1 || 63 < n
}

// Whether a PostScript name may not hold the character of this code.
fn is_other(code: u16) -> bool
    ensures { result ≡ not (allowed code) }
{
    if 255 < code {
        return true;
    }
    !charset::is_allowed(code as u8)
}

// Whether two strings have different characters. (No derive says it: of one the characters may have two bytes each, so that equal characters are not equal bytes.)
fn differ(first: Characters<'_>, second: Characters<'_>) -> bool
    ensures { when result (bare 24) ≡ differ (characters first.entry.wide first.entry.text.now) (characters second.entry.wide second.entry.text.now) }
{
    let count = second.count();
    if first.count() != count {
        return true;
    }
    for i in 0..count {
        if first.code(i) != second.code(i) {
            return true;
        }
    }
    false
}

// The version number in record i's string, one byte a character or two, with the record's number.
fn version_at(table: &Accepted<'_>, i: usize, wide: bool) -> Result<VersionAt, VersionRefusal>
    requires { i < count table.now.bytes.now }
    ensures { said_version result ≡ read_from i (version_in wide (bytes_of table.now.bytes.now i)) }
{
    let text = name_search::string_of(table, i);
    match version_text::version_of(Characters { text, wide }) {
        Some(version) => Ok(VersionAt {
            major: version.major,
            minor: version.minor,
            record: i,
        }),
        None => Err(VersionRefusal::NoNumber),
    }
}
