// The face that a font's two tables give at a level: its weight, width class and slope, and where its family's text stands in the 'name' table.
// Document 02, Ask 7: the refusals of a load from the 'OS/2' refusal on. Relies on the readers, each table being checked once: on `os2` and `os2_fields` for what stands in the 'OS/2' table, and on
// `name` and `name_search` for the family's record. No number of a table is read but by asking them, and what they answer is what the reader's questions and lookup do.
#![tactic(auto)]

ghost use Rattle.std.specs.Prelude.{◌≡◌};
ghost use Rattle.outcomes.specs.Outcomes.{refusal_of};
ghost use Rattle.os2_acceptance.specs.declared.Refusal.TheVariants.{LevelAbove};
ghost use Rattle.name_layout.specs.Keys.{key_in};
ghost use Rattle.name_lookup.specs.Answers.{said_answer, lookup_of};
ghost use Rattle.face.specs.Reading.{unfit, family_of, face_in};
ghost use Rattle.face.specs.Replies.{said_face_refusal, said_record, said_found, FoundFits, Words, style_in};
ghost use Rattle.face.specs.declared.Refusal.TheVariants.{Os2, Name};

use level::{Level, LevelAbove};
use name::Accepted;
use name_layout::{Key, RecordAt};
use name_lookup::LookupRefusal;
use name_search::{Text, find, text_of};
use os2::on_table;
use os2_fields::{FSSELECTION_ENTRY, WEIGHT_ENTRY, WIDTH_ENTRY, bit_of, version_of, word};
use outcomes::Told;

// The longest family that a slot holds, in bytes.
pub const FAMILY_BYTES: usize = 64;

// The keys of the records that may hold the family: that of the typographic family, and that of the family, ID 1, under the same other numbers.
const TYPOGRAPHIC_FAMILY: Key<u16> = Key {
    platform: 3,
    encoding: 1,
    language: 0x409,
    name: 16,
};

const FAMILY: Key<u16> = Key {
    platform: 3,
    encoding: 1,
    language: 0x409,
    name: 1,
};

// A face, with its family's text as a part of the 'name' table.
#[derive(Clone, Copy, Debug, PartialEq, Eq)]
pub struct FaceAt {
    pub weight: u16,
    pub width: u16,
    pub sloped: bool,
    pub start: usize,
    pub len: usize,
}

// Why two tables give no face.
#[derive(Clone, Copy, Debug, PartialEq, Eq)]
pub enum Refusal {
    // 1, 2, 3: the level's and the 'OS/2' table's own.
    Os2(os2::Refusal),
    // 52: the 'OS/2' table is newer than the level.
    Newer,
    // 10 to 19 and 27, the 'name' table's own, and 20: no family record.
    Name(LookupRefusal),
    // 51: the family is empty or has over 64 bytes.
    Unfit,
}

impl From<LevelAbove> for Refusal {
    ghost from_gives = { λ above r. r ≡ Os2 LevelAbove };

    fn from(above: LevelAbove) -> Refusal {
        Refusal::Os2(os2::Refusal::from(above))
    }
}

impl From<os2::Refusal> for Refusal {
    ghost from_gives = { λ why r. r ≡ Os2 why };

    fn from(why: os2::Refusal) -> Refusal {
        Refusal::Os2(why)
    }
}

impl From<LookupRefusal> for Refusal {
    ghost from_gives = { λ why r. r ≡ Name why };

    fn from(why: LookupRefusal) -> Refusal {
        Refusal::Name(why)
    }
}

// The papers' number, and what it carries.
impl From<Refusal> for Told {
    ghost from_gives = { λ why told. refusal_of told ≡ said_face_refusal why };

    fn from(why: Refusal) -> Told {
        match why {
            Refusal::Os2(refusal) => Told::from(refusal),
            Refusal::Newer => Told::bare(52),
            Refusal::Name(refusal) => Told::from(refusal),
            Refusal::Unfit => Told::bare(51),
        }
    }
}

// The face of two tables at a level, or the first refusal in the order.
pub fn read(os2: &[u8], name: &[u8], level: u32) -> Result<FaceAt, Refusal>
    ensures { (said_found name.now result ≡ face_in level os2.now name.now) × FoundFits name.now result }
{
    let known = Level::try_from(level)?;
    on_table(os2, known)?;
    if level < version_of(os2) {
        return Err(Refusal::Newer);
    }
    let text = family(name)?;
    if is_unfit(text.len) {
        return Err(Refusal::Unfit);
    }
    Ok(styled(os2, text))
}

// The face of an accepted table, with a text for its family.
fn styled(os2: &[u8], text: Text) -> FaceAt
    requires { Words os2.now }
    ensures { result ≡ style_in os2.now text }
{
    FaceAt {
        weight: word(os2, WEIGHT_ENTRY),
        width: word(os2, WIDTH_ENTRY),
        sloped: bit_of(u32::from(word(os2, FSSELECTION_ENTRY)), 0) == 1,
        start: text.start,
        len: text.len,
    }
}

// Where the family's text stands: the string of the record (3, 1, 0x409, 16), or of ID 1 where that is not there.
fn family(name: &[u8]) -> Result<Text, LookupRefusal>
    ensures { said_answer result ≡ family_of name.now }
{
    name::check(name)?;
    let accepted = Accepted { bytes: name };
    if let Some(text) = look_up(&accepted, TYPOGRAPHIC_FAMILY) {
        return Ok(text);
    }
    look_up(&accepted, FAMILY).ok_or(LookupRefusal::NoRecord)
}

// The string of the record of an accepted table with this key.
fn look_up(name: &Accepted<'_>, key: Key<u16>) -> Option<Text>
    ensures { said_record result ≡ lookup_of name.now.bytes.now (key_in key) }
{
    let i = find(name, key).found?;
    Some(text_of(&RecordAt {
        table: name.bytes,
        i,
    }))
}

// Whether a family of so many bytes is empty or too long.
pub fn is_unfit(len: usize) -> bool
    ensures { result ≡ unfit len }
{
    (len == 0) | (FAMILY_BYTES < len)
}
