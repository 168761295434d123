// The check of a 'name' table: whether it is accepted, and why not.
// Document 01, the refusals 10 to 18 in their order, and document 02, Ask 3, which splits 15 and 17. It relies on the test of each, on the table's layout
// and on the shared words for a refusal.
#![tactic(auto)]

ghost use Rattle.std.specs.Prelude.{◌≡◌, true, false, ◌+◌, ◌/◌, ◌%◌, ◌≤◌, ◌<◌};
ghost use Rattle.std.proofs.Math.Option.{none};
ghost use Rattle.outcomes.specs.Firsts.{first_among};
ghost use Rattle.outcomes.specs.Outcomes.{refusal_of};
ghost use Rattle.bigendian.specs.Numbers.{Bytes};
ghost use Rattle.name_layout.specs.Layout.{count, tag_count};
ghost use Rattle.name.specs.Refusals.{said_refusal, said_fault, said_check};
ghost use Rattle.name.specs.Acceptance.{faults, layout_fault, record_fault, tag_fault, check_of};

use name_layout::{RecordAt, Table};
use name_tests::{
    Framed, equals_before, language_refused, not_above, other_format, records_pass, starts_beyond,
    storage_misplaced, string_passes, tags_pass, too_short,
};
use outcomes::Told;

// Why a table is refused, with the record or the tag that is at fault.
#[derive(Clone, Copy, Debug, PartialEq, Eq)]
pub enum Refusal {
    // 10: the table is under 6 bytes.
    TooShort,
    // 11: the format is neither 0 nor 1.
    UnknownFormat,
    // 12: the name records pass the table's end.
    RecordsPastEnd,
    // 13: the tag count or the tag records pass the end.
    TagsPastEnd,
    // 14: the storage starts before the end of the records and tags, or past the table's end.
    StorageMisplaced,
    // 15: this record's string starts beyond the end of storage.
    StringBeyond(usize),
    // 16: this tag's string passes the end of storage.
    TagString(usize),
    // 17: this record's key is below the one before it.
    KeyBelow(usize),
    // 18: this record's language number is not allowed.
    LanguageRefused(usize),
    // 19: this record's key is equal to the one before it.
    KeyEqual(usize),
    // 27: this record's string starts within storage or at its end, and runs over.
    StringRunsOver(usize),
}

// Document 01's number, and what it carries.
impl From<Refusal> for Told {
    ghost from_gives = { λ why told. refusal_of told ≡ said_refusal why };

    fn from(why: Refusal) -> Told {
        match why {
            Refusal::TooShort => Told::bare(10),
            Refusal::UnknownFormat => Told::bare(11),
            Refusal::RecordsPastEnd => Told::bare(12),
            Refusal::TagsPastEnd => Told::bare(13),
            Refusal::StorageMisplaced => Told::bare(14),
            Refusal::StringBeyond(i) => Told::carrying(15, i),
            Refusal::TagString(i) => Told::carrying(16, i),
            Refusal::KeyBelow(i) => Told::carrying(17, i),
            Refusal::LanguageRefused(i) => Told::carrying(18, i),
            Refusal::KeyEqual(i) => Told::carrying(19, i),
            Refusal::StringRunsOver(i) => Told::carrying(27, i),
        }
    }
}

// A table that the check accepts: whoever makes one shows that no refusal meets it.
#[derive(Clone, Copy)]
pub struct Accepted<'a> {
    pub bytes: &'a [u8],
    ghost each: { Bytes bytes.now },
    ghost accepted: { faults bytes.now ≡ none },
}

impl Accepted<'_> {
    // The number of its name records.
    pub fn record_count(&self) -> u16
        ensures { result ≡ count self.now.bytes.now }
    {
        let table = Table { bytes: self.bytes };
        table.record_count()
    }
}

// Whether a table is accepted, or its first refusal.
pub fn check(table: &[u8]) -> Result<(), Refusal>
    ensures { said_check result ≡ check_of table.now }
{
    layout_fault(table)?;
    let framed = Framed {
        table: Table { bytes: table },
    };
    record_faults(&framed)?;
    tag_faults(&framed)
}

// The first fault of the layout: 10, 11, 12, 13, 14.
fn layout_fault(table: &[u8]) -> Result<(), Refusal>
    ensures { said_fault result ≡ layout_fault table.now }
{
    if too_short(table) {
        return Err(Refusal::TooShort);
    }
    let table = Table { bytes: table };
    if other_format(&table) {
        return Err(Refusal::UnknownFormat);
    }
    if records_pass(&table) {
        return Err(Refusal::RecordsPastEnd);
    }
    if tags_pass(&table) {
        return Err(Refusal::TagsPastEnd);
    }
    if storage_misplaced(&Framed { table }) {
        return Err(Refusal::StorageMisplaced);
    }
    Ok(())
}

// The first fault of the records: none where the quick pass finds none, else the exact pass says.
fn record_faults(framed: &Framed<'_>) -> Result<(), Refusal>
    ensures { said_fault result ≡ first_among (record_fault framed.now.table.bytes.now) (count framed.now.table.bytes.now) }
{
    if surely_sound(framed) {
        return Ok(());
    }
    exact_faults(framed)
}

// Whether each key is above the one before it, each string ends within the table and each language is below 0x8000 plus the number of tags, which no
// format and no platform refuses. What a turn reads of a record the next turn looks at, so that each read stays one load of a whole word.
fn surely_sound(framed: &Framed<'_>) -> bool
    ensures { result ≡ true → first_among (record_fault framed.now.table.bytes.now) (count framed.now.table.bytes.now) ≡ none }
{
    let start = framed.table.storage_start() as usize;
    if framed.table.bytes.len() < start {
        return false;
    }
    let room = framed.table.bytes.len() - start;
    let limit = 0x8000 + framed.table.tag_count() as u64;
    let mut last = 0;
    let mut text = 0;
    for i in 0..framed.table.record_count() as usize {
        if out_of_limits(last, text, limit, room) {
            return false;
        }
        let record = RecordAt {
            table: framed.table.bytes,
            i,
        };
        let here = record.key();
        if out_of_order(i, last, here) {
            return false;
        }
        text = record.text_number();
        last = here;
    }
    !out_of_limits(last, text, limit, room)
}

// The quick pass's test of a record's language and string: whether the language in a key is not below a limit, or a string's length and offset, read as
// one number, do not keep within some room.
fn out_of_limits(key: u64, text: u32, limit: u64, room: usize) -> bool
    ensures { result ≡ false → (key / 65536 % 65536 < limit) × (text / 65536 + text % 65536 ≤ room) }
{
    if limit <= key / 65536 % 65536 {
        return true;
    }
    room < (text / 65536 + text % 65536) as usize
}

// The quick pass's test of two keys: whether record i, but for the first, has a key that is not above the one before it.
fn out_of_order(i: usize, last: u64, here: u64) -> bool
    ensures { result ≡ false → 0 < i → last < here }
{
    0 < i && here <= last
}

// The first fault of the records, by looking at each in turn.
fn exact_faults(framed: &Framed<'_>) -> Result<(), Refusal>
    ensures { said_fault result ≡ first_among (record_fault framed.now.table.bytes.now) (count framed.now.table.bytes.now) }
{
    for i in 0..framed.table.record_count() as usize {
        record_fault(framed, i)?;
    }
    Ok(())
}

// The first fault of the tags.
fn tag_faults(framed: &Framed<'_>) -> Result<(), Refusal>
    ensures { said_fault result ≡ first_among (tag_fault framed.now.table.bytes.now) (tag_count framed.now.table.bytes.now) }
{
    for i in 0..framed.table.tag_count() as usize {
        tag_fault(framed, i)?;
    }
    Ok(())
}

// The first fault of record i: 15 or 27, 18, 17 or 19.
fn record_fault(framed: &Framed<'_>, i: usize) -> Result<(), Refusal>
    requires { i < count framed.now.table.bytes.now }
    ensures { said_fault result ≡ record_fault framed.now.table.bytes.now i }
{
    let record = RecordAt {
        table: framed.table.bytes,
        i,
    };
    let at = record.text_at();
    if string_passes(&framed.table, at) {
        if starts_beyond(&framed.table, at) {
            return Err(Refusal::StringBeyond(i));
        }
        return Err(Refusal::StringRunsOver(i));
    }
    if language_refused(framed, i) {
        return Err(Refusal::LanguageRefused(i));
    }
    if not_above(&record) {
        if equals_before(&record) {
            return Err(Refusal::KeyEqual(i));
        }
        return Err(Refusal::KeyBelow(i));
    }
    Ok(())
}

// The fault of tag i: 16.
fn tag_fault(framed: &Framed<'_>, i: usize) -> Result<(), Refusal>
    requires { i < tag_count framed.now.table.bytes.now }
    ensures { said_fault result ≡ tag_fault framed.now.table.bytes.now i }
{
    if string_passes(&framed.table, framed.table.tag_at(i)) {
        return Err(Refusal::TagString(i));
    }
    Ok(())
}
