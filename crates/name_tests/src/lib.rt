// The tests of a 'name' table: whether the condition of each refusal holds, of the table, of a record or of a tag.
// Document 01, refusals 10 to 18, and document 02, Ask 3, 19 and 27, one by one. It relies on the table's layout; its callers show that the bytes are there.
#![tactic(auto)]

ghost use Rattle.std.specs.Prelude.{◌≡◌, ◌||◌, ◌+◌, ◌-◌, ◌≤◌, ◌<◌, length};
ghost use Rattle.name_layout.specs.Layout.{count};
ghost use Rattle.name_layout.specs.Keys.{key_of, packed};
ghost use Rattle.name_tests.specs.Tests.{is_too_short, in_other_format, records_pass_end, tags_pass_end, misplaced};
ghost use Rattle.name_tests.specs.Tests.{string_passes, starts_beyond, forbidden, is_language_refused, below_before, equals_before};
ghost use Rattle.name_tests.specs.Steps.{Framed};

use name_layout::{RecordAt, Table};

// A table that its records and tags lie within.
#[derive(Clone, Copy)]
pub struct Framed<'a> {
    pub table: Table<'a>,
    ghost framed: { Framed table.bytes.now },
}

// Whether the table ends before its three first numbers do.
pub fn too_short(table: &[u8]) -> bool
    ensures { result ≡ is_too_short table.now }
{
    table.len() < 6
}

// Whether the format is neither 0 nor 1.
pub fn other_format(table: &Table<'_>) -> bool
    ensures { result ≡ in_other_format table.now.bytes.now }
{
    1 < table.format_number()
}

// Whether the name records pass the table's end.
pub fn records_pass(table: &Table<'_>) -> bool
    ensures { result ≡ records_pass_end table.now.bytes.now }
{
    table.bytes.len() < table.records_end()
}

// Whether the tag count or the tags pass the table's end.
pub fn tags_pass(table: &Table<'_>) -> bool
    ensures { result ≡ tags_pass_end table.now.bytes.now }
{
    table.bytes.len() < table.tags_start() || table.bytes.len() < table.tags_end()
}

// Whether the storage starts among the records and tags, or past the table's end.
pub fn storage_misplaced(framed: &Framed<'_>) -> bool
    ensures { result ≡ misplaced framed.now.table.bytes.now }
{
    let start = framed.table.storage_start() as usize;
    start < framed.table.tags_end() || framed.table.bytes.len() < start
}

// Whether the string of the length and offset at a place passes the table's end.
pub fn string_passes(table: &Table<'_>, at: usize) -> bool
    requires { at + 4 ≤ length table.now.bytes.now }
    ensures { result ≡ string_passes table.now.bytes.now at }
{
    let start = table.string_start(at);
    table.bytes.len() < start + name_layout::string_length(table.bytes, at) as usize
}

// Whether it starts beyond the table's end.
pub fn starts_beyond(table: &Table<'_>, at: usize) -> bool
    requires { at + 4 ≤ length table.now.bytes.now }
    ensures { result ≡ starts_beyond table.now.bytes.now at }
{
    table.bytes.len() < table.string_start(at)
}

// Whether the language number of record i is not allowed.
pub fn language_refused(framed: &Framed<'_>, i: usize) -> bool
    requires { i < count framed.now.table.bytes.now }
    ensures { result ≡ is_language_refused framed.now.table.bytes.now i }
{
    let table = framed.table;
    let at = RecordAt {
        table: table.bytes,
        i,
    };
    let here = at.record();
    forbidden(
        table.format_number(),
        table.tag_count(),
        here.platform,
        here.language,
    )
}

// Whether a language number is not allowed on a platform, in a format with this many tags.
pub fn forbidden(format: u16, tags: u16, platform: u16, language: u16) -> bool
    ensures { result ≡ forbidden format tags platform language }
{
    if language < 0x8000 {
        return false;
    }
    if format == 0 {
        return platform < 240 || 255 < platform;
    }
    0x8000 + tags as u32 <= language as u32
}

// Whether a record's key is not above that of the record before it: below it, or equal to it.
pub fn not_above(here: &RecordAt<'_>) -> bool
    ensures { result ≡ (below_before here.now.table.now here.now.i || equals_before here.now.table.now here.now.i) }
{
    0 < here.i && here.key() <= key_before(here)
}

// Whether a record's key is equal to that of the record before it.
pub fn equals_before(here: &RecordAt<'_>) -> bool
    ensures { result ≡ equals_before here.now.table.now here.now.i }
{
    0 < here.i && here.key() == key_before(here)
}

// The key of the record before one that is not the first.
fn key_before(here: &RecordAt<'_>) -> u64
    requires { 0 < here.now.i }
    ensures { result ≡ packed (key_of here.now.table.now (here.now.i - 1)) }
{
    RecordAt {
        table: here.table,
        i: here.i - 1,
    }
    .key()
}
