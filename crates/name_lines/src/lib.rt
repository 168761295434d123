// The lines of a 'name' table's listing, from the table: head, records, PostScript name and version.
// Document 01, end of "Examples to check against", and document 02, Ask 4.
// It relies on the table's layout and check, on the answers to its two questions, and on the lines of `lines`.
#![tactic(auto)]

ghost use Rattle.std.specs.Prelude.{◌+◌, ◌≤◌, ◌≡◌, ◌++◌, length, take, drop};
ghost use Rattle.outcomes.specs.Outcomes.{answered};
ghost use Rattle.lines.specs.Pieces.{Put};
ghost use Rattle.name_answers.specs.Names.{postscript_of};
ghost use Rattle.name_answers.specs.Versions.{version_of};
ghost use Rattle.name_lines.specs.Lines.{key_room, key_parts};
ghost use Rattle.name_lines.specs.Listings.{head_text, record_text, postscript_text, version_text};

use lines::{Buffer, Line, append};
use name::Accepted;
use name_layout::{Key, RecordAt, Table};
use name_search::Text;
use outcomes::Told;

// The first line of an accepted table.
#[tactic(auto, unfolding(crate::specs::Lines::head_line))]
pub fn head_line(table: &Accepted<'_>) -> Line
    ensures { result ≡ head_text table.now.bytes.now }
{
    let table = Table { bytes: table.bytes };
    let format = table.format_number();
    let records = table.record_count();
    let start = usize::from(table.storage_start());
    let mut line = Line::new();
    line.put_numbered(b"name format ", u64::from(format));
    line.put_numbered(b" records ", u64::from(records));
    line.put_numbered(b" storage ", (table.bytes.len() - start) as u64);
    line.put(b"\n");
    line
}

// The line of a record.
#[tactic(auto, unfolding(crate::specs::Lines::record_line))]
pub fn record_line(here: &RecordAt<'_>) -> Line
    ensures { result ≡ record_text here.now.table.now here.now.i }
{
    let record = here.record();
    let mut line = Line::new();
    line.put_number(here.i as u64);
    let key = Key {
        platform: u64::from(record.platform),
        encoding: u64::from(record.encoding),
        language: u64::from(record.language),
        name: u64::from(record.name),
    };
    put_key(&mut line, key);
    line.put_numbered(b" ", u64::from(record.offset));
    line.put_numbered(b" ", u64::from(record.length));
    line.put(b"\n");
    line
}

// Puts the four parts of a key.
#[tactic(auto, using(std::proofs::Common::append_assoc), unfolding(crate::specs::Lines::key_parts))]
pub fn put_key<const ROOM: usize>(line: &mut Buffer<ROOM>, key: Key<u64>)
    requires { length line.old + key_room ≤ ROOM }
    ensures holds { line.new ≡ line.old ++ key_parts key.platform key.encoding key.language key.name }
    ensures room { length line.new ≤ length line.old + key_room }
{
    line.put_numbered(b" ", key.platform);
    line.put_numbered(b" ", key.encoding);
    line.put_numbered(b" ", key.language);
    line.put_numbered(b" ", key.name);
}

// The same in lent bytes: puts the four parts behind the first `at`, and answers where they end.
pub fn put_key_at(
    out: &mut [u8],
    at: usize,
    platform: u64,
    encoding: u64,
    language: u64,
    name: u64,
) -> usize
    requires { at + key_room ≤ length out.old }
    ensures { Put out.old at out.new result key_room (key_parts platform encoding language name) }
{
    let key = Key {
        platform,
        encoding,
        language,
        name,
    };
    let mut parts = Line::new();
    put_key(&mut parts, key);
    append(out, at, &parts)
}

// The line of an accepted table's PostScript name.
#[tactic(auto, unfolding(crate::specs::Lines::postscript_line))]
pub fn postscript_line(table: &Accepted<'_>) -> Line
    ensures { result ≡ postscript_text table.now.bytes.now (postscript_of table.now.bytes.now) }
{
    let mut line = Line::new();
    match name_answers::accepted_postscript(table) {
        Ok(text) => {
            line.put(b"postscript ");
            line.put(name_in(table, &text));
            line.put_numbered(b" record ", text.record as u64);
        }
        Err(why) => {
            line.put_numbered(b"postscript refused ", u64::from(Told::from(why).number));
        }
    }
    line.put(b"\n");
    line
}

// The characters of an accepted table's PostScript name.
fn name_in<'a>(table: &Accepted<'a>, name: &Text) -> &'a [u8]
    requires { postscript_of table.now.bytes.now ≡ answered name.now }
    ensures bytes { result.now ≡ take name.now.len (drop name.now.start table.now.bytes.now) }
    ensures most { length result.now ≤ 63 }
{
    &table.bytes[name.start..name.start + name.len]
}

// The line of an accepted table's version.
#[tactic(auto, unfolding(crate::specs::Lines::version_line))]
pub fn version_line(table: &Accepted<'_>) -> Line
    ensures { result ≡ version_text (version_of table.now.bytes.now) }
{
    let mut line = Line::new();
    match name_answers::accepted_version(table) {
        Ok(version) => {
            line.put_numbered(b"version ", u64::from(version.major));
            line.put_numbered(b" ", u64::from(version.minor));
            line.put_numbered(b" record ", version.record as u64);
        }
        Err(why) => {
            line.put_numbered(b"version refused ", u64::from(Told::from(why).number));
        }
    }
    line.put(b"\n");
    line
}
