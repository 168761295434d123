// The record of an accepted 'name' table that has a key, how many records the search for it looks at, and the string of a record.
// Document 01, "The 'name' layout", and document 02, Asks 4 and 8. It relies on the table's check: the records of an accepted table are in the order of their keys.
#![tactic(auto)]

ghost use Rattle.std.specs.Prelude.{◌≡◌, ◌+◌, ◌≤◌, ◌<◌, false, length};
ghost use Rattle.name_layout.specs.Layout.{count, bytes_of};
ghost use Rattle.name_layout.specs.Keys.{key_in};
ghost use Rattle.name.specs.Acceptable.{Acceptable};
ghost use Rattle.outcomes.specs.Outcomes.{option_of};
ghost use Rattle.name_search.specs.Searches.{record_with, looks_for, text_of};
ghost use Rattle.name_search.specs.Seeking.{beyond, last_before, sought_by, record_sought, looks_sought};

use name::Accepted;
use name_layout::{Key, RecordAt, Table};

// What a search tells: the record that has the key, if there is one, and how many records it looked at.
#[derive(Clone, Copy, Debug, PartialEq, Eq)]
pub struct Search {
    pub found: Option<usize>,
    pub looked: usize,
}

// A record's string: its start, from the table's first byte, its length, and the record's number.
#[derive(Clone, Copy, Debug, PartialEq, Eq)]
pub struct Text {
    pub start: usize,
    pub len: usize,
    pub record: usize,
}

// The record of an accepted table with this key, and how many records a search for it looks at.
pub fn find(table: &Accepted<'_>, key: Key<u16>) -> Search
    ensures found { option_of result.found ≡ record_with table.now.bytes.now (key_in key) }
    ensures looked { result.looked ≡ looks_for table.now.bytes.now (key_in key) }
{
    halving(table.bytes, key.number(), true)
}

// The same of a key of any four numbers: a part above 65,535 is in no record.
pub fn find_any(table: &Accepted<'_>, key: Key<u32>) -> Search
    ensures found { option_of result.found ≡ record_with table.now.bytes.now (key_in key) }
    ensures looked { result.looked ≡ looks_for table.now.bytes.now (key_in key) }
{
    if is_beyond(key) {
        return halving(table.bytes, last_before(key).number(), false);
    }
    find(table, narrow(key))
}

// Whether one of the four is no part of a record's key.
fn is_beyond(key: Key<u32>) -> bool
    ensures { result ≡ beyond (key_in key) }
{
    (65535 < key.platform) | (65535 < key.encoding) | (65535 < key.language) | (65535 < key.name)
}

// A key of which no part is above 65,535, as a record has it. (No `TryFrom`: the struct is another crate's, and it is asked of a key that was just tested.)
fn narrow(key: Key<u32>) -> Key<u16>
    requires { beyond (key_in key) ≡ false }
    ensures { key_in result ≡ key_in key }
{
    Key {
        platform: key.platform as u16,
        encoding: key.encoding as u16,
        language: key.language as u16,
        name: key.name as u16,
    }
}

// The last key of all that have 16-bit numbers.
const LAST: Key<u16> = Key {
    platform: 65535,
    encoding: 65535,
    language: 65535,
    name: 65535,
};

// The last key of 16-bit numbers before one of which a part is above 65,535: from the first such part on, each is 65,535.
fn last_before(key: Key<u32>) -> Key<u16>
    ensures { key_in result ≡ last_before key.platform key.encoding key.language }
{
    if 65535 < key.platform {
        return LAST;
    }
    let platform = key.platform as u16;
    if 65535 < key.encoding {
        return Key { platform, ..LAST };
    }
    let encoding = key.encoding as u16;
    if 65535 < key.language {
        return Key {
            platform,
            encoding,
            ..LAST
        };
    }
    let language = key.language as u16;
    Key {
        platform,
        encoding,
        language,
        ..LAST
    }
}

// The record of an accepted table whose key has this number and, where it is not exact, none: what is sought then stands behind that key and before the next.
// And how many records that looks at, by halving: between `low`, included, and `high`, excluded, it looks at half their sum, rounded down, until it finds the
// key or the two meet. The records are bytes of the table and no slice, so that no library's search goes through them, and it counts the looks.
fn halving(table: &[u8], number: u64, exact: bool) -> Search
    requires { Acceptable table.now }
    ensures found { option_of result.found ≡ record_sought table.now (sought_by number exact) }
    ensures looked { result.looked ≡ looks_sought table.now (sought_by number exact) }
{
    let mut low = 0;
    let mut high = Table { bytes: table }.record_count() as usize;
    let mut looked = 0;
    while low < high {
        let mid = (low + high) / 2;
        let here = RecordAt { table, i: mid }.key();
        looked += 1;
        if (here == number) & exact {
            return Search {
                found: Some(mid),
                looked,
            };
        }
        if here <= number {
            low = mid + 1;
        } else {
            high = mid;
        }
    }
    Search {
        found: None,
        looked,
    }
}

// The string of a record, with the record's number.
pub fn text_of(here: &RecordAt<'_>) -> Text
    ensures { result ≡ text_of here.now.table.now here.now.i }
{
    let at = here.text_at();
    let table = Table { bytes: here.table };
    Text {
        start: table.string_start(at),
        len: name_layout::string_length(table.bytes, at) as usize,
        record: here.i,
    }
}

// The bytes of that string, of a record of an accepted table.
pub fn string_of<'a>(table: &Accepted<'a>, i: usize) -> &'a [u8]
    requires { i < count table.now.bytes.now }
    ensures { result.now ≡ bytes_of table.now.bytes.now i }
{
    let text = text_of(&RecordAt {
        table: table.bytes,
        i,
    });
    let end = text.start + text.len;
    &table.bytes[text.start..end]
}
