// What the writer of a 'name' table does: the entries are checked in turn, and then stored in turn. What an entry is, the test of each refusal, and the stores of
// one entry. Document 02, Ask 5. The caller is the writer.
// Relies on `copying` and `bigendian` for the stores, on `name_layout` for the order of keys and on `name_tests` for the languages that format 0 allows.
#![tactic(auto)]

ghost use Rattle.std.specs.Prelude.{◌≡◌, ◌+◌, ◌≤◌, length, IfOk, OnOk};
ghost use Rattle.std.proofs.Math.Option.{none};
ghost use Rattle.std.proofs.lemmas.List.Edits.{sets};
ghost use Rattle.outcomes.specs.Outcomes.{refusal_of};
ghost use Rattle.name_layout.specs.Keys.{packed};
ghost use Rattle.name_store.specs.Entries.{key_for, Sixteen, Entries};
ghost use Rattle.name_store.specs.Tables.{front_for, record_for};
ghost use Rattle.name_store.specs.Writing.{passes_pool, unwritten, write_of, room_after};
ghost use Rattle.name_store.specs.Replies.{said_refusal, said_fault, said_written};
ghost use Rattle.name_store.specs.Faults.{fault_of};

use bigendian::store_u16;
use name_layout::Key;
use outcomes::Told;

// The most entries of a table.
const MOST_ENTRIES: usize = 5460;

// The highest offset of a string.
const LAST_OFFSET: u32 = 65535;

// The bytes before the records, and of a record.
const HEADER_SIZE: usize = 6;

const RECORD_SIZE: usize = 12;

// One entry: the four numbers of its key, and where its text lies in the pool.
#[repr(C)]
#[derive(Clone, Copy, Debug, PartialEq, Eq)]
pub struct Entry {
    pub platform: u16,
    pub encoding: u16,
    pub language: u16,
    pub name: u16,
    pub start: usize,
    pub length: u16,
}

// Why nothing is written, with the entry that is at fault.
#[derive(Clone, Copy, Debug, PartialEq, Eq)]
pub enum WriteRefusal {
    // 30: there are more than 5,460 entries.
    TooMany,
    // 31: this entry's text passes the pool's end.
    PastPool(usize),
    // 18: this entry's language number is not allowed in format 0.
    LanguageRefused(usize),
    // 17: this entry's key is below the one before it.
    KeyBelow(usize),
    // 19: this entry's key is equal to the one before it.
    KeyEqual(usize),
    // 32: this entry's string would start beyond offset 65,535.
    TooFar(usize),
    // 33: there is not enough room.
    NoRoom,
}

// Its number, and what it carries.
impl From<WriteRefusal> for Told {
    ghost from_gives = { λ why told. refusal_of told ≡ said_refusal why };

    fn from(why: WriteRefusal) -> Told {
        match why {
            WriteRefusal::TooMany => Told::bare(30),
            WriteRefusal::PastPool(entry) => Told::carrying(31, entry),
            WriteRefusal::LanguageRefused(entry) => Told::carrying(18, entry),
            WriteRefusal::KeyBelow(entry) => Told::carrying(17, entry),
            WriteRefusal::KeyEqual(entry) => Told::carrying(19, entry),
            WriteRefusal::TooFar(entry) => Told::carrying(32, entry),
            WriteRefusal::NoRoom => Told::bare(33),
        }
    }
}

// The length of the entries' table, or the first refusal: 30; at each entry 31, 18, 17 or 19, 32; 33. Of the pool and the room it takes the lengths.
pub fn checked_size(entries: &[Entry], pool: usize, room: usize) -> Result<usize, WriteRefusal>
    ensures answer { said_written result ≡ write_of entries.now pool room }
    ensures sixteen { OnOk result (Entries entries.now) }
{
    if MOST_ENTRIES < entries.len() {
        return Err(WriteRefusal::TooMany);
    }
    let mut before = None;
    let mut offset = 0;
    for (i, entry) in entries.iter().enumerate() {
        before = Some(check(pool, before, offset, i, *entry)?);
        offset += entry.length as u32;
    }
    let size = HEADER_SIZE + RECORD_SIZE * entries.len() + offset as usize;
    if room < size {
        return Err(WriteRefusal::NoRoom);
    }
    Ok(size)
}

// Nothing happens here: it is what is known of any entries that are lent. Each is read and no more, so the compiler leaves nothing of it.
pub fn sixteen(entries: &[Entry])
    ensures { Entries entries.now }
{
    for entry in entries {
        sixteen_of(*entry);
    }
}

fn sixteen_of(_entry: Entry)
    ensures { Sixteen _entry }
{}

// Stores the table of entries that are not refused: the front, and then the string and the record of each entry.
pub fn store(entries: &[Entry], pool: &[u8], room: &mut [u8])
    requires { unwritten entries.now (length pool.now) (length room.old) ≡ none }
    ensures { room.new ≡ room_after entries.now pool.now room.old }
{
    put_front(room, entries.len());
    let strings = HEADER_SIZE + RECORD_SIZE * entries.len();
    let mut offset = 0;
    for (i, entry) in entries.iter().enumerate() {
        let length = entry.length as usize;
        copying::copy(room, strings + offset, pool, entry.start, length);
        put_record(room, HEADER_SIZE + RECORD_SIZE * i, *entry, offset as u16);
        offset += length;
    }
}

// The key of entry i, or its first fault behind the key before it, if there is one; its string starts at an offset.
fn check(
    pool: usize,
    before: Option<u64>,
    offset: u32,
    i: usize,
    entry: Entry,
) -> Result<u64, WriteRefusal>
    ensures fault { said_fault result ≡ fault_of pool before offset i entry }
    ensures key { IfOk result (λ key. key ≡ packed (key_for entry)) }
    ensures sixteen { Sixteen entry }
{
    if passes_pool(pool, entry) {
        return Err(WriteRefusal::PastPool(i));
    }
    if name_tests::forbidden(0, 0, entry.platform, entry.language) {
        return Err(WriteRefusal::LanguageRefused(i));
    }
    let key = key_of(entry);
    if let Some(last) = before {
        if key <= last {
            if key == last {
                return Err(WriteRefusal::KeyEqual(i));
            }
            return Err(WriteRefusal::KeyBelow(i));
        }
    }
    if LAST_OFFSET < offset {
        return Err(WriteRefusal::TooFar(i));
    }
    Ok(key)
}

// Whether an entry's text passes the pool's end. No sum is made with the start, which may be any number.
fn passes_pool(pool: usize, entry: Entry) -> bool
    ensures { result ≡ passes_pool pool entry }
{
    let length = entry.length as usize;
    if pool < length {
        return true;
    }
    pool - length < entry.start
}

// An entry's key as one number.
fn key_of(entry: Entry) -> u64
    ensures { result ≡ packed (key_for entry) }
{
    let key = Key {
        platform: entry.platform,
        encoding: entry.encoding,
        language: entry.language,
        name: entry.name,
    };
    key.number()
}

// The record of an entry whose string starts at an offset.
fn put_record(room: &mut [u8], at: usize, entry: Entry, offset: u16)
    requires { at + 12 ≤ length room.old }
    ensures { room.new ≡ sets room.old at (record_for entry offset) }
{
    store_u16(room, at, entry.platform);
    store_u16(room, at + 2, entry.encoding);
    store_u16(room, at + 4, entry.language);
    store_u16(room, at + 6, entry.name);
    store_u16(room, at + 8, entry.length);
    store_u16(room, at + 10, offset);
}

// The front of a format 0 table of so many records, with the storage directly after them.
fn put_front(room: &mut [u8], count: usize)
    requires { (6 ≤ length room.old) × (count ≤ 5460) }
    ensures { room.new ≡ sets room.old 0 (front_for count) }
{
    store_u16(room, 0, 0);
    store_u16(room, 2, count as u16);
    store_u16(room, 4, (6 + 12 * count) as u16);
}
