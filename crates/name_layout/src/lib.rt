// The 'name' table's layout: where its numbers stand, and the reads of them. Nothing else knows an offset.
// Document 01, "The 'name' layout". It relies on big-endian reads; its callers show that the bytes are there.
#![tactic(auto)]

ghost use Rattle.std.specs.Prelude.{◌≡◌, ◌+◌, ◌≤◌, length};
ghost use Rattle.bigendian.specs.Numbers.{number, Bytes};
ghost use Rattle.name_layout.specs.Layout.{format, count, storage, record_at, part, record_in, text_at, records_end, tag_count, tags_at, tag_at, tags_end, string_start, string_length};
ghost use Rattle.name_layout.specs.Keys.{key_in, key_of, packed};

use bigendian::{read_u16, read_u32};

// The bytes of the format, the count and the storage start.
const HEADER_SIZE: usize = 6;

// The bytes of a name record, and where its parts stand in it.
const RECORD_SIZE: usize = 12;

const PLATFORM: usize = 0;

const ENCODING: usize = 2;

const LANGUAGE: usize = 4;

const NAME: usize = 6;

const LENGTH: usize = 8;

// A string's offset stands so many bytes after its length, in a record and in a tag.
const OFFSET: usize = 2;

// The bytes of the tag count, and of a tag.
const TAG_COUNT_SIZE: usize = 2;

const TAG_SIZE: usize = 4;

// The four numbers of a key: those of a record have 16 bits, and one that is asked for may have more.
#[derive(Clone, Copy, Debug, PartialEq, Eq)]
pub struct Key<N> {
    pub platform: N,
    pub encoding: N,
    pub language: N,
    pub name: N,
}

impl Key<u16> {
    // The four as one number, in whose order keys are compared.
    pub fn number(self) -> u64
        ensures { result ≡ packed (key_in self) }
    {
        let first = u64::from(self.platform) * 65536 + u64::from(self.encoding);
        (first * 65536 + u64::from(self.language)) * 65536 + u64::from(self.name)
    }
}

// A name record.
#[derive(Clone, Copy, Debug, PartialEq, Eq)]
pub struct Record {
    pub platform: u16,
    pub encoding: u16,
    pub language: u16,
    pub name: u16,
    pub length: u16,
    pub offset: u16,
}

// A table that has its header, the three first numbers.
#[derive(Clone, Copy)]
pub struct Table<'a> {
    pub bytes: &'a [u8],
    ghost each: { Bytes bytes.now },
    ghost header: { 6 ≤ length bytes.now },
}

impl Table<'_> {
    // The table's format.
    pub fn format_number(&self) -> u16
        ensures { result ≡ format self.now.bytes.now }
    {
        read_u16(self.bytes, 0)
    }

    // The number of name records.
    pub fn record_count(&self) -> u16
        ensures { result ≡ count self.now.bytes.now }
    {
        read_u16(self.bytes, 2)
    }

    // Where the storage starts.
    pub fn storage_start(&self) -> u16
        ensures { result ≡ storage self.now.bytes.now }
    {
        read_u16(self.bytes, 4)
    }

    // Where the name records end.
    pub fn records_end(&self) -> usize
        ensures { result ≡ records_end self.now.bytes.now }
    {
        HEADER_SIZE + RECORD_SIZE * (self.record_count() as usize)
    }

    // Where the language tags start.
    pub fn tags_start(&self) -> usize
        ensures { result ≡ tags_at self.now.bytes.now }
    {
        if self.format_number() == 0 {
            return self.records_end();
        }
        self.records_end() + TAG_COUNT_SIZE
    }

    // The number of language tags, none in format 0.
    pub fn tag_count(&self) -> u16
        requires { tags_at self.now.bytes.now ≤ length self.now.bytes.now }
        ensures { result ≡ tag_count self.now.bytes.now }
    {
        if self.format_number() == 0 {
            return 0;
        }
        read_u16(self.bytes, self.records_end())
    }

    // Where the language tags end.
    pub fn tags_end(&self) -> usize
        requires { tags_at self.now.bytes.now ≤ length self.now.bytes.now }
        ensures { result ≡ tags_end self.now.bytes.now }
    {
        self.tags_start() + TAG_SIZE * (self.tag_count() as usize)
    }

    // Where tag i has its string's length, and after it the offset.
    pub fn tag_at(&self, i: usize) -> usize
        requires { tag_at self.now.bytes.now i ≤ length self.now.bytes.now }
        ensures { result ≡ tag_at self.now.bytes.now i }
    {
        self.tags_start() + TAG_SIZE * i
    }

    // Where a string starts, from the table's first byte: the one whose length and offset stand at a place.
    pub fn string_start(&self, at: usize) -> usize
        requires { at + 4 ≤ length self.now.bytes.now }
        ensures { result ≡ string_start self.now.bytes.now at }
    {
        self.storage_start() as usize + read_u16(self.bytes, at + OFFSET) as usize
    }
}

// Record i of a table that it lies within.
#[derive(Clone, Copy)]
pub struct RecordAt<'a> {
    pub table: &'a [u8],
    pub i: usize,
    ghost each: { Bytes table.now },
    ghost inside: { record_at i + 12 ≤ length table.now },
}

impl RecordAt<'_> {
    // The record's numbers.
    pub fn record(&self) -> Record
        ensures { result ≡ record_in self.now.table.now self.now.i }
    {
        Record {
            platform: self.part(PLATFORM),
            encoding: self.part(ENCODING),
            language: self.part(LANGUAGE),
            name: self.part(NAME),
            length: self.part(LENGTH),
            offset: self.part(LENGTH + OFFSET),
        }
    }

    // Its key as one number.
    pub fn key(&self) -> u64
        ensures { result ≡ packed (key_of self.now.table.now self.now.i) }
    {
        let key = Key {
            platform: self.part(PLATFORM),
            encoding: self.part(ENCODING),
            language: self.part(LANGUAGE),
            name: self.part(NAME),
        };
        key.number()
    }

    // The number that stands so many bytes after its start.
    fn part(&self, at: usize) -> u16
        requires { at ≤ 10 }
        ensures { result ≡ part self.now.table.now self.now.i at }
    {
        read_u16(self.table, HEADER_SIZE + RECORD_SIZE * self.i + at)
    }

    // Where it has its string's length, and after it the offset.
    pub fn text_at(&self) -> usize
        ensures { result ≡ text_at self.now.i }
    {
        HEADER_SIZE + RECORD_SIZE * self.i + LENGTH
    }

    // The length and the offset of its string as one number.
    pub fn text_number(&self) -> u32
        ensures { result ≡ number 4 self.now.table.now (text_at self.now.i) }
    {
        read_u32(self.table, HEADER_SIZE + RECORD_SIZE * self.i + LENGTH)
    }
}

// The length of a string whose length and offset stand at a place.
pub fn string_length(table: &[u8], at: usize) -> u16
    requires { at + 4 ≤ length table.now }
    ensures { result ≡ string_length table.now at }
{
    read_u16(table, at)
}
