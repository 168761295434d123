// The fields of an 'OS/2' table: the catalogue, and the numbers that stand in a table's fields.
// Document 01, "The 'OS/2' fields": big-endian numbers, some of them signed, at the catalogue's places.
// Relies on `bigendian`. The callers are our own crates, which show that a field lies within the table.
#![tactic(auto)]

ghost use Rattle.std.specs.Prelude.{◌≡◌, ◌≤◌, ◌<◌, length, pos};
ghost use Rattle.level.specs.Sizes.{table_size};
ghost use Rattle.os2_rules.specs.Bits.{bit};
ghost use Rattle.os2_fields.specs.Fields.{raw_in, raw, version, signed_of, value_in, optical_size, values_of};
ghost use Rattle.os2_fields.specs.Reading.{Lies, Word, OpticalField};

mod catalogue;

use catalogue::VERSION_ENTRY;
pub use catalogue::{
    FIELD_COUNT, FSSELECTION, FSSELECTION_ENTRY, FSTYPE, FSTYPE_ENTRY, Field, LOWER_SIZE,
    LOWER_SIZE_ENTRY, UPPER_SIZE, UPPER_SIZE_ENTRY, VERSION, WEIGHT, WEIGHT_ENTRY, WIDTH,
    WIDTH_ENTRY, code_pages, entries, entry, unicode_range,
};
use os2_rules::Values;

// What the value rules look at.
pub fn values(table: &[u8]) -> Values
    requires { table_size (version table.now) ≤ length table.now }
    ensures { result ≡ values_of (raw table.now) }
{
    Values {
        version: version(table),
        weight: word(table, WEIGHT_ENTRY),
        width: word(table, WIDTH_ENTRY),
        fstype: word(table, FSTYPE_ENTRY),
        fsselection: word(table, FSSELECTION_ENTRY),
        lower: optical_size(table, LOWER_SIZE_ENTRY),
        upper: optical_size(table, UPPER_SIZE_ENTRY),
    }
}

// An optical size, 0 where the version has none.
fn optical_size(table: &[u8], f: Field) -> u16
    requires { OpticalField table.now f }
    ensures { result ≡ optical_size (version table.now) (raw_in table.now f) }
{
    let since = f.since as u16;
    if version(table) < since {
        return 0;
    }
    word(table, f)
}

// The version stored in a table. That two bytes are there, here and in `os2_questions`, is asked of plain bytes: each caller knows it by another test, and a type of such
// tables would be made for the one read.
pub fn version(table: &[u8]) -> u16
    requires { 2 ≤ length table.now }
    ensures { result ≡ version table.now }
{
    word(table, VERSION_ENTRY)
}

// The same as wide as a level's number, which it is held against.
pub fn version_of(table: &[u8]) -> u32
    requires { 2 ≤ length table.now }
    ensures { result ≡ version table.now }
{
    version(table) as u32
}

// A field of two bytes.
pub fn word(table: &[u8], f: Field) -> u16
    requires { Word table.now f }
    ensures { result ≡ raw_in table.now f }
{
    let at = f.offset as usize;
    bigendian::read_u16(table, at)
}

// The whole number that a field holds. That the field lies in the table is a fact of the two, which each call puts together anew: a struct of both would be made for one read.
pub fn value(table: &[u8], f: Field) -> i64
    requires { Lies table.now f }
    ensures { result ≡ value_in table.now f }
{
    let at = f.offset as usize;
    if f.signed {
        return signed(bigendian::read_u16(table, at));
    }
    i64::from(number(table, f))
}

// The number that a field's bytes make.
pub fn number(table: &[u8], f: Field) -> u32
    requires { Lies table.now f }
    ensures { result ≡ raw_in table.now f }
{
    let at = f.offset as usize;
    let width = f.width;
    if width == 1 {
        return u32::from(table[at]);
    }
    if width == 2 {
        return u32::from(bigendian::read_u16(table, at));
    }
    bigendian::read_u32(table, at)
}

// A signed number of two bytes.
fn signed(x: u16) -> i64
    ensures { result ≡ signed_of 2 x }
{
    i64::from(x.cast_signed())
}

// Bit n of a number.
pub fn bit_of(x: u32, n: u32) -> u32
    requires { n < 32 }
    ensures { result ≡ bit n x }
{
    (x >> n) % 2
}
