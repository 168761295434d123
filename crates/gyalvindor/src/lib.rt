// The readers, the comparison, the writers and the chooser for C and Rust: the functions that `gyalvindor_c` exports, each answering in plain numbers.
// Document 01, whole, and document 02, Asks 1 to 8; `include/gyalvindor.h` says the same to a C programmer.
// Relies on `name`, `name_lookup`, `name_strings` and `name_writer`, on `os2` and `os2_writer`, on `name_compare`, `os2_compare` and `chooser`, which answer, and on
// `name_words`, `os2_words`, `compare_words` and `chooser_words`, which put an answer into words of C.
#![tactic(auto)]

ghost use Rattle.std.specs.Prelude.{◌≡◌, length};
ghost use Rattle.name_layout.specs.Keys.{key_from};
ghost use Rattle.name.specs.Acceptance.{check_of};
ghost use Rattle.name_lookup.specs.Answers.{lookup_of, looked_of};
ghost use Rattle.name_answers.specs.Names.{postscript_of};
ghost use Rattle.name_answers.specs.Versions.{version_of};
ghost use Rattle.name_store.specs.Writing as naming;
ghost use Rattle.os2_acceptance.specs.Acceptance.{checked};
ghost use Rattle.os2_answers.specs.Asking.{ask};
ghost use Rattle.os2_store.specs.Writing.{write, room_after};
ghost use Rattle.os2_writer.specs.Rewriting.{rewritten, room_rewritten};
ghost use Rattle.name_compare.specs.Comparisons as names;
ghost use Rattle.os2_compare.specs.Comparisons as fields;
ghost use Rattle.compare_words.specs.Words.{compared_words};
ghost use Rattle.refusal_words.specs.Words.{outcome_refusal};
ghost use Rattle.name_words.specs.Words.{found_words, text_words, version_words};
ghost use Rattle.os2_words.specs.Words.{number_words, rights_words, style_words, optical_words, written_words};
ghost use Rattle.choice.specs.Ranks.{request_of};
ghost use Rattle.chooser.specs.Racks.{held};
ghost use Rattle.chooser.specs.Calls.{nobody, load_of, unload_of, after_load, after_unload};
ghost use Rattle.chooser_words.specs.Words.{chosen_words, want_of};

use chooser::Rack;
use chooser_words::{GvChosen, GvLoaded, choice_words, want_of};
use compare_words::{GvCompared, compared_words};
use name_layout::Key;
use name_store::Entry;
use name_words::{GvFound, GvText, GvVersion, found_words, named_words, version_words};
use os2::Question;
use os2_fields::FIELD_COUNT;
use os2_words::{
    GvNumber, GvOptical, GvRights, GvStyle, GvWritten, number_words, optical_words, rights_words,
    style_words, written_words,
};
use refusal_words::{GvRefusal, check_words};

// Whether a 'name' table is accepted.
pub fn gv_name_check(table: &[u8]) -> GvRefusal
    ensures { result ≡ outcome_refusal (check_of table.now) }
{
    check_words(name::check(table))
}

// The string of the record of a 'name' table with these four numbers, the record's number, and how many records were looked at.
pub fn gv_name_lookup(
    table: &[u8],
    platform: u32,
    encoding: u32,
    language: u32,
    name: u32,
) -> GvFound
    ensures { result ≡ found_words (lookup_of table.now (key_from platform encoding language name)) (looked_of table.now (key_from platform encoding language name)) }
{
    let key = Key {
        platform,
        encoding,
        language,
        name,
    };
    found_words(name_lookup::lookup(table, key))
}

// The PostScript name of a 'name' table, and the number of the platform 1 record that has it.
pub fn gv_name_postscript(table: &[u8]) -> GvText
    ensures { result ≡ text_words (postscript_of table.now) }
{
    named_words(name_strings::postscript(table))
}

// The version number of a 'name' table, and the number of the record whose string it stands in.
pub fn gv_name_version(table: &[u8]) -> GvVersion
    ensures { result ≡ version_words (version_of table.now) }
{
    version_words(name_strings::version(table))
}

// Writes the 'name' table of entries, with their texts in a pool, into lent room.
pub fn gv_name_write(entries: &[Entry], pool: &[u8], room: &mut [u8]) -> GvWritten
    ensures { (result ≡ written_words (naming.write_of entries.now (length pool.now) (length room.old))) × (room.new ≡ naming.room_after entries.now pool.now room.old) }
{
    written_words(name_writer::write(entries, pool, room))
}

// Whether a level accepts an 'OS/2' table.
pub fn gv_os2_check(table: &[u8], level: u32) -> GvRefusal
    ensures { result ≡ outcome_refusal (checked level table.now) }
{
    check_words(os2::check(table, level))
}

// A field of an 'OS/2' table.
pub fn gv_os2_field(table: &[u8], level: u32, number: u32) -> GvNumber
    ensures { result ≡ number_words (ask level table.now (Question.Field number)) }
{
    number_words(os2::field(table, level, number))
}

// A bit of fsSelection.
pub fn gv_os2_selection_bit(table: &[u8], level: u32, number: u32) -> GvNumber
    ensures { result ≡ number_words (ask level table.now (Question.SelectionBit number)) }
{
    number_words(os2::selection_bit(table, level, number))
}

// A bit of the Unicode ranges.
pub fn gv_os2_unicode_bit(table: &[u8], level: u32, number: u32) -> GvNumber
    ensures { result ≡ number_words (ask level table.now (Question.UnicodeBit number)) }
{
    number_words(os2::unicode_bit(table, level, number))
}

// A bit of the code pages.
pub fn gv_os2_code_page_bit(table: &[u8], level: u32, number: u32) -> GvNumber
    ensures { result ≡ number_words (ask level table.now (Question.CodePageBit number)) }
{
    number_words(os2::code_page_bit(table, level, number))
}

// Rights.
pub fn gv_os2_rights(table: &[u8], level: u32) -> GvRights
    ensures { result ≡ rights_words (ask level table.now Question.Rights) }
{
    rights_words(os2::rights(table, level))
}

// The style position.
pub fn gv_os2_style_position(table: &[u8], level: u32) -> GvStyle
    ensures { result ≡ style_words (ask level table.now Question.StylePosition) }
{
    style_words(os2::style_position(table, level))
}

// Optical sizes.
pub fn gv_os2_optical_sizes(table: &[u8], level: u32) -> GvOptical
    ensures { result ≡ optical_words (ask level table.now Question.OpticalSizes) }
{
    optical_words(os2::optical_sizes(table, level))
}

// Writes the table of 48 whole numbers into lent room.
pub fn gv_os2_write(numbers: &[i64; FIELD_COUNT], room: &mut [u8]) -> GvWritten
    ensures { (result ≡ written_words (write numbers.now (length room.old))) × (room.new ≡ room_after numbers.now room.old) }
{
    written_words(os2_writer::write(*numbers, room))
}

// Reads an 'OS/2' table at level 5 and writes it into lent room.
pub fn gv_os2_rewrite(table: &[u8], room: &mut [u8]) -> GvWritten
    ensures { (result ≡ written_words (rewritten table.now (length room.old))) × (room.new ≡ room_rewritten table.now room.old) }
{
    written_words(os2_writer::rewrite(table, room))
}

// Lists what differs between two 'OS/2' tables at a level in lent rows.
pub fn gv_os2_compare(left: &[u8], right: &[u8], level: u32, room: &mut [i64]) -> GvCompared
    ensures { (result ≡ compared_words (fields.compared_of level left.now right.now (length room.old))) × (room.new ≡ fields.room_of level left.now right.now room.old) }
{
    compared_words(os2_compare::compare(left, right, level, room))
}

// Lists what differs between two 'name' tables in lent rows.
pub fn gv_name_compare(left: &[u8], right: &[u8], room: &mut [u16]) -> GvCompared
    ensures { (result ≡ compared_words (names.compared_of left.now right.now (length room.old))) × (room.new ≡ names.room_of left.now right.now room.old) }
{
    compared_words(name_compare::compare(left, right, room))
}

// A rack of empty slots.
pub fn gv_rack_empty() -> Rack
    ensures { held result ≡ nobody }
{
    chooser::empty()
}

// Loads a face, by its two tables read at a level, into a slot of a rack.
pub fn gv_rack_load(rack: Rack, slot: u32, level: u32, os2: &[u8], name: &[u8]) -> GvLoaded
    ensures { (result.refusal ≡ outcome_refusal (load_of (held rack) slot level os2.now name.now)) ×
        (held result.rack ≡ after_load (held rack) slot (load_of (held rack) slot level os2.now name.now)) }
{
    let loaded = chooser::load(rack, slot, level, os2, name);
    GvLoaded {
        refusal: check_words(loaded.answer),
        rack: loaded.rack,
    }
}

// Empties a slot of a rack.
pub fn gv_rack_unload(rack: Rack, slot: u32) -> GvLoaded
    ensures { (result.refusal ≡ outcome_refusal (unload_of (held rack) slot)) × (held result.rack ≡ after_unload (held rack) slot (unload_of (held rack) slot)) }
{
    let loaded = chooser::unload(rack, slot);
    GvLoaded {
        refusal: check_words(loaded.answer),
        rack: loaded.rack,
    }
}

// Chooses among the faces of a family in a rack.
pub fn gv_rack_request(rack: Rack, family: &[u8], weight: u32, width: u32, slope: u32) -> GvChosen
    ensures { result ≡ chosen_words (request_of (held rack) family.now (want_of weight width slope)) }
{
    choice_words(chooser::request(rack, family, want_of(weight, width, slope)))
}
