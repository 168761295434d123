// The static library: the functions of `gyalvindor`, each exported to C under its name and with its promise. A crate is a library or a
// static library, so they stand in two. `include/gyalvindor.h` says to a C programmer what they do.
#![tactic(auto)]

ghost use Rattle.std.specs.Prelude.{◌≡◌, length};
ghost use Rattle.name_layout.specs.Keys.{key_from};
ghost use Rattle.name.specs.Acceptance.{check_of};
ghost use Rattle.name_lookup.specs.Answers.{lookup_of, looked_of};
ghost use Rattle.name_answers.specs.Names.{postscript_of};
ghost use Rattle.name_answers.specs.Versions.{version_of};
ghost use Rattle.name_store.specs.Writing as naming;
ghost use Rattle.os2_acceptance.specs.Acceptance.{checked};
ghost use Rattle.os2_answers.specs.Asking.{ask};
ghost use Rattle.os2_store.specs.Writing.{write, room_after};
ghost use Rattle.os2_writer.specs.Rewriting.{rewritten, room_rewritten};
ghost use Rattle.name_compare.specs.Comparisons as names;
ghost use Rattle.os2_compare.specs.Comparisons as fields;
ghost use Rattle.compare_words.specs.Words.{compared_words};
ghost use Rattle.refusal_words.specs.Words.{outcome_refusal};
ghost use Rattle.name_words.specs.Words.{found_words, text_words, version_words};
ghost use Rattle.os2_words.specs.Words.{number_words, rights_words, style_words, optical_words, written_words};
ghost use Rattle.choice.specs.Ranks.{request_of};
ghost use Rattle.chooser.specs.Racks.{held};
ghost use Rattle.chooser.specs.Calls.{nobody, load_of, unload_of, after_load, after_unload};
ghost use Rattle.chooser_words.specs.Words.{chosen_words, want_of};

use chooser::Rack;
use chooser_words::{GvChosen, GvLoaded};
use compare_words::GvCompared;
use name_store::Entry;
use name_words::{GvFound, GvText, GvVersion};
use os2::Question;
use os2_fields::FIELD_COUNT;
use os2_words::{GvNumber, GvOptical, GvRights, GvStyle, GvWritten};
use refusal_words::GvRefusal;

// Whether a 'name' table is accepted.
#[unsafe(no_mangle)]
pub extern "C" fn gv_name_check(table: &[u8]) -> GvRefusal
    ensures { result ≡ outcome_refusal (check_of table.now) }
{
    gyalvindor::gv_name_check(table)
}

// The string of the record of a 'name' table with these four numbers, the record's number, and how many records were looked at.
#[unsafe(no_mangle)]
pub extern "C" fn gv_name_lookup(
    table: &[u8],
    platform: u32,
    encoding: u32,
    language: u32,
    name: u32,
) -> GvFound
    ensures { result ≡ found_words (lookup_of table.now (key_from platform encoding language name)) (looked_of table.now (key_from platform encoding language name)) }
{
    gyalvindor::gv_name_lookup(table, platform, encoding, language, name)
}

// The PostScript name of a 'name' table, and the number of the platform 1 record that has it.
#[unsafe(no_mangle)]
pub extern "C" fn gv_name_postscript(table: &[u8]) -> GvText
    ensures { result ≡ text_words (postscript_of table.now) }
{
    gyalvindor::gv_name_postscript(table)
}

// The version number of a 'name' table, and the number of the record whose string it stands in.
#[unsafe(no_mangle)]
pub extern "C" fn gv_name_version(table: &[u8]) -> GvVersion
    ensures { result ≡ version_words (version_of table.now) }
{
    gyalvindor::gv_name_version(table)
}

// Writes the 'name' table of entries, with their texts in a pool, into lent room.
#[unsafe(no_mangle)]
pub extern "C" fn gv_name_write(entries: &[Entry], pool: &[u8], room: &mut [u8]) -> GvWritten
    ensures { (result ≡ written_words (naming.write_of entries.now (length pool.now) (length room.old))) × (room.new ≡ naming.room_after entries.now pool.now room.old) }
{
    gyalvindor::gv_name_write(entries, pool, room)
}

// Whether a level accepts an 'OS/2' table.
#[unsafe(no_mangle)]
pub extern "C" fn gv_os2_check(table: &[u8], level: u32) -> GvRefusal
    ensures { result ≡ outcome_refusal (checked level table.now) }
{
    gyalvindor::gv_os2_check(table, level)
}

// A field of an 'OS/2' table.
#[unsafe(no_mangle)]
pub extern "C" fn gv_os2_field(table: &[u8], level: u32, number: u32) -> GvNumber
    ensures { result ≡ number_words (ask level table.now (Question.Field number)) }
{
    gyalvindor::gv_os2_field(table, level, number)
}

// A bit of fsSelection.
#[unsafe(no_mangle)]
pub extern "C" fn gv_os2_selection_bit(table: &[u8], level: u32, number: u32) -> GvNumber
    ensures { result ≡ number_words (ask level table.now (Question.SelectionBit number)) }
{
    gyalvindor::gv_os2_selection_bit(table, level, number)
}

// A bit of the Unicode ranges.
#[unsafe(no_mangle)]
pub extern "C" fn gv_os2_unicode_bit(table: &[u8], level: u32, number: u32) -> GvNumber
    ensures { result ≡ number_words (ask level table.now (Question.UnicodeBit number)) }
{
    gyalvindor::gv_os2_unicode_bit(table, level, number)
}

// A bit of the code pages.
#[unsafe(no_mangle)]
pub extern "C" fn gv_os2_code_page_bit(table: &[u8], level: u32, number: u32) -> GvNumber
    ensures { result ≡ number_words (ask level table.now (Question.CodePageBit number)) }
{
    gyalvindor::gv_os2_code_page_bit(table, level, number)
}

// Rights.
#[unsafe(no_mangle)]
pub extern "C" fn gv_os2_rights(table: &[u8], level: u32) -> GvRights
    ensures { result ≡ rights_words (ask level table.now Question.Rights) }
{
    gyalvindor::gv_os2_rights(table, level)
}

// The style position.
#[unsafe(no_mangle)]
pub extern "C" fn gv_os2_style_position(table: &[u8], level: u32) -> GvStyle
    ensures { result ≡ style_words (ask level table.now Question.StylePosition) }
{
    gyalvindor::gv_os2_style_position(table, level)
}

// Optical sizes.
#[unsafe(no_mangle)]
pub extern "C" fn gv_os2_optical_sizes(table: &[u8], level: u32) -> GvOptical
    ensures { result ≡ optical_words (ask level table.now Question.OpticalSizes) }
{
    gyalvindor::gv_os2_optical_sizes(table, level)
}

// Writes the table of 48 whole numbers into lent room.
#[unsafe(no_mangle)]
pub extern "C" fn gv_os2_write(numbers: &[i64; FIELD_COUNT], room: &mut [u8]) -> GvWritten
    ensures { (result ≡ written_words (write numbers.now (length room.old))) × (room.new ≡ room_after numbers.now room.old) }
{
    gyalvindor::gv_os2_write(numbers, room)
}

// Reads an 'OS/2' table at level 5 and writes it into lent room.
#[unsafe(no_mangle)]
pub extern "C" fn gv_os2_rewrite(table: &[u8], room: &mut [u8]) -> GvWritten
    ensures { (result ≡ written_words (rewritten table.now (length room.old))) × (room.new ≡ room_rewritten table.now room.old) }
{
    gyalvindor::gv_os2_rewrite(table, room)
}

// Lists what differs between two 'OS/2' tables at a level in lent rows.
#[unsafe(no_mangle)]
pub extern "C" fn gv_os2_compare(
    left: &[u8],
    right: &[u8],
    level: u32,
    room: &mut [i64],
) -> GvCompared
    ensures { (result ≡ compared_words (fields.compared_of level left.now right.now (length room.old))) × (room.new ≡ fields.room_of level left.now right.now room.old) }
{
    gyalvindor::gv_os2_compare(left, right, level, room)
}

// Lists what differs between two 'name' tables in lent rows.
#[unsafe(no_mangle)]
pub extern "C" fn gv_name_compare(left: &[u8], right: &[u8], room: &mut [u16]) -> GvCompared
    ensures { (result ≡ compared_words (names.compared_of left.now right.now (length room.old))) × (room.new ≡ names.room_of left.now right.now room.old) }
{
    gyalvindor::gv_name_compare(left, right, room)
}

// A rack of empty slots.
#[unsafe(no_mangle)]
pub extern "C" fn gv_rack_empty() -> Rack
    ensures { held result ≡ nobody }
{
    gyalvindor::gv_rack_empty()
}

// Loads a face, by its two tables read at a level, into a slot of a rack.
#[unsafe(no_mangle)]
pub extern "C" fn gv_rack_load(
    rack: Rack,
    slot: u32,
    level: u32,
    os2: &[u8],
    name: &[u8],
) -> GvLoaded
    ensures { (result.refusal ≡ outcome_refusal (load_of (held rack) slot level os2.now name.now)) ×
        (held result.rack ≡ after_load (held rack) slot (load_of (held rack) slot level os2.now name.now)) }
{
    gyalvindor::gv_rack_load(rack, slot, level, os2, name)
}

// Empties a slot of a rack.
#[unsafe(no_mangle)]
pub extern "C" fn gv_rack_unload(rack: Rack, slot: u32) -> GvLoaded
    ensures { (result.refusal ≡ outcome_refusal (unload_of (held rack) slot)) × (held result.rack ≡ after_unload (held rack) slot (unload_of (held rack) slot)) }
{
    gyalvindor::gv_rack_unload(rack, slot)
}

// Chooses among the faces of a family in a rack.
#[unsafe(no_mangle)]
pub extern "C" fn gv_rack_request(
    rack: Rack,
    family: &[u8],
    weight: u32,
    width: u32,
    slope: u32,
) -> GvChosen
    ensures { result ≡ chosen_words (request_of (held rack) family.now (want_of weight width slope)) }
{
    gyalvindor::gv_rack_request(rack, family, weight, width, slope)
}
