// The 'OS/2' writer: 48 whole numbers, stored as a table in lent room, and the rewriting of a table.
// Document 01, "The writer", in its order of refusals: 4, 5, 8, 3.
// Relies on `os2_store` for what is written and the passes over the fields, `os2_acceptance` for what level 5 accepts, `os2_fields` for the catalogue and
// `os2_rules` for the value rules.
#![tactic(auto)]

ghost use Rattle.std.specs.Prelude.{◌≡◌, ◌≤◌, length};
ghost use Rattle.std.proofs.Math.Option.{none};
ghost use Rattle.outcomes.specs.Outcomes.{refusal_of};
ghost use Rattle.level.specs.Levels.{newest};
ghost use Rattle.os2_fields.specs.Catalogue.{field_count};
ghost use Rattle.os2_fields.specs.Fields.{optical_size, values_of};
ghost use Rattle.os2_acceptance.specs.Acceptance.{judged};
ghost use Rattle.os2_store.specs.Writing.{code_for, version_for, no_version, write, room_after};
ghost use Rattle.os2_store.specs.Storing.{Fitting};
ghost use Rattle.os2_writer.specs.Replies.{said_refusal, said_rewrite_refusal, said_written, said_rewritten, side_of};
ghost use Rattle.os2_writer.specs.Rewriting.{Reading, rewritten, room_rewritten, side_for};
ghost use Rattle.os2_writer.specs.Values.{WordFor};
ghost use Rattle.os2_writer.specs.declared.WriteRefusal.TheVariants.{RuleBroken};
ghost use Rattle.os2_writer.specs.declared.RewriteRefusal.TheVariants.{Unread, Unwritten};

use level::Level;
use os2_fields::{
    FIELD_COUNT, FSSELECTION, FSTYPE, LOWER_SIZE, UPPER_SIZE, VERSION, WEIGHT, WIDTH,
};
use os2_rules::{BrokenRule, Values};
use outcomes::Told;

// Why nothing is written.
#[derive(Clone, Copy, Debug, PartialEq, Eq)]
pub enum WriteRefusal {
    // 4: the version is outside 0 to 5.
    NoVersion,
    // 5: the room is shorter than the version's size.
    NoRoom,
    // 8: a value does not fit its field; carries the lowest such field.
    DoesNotFit(usize),
    // 3: a value rule is broken; this is the first.
    RuleBroken(BrokenRule),
}

impl From<BrokenRule> for WriteRefusal {
    ghost from_gives = { λ rule r. r ≡ RuleBroken rule };

    fn from(rule: BrokenRule) -> WriteRefusal {
        WriteRefusal::RuleBroken(rule)
    }
}

// Its number, and what it carries.
impl From<WriteRefusal> for Told {
    ghost from_gives = { λ why told. refusal_of told ≡ said_refusal why };

    fn from(why: WriteRefusal) -> Told {
        match why {
            WriteRefusal::NoVersion => Told::bare(4),
            WriteRefusal::NoRoom => Told::bare(5),
            WriteRefusal::DoesNotFit(field) => Told::carrying(8, field),
            WriteRefusal::RuleBroken(rule) => Told::carrying(3, rule.number()),
        }
    }
}

// Why nothing is rewritten, and which of the two refuses.
#[derive(Clone, Copy, Debug, PartialEq, Eq)]
pub enum RewriteRefusal {
    // The reader's refusal at level 5: 2, or 3 with the first rule broken.
    Unread(os2_acceptance::Refusal),
    // The writer's refusal: 4, the table's version being above 5, or 5.
    Unwritten(WriteRefusal),
}

impl From<os2_acceptance::Refusal> for RewriteRefusal {
    ghost from_gives = { λ why r. r ≡ Unread why };

    fn from(why: os2_acceptance::Refusal) -> RewriteRefusal {
        RewriteRefusal::Unread(why)
    }
}

impl From<WriteRefusal> for RewriteRefusal {
    ghost from_gives = { λ why r. r ≡ Unwritten why };

    fn from(why: WriteRefusal) -> RewriteRefusal {
        RewriteRefusal::Unwritten(why)
    }
}

// The number of either, and what it carries.
impl From<RewriteRefusal> for Told {
    ghost from_gives = { λ why told. refusal_of told ≡ said_rewrite_refusal why };

    fn from(why: RewriteRefusal) -> Told {
        match why {
            RewriteRefusal::Unread(refusal) => Told::from(refusal),
            RewriteRefusal::Unwritten(refusal) => Told::from(refusal),
        }
    }
}

// Writes the table of 48 whole numbers, of which number 0 is the version, and answers how many bytes: the version's size.
pub fn write(numbers: [i64; FIELD_COUNT], room: &mut [u8]) -> Result<usize, WriteRefusal>
    ensures { (said_written result ≡ write numbers (length room.old)) × (room.new ≡ room_after numbers room.old) }
{
    let size = check(&numbers, room.len())?;
    let version = numbers[VERSION] as u32;
    os2_store::store(&numbers, version, room);
    Ok(size)
}

// Reads the fields of a table's version at level 5 and writes them; answers how many bytes: the size of that version. A refusal says which of the two refuses.
pub fn rewrite(table: &[u8], room: &mut [u8]) -> Result<usize, RewriteRefusal>
    ensures { (said_rewritten result ≡ rewritten table.now (length room.old)) ×
        (room.new ≡ room_rewritten table.now room.old) × (side_of result ≡ side_for table.now) }
{
    os2_acceptance::judge(table, Level::NEWEST)?;
    let size = write(read(table), room)?;
    Ok(size)
}

// The four refusals, or the size.
fn check(numbers: &[i64], room: usize) -> Result<usize, WriteRefusal>
    requires { length numbers.now ≡ field_count }
    ensures { said_written result ≡ write numbers.now room }
{
    let first = numbers[VERSION];
    if no_version(first) {
        return Err(WriteRefusal::NoVersion);
    }
    let version = first as u32;
    let size = level::version_size(version);
    if room < size {
        return Err(WriteRefusal::NoRoom);
    }
    if let Some(field) = os2_store::lowest_misfit(numbers, version) {
        return Err(WriteRefusal::DoesNotFit(field));
    }
    os2_rules::judge(values(numbers, version))?;
    Ok(size)
}

// Refusal 4's test.
fn no_version(x: i64) -> bool
    ensures { result ≡ no_version x }
{
    x < 0 || 5 < x
}

// What the value rules look at.
fn values(numbers: &[i64], version: u32) -> Values
    requires { Fitting version numbers.now × (version_for numbers.now ≡ version) }
    ensures { result ≡ values_of (code_for numbers.now) }
{
    Values {
        version: version as u16,
        weight: word(numbers, WEIGHT),
        width: word(numbers, WIDTH),
        fstype: word(numbers, FSTYPE),
        fsselection: word(numbers, FSSELECTION),
        lower: optical_size(numbers, version, LOWER_SIZE),
        upper: optical_size(numbers, version, UPPER_SIZE),
    }
}

// An optical size, 0 where the version has none.
fn optical_size(numbers: &[i64], version: u32, k: usize) -> u16
    requires { 5 ≤ version → WordFor numbers.now k }
    ensures { result ≡ optical_size version (code_for numbers.now k) }
{
    if version < 5 {
        return 0;
    }
    word(numbers, k)
}

// The number for an unsigned field of two bytes.
fn word(numbers: &[i64], k: usize) -> u16
    requires { WordFor numbers.now k }
    ensures { result ≡ code_for numbers.now k }
{
    numbers[k] as u16
}

// The whole numbers in the fields that a table's version has, of a table that level 5 accepts; 0 for the other fields.
fn read(table: &[u8]) -> [i64; FIELD_COUNT]
    requires { judged newest table.now ≡ none }
    ensures { Reading table.now result }
{
    let fields = os2_fields::entries();
    let version = os2_fields::version(table);
    let mut numbers: [i64; FIELD_COUNT] = [0; FIELD_COUNT];
    for (k, &f) in fields.iter().enumerate() {
        if version < u16::from(f.since) {
            return numbers;
        }
        numbers[k] = os2_fields::value(table, f);
    }
    numbers
}
