// A chooser for the rack: 32 slots for faces, and the face of a family that is nearest to what a request wants.
// Document 02, Ask 7. Relies on `face` for what two tables give and on `choice` for which of two faces comes first. The rack is passed and returned by value; what a load or an unload does is done
// to one slot, which is written back on the one way through the call, so that the rack is copied once in and once out; a request copies it once.
#![tactic(auto)]

ghost use Rattle.std.specs.Prelude.{◌≡◌, ◌<◌, ◌≤◌, length, take};
ghost use Rattle.std.proofs.Math.Option.{none, some};
ghost use Rattle.outcomes.specs.Outcomes.{refusal_of, unless};
ghost use Rattle.choice.specs.Ranks.{of_family, request_of, Stands};
ghost use Rattle.face.specs.Reading.{face_in};
ghost use Rattle.face.specs.Replies.{face_at, Fits};
ghost use Rattle.chooser.specs.Racks.{slot_of, held};
ghost use Rattle.chooser.specs.Calls.{nobody, taken, no_such_slot, before_tables, load_of, emptying, unload_of, done_of, after_load, after_unload, slot_after, slot_left};
ghost use Rattle.chooser.specs.Replies.{said_refusal, said_reading, ReadingFits, said_change, said_choice, Place};
ghost use Rattle.chooser.specs.declared.Refusal.TheVariants.{LevelAbove, Font};

pub use choice::Want;
use choice::{NO_FACE, lower, rank};
use face::{FAMILY_BYTES, FaceAt, is_unfit};
use level::Level;
use outcomes::Told;
use same_bytes::same_fresh;

// How many slots a rack has.
pub const SLOT_COUNT: usize = 32;

// A slot, whose members are those of the C interface: it holds a face exactly where the family's length is 1 to 64.
#[repr(C)]
#[derive(Clone, Copy, Debug, PartialEq, Eq)]
pub struct Slot {
    pub weight: u16,
    pub width: u16,
    // 0 for an upright face, and any other number for a sloped one.
    pub sloped: u16,
    pub length: u16,
    // The family's text, and what stands behind it is not looked at.
    pub family: [u8; FAMILY_BYTES],
}

// A rack, as C has it.
#[repr(C)]
#[derive(Clone, Copy, Debug, PartialEq, Eq)]
pub struct Rack {
    pub slots: [Slot; SLOT_COUNT],
}

// Why a call is refused.
#[derive(Clone, Copy, Debug, PartialEq, Eq)]
pub enum Refusal {
    // 1: the level is above 5.
    LevelAbove,
    // 54: the slot is above 31.
    NoSlot,
    // 53: the slot is taken.
    Taken,
    // 2, 3 and 52 of the 'OS/2' table, 10 to 20 and 27 of the 'name' table, and 51.
    Font(face::Refusal),
    // 55: the slot is empty.
    Empty,
    // 50: no loaded face has the family.
    NoFace,
}

impl From<level::LevelAbove> for Refusal {
    ghost from_gives = { λ above r. r ≡ LevelAbove };

    fn from(_above: level::LevelAbove) -> Refusal {
        Refusal::LevelAbove
    }
}

impl From<face::Refusal> for Refusal {
    ghost from_gives = { λ why r. r ≡ Font why };

    fn from(why: face::Refusal) -> Refusal {
        Refusal::Font(why)
    }
}

// The papers' number, and what it carries.
impl From<Refusal> for Told {
    ghost from_gives = { λ why told. refusal_of told ≡ said_refusal why };

    fn from(why: Refusal) -> Told {
        match why {
            Refusal::LevelAbove => Told::bare(1),
            Refusal::NoSlot => Told::bare(54),
            Refusal::Taken => Told::bare(53),
            Refusal::Font(refusal) => Told::from(refusal),
            Refusal::Empty => Told::bare(55),
            Refusal::NoFace => Told::bare(50),
        }
    }
}

// A load's or an unload's answer, and the rack after it.
#[derive(Clone, Copy, Debug, PartialEq, Eq)]
pub struct Loaded {
    pub answer: Result<(), Refusal>,
    pub rack: Rack,
}

// A slot that holds no face.
const EMPTY_SLOT: Slot = Slot {
    weight: 0,
    width: 0,
    sloped: 0,
    length: 0,
    family: [0; FAMILY_BYTES],
};

// A rack of empty slots.
pub fn empty() -> Rack
    ensures { held result ≡ nobody }
{
    Rack {
        slots: [EMPTY_SLOT; SLOT_COUNT],
    }
}

// Loads a face, by its two tables read at a level, into a slot.
pub fn load(mut rack: Rack, slot: u32, level: u32, os2: &[u8], name: &[u8]) -> Loaded
    ensures { (said_change result.answer ≡ done_of (load_of (held rack) slot level os2.now name.now)) ×
        (held result.rack ≡ after_load (held rack) slot (load_of (held rack) slot level os2.now name.now)) }
{
    let at = place(slot);
    let there = rack.slots[at];
    let (answer, after) = fill(there, slot, level, os2, name);
    rack.slots[at] = after;
    Loaded { answer, rack }
}

// Empties a slot.
pub fn unload(mut rack: Rack, slot: u32) -> Loaded
    ensures { (said_change result.answer ≡ unload_of (held rack) slot) × (held result.rack ≡ after_unload (held rack) slot (unload_of (held rack) slot)) }
{
    let at = place(slot);
    let there = rack.slots[at];
    let (answer, after) = clear(there, slot);
    rack.slots[at] = after;
    Loaded { answer, rack }
}

// Chooses among the loaded faces of a family the one that comes first.
pub fn request(rack: Rack, family: &[u8], want: Want) -> Result<u32, Refusal>
    ensures { said_choice result ≡ request_of (held rack) family.now want }
{
    let mut best = NO_FACE;
    for (i, &slot) in rack.slots.iter().enumerate() {
        best = lower(best, rank_at(family, want, i, slot));
    }
    if best == NO_FACE {
        return Err(Refusal::NoFace);
    }
    Ok((best % 32) as u32)
}

// Whether no slot has the number.
fn is_none(slot: u32) -> bool
    ensures { result ≡ no_such_slot slot }
{
    31 < slot
}

// Where a slot lies, and for a number that no slot has any place, so that a call has one way through, on which it reads and writes one slot.
fn place(slot: u32) -> usize
    ensures { Place slot result }
{
    if is_none(slot) {
        return 0;
    }
    slot as usize
}

// The face to load into a slot that is taken or not: the refusals in their order, 1, 54, 53 and those of the tables. A call of its own: put in place,
// it keeps the compiler from seeing that the rack need not be cleared twice before it is copied, and a load takes 1.6 times as long.
#[inline(never)]
fn loading(level: u32, slot: u32, taken: bool, os2: &[u8], name: &[u8]) -> Result<FaceAt, Refusal>
    ensures { (said_reading name.now result ≡ unless (before_tables taken slot level) (face_in level os2.now name.now)) × ReadingFits name.now result }
{
    Level::try_from(level)?;
    if is_none(slot) {
        return Err(Refusal::NoSlot);
    }
    if taken {
        return Err(Refusal::Taken);
    }
    let face = face::read(os2, name, level)?;
    Ok(face)
}

// What a load answers, and what it makes of the slot that lies at its place. (A Result of the slot would be copied in pieces.)
fn fill(there: Slot, slot: u32, level: u32, os2: &[u8], name: &[u8]) -> (Result<(), Refusal>, Slot)
    ensures answer { said_change result.0 ≡ done_of (unless (before_tables (taken (slot_of there)) slot level) (face_in level os2.now name.now)) }
    ensures slot { slot_of result.1 ≡ slot_after (slot_of there) (unless (before_tables (taken (slot_of there)) slot level) (face_in level os2.now name.now)) }
{
    match loading(level, slot, is_taken(there), os2, name) {
        Ok(face) => (Ok(()), kept(name, face)),
        Err(why) => (Err(why), there),
    }
}

// What an unload answers, and what it makes of that slot: 54, then 55.
fn clear(there: Slot, slot: u32) -> (Result<(), Refusal>, Slot)
    ensures answer { said_change result.0 ≡ emptying (taken (slot_of there)) slot }
    ensures slot { slot_of result.1 ≡ slot_left (slot_of there) (emptying (taken (slot_of there)) slot) }
{
    if is_none(slot) {
        return (Err(Refusal::NoSlot), there);
    }
    if is_taken(there) {
        return (Ok(()), EMPTY_SLOT);
    }
    (Err(Refusal::Empty), there)
}

// Whether a slot holds a face.
fn is_taken(slot: Slot) -> bool
    ensures { result ≡ taken (slot_of slot) }
{
    !is_unfit(usize::from(slot.length))
}

// The slot that holds a face, its family copied out of the 'name' table.
fn kept(name: &[u8], face: FaceAt) -> Slot
    requires { Fits name.now face }
    ensures { slot_of result ≡ some (face_at name.now face) }
{
    let end = face.start + face.len;
    Slot {
        weight: face.weight,
        width: face.width,
        sloped: u16::from(face.sloped),
        length: face.len as u16,
        family: front(&name[face.start..end]),
    }
}

// A text of at most 64 bytes, and zeros behind it. (The family overlaps no text, so the compiler makes a call of `memcpy` of the loop; `copy_from_slice` would be
// one of `memmove`.)
fn front(text: &[u8]) -> [u8; FAMILY_BYTES]
    requires { length text.now ≤ 64 }
    ensures { take (length text.now) result ≡ text.now }
{
    let mut family = [0; FAMILY_BYTES];
    for (i, &byte) in text.iter().enumerate() {
        family[i] = byte;
    }
    family
}

// The rank of what a slot holds, or that of no face, which is above every rank: of two Options `min` would give the None.
fn rank_at(family: &[u8], want: Want, i: usize, slot: Slot) -> u64
    requires { i < 32 }
    ensures { Stands want result (of_family family.now i (slot_of slot)) }
{
    let len = usize::from(slot.length);
    if is_unfit(len) {
        return NO_FACE;
    }
    let text = slot.family;
    if same_fresh(&text[..len], family) {
        return rank(want, i, slot.weight, slot.width, slot.sloped != 0);
    }
    NO_FACE
}
