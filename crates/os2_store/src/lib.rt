// The two passes of the 'OS/2' writer over the 48 fields: whether each number fits its field, and the store of the fields.
// Document 01, "The writer", refusal 8 and what is written.
// Relies on `os2_fields` for the catalogue and `bigendian` for the stores. The caller is the writer, which shows that the version is one and the room
// long enough.
#![tactic(auto)]

ghost use Rattle.std.specs.Prelude.{◌≡◌, ◌^◌, true, not, ◌&&◌, leb, length, pos};
ghost use Rattle.bigendian.specs.Numbers.{stored};
ghost use Rattle.outcomes.specs.Firsts.{first_among};
ghost use Rattle.os2_fields.specs.Catalogue.{field_count};
ghost use Rattle.os2_store.specs.Writing.{fits, code_of, misfit_at, image};
ghost use Rattle.os2_store.specs.Storing.{Storable, Ready, misfit_found};
ghost use Rattle.os2_fields.specs.Reading.{Wide, Sound};

use os2_fields::Field;

// The lowest field of the version that its number does not fit.
pub fn lowest_misfit(numbers: &[i64], version: u32) -> Option<usize>
    requires { length numbers.now ≡ field_count }
    ensures { misfit_found result ≡ first_among (misfit_at version numbers.now) field_count }
{
    let fields = os2_fields::entries();
    for (k, &f) in fields.iter().enumerate() {
        if misfits(f, numbers[k], version) {
            return Some(k);
        }
    }
    None
}

// Whether the version has a field that its number does not fit.
fn misfits(f: Field, x: i64, version: u32) -> bool
    requires { Sound f }
    ensures { result ≡ (leb f.since version && not (fits f x)) }
{
    if version < u32::from(f.since) {
        return false;
    }
    !fits(f, x)
}

// Whether a whole number fits a field.
fn fits(f: Field, x: i64) -> bool
    requires { Sound f }
    ensures { result ≡ fits f x }
{
    if f.signed {
        return -32768 <= x && x < 32768;
    }
    0 <= x && x < top(f.width)
}

// One more than the highest number of so many bytes.
fn top(width: u8) -> i64
    requires { Wide width }
    ensures { result ≡ pos (256 ^ width) }
{
    match width {
        1 => 256,
        2 => 65536,
        _ => 4294967296,
    }
}

// Stores the fields that the version has.
pub fn store(numbers: &[i64], version: u32, room: &mut [u8])
    requires { Ready version numbers.now (length room.old) }
    ensures { room.new ≡ image version numbers.now room.old field_count }
{
    let fields = os2_fields::entries();
    for (k, &f) in fields.iter().enumerate() {
        if version < u32::from(f.since) {
            return;
        }
        put(room, f, code(f, numbers[k]));
    }
}

// What the bytes of a field then make.
fn code(f: Field, x: i64) -> u32
    requires { Sound f × (fits f x ≡ true) }
    ensures { result ≡ code_of f x }
{
    if x < 0 {
        return (x + 65536) as u32;
    }
    x as u32
}

// Stores a number in a field.
fn put(room: &mut [u8], f: Field, code: u32)
    requires { Storable room.old f code }
    ensures { room.new ≡ stored f.width room.old f.offset code }
{
    let at = usize::from(f.offset);
    match f.width {
        1 => room[at] = code as u8,
        2 => bigendian::store_u16(room, at, code as u16),
        _ => bigendian::store_u32(room, at, code),
    }
}
