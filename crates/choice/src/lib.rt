// How near a face is to what a request wants, as one number: the least is the choice.
// Document 02, Ask 7: "matching slope first, then the smallest width difference, then the smallest weight difference, then the lower weight, then the lower slot".
// The code relies on nothing, and its definitions on `same_bytes`: the rack's own crate goes through the slots and compares families.
#![tactic(auto)]

ghost use Rattle.std.specs.Prelude.{◌≡◌, ◌<◌};
ghost use Rattle.choice.specs.Ranks.{within16, rank, lower};

// What a request wants beside the family: any numbers.
#[derive(Clone, Copy)]
pub struct Want {
    pub weight: u32,
    pub width: u32,
    pub sloped: bool,
}

// No face has this rank, or one above it: 2 to the 54th.
pub const NO_FACE: u64 = 18014398509481984;

// The rank of a face in a slot.
pub fn rank(want: Want, slot: usize, weight: u16, width: u16, sloped: bool) -> u64
    requires { slot < 32 }
    ensures { result ≡ rank want slot weight width sloped }
{
    let slope = u64::from(want.sloped != sloped);
    let wide = u64::from(nearest_u16(want.width).abs_diff(width));
    let heavy = u64::from(nearest_u16(want.weight).abs_diff(weight));
    (((slope * 65536 + wide) * 65536 + heavy) * 65536 + u64::from(weight)) * 32 + slot as u64
}

// The lower of two ranks.
pub fn lower(a: u64, b: u64) -> u64
    ensures { result ≡ lower a b }
{
    a.min(b)
}

// The nearest 16-bit number: what is above all of them is as near to each as that is, but for an equal distance more.
fn nearest_u16(wanted: u32) -> u16
    ensures { result ≡ within16 wanted }
{
    wanted.min(65535) as u16
}
