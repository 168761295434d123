// What a comparison of two tables says, in the words of C.
// Document 02, Ask 2; `gv_compared` in `include/gyalvindor.h`. The rows themselves are numbers already, and C sees them as they are.
// Relies on `refusal_words` for a refusal's words, and on `comparing` for what a comparison says.
#![tactic(auto)]

ghost use Rattle.std.specs.Prelude.{◌≡◌, IfOk, IfErr};
ghost use Rattle.comparing.specs.Comparisons.{listed, refused, blamed_of, side_of};
ghost use Rattle.comparing.specs.declared.Blame.{Blame};
ghost use Rattle.compare_words.specs.Words.{side_number, compared_words};

use comparing::{Blame, Side};
use refusal_words::{GvRefusal, NO_REFUSAL};

// Which of the two tables a refusal is about: neither, also where there is no refusal; the left one; the right one.
const NO_SIDE: u32 = 0;

const LEFT: u32 = 1;

const RIGHT: u32 = 2;

// The answer of a comparison: its refusal with the side, and how many rows were written.
#[repr(C)]
#[derive(Clone, Copy, Debug, PartialEq, Eq)]
pub struct GvCompared {
    pub refusal: GvRefusal,
    pub side: u32,
    pub rows: usize,
}

// `new`: a proof can hardly rewrite a struct that is made of what a call gives.
impl GvCompared {
    fn new(refusal: GvRefusal, side: u32, rows: usize) -> GvCompared
        ensures { result ≡ record { refusal = refusal; side = side; rows = rows } }
    {
        GvCompared {
            refusal,
            side,
            rows,
        }
    }
}

// What the comparison of two tables says, whatever its refusals are.
pub fn compared_words<E: Into<Blame>>(done: Result<usize, E>) -> GvCompared
    ensures listed { IfOk done (λ n. result ≡ compared_words (listed n)) }
    ensures refused { IfErr done (λ why. (blame : Blame) × E.converts why blame × (result ≡ compared_words (refused (blamed_of blame).side (blamed_of blame).refusal))) }
{
    match done {
        Ok(rows) => GvCompared::new(NO_REFUSAL, NO_SIDE, rows),
        Err(why) => blamed_words(why.into()),
    }
}

// The words of a refusal with its side.
fn blamed_words(why: Blame) -> GvCompared
    ensures { result ≡ compared_words (refused (blamed_of why).side (blamed_of why).refusal) }
{
    GvCompared::new(GvRefusal::from(why.told), side_number(why.side), 0)
}

// The number of a side.
fn side_number(side: Option<Side>) -> u32
    ensures { result ≡ side_number (side_of side) }
{
    match side {
        None => NO_SIDE,
        Some(Side::Left) => LEFT,
        Some(Side::Right) => RIGHT,
    }
}
