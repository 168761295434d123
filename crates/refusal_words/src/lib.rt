// A refusal in the words of C: the struct that stands first in every answer of the library.
// Document 01, "A refusal returns its number and what it carries, and no partial result"; `gv_refusal` in `include/gyalvindor.h`.
// Relies on `outcomes`, which has a refusal in document 01's numbers.
#![tactic(auto)]

ghost use Rattle.std.specs.Prelude.{◌≡◌, OnOk, IfErr};
ghost use Rattle.outcomes.specs.Outcomes.{refusal_of};
ghost use Rattle.outcomes.specs.declared.Told.{Told};
ghost use Rattle.refusal_words.specs.Words.{no_refusal, told_words};

use outcomes::Told;

// A refusal: document 01's number, 0 for none; whether it carries anything, 1 or 0; and what it carries, 0 for nothing.
#[repr(C)]
#[derive(Clone, Copy, Debug, PartialEq, Eq)]
pub struct GvRefusal {
    pub number: u32,
    pub carries: u32,
    pub carried: usize,
}

// Where the call is not refused.
pub const NO_REFUSAL: GvRefusal = GvRefusal {
    number: 0,
    carries: 0,
    carried: 0,
};

// The words of a refusal as the code tells it.
impl From<Told> for GvRefusal {
    ghost from_gives = { λ told words. words ≡ told_words (refusal_of told) };

    fn from(told: Told) -> GvRefusal {
        GvRefusal {
            number: told.number,
            carries: u32::from(told.carried.is_some()),
            carried: told.carried.unwrap_or(0),
        }
    }
}

// The words of what a check says, whatever its refusals are.
pub fn check_words<E: Into<Told>>(verdict: Result<(), E>) -> GvRefusal
    ensures accepted { OnOk verdict (result ≡ no_refusal) }
    ensures refused { IfErr verdict (λ why. (told : Told) × E.converts why told × (result ≡ told_words (refusal_of told))) }
{
    match verdict {
        Ok(()) => NO_REFUSAL,
        Err(why) => GvRefusal::from(why.into()),
    }
}
