// The answers of the chooser in the words of C.
// Document 02, Ask 7; `gv_loaded` and `gv_chosen` in `include/gyalvindor.h`; a rack has the same members there as here.
// Relies on `refusal_words` for a refusal's words, and on `chooser` for what an answer says.
#![tactic(auto)]

ghost use Rattle.std.specs.Prelude.{◌≡◌};
ghost use Rattle.chooser.specs.Replies.{said_choice};
ghost use Rattle.chooser_words.specs.Words.{chosen_words, want_of};

use chooser::{Rack, Refusal, Want};
use outcomes::Told;
use refusal_words::{GvRefusal, NO_REFUSAL};

// A load's or an unload's answer, and the rack after it.
#[repr(C)]
#[derive(Clone, Copy)]
pub struct GvLoaded {
    pub refusal: GvRefusal,
    pub rack: Rack,
}

// A request's answer: the slot that is chosen.
#[repr(C)]
#[derive(Clone, Copy, Debug, PartialEq, Eq)]
pub struct GvChosen {
    pub refusal: GvRefusal,
    pub slot: u32,
}

// `new`: a proof can hardly rewrite a struct that is made of what a call gives.
impl GvChosen {
    fn new(refusal: GvRefusal, slot: u32) -> GvChosen
        ensures { result ≡ record { refusal = refusal; slot = slot } }
    {
        GvChosen { refusal, slot }
    }
}

// What a request wants, its slope any number.
pub fn want_of(weight: u32, width: u32, slope: u32) -> Want
    ensures { result ≡ want_of weight width slope }
{
    Want {
        weight,
        width,
        sloped: slope != 0,
    }
}

// What a request says.
pub fn choice_words(choice: Result<u32, Refusal>) -> GvChosen
    ensures { result ≡ chosen_words (said_choice choice) }
{
    match choice {
        Ok(slot) => GvChosen::new(NO_REFUSAL, slot),
        Err(why) => GvChosen::new(GvRefusal::from(Told::from(why)), 0),
    }
}
