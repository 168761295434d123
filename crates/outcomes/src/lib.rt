// What any call says: document 01, "Numbers given for a refusal". The definitions of an outcome, of the first refusal in an order and of the first of
// so many stand here once, for both tables, the writer and what is built on them; so does the code's refusal in document 01's numbers.
#![tactic(auto)]

ghost use Rattle.std.specs.Prelude.{◌≡◌};
ghost use Rattle.outcomes.specs.Outcomes.{bare, carrying, refusal_of};

// A refusal: document 01's number, and what it carries beside it, a record, a tag, a rule or a field, as the number says.
#[derive(Clone, Copy, Debug, PartialEq, Eq)]
pub struct Told {
    pub number: u32,
    pub carried: Option<usize>,
}

impl Told {
    // A refusal that carries nothing.
    pub fn bare(number: u32) -> Told
        ensures { refusal_of result ≡ bare number }
    {
        Told {
            number,
            carried: None,
        }
    }

    // A refusal that carries a number.
    pub fn carrying(number: u32, this: usize) -> Told
        ensures { refusal_of result ≡ carrying number this }
    {
        Told {
            number,
            carried: Some(this),
        }
    }
}
