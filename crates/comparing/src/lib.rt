// What the two comparisons of tables share: which side a refusal is about, the list of what differs, and the rows that hold it.
// Document 02, Ask 2. It relies on `outcomes` for a refusal.
#![tactic(auto)]

ghost use Rattle.std.specs.Prelude.{◌≡◌};
ghost use Rattle.outcomes.specs.Outcomes.{refusal_of};
ghost use Rattle.comparing.specs.Rooms.{is_too_many};
ghost use Rattle.comparing.specs.Comparisons.{on, side_of, blamed_of};

use outcomes::Told;

// The numbers of a row.
pub const ROW_SIZE: usize = 5;

// One of the two tables.
#[derive(Clone, Copy, Debug, PartialEq, Eq)]
pub enum Side {
    Left,
    Right,
}

// A refusal, and the table that it is about; none where it is about the call as a whole.
#[derive(Clone, Copy, Debug, PartialEq, Eq)]
pub struct Blame {
    pub side: Option<Side>,
    pub told: Told,
}

impl Blame {
    pub fn new(side: Option<Side>, told: Told) -> Blame
        ensures { blamed_of result ≡ on (side_of side) (refusal_of told) }
    {
        Blame { side, told }
    }
}

// 29: whether there are more differences than rows in so many numbers.
pub fn too_many(differences: usize, numbers: usize) -> bool
    ensures { result ≡ is_too_many differences numbers }
{
    numbers / ROW_SIZE < differences
}
