// Document 01's levels: the highest 'OS/2' version that a reader knows, the size of a version's table, and the level that a word of digits gives.
// Document 01, "Levels", refusal 1, and the sizes of "The 'OS/2' fields". It relies on `outcomes` for a refusal's number and on `characters` for digits.
#![tactic(auto)]

ghost use Rattle.std.specs.Prelude.{◌≡◌};
ghost use Rattle.level.specs.Levels.{number_of, level_of};
ghost use Rattle.level.specs.Sizes.{table_size};
ghost use Rattle.outcomes.specs.Outcomes.{option_of};
ghost use Rattle.level.specs.Words.{level_in};

// A level, document 01's term. There are these six and no others.
#[derive(Clone, Copy, Debug, PartialEq, Eq)]
pub enum Level {
    // 0
    Oldest,
    // 1
    One,
    // 2
    Two,
    // 3
    Three,
    // 4
    Four,
    // 5
    Newest,
}

// Refusal 1: a number above 5 is no level.
#[derive(Clone, Copy, Debug, PartialEq, Eq)]
pub struct LevelAbove;

// What a word gives as a level for every number above 5: no reader has such a level, whichever it is.
const ABOVE_NEWEST: u32 = 6;

// The level of a number: the only way from a number to a level.
impl TryFrom<u32> for Level {
    type Error = LevelAbove;

    ghost try_from_gives = { λ number r. r ≡ level_of number };

    fn try_from(number: u32) -> Result<Level, LevelAbove> {
        match number {
            0 => Ok(Level::OLDEST),
            1 => Ok(Level::One),
            2 => Ok(Level::Two),
            3 => Ok(Level::Three),
            4 => Ok(Level::Four),
            5 => Ok(Level::NEWEST),
            _ => Err(LevelAbove),
        }
    }
}

impl Level {
    // Level 0.
    pub const OLDEST: Level = Level::Oldest;
    // Level 5.
    pub const NEWEST: Level = Level::Newest;

    // The level's number, 0 to 5.
    pub fn number(self) -> u32
        ensures { result ≡ number_of self }
    {
        self as u32
    }

    // The bytes of a table of the highest version that the level knows.
    pub fn table_size(self) -> usize
        ensures { result ≡ table_size (number_of self) }
    {
        version_size(self.number())
    }
}

// The bytes of a table of any version.
pub fn version_size(version: u32) -> usize
    ensures { result ≡ table_size version }
{
    if version < 1 {
        return 78;
    }
    if version < 2 {
        return 86;
    }
    if version < 5 {
        return 96;
    }
    100
}

// The number that a word of decimal digits reads as, however long it is, or 6 for any above 5; none where it is empty or a character of it is no digit.
pub fn level_in(word: &[u8]) -> Option<u32>
    ensures { option_of result ≡ level_in word.now }
{
    if word.is_empty() {
        return None;
    }
    let mut n = 0;
    for &byte in word {
        let code = u16::from(byte);
        if !characters::is_digit(code) {
            return None;
        }
        n = characters::with_digit(n, code, ABOVE_NEWEST);
    }
    Some(n)
}
