// Which 'OS/2' tables a level accepts: refusals 2 and 3, in their order, and the reader's refusals in document 01's numbers.
// Document 01, "The 'OS/2' fields" and "Levels".
// Relies on `os2_fields` for what stands in the fields, `level` for levels and sizes, and `os2_rules` for the value rules.
#![tactic(auto)]

ghost use Rattle.std.specs.Prelude.{◌≡◌, true};
ghost use Rattle.std.proofs.Math.Option.{none};
ghost use Rattle.outcomes.specs.Outcomes.{refusal_of};
ghost use Rattle.level.specs.Levels.{number_of};
ghost use Rattle.os2_acceptance.specs.Acceptance.{size_read, judged};
ghost use Rattle.os2_acceptance.specs.Replies.{said_refusal, said_found};
ghost use Rattle.os2_acceptance.specs.declared.Refusal.TheVariants.{LevelAbove, RuleBroken};

use level::{Level, LevelAbove};
use os2_rules::BrokenRule;
use outcomes::Told;

// Why a table or a question is refused.
#[derive(Clone, Copy, Debug, PartialEq, Eq)]
pub enum Refusal {
    // 1: the level is above 5.
    LevelAbove,
    // 2: the table is under 2 bytes, or shorter than the size for the smaller of its version and the level.
    TooShort,
    // 3: a value rule is broken; this is the first.
    RuleBroken(BrokenRule),
    // 6: the field number is above 47.
    NoField,
    // 7: the bit number is out of its range.
    NoBit,
}

impl From<LevelAbove> for Refusal {
    ghost from_gives = { λ above r. r ≡ LevelAbove };

    fn from(_above: LevelAbove) -> Refusal {
        Refusal::LevelAbove
    }
}

impl From<BrokenRule> for Refusal {
    ghost from_gives = { λ rule r. r ≡ RuleBroken rule };

    fn from(rule: BrokenRule) -> Refusal {
        Refusal::RuleBroken(rule)
    }
}

// Its number, and what it carries.
impl From<Refusal> for Told {
    ghost from_gives = { λ why told. refusal_of told ≡ said_refusal why };

    fn from(why: Refusal) -> Told {
        match why {
            Refusal::LevelAbove => Told::bare(1),
            Refusal::TooShort => Told::bare(2),
            Refusal::RuleBroken(rule) => Told::carrying(3, rule.number()),
            Refusal::NoField => Told::bare(6),
            Refusal::NoBit => Told::bare(7),
        }
    }
}

// A table that a level accepts, with the level: whoever makes one shows that neither refusal 2 nor 3 meets it.
#[derive(Clone, Copy)]
pub struct Accepted<'a> {
    pub bytes: &'a [u8],
    pub known: Level,
    ghost accepted: { judged (number_of known) bytes.now ≡ none },
}

// Whether the table's version is at most the level's, and neither 2's nor 3's condition holds: what nearly every table is, told by one `bool`.
// Callers ask it themselves and then `judge`: a function between would tell it through memory.
pub fn surely_accepts(table: &[u8], known: Level) -> bool
    ensures { result ≡ true → judged (number_of known) table.now ≡ none }
{
    let size = table.len();
    if size < 2 {
        return false;
    }
    let version = os2_fields::version(table);
    if known.number() < version as u32 {
        return false;
    }
    if size < level::version_size(version as u32) {
        return false;
    }
    os2_rules::keeps(os2_fields::values(table))
}

// Refusals 2 and 3.
pub fn judge(table: &[u8], known: Level) -> Result<(), Refusal>
    ensures { said_found result ≡ judged (number_of known) table.now }
{
    if table.len() < 2 {
        return Err(Refusal::TooShort);
    }
    let version = os2_fields::version_of(table);
    if table.len() < size_read(version, known) {
        return Err(Refusal::TooShort);
    }
    if known.number() < version {
        return Ok(());
    }
    os2_rules::judge(os2_fields::values(table))?;
    Ok(())
}

// The size for the smaller of a version and a level.
fn size_read(version: u32, known: Level) -> usize
    ensures { result ≡ size_read version (number_of known) }
{
    if version < known.number() {
        level::version_size(version)
    } else {
        known.table_size()
    }
}
