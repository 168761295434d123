// A string of a 'name' table, looked up by its key: platform, encoding, language and name, each any number.
// Document 01, "Lookup gives the string's start, from the table's first byte, and its length", and refusal 20; document 02, Ask 4: and the record's number; Ask 8: and
// how many records it looked at.
// It relies on the table's check and on the search in an accepted table.
#![tactic(auto)]

ghost use Rattle.std.specs.Prelude.{◌≡◌};
ghost use Rattle.outcomes.specs.Outcomes.{refusal_of};
ghost use Rattle.name_layout.specs.Keys.{key_in};
ghost use Rattle.name_lookup.specs.declared.LookupRefusal.TheVariants.{Table};
ghost use Rattle.name_lookup.specs.Answers.{said_lookup_refusal, said_lookup, lookup_of, looked_of};

use name::Accepted;
pub use name::Refusal;
pub use name_layout::Key;
use name_layout::RecordAt;
pub use name_search::Text;
use outcomes::Told;

// Why a lookup refuses.
#[derive(Clone, Copy, Debug, PartialEq, Eq)]
pub enum LookupRefusal {
    // 10 to 19 and 27: the table's own refusal.
    Table(Refusal),
    // 20: no record has the key.
    NoRecord,
}

impl From<Refusal> for LookupRefusal {
    ghost from_gives = { λ why r. r ≡ Table why };

    fn from(why: Refusal) -> LookupRefusal {
        LookupRefusal::Table(why)
    }
}

// Document 01's number, and what it carries.
impl From<LookupRefusal> for Told {
    ghost from_gives = { λ why told. refusal_of told ≡ said_lookup_refusal why };

    fn from(why: LookupRefusal) -> Told {
        match why {
            LookupRefusal::Table(refusal) => Told::from(refusal),
            LookupRefusal::NoRecord => Told::bare(20),
        }
    }
}

// What a lookup tells: the string of the record that has the key, with the record's number, and how many records it looked at after its check of the table.
#[derive(Clone, Copy, Debug, PartialEq, Eq)]
pub struct LookedUp {
    pub answer: Result<Text, LookupRefusal>,
    pub looked: usize,
}

// The string of the record with this key, or the table's refusal, or 20; and how many records were looked at.
pub fn lookup(table: &[u8], key: Key<u32>) -> LookedUp
    ensures answer { said_lookup result ≡ lookup_of table.now (key_in key) }
    ensures looked { result.looked ≡ looked_of table.now (key_in key) }
{
    if let Err(why) = name::check(table) {
        return LookedUp {
            answer: Err(LookupRefusal::Table(why)),
            looked: 0,
        };
    }
    let search = name_search::find_any(&Accepted { bytes: table }, key);
    let looked = search.looked;
    match search.found {
        Some(i) => LookedUp {
            answer: Ok(name_search::text_of(&RecordAt { table, i })),
            looked,
        },
        None => LookedUp {
            answer: Err(LookupRefusal::NoRecord),
            looked,
        },
    }
}
