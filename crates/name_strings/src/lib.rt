// Two questions on the strings of a 'name' table: its PostScript name and its version number.
// Document 01, "PostScript name and version number": each checks the whole table first and passes on that refusal.
// It relies on the table's check, and on the answers from an accepted table.
#![tactic(auto)]

ghost use Rattle.std.specs.Prelude.{◌≡◌};
ghost use Rattle.name_answers.specs.Names.{postscript_of, said_name};
ghost use Rattle.name_answers.specs.Versions.{version_of, said_version};

use name::Accepted;
pub use name_answers::{PostscriptRefusal, VersionAt, VersionRefusal};
use name_search::Text;

// The PostScript name of a table: 21, 22, 23, 24 in this order, else the string of the record (1, 0, 0, 6).
pub fn postscript(table: &[u8]) -> Result<Text, PostscriptRefusal>
    ensures { said_name result ≡ postscript_of table.now }
{
    name::check(table)?;
    name_answers::accepted_postscript(&Accepted { bytes: table })
}

// The version number of a table, from the record (3, 1, 0x409, 5); only if that is not there, from (1, 0, 0, 5).
pub fn version(table: &[u8]) -> Result<VersionAt, VersionRefusal>
    ensures { said_version result ≡ version_of table.now }
{
    name::check(table)?;
    name_answers::accepted_version(&Accepted { bytes: table })
}
