// The writer of a 'name' table: entries with their texts in a pool, stored as a format 0 table in lent room.
// Document 02, Ask 5, in its order of refusals: 30; at each entry 31, 18, 17 or 19, 32; 33.
// The entries are a lent slice of structs. `name_store` checks them, and stores them.
#![tactic(auto)]

ghost use Rattle.std.specs.Prelude.{◌≡◌, length};
ghost use Rattle.name_store.specs.Writing.{write_of, room_after};
ghost use Rattle.name_store.specs.Replies.{said_written};
ghost use Rattle.name_writer.specs.Sweeps.{written_all, finished, ReadyTwice};

pub use name_store::{Entry, WriteRefusal};

// Writes the table of the entries at the start of the room, and answers its length: every entry is checked, then every entry is written. Its answer and the room
// are also what the two sweeps of `Sweeps` give, each visit of which is safe.
pub fn write(entries: &[Entry], pool: &[u8], room: &mut [u8]) -> Result<usize, WriteRefusal>
    ensures answer { (said_written result ≡ write_of entries.now (length pool.now) (length room.old)) ×
        (room.new ≡ room_after entries.now pool.now room.old) }
    ensures swept { let swept = written_all entries.now pool.now room.old in
        (room.new ≡ swept.0) × (said_written result ≡ finished swept.1) }
    ensures safe { ReadyTwice entries.now pool.now room.old }
{
    name_store::sixteen(entries);
    let size = name_store::checked_size(entries, pool.len(), room.len())?;
    name_store::store(entries, pool, room);
    Ok(size)
}
