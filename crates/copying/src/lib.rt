// Bytes copied from one lent slice into another: so many, from a place on, to a place. The callers are our own crates, which show that the bytes are there.
// Nothing tells the compiler that the two slices do not overlap, so a copy of any length by `copy_from_slice` would be a call of `memmove`, for which the archive
// does not ask. Of a block whose length it knows the compiler makes loads and stores, and of a loop over single bytes one that copies 32 a turn, with a slow end.
#![tactic(auto)]

ghost use Rattle.std.specs.Prelude.{◌≡◌, ◌+◌, ◌≤◌, length, take, drop};
ghost use Rattle.std.proofs.lemmas.List.Edits.{sets};

// The bytes of a long block, as many as the compiler copies in one turn of a loop, and of a short one.
const LONG: usize = 32;

const SHORT: usize = 8;

// The bytes that are stored at once, and those from which on it pays to bring the stores to multiples of that first, since one across two lines of the cache
// takes longer. The room itself is taken to lie at such a multiple, as allocators give it; elsewhere no byte is another, and only the time is lost.
const STORE: usize = 16;

const FAR: usize = 1024;

// Copies n bytes.
pub fn copy(room: &mut [u8], at: usize, pool: &[u8], start: usize, n: usize)
    requires { (at + n ≤ length room.old) × (start + n ≤ length pool.now) }
    ensures { room.new ≡ sets room.old at (take n (drop start pool.now)) }
{
    if n < FAR {
        return copy_blocks(room, at, pool, start, n);
    }
    let first = STORE - at % STORE;
    copy_blocks(room, at, pool, start, first);
    copy_turns(room, at + first, pool, start + first, n - first);
}

// Copies n bytes: as many as make whole turns, one by one, and then the rest.
fn copy_turns(room: &mut [u8], at: usize, pool: &[u8], start: usize, n: usize)
    requires { (at + n ≤ length room.old) × (start + n ≤ length pool.now) }
    ensures { room.new ≡ sets room.old at (take n (drop start pool.now)) }
{
    let rest = n % LONG;
    let turns = n - rest;
    for i in 0..turns {
        room[at + i] = pool[start + i];
    }
    copy_blocks(room, at + turns, pool, start + turns, rest);
}

// Copies n bytes: long blocks, then short ones, and then single bytes.
fn copy_blocks(room: &mut [u8], at: usize, pool: &[u8], start: usize, n: usize)
    requires { (at + n ≤ length room.old) × (start + n ≤ length pool.now) }
    ensures { room.new ≡ sets room.old at (take n (drop start pool.now)) }
{
    for long in 0..n / LONG {
        let i = LONG * long;
        copy_block::<LONG>(room, at + i, pool, start + i);
    }
    for short in n / LONG * (LONG / SHORT)..n / SHORT {
        let i = SHORT * short;
        copy_block::<SHORT>(room, at + i, pool, start + i);
    }
    for i in n / SHORT * SHORT..n {
        room[at + i] = pool[start + i];
    }
}

// Copies a block. It is read whole before it is stored, so nothing is asked of how the two lie.
fn copy_block<const BLOCK: usize>(room: &mut [u8], at: usize, pool: &[u8], start: usize)
    requires { (at + BLOCK ≤ length room.old) × (start + BLOCK ≤ length pool.now) }
    ensures { room.new ≡ sets room.old at (take BLOCK (drop start pool.now)) }
{
    let mut block = [0; BLOCK];
    block.copy_from_slice(&pool[start..start + BLOCK]);
    room[at..at + BLOCK].copy_from_slice(&block);
}
