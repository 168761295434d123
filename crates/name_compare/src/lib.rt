// Two 'name' tables compared: the keys that only one of them has, and those that both have with other string bytes, in key order.
// Document 02, Ask 2, and refusal 29. It relies on `name` for the check: the records of an accepted table are in the order of their keys, so one pass over
// both, side by side, meets each key once; on `name_search` for a record's string, on `same_bytes` for whether two are the same, and on `comparing` for the list and
// its rows.
#![tactic(auto)]

ghost use Rattle.std.specs.Prelude.{◌≡◌, ◌+◌, ◌/◌, ◌<◌, ◌≤◌, length};
ghost use Rattle.std.proofs.lemmas.List.Edits.{sets};
ghost use Rattle.name_layout.specs.Layout.{bytes_of, count as records};
ghost use Rattle.comparing.specs.Rooms.{rows_of, front};
ghost use Rattle.comparing.specs.Comparisons.{blamed_of};
ghost use Rattle.same_bytes.specs.Same.{same};
ghost use Rattle.name_compare.specs.Differences.{key_numbered, row_of, differences};
ghost use Rattle.name_compare.specs.Comparisons.{compared_of, room_of, said_refusal, said_compared};
ghost use Rattle.name_compare.specs.Steps.{Within, Stepped, which_number};

use comparing::{Blame, ROW_SIZE, Side, too_many};
use name::Accepted;
use name_layout::RecordAt;
use name_search::string_of;
use outcomes::Told;
use same_bytes::same;

// Why nothing is listed.
#[derive(Clone, Copy, Debug, PartialEq, Eq)]
pub enum Refusal {
    // 10 to 19 and 27 of the left table.
    Left(name::Refusal),
    // 10 to 19 and 27 of the right table.
    Right(name::Refusal),
    // 29: more differences than rows.
    TooManyDifferences,
}

// Its side, its number, and what it carries.
impl From<Refusal> for Blame {
    ghost from_gives = { λ why blame. blamed_of blame ≡ said_refusal why };

    fn from(why: Refusal) -> Blame {
        match why {
            Refusal::Left(refusal) => Blame::new(Some(Side::Left), Told::from(refusal)),
            Refusal::Right(refusal) => Blame::new(Some(Side::Right), Told::from(refusal)),
            Refusal::TooManyDifferences => Blame::new(None, Told::bare(29)),
        }
    }
}

// What a key is on which two tables differ, with its number in a row.
#[derive(Clone, Copy, Debug, PartialEq, Eq)]
enum Which {
    OnlyLeft = 1,
    OnlyRight,
    OtherBytes,
}

impl Which {
    fn number(self) -> u16
        ensures { result ≡ which_number self }
    {
        self as u16
    }
}

// One step through both tables: the least key that is left, as one number, what it is where the tables differ on it, and how many records are then passed on each side.
#[derive(Clone, Copy, Debug, PartialEq, Eq)]
struct Step {
    key: u64,
    which: Option<Which>,
    left: usize,
    right: usize,
}

impl Step {
    fn new(key: u64, which: Option<Which>, left: usize, right: usize) -> Step
        ensures { result ≡ record { key = key; which = which; left = left; right = right } }
    {
        Step {
            key,
            which,
            left,
            right,
        }
    }
}

// Two accepted tables.
#[derive(Drop)]
struct Pair<'a, 'b> {
    left: Accepted<'a>,
    right: Accepted<'b>,
}

// Lists the keys that differ in rows of five numbers: platform, encoding, language, name, and 1 for a key only on the left, 2 for one only on the right, 3 for
// one in both with other string bytes.
pub fn compare(left: &[u8], right: &[u8], rows: &mut [u16]) -> Result<usize, Refusal>
    ensures { (said_compared result ≡ compared_of left.now right.now (length rows.old)) ×
        (rows.new ≡ room_of left.now right.now rows.old) }
{
    if let Err(why) = name::check(left) {
        return Err(Refusal::Left(why));
    }
    if let Err(why) = name::check(right) {
        return Err(Refusal::Right(why));
    }
    let pair = Pair {
        left: Accepted { bytes: left },
        right: Accepted { bytes: right },
    };
    let count = count_differences(&pair);
    if too_many(count, rows.len()) {
        return Err(Refusal::TooManyDifferences);
    }
    write_differences(&pair, count, rows);
    Ok(count)
}

// How many keys differ.
fn count_differences(pair: &Pair<'_, '_>) -> usize
    ensures { result ≡ length (differences pair.now.left.bytes.now pair.now.right.bytes.now) }
{
    let m = pair.left.record_count() as usize;
    let n = pair.right.record_count() as usize;
    let mut i = 0;
    let mut j = 0;
    let mut count = 0;
    // Not a `for`: a step passes a record of one table or of both.
    while i + j < m + n {
        let s = advance(pair, i, j);
        i = s.left;
        j = s.right;
        if let Some(_) = s.which {
            count += 1;
        }
    }
    count
}

// Writes a row for each key that differs, and looks no further than the last of them.
fn write_differences(pair: &Pair<'_, '_>, count: usize, rows: &mut [u16])
    requires { (count ≡ length (differences pair.now.left.bytes.now pair.now.right.bytes.now)) × (count ≤ length rows.old / 5) }
    ensures { rows.new ≡ front (rows_of row_of (differences pair.now.left.bytes.now pair.now.right.bytes.now)) rows.old }
{
    let mut i = 0;
    let mut j = 0;
    let mut done = 0;
    // Not a `for`: not every step writes a row.
    while done < count {
        let s = advance(pair, i, j);
        i = s.left;
        j = s.right;
        if let Some(which) = s.which {
            put(rows, ROW_SIZE * done, s.key, which);
            done += 1;
        }
    }
}

// Writes a key's row from a place on.
fn put(rows: &mut [u16], at: usize, key: u64, which: Which)
    requires { at + 5 ≤ length rows.old }
    ensures { rows.new ≡ sets rows.old at (row_of (record { key = key_numbered key; which = which_number which })) }
{
    rows[at] = (key / 281474976710656) as u16;
    rows[at + 1] = (key / 4294967296 % 65536) as u16;
    rows[at + 2] = (key / 65536 % 65536) as u16;
    rows[at + 3] = (key % 65536) as u16;
    rows[at + 4] = which.number();
}

// The step from i records passed on the left and j on the right. In place in both loops: as a call of its own, each step saves the registers that the comparison of
// strings needs, and tables of which one alone has keys take 1.3 times as long.
#[inline(always)]
fn advance(pair: &Pair<'_, '_>, i: usize, j: usize) -> Step
    requires { Within pair.now.left.bytes.now pair.now.right.bytes.now i j }
    ensures { Stepped pair.now.left.bytes.now pair.now.right.bytes.now i j result }
{
    let left = pair.left.bytes;
    let right = pair.right.bytes;
    if i == pair.left.record_count() as usize {
        let key = RecordAt { table: right, i: j }.key();
        return Step::new(key, Some(Which::OnlyRight), i, j + 1);
    }
    let key = RecordAt { table: left, i }.key();
    if j == pair.right.record_count() as usize {
        return Step::new(key, Some(Which::OnlyLeft), i + 1, j);
    }
    let other = RecordAt { table: right, i: j }.key();
    if key < other {
        return Step::new(key, Some(Which::OnlyLeft), i + 1, j);
    }
    if other < key {
        return Step::new(other, Some(Which::OnlyRight), i, j + 1);
    }
    if same_string(pair, i, j) {
        return Step::new(key, None, i + 1, j + 1);
    }
    Step::new(key, Some(Which::OtherBytes), i + 1, j + 1)
}

// Whether record i on the left and record j on the right have the same string.
fn same_string(pair: &Pair<'_, '_>, i: usize, j: usize) -> bool
    requires { (i < records pair.now.left.bytes.now) × (j < records pair.now.right.bytes.now) }
    ensures { result ≡ same (bytes_of pair.now.left.bytes.now i) (bytes_of pair.now.right.bytes.now j) }
{
    same(string_of(&pair.left, i), string_of(&pair.right, j))
}
