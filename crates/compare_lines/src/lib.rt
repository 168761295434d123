// The lines of a comparison of two tables: one for each row, the line of a refusal with its side, and the line of an input that is too long.
// Document 02, Ask 2; docs/DECISIONS.md has how the lines read.
// It relies on `comparing` for a refusal with its side, on `name_lines` and `os2_figures` for a key and a value as text, and on the lines of `lines`.
#![tactic(auto)]

ghost use Rattle.std.specs.Prelude.{◌+◌, ◌≤◌, ◌≡◌, ◌++◌, length, slice_index, slice_index_or, pos};
ghost use Rattle.lines.specs.Lines.{line_room};
ghost use Rattle.comparing.specs.Comparisons.{side_of, blamed_of};
ghost use Rattle.compare_lines.specs.Lines.{side_room, side_text, blamed_line, too_long_line, name_line, answer_room, answer_text, os2_line};

use comparing::{Blame, ROW_SIZE, Side};
use lines::Line;
use name_layout::Key;
use name_lines::put_key;
use os2_figures::put_signed;

// What a key is, in a row for two 'name' tables; what is neither is in both, with other string bytes.
// A number, here and below: the C interface has rows of numbers.
const ONLY_LEFT: u16 = 1;

const ONLY_RIGHT: u16 = 2;

// What an answer is, in a row for two 'OS/2' tables; what is below both is a value.
const ABSENT: i64 = 2;

const NOT_KNOWN: i64 = 3;

// The line of a refusal with its side.
#[tactic(auto, unfolding(crate::specs::Lines::blamed_line))]
pub fn blame_line(why: Blame) -> Line
    ensures { result ≡ blamed_line (blamed_of why) }
{
    let mut line = side_line(why.side);
    line.put_refusal(why.told);
    line
}

// The line of an input that is too long.
#[tactic(auto, unfolding(crate::specs::Lines::too_long_line, lines::specs::Lines::too_long))]
pub fn too_long_line(side: Option<Side>) -> Line
    ensures { result ≡ too_long_line (side_of side) }
{
    let mut line = side_line(side);
    line.put(b"too long\n");
    line
}

// The line of a row for two 'name' tables: a key, and which of the tables have it.
#[tactic(auto, unfolding(crate::specs::Lines::name_line, crate::specs::Lines::which_text))]
pub fn name_line(row: &[u16; ROW_SIZE]) -> Line
    ensures { let part = slice_index row.now in result ≡ name_line (part 0) (part 1) (part 2) (part 3) (part 4) }
{
    let [platform, encoding, language, name, which] = *row;
    let key = Key {
        platform: u64::from(platform),
        encoding: u64::from(encoding),
        language: u64::from(language),
        name: u64::from(name),
    };
    let word: &[u8] = match which {
        ONLY_LEFT => b"left",
        ONLY_RIGHT => b"right",
        _ => b"both",
    };
    let mut line = Line::new();
    line.put(word);
    put_key(&mut line, key);
    line.put(b"\n");
    line
}

// The line of a row for two 'OS/2' tables: a field, and on each side what the answer is and its value.
#[tactic(auto, unfolding(crate::specs::Lines::os2_line))]
pub fn os2_line(row: &[i64; ROW_SIZE]) -> Line
    ensures { let part = slice_index_or row.now in result ≡ os2_line (part 0 (pos 0)) (part 1 (pos 0)) (part 2 (pos 0)) (part 3 (pos 0)) (part 4 (pos 0)) }
{
    let [field, left_kind, left_value, right_kind, right_value] = *row;
    let mut line = Line::new();
    put_signed(&mut line, field);
    line.put(b" ");
    put_answer(&mut line, left_kind, left_value);
    line.put(b" ");
    put_answer(&mut line, right_kind, right_value);
    line.put(b"\n");
    line
}

// A line that so far has what stands before the refusal of a side.
fn side_line(side: Option<Side>) -> Line
    ensures text { result ≡ side_text (side_of side) }
    ensures room { length result ≤ side_room }
{
    let mut line = Line::new();
    match side {
        None => {}
        Some(Side::Left) => line.put(b"left "),
        Some(Side::Right) => line.put(b"right "),
    }
    line
}

// Puts an answer, given by what it is and its value.
#[tactic(auto, unfolding(crate::specs::Lines::answer_text))]
fn put_answer(line: &mut Line, kind: i64, figure: i64)
    requires { length line.old + answer_room ≤ line_room }
    ensures holds { line.new ≡ line.old ++ answer_text kind figure }
    ensures room { length line.new ≤ length line.old + answer_room }
{
    if kind < ABSENT {
        put_signed(line, figure);
    } else if kind < NOT_KNOWN {
        line.put(b"absent");
    } else {
        line.put(b"not known");
    }
}
