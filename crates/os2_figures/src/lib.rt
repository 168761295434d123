// The values of the answers on an 'OS/2' table as text: whole numbers, rights, the style position and optical sizes.
// Document 01, "Questions on an accepted OS/2 table"; docs/DECISIONS.md has how the figures read.
// It relies on the values of `os2_style` and on the buffers of `lines`.
#![tactic(auto)]

ghost use Rattle.std.specs.Prelude.{◌+◌, ◌≤◌, ◌≡◌, ◌++◌, length};
ghost use Rattle.lines.specs.Pieces.{Put};
ghost use Rattle.os2_rules.specs.Rules.{WidthRule};
ghost use Rattle.os2_style.specs.Style.{rights_number, sizes_of};
ghost use Rattle.os2_figures.specs.Figures.{signed_text, fraction, figure, rights_text, percent_hundredths, position_text, points_text, sizes_text};
ghost use Rattle.os2_figures.specs.Figures.{signed_room, fraction_room, figure_room, rights_room, position_room, sizes_room};

use lines::{Buffer, Line, append};
use os2_style::EmbeddingRights;

// Puts a whole number, with a minus sign where it is negative.
#[tactic(auto, using(std::proofs::Common::append_assoc), unfolding(crate::specs::Figures::signed_text))]
pub fn put_signed<const ROOM: usize>(line: &mut Buffer<ROOM>, x: i64)
    requires { length line.old + signed_room ≤ ROOM }
    ensures holds { line.new ≡ line.old ++ signed_text x }
    ensures room { length line.new ≤ length line.old + signed_room }
{
    if x < 0 {
        line.put(b"-");
    }
    line.put_number(x.unsigned_abs());
}

// Puts the name of rights.
#[tactic(auto, unfolding(crate::specs::Figures::rights_text))]
pub fn put_rights<const ROOM: usize>(line: &mut Buffer<ROOM>, rights: EmbeddingRights)
    requires { length line.old + rights_room ≤ ROOM }
    ensures holds { line.new ≡ line.old ++ rights_text (rights_number rights) }
    ensures room { length line.new ≤ length line.old + rights_room }
{
    match rights {
        EmbeddingRights::Installable => line.put(b"installable"),
        EmbeddingRights::Restricted => line.put(b"restricted"),
        EmbeddingRights::Preview => line.put(b"preview"),
        EmbeddingRights::Editable => line.put(b"editable"),
    }
}

// Puts a weight and the percentage of a width class.
#[tactic(auto, using(std::proofs::Common::append_assoc), unfolding(crate::specs::Figures::position_text))]
pub fn put_position<const ROOM: usize>(line: &mut Buffer<ROOM>, weight: u16, width: u16)
    requires { (length line.old + position_room ≤ ROOM) × WidthRule width }
    ensures holds { line.new ≡ line.old ++ position_text weight width }
    ensures room { length line.new ≤ length line.old + position_room }
{
    line.put_number(u64::from(weight));
    line.put(b" ");
    put_figure(line, percent_hundredths(width));
}

const PERCENTS: [u64; 9] = [5000, 6250, 7500, 8750, 10000, 11250, 12500, 15000, 20000];

// The percentage of a width class, in hundredths; the class is a plain number from 1 to 9, as in `os2_style`.
#[tactic(auto, unfolding(crate::specs::Figures::percent_hundredths))]
fn percent_hundredths(width: u16) -> u64
    requires { WidthRule width }
    ensures { result ≡ percent_hundredths width }
{
    PERCENTS[usize::from(width - 1)]
}

// The upper size that stands for none.
const NO_UPPER: u16 = 65535;

// Puts optical sizes, from the stored lower and upper ones.
#[tactic(auto, using(std::proofs::Common::append_assoc), unfolding(os2_style::specs::Style::sizes_of))]
pub fn put_sizes<const ROOM: usize>(line: &mut Buffer<ROOM>, lower: u16, upper: u16)
    requires { length line.old + sizes_room ≤ ROOM }
    ensures holds { line.new ≡ line.old ++ sizes_text lower upper (sizes_of lower upper) }
    ensures room { length line.new ≤ length line.old + sizes_room }
{
    match (lower, upper) {
        (0, NO_UPPER) => line.put(b"every size"),
        (_, NO_UPPER) => {
            put_points(line, b"from ", lower);
            line.put(b" upwards");
        }
        _ => {
            put_points(line, b"between ", lower);
            put_points(line, b" and ", upper);
        }
    }
}

// Puts a text and a stored size in points.
#[tactic(auto, using(std::proofs::Common::append_assoc), unfolding(crate::specs::Figures::points_text))]
fn put_points<const ROOM: usize>(line: &mut Buffer<ROOM>, text: &[u8], size: u16)
    requires { length line.old + length text.now + figure_room ≤ ROOM }
    ensures holds { line.new ≡ line.old ++ (text.now ++ points_text size) }
    ensures room { length line.new ≤ length line.old + length text.now + figure_room }
{
    line.put(text);
    put_figure(line, u64::from(size) * 5);
}

// Puts a number of hundredths as the shortest decimal.
#[tactic(auto, using(std::proofs::Common::append_assoc), unfolding(crate::specs::Figures::figure))]
fn put_figure<const ROOM: usize>(line: &mut Buffer<ROOM>, hundredths: u64)
    requires { length line.old + figure_room ≤ ROOM }
    ensures holds { line.new ≡ line.old ++ figure hundredths }
    ensures room { length line.new ≤ length line.old + figure_room }
{
    line.put_number(hundredths / 100);
    put_fraction(line, hundredths % 100);
}

// Puts hundredths behind a whole number.
#[tactic(auto, using(std::proofs::Common::append_assoc), unfolding(crate::specs::Figures::fraction))]
fn put_fraction<const ROOM: usize>(line: &mut Buffer<ROOM>, hundredths: u64)
    requires { length line.old + fraction_room ≤ ROOM }
    ensures holds { line.new ≡ line.old ++ fraction hundredths }
    ensures room { length line.new ≤ length line.old + fraction_room }
{
    if hundredths == 0 {
        return;
    }
    line.put_numbered(b".", hundredths / 10);
    if hundredths % 10 != 0 {
        line.put_number(hundredths % 10);
    }
}

// ---- the same in lent bytes: each puts its text behind the first `at`, and answers where it ends

pub fn put_signed_at(out: &mut [u8], at: usize, x: i64) -> usize
    requires { at + signed_room ≤ length out.old }
    ensures { Put out.old at out.new result signed_room (signed_text x) }
{
    let mut number = Line::new();
    put_signed(&mut number, x);
    append(out, at, &number)
}

pub fn put_rights_at(out: &mut [u8], at: usize, rights: EmbeddingRights) -> usize
    requires { at + rights_room ≤ length out.old }
    ensures { Put out.old at out.new result rights_room (rights_text (rights_number rights)) }
{
    let mut piece = Line::new();
    put_rights(&mut piece, rights);
    append(out, at, &piece)
}

pub fn put_position_at(out: &mut [u8], at: usize, weight: u16, width: u16) -> usize
    requires { (at + position_room ≤ length out.old) × WidthRule width }
    ensures { Put out.old at out.new result position_room (position_text weight width) }
{
    let mut piece = Line::new();
    put_position(&mut piece, weight, width);
    append(out, at, &piece)
}

pub fn put_sizes_at(out: &mut [u8], at: usize, lower: u16, upper: u16) -> usize
    requires { at + sizes_room ≤ length out.old }
    ensures { Put out.old at out.new result sizes_room (sizes_text lower upper (sizes_of lower upper)) }
{
    let mut piece = Line::new();
    put_sizes(&mut piece, lower, upper);
    append(out, at, &piece)
}
