// Rights, the style position and optical sizes, from the numbers that are stored.
// Document 01, "Questions on an accepted OS/2 table", the last three questions; rights by document 02, Ask 1.
#![tactic(auto)]

ghost use Rattle.std.specs.Prelude.{◌≡◌};
ghost use Rattle.os2_rules.specs.Rules.{WidthRule};
ghost use Rattle.os2_style.specs.Style.{rights_of, rights_number, float, percent_of, points, sizes_of, said_sizes};

// Document 01's rights, by the highest of fsType's bits 1 to 3 that is set, the least restrictive one.
#[derive(Clone, Copy, Debug, PartialEq, Eq)]
pub enum EmbeddingRights {
    // None is set.
    Installable,
    // Bit 1.
    Restricted,
    // Bit 2.
    Preview,
    // Bit 3.
    Editable,
}

impl EmbeddingRights {
    // The bit of fsType, 0 where none is set.
    pub fn number(self) -> u32
        ensures { result ≡ rights_number self }
    {
        self as u32
    }
}

// Document 01's style position: the weight class, and the width class in percent.
#[derive(Clone, Copy, Debug, PartialEq)]
pub struct StylePosition {
    pub weight: f32,
    pub width: f32,
}

// Optical sizes, in points.
#[derive(Clone, Copy, Debug, PartialEq)]
pub enum OpticalSizes {
    // Every size.
    Every,
    // From a size upwards.
    Upwards(f32),
    // Between two sizes.
    Between(f32, f32),
}

// Rights, from fsType.
pub fn rights_of(fstype: u16) -> EmbeddingRights
    ensures { rights_number result ≡ rights_of fstype }
{
    if 0 < fstype / 8 % 2 {
        return EmbeddingRights::Editable;
    }
    if 0 < fstype / 4 % 2 {
        return EmbeddingRights::Preview;
    }
    if 0 < fstype / 2 % 2 {
        return EmbeddingRights::Restricted;
    }
    EmbeddingRights::Installable
}

// The percentage of a width class.
fn percent(width: u16) -> f32
    requires { WidthRule width }
    ensures { result ≡ percent_of width }
{
    match width {
        1 => 50.0,
        2 => 62.5,
        3 => 75.0,
        4 => 87.5,
        5 => 100.0,
        6 => 112.5,
        7 => 125.0,
        8 => 150.0,
        _ => 200.0,
    }
}

// The style position, from the weight and the width class. The class, here and in `os2_figures`, is a plain number from 1 to 9: it is read from a table and handed on once.
pub fn position_of(weight: u16, width: u16) -> StylePosition
    requires { WidthRule width }
    ensures { (result.weight ≡ float weight) × (result.width ≡ percent_of width) }
{
    StylePosition {
        weight: weight as f32,
        width: percent(width),
    }
}

// Optical sizes, from the stored lower and upper ones.
pub fn sizes_of(lower: u16, upper: u16) -> OpticalSizes
    ensures { said_sizes result ≡ sizes_of lower upper }
{
    if upper == 65535 {
        if lower == 0 {
            return OpticalSizes::Every;
        }
        return OpticalSizes::Upwards(in_points(lower));
    }
    OpticalSizes::Between(in_points(lower), in_points(upper))
}

// A stored size in points.
fn in_points(size: u16) -> f32
    ensures { result ≡ points size }
{
    size as f32 / 20.0
}
