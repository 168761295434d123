// The seven value rules of an 'OS/2' table, on the values that they look at.
// Document 01, "The 'OS/2' fields", value rules 1 to 7; rule 4 by document 02, Ask 1. The reader and the writer share them.
#![tactic(auto)]

ghost use Rattle.std.specs.Prelude.{◌≡◌, ◌||◌};
ghost use Rattle.os2_rules.specs.Tests.{weight_broken, width_broken, type_broken, rights_broken, selection_broken, regular_broken, sizes_broken, verdict_of, rule_number, said, kept};

// The values that the rules look at. The optical sizes are those of version 5 and are not looked at in another.
#[derive(Clone, Copy, Debug, PartialEq, Eq)]
pub struct Values {
    pub version: u16,
    pub weight: u16,
    pub width: u16,
    pub fstype: u16,
    pub fsselection: u16,
    pub lower: u16,
    pub upper: u16,
}

// A rule that is broken, by what it is about.
#[derive(Clone, Copy, Debug, PartialEq, Eq)]
pub enum BrokenRule {
    Weight = 1,
    Width,
    TypeBits,
    Rights,
    Selection,
    Regular,
    Sizes,
}

impl BrokenRule {
    // The rule's number, 1 to 7.
    pub fn number(self) -> usize
        ensures { result ≡ rule_number self }
    {
        self as usize
    }
}

// Applies the rules in order, up to the first that is broken.
pub fn judge(v: Values) -> Result<(), BrokenRule>
    ensures { said result ≡ verdict_of v }
{
    if weight_broken(v.weight) {
        return Err(BrokenRule::Weight);
    }
    if width_broken(v.width) {
        return Err(BrokenRule::Width);
    }
    if type_broken(v.fstype) {
        return Err(BrokenRule::TypeBits);
    }
    if rights_broken(v.version, v.fstype) {
        return Err(BrokenRule::Rights);
    }
    if selection_broken(v.version, v.fsselection) {
        return Err(BrokenRule::Selection);
    }
    if regular_broken(v.fsselection) {
        return Err(BrokenRule::Regular);
    }
    if sizes_broken(v.version, v.lower, v.upper) {
        return Err(BrokenRule::Sizes);
    }
    Ok(())
}

// Whether no rule is broken.
pub fn keeps(v: Values) -> bool
    ensures { result ≡ kept (verdict_of v) }
{
    if weight_broken(v.weight) {
        return false;
    }
    if width_broken(v.width) {
        return false;
    }
    if fstype_broken(v.version, v.fstype) {
        return false;
    }
    if fsselection_broken(v.version, v.fsselection) {
        return false;
    }
    !sizes_broken(v.version, v.lower, v.upper)
}

// Rules 3 and 4. An fsType of 0, as most fonts have, breaks neither.
fn fstype_broken(version: u16, fstype: u16) -> bool
    ensures { result ≡ (type_broken fstype || rights_broken version fstype) }
{
    if fstype == 0 {
        return false;
    }
    if type_broken(fstype) {
        return true;
    }
    rights_broken(version, fstype)
}

// Rules 5 and 6. An fsSelection below 128, as most fonts have, does not break rule 5.
fn fsselection_broken(version: u16, fsselection: u16) -> bool
    ensures { result ≡ (selection_broken version fsselection || regular_broken fsselection) }
{
    if fsselection < 128 {
        return regular_broken(fsselection);
    }
    if selection_broken(version, fsselection) {
        return true;
    }
    regular_broken(fsselection)
}

// Rule 1.
fn weight_broken(weight: u16) -> bool
    ensures { result ≡ weight_broken weight }
{
    weight < 1 || 1000 < weight
}

// Rule 2.
fn width_broken(width: u16) -> bool
    ensures { result ≡ width_broken width }
{
    width < 1 || 9 < width
}

// Rule 3.
fn type_broken(fstype: u16) -> bool
    ensures { result ≡ type_broken fstype }
{
    if 0 < fstype % 2 {
        return true;
    }
    0 < fstype / 16 % 16 || 0 < fstype / 1024 % 64
}

// Rule 4, from version 3 on.
fn rights_broken(version: u16, fstype: u16) -> bool
    ensures { result ≡ rights_broken version fstype }
{
    3 <= version && 1 < fstype / 2 % 2 + fstype / 4 % 2 + fstype / 8 % 2
}

// Rule 5.
fn selection_broken(version: u16, fsselection: u16) -> bool
    ensures { result ≡ selection_broken version fsselection }
{
    if 0 < fsselection / 1024 % 64 {
        return true;
    }
    version < 4 && 0 < fsselection / 128 % 8
}

// Rule 6.
fn regular_broken(fsselection: u16) -> bool
    ensures { result ≡ regular_broken fsselection }
{
    if 0 < fsselection / 64 % 2 {
        return 0 < fsselection % 2 || 0 < fsselection / 32 % 2;
    }
    false
}

// Rule 7.
fn sizes_broken(version: u16, lower: u16, upper: u16) -> bool
    ensures { result ≡ sizes_broken version lower upper }
{
    version == 5 && upper <= lower
}
