// A table of sets of positions, which texts are judged by.
ghost use Rattle.std.specs.Prelude.{◌≡◌, ◌<◌, ◌≤◌, ◌↔◌, ◌++◌, ◌∷◌, [], ℕ, List, IfSome, IsTrue, length, option_copied, slice_get, slice_index_or};
ghost use Rattle.std.specs.Str.{chars};
ghost use Rattle.rng_model.specs.regexes.Expressions.{Denotes, Regex};
ghost use Rattle.xsd_regex.specs.plain.Positions.{ArePositionsOf, Position};
ghost use Rattle.xsd_automaton.specs.plain.BegunChars.{AreBegun};
ghost use Rattle.xsd_automaton.specs.plain.Sets.{no_set};
ghost use Rattle.xsd_automaton.specs.views.Sets.{AreTables, IsSetTable, LeadsToSet};

/// The number of characters of ASCII.
pub(crate) const ASCII: usize = 128;

/// The greatest number of sets.
pub(crate) const MOST_SETS: usize = 1024;

/// No set has this number.
pub(crate) const NO_SET: u16 = 65_535;

/// The number of values of a byte.
pub(crate) const BYTES: usize = 256;

// The number of the set behind each byte of UTF-8. The first byte of a character past ASCII stands for all of these
// characters, and each further byte leads to the set itself.
#[derive(Clone, Copy)]
pub(crate) struct SetRow {
    pub(crate) targets: [u16; BYTES],
}

// for the first sets of positions a row, and whether the end is in the set
#[derive(Drop)]
pub(crate) struct SetTable {
    pub(crate) rows: Vec<SetRow>,
    pub(crate) ends: Vec<bool>,
}

// Whether the text is accepted, by one look-up for each byte. The sets say so unless the text leads to one that has no row.
pub(crate) fn accepts_by_sets(sets: &SetTable, text: &str) -> Option<bool>
    ensures { (ps : List Position) (first : ℕ) (r : Regex) → AreTables ps first sets.now.rows.items sets.now.ends.items → ArePositionsOf r first ps
        → IfSome result (λ b. IsTrue b ↔ Denotes r (chars text.now)) }
{
    match set_behind(sets.rows.as_slice(), 0, text) {
        Some(set) => is_end(sets, set),
        None => None,
    }
}

// whether the end is in the set with this number, if that has a row
pub(crate) fn is_end(sets: &SetTable, set: usize) -> Option<bool>
    ensures { (ps : List Position) (first : ℕ) (r : Regex) (tables : AreTables ps first sets.now.rows.items sets.now.ends.items) (read : List ℕ)
        → ArePositionsOf r first ps → LeadsToSet ps first sets.now.rows.items tables.table set read → IfSome result (λ b. IsTrue b ↔ Denotes r read) }
{
    end_of(sets.ends.as_slice(), set)
}

fn end_of(ends: &[bool], set: usize) -> Option<bool>
    ensures { result ≡ slice_get ends.now set }
{
    ends.get(set).copied()
}

// The number of the set behind the text, unless it goes through a set that has no row.
#[inline(always)]
pub(crate) fn set_behind(rows: &[SetRow], first: usize, text: &str) -> Option<usize>
    ensures { IfSome result (λ t. (ps : List Position) (begin : ℕ) (table : IsSetTable ps begin rows.now) (read : List ℕ)
        → LeadsToSet ps begin rows.now table first read → LeadsToSet ps begin rows.now table t (read ++ chars text.now)) }
{
    let mut set = first;
    for byte in text.as_bytes() {
        let Some(next) = next_set(rows, set, *byte) else {
            return None;
        };
        set = next;
    }
    Some(set)
}

// the number of the set behind the byte, if the set has a row
#[inline(always)]
pub(crate) fn next_set(rows: &[SetRow], set: usize, byte: u8) -> Option<usize>
    ensures { IfSome result (λ t. (ps : List Position) (begin : ℕ) (table : IsSetTable ps begin rows.now) (read cs : List ℕ)
        → AreBegun (byte ∷ []) cs → LeadsToSet ps begin rows.now table set read → LeadsToSet ps begin rows.now table t (read ++ cs)) }
{
    match row_of(rows, set) {
        Some(row) => Some(usize::from(row.target(byte))),
        None => None,
    }
}

// the row of the set with this number, if it has one
#[inline(always)]
fn row_of(rows: &[SetRow], set: usize) -> Option<&SetRow>
    ensures { option_copied result ≡ slice_get rows.now set }
{
    rows.get(set)
}

impl SetRow {
    // The row of the set with this number, from the targets of the characters of ASCII, and from that of all other
    // characters.
    pub(crate) fn new(ascii: &[u16; ASCII], own: u16, past: u16) -> Self
        ensures long { length result.targets ≡ 256 }
        ensures front { (b : ℕ) → b < 192 → slice_index_or result.targets b no_set ≡ slice_index_or ascii.now b own }
        ensures back { (b : ℕ) → 192 ≤ b → b < 256 → slice_index_or result.targets b no_set ≡ past }
    {
        let mut targets = [past; BYTES];
        for byte in 0..192u8 {
            targets[usize::from(byte)] = target_or(ascii, byte, own);
        }
        SetRow { targets }
    }

    // the number of the set behind the byte
    #[inline(always)]
    fn target(&self, byte: u8) -> u16
        ensures { result ≡ slice_index_or self.now.targets byte no_set }
    {
        self.targets[usize::from(byte)]
    }
}

// the target of the byte, if it is of ASCII, else the other one
fn target_or(ascii: &[u16; ASCII], byte: u8, other: u16) -> u16
    ensures { result ≡ slice_index_or ascii.now byte other }
{
    match ascii.get(usize::from(byte)) {
        Some(target) => *target,
        None => other,
    }
}
