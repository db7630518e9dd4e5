// Patterns by number.
ghost use Rattle.std.specs.Prelude.{◌≡◌, ℕ, IsTrue};
ghost use Rattle.rng_deriv_table.specs.plain.Facts.{IsWithin, joined_spans, one_span};

use rng_model::{ElementId, PatternId};

/// A position in a table of patterns, from 0.
#[derive(Clone, Copy, Default, PartialEq, Eq, PartialOrd, Ord, Hash)]
pub struct PatternNumber(pub usize);

/// A pattern in simple form, made of others, which are given by their numbers.
///
/// RELAX NG Specification, section 5. Leaves refer to elements and patterns of the grammar.
#[derive(PartialEq, Eq, Hash, Drop)]
pub enum Pattern {
    NotAllowed,
    Empty,
    Text,
    /// Two members or more, by rising numbers, none of them a choice or notAllowed.
    Choice(Vec<PatternNumber>),
    Group(PatternNumber, PatternNumber),
    Interleave(PatternNumber, PatternNumber),
    OneOrMore(PatternNumber),
    /// A ref to an element.
    Element(ElementId),
    /// The attribute at this position of the grammar.
    Attribute(PatternId),
    /// The list, the data or the value at this position of the grammar: what one string matches.
    Data(PatternId),
}

/// What is known of a pattern after it is made.
#[derive(Clone, Copy, PartialEq, Eq)]
pub struct Facts {
    /// Whether it matches no attributes with no items.
    pub nullable: bool,
    /// Whether it contains an attribute, outside its elements, lists and excepts.
    pub attributes: bool,
    /// Whether it contains a data, a value or a list, outside its attributes and elements. Otherwise what a string says
    /// does not matter to it.
    pub tests_strings: bool,
    /// Whether it takes each subsequence of each sequence of items that it takes, except perhaps the empty one. Blank
    /// strings beside elements are ignored. False means that it is not known.
    pub subsequences: bool,
    /// For an interleave, the number of patterns other than interleaves that it joins, at most 65,535. For any other
    /// pattern, 1.
    pub members: u16,
    /// A bound on how many parts are in one another, at most 65,535. The parts of both sides of a group count, so that it
    /// holds however groups are nested.
    pub depth: u16,
    /// The range of numbers of the elements in it, outside its attributes, lists and excepts.
    pub elements: Span,
}

/// A range of numbers, where a number of 2^32 - 1 or more counts as 2^32 - 1.
#[derive(Clone, Copy, PartialEq, Eq)]
pub struct Span {
    least: u32,
    greatest: u32,
}

impl Span {
    /// The empty range.
    pub const NONE: Span = Span {
        least: u32::MAX,
        greatest: 0,
    };

    /// All numbers.
    pub const ALL: Span = Span {
        least: 0,
        greatest: u32::MAX,
    };

    /// Returns the range of this number alone. Allocates nothing.
    pub fn one(number: usize) -> Span
        ensures { result ≡ one_span number }
    {
        let number = number.min(u32::MAX as usize) as u32;
        Span {
            least: number,
            greatest: number,
        }
    }

    /// Returns a range that has the numbers of both. Allocates nothing.
    pub fn joined(self, others: Span) -> Span
        ensures { result ≡ joined_spans self others }
    {
        Span {
            least: self.least.min(others.least),
            greatest: self.greatest.max(others.greatest),
        }
    }

    /// Returns whether a number may be in both ranges. Allocates nothing.
    #[inline(always)]
    pub fn may_meet(self, others: Span) -> bool
        ensures { (k : ℕ) → IsWithin self k → IsWithin others k → IsTrue result }
    {
        self.least <= others.greatest && others.least <= self.greatest
    }
}
