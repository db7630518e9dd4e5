// Ways to begin.
use rng_deriv_table::{PatternNumber, Skips, Span};
use rng_model::{ElementId, Name, SimpleGrammar};
use smallvec::SmallVec;
use std::alloc::Global;

/// A leaf of a pattern that may take what comes first, and the pattern of what may follow then.
#[derive(Clone, Copy, PartialEq, Eq)]
pub struct LeafWay {
    pub leaf: PatternNumber,
    pub rest: PatternNumber,
}

/// The way from the first pattern of a table to itself. It means no way.
impl Default for LeafWay {
    fn default() -> Self {
        LeafWay {
            leaf: PatternNumber(0),
            rest: PatternNumber(0),
        }
    }
}

/// The ways of a pattern. Nearly all patterns have at most two, which need no allocation.
pub type Ways = SmallVec<LeafWay, 2>;

/// What some ways of a pattern leave.
pub type Rests = SmallVec<PatternNumber, 2>;

/// What comes first, as far as ways differ by it.
#[derive(Clone, Copy)]
pub enum Kind<'a> {
    /// An element of this name.
    Element(&'a Name),
    /// An attribute of this name.
    Attribute(&'a Name),
    Text,
}

/// The parts of a pattern that may take what comes first, as far as they are known.
#[derive(Clone, Copy)]
pub enum Candidates<'a> {
    /// Nothing is known.
    Any,
    /// For an element that comes first: elements of the grammar with these numbers. For each element of the grammar the
    /// slice has one that takes the same. The skips are those of choices of the table.
    Elements(Span, &'a [ElementId], &'a Skips),
    /// For an attribute that comes first: attributes at these positions of the grammar. The slice has the ranges of the
    /// attributes of the first patterns of the table, by number.
    Attributes(Span, &'a [Span]),
}

/// A search for the ways of patterns of a grammar: what comes first, and the parts that may take it.
#[derive(Clone, Copy)]
pub struct Search<'g, 'c, 'k> {
    pub alloc: Global,
    pub grammar: &'g SimpleGrammar,
    pub candidates: Candidates<'c>,
    pub kind: Kind<'k>,
}

/// Where a pattern is tried: among the children of an element or the values of attributes, or in a list. A list
/// contains no list (RELAX NG Specification, section 7.1.3).
#[derive(Clone, Copy)]
pub enum Place {
    Content,
    List,
}

/// How two patterns are joined.
#[derive(Clone, Copy)]
pub enum Joint {
    Group,
    Interleave,
}

/// Two patterns that are joined, and how.
#[derive(Clone, Copy)]
pub struct Sides {
    pub joint: Joint,
    pub first: PatternNumber,
    pub second: PatternNumber,
}

/// Where the rest of a side is in the rest of the whole.
#[derive(Clone, Copy)]
pub enum Hole {
    /// The rest of the side is the rest of the whole.
    Whole,
    /// It is the first of two that are joined. This is the second one.
    First(Joint, PatternNumber),
    /// It is the second of two that are joined. This is the first one.
    Second(Joint, PatternNumber),
}
