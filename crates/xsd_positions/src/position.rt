//! Positions of an expression.
use xsd_regex::Class;

/// What a part of an expression has to match. A part is behind its own parts.
#[derive(Clone, Copy)]
pub enum Part {
    /// The empty text.
    Nothing,
    /// A character of the class with this number.
    OneOf(u16),
    /// No text, since a quantifier asks for more copies than it allows.
    Never,
    /// Two parts one after the other: the part with this number, and the part before this one.
    Both(u16),
    /// One of two parts: the part with this number, or the part before this one.
    Either(u16),
    /// The part before this one, once or not at all.
    Optional,
    /// The part before this one, any number of times.
    Repeated,
}

/// A part of an expression, and what has to match behind it.
#[derive(Clone, Copy)]
pub struct Position {
    /// What the part has to match.
    pub part: Part,
    /// The number of the position that has to match behind the part, which is greater than the number of this one. The
    /// end has the number of all positions.
    pub next: u16,
    /// Whether the part matches the empty text.
    pub is_nullable: bool,
}

/// The positions of an expression.
#[derive(Drop)]
pub struct Positions {
    /// The positions, by their numbers.
    pub positions: Vec<Position>,
    /// The classes of the expression, by their numbers. A class that is written once has one number in all copies.
    pub classes: Vec<Class>,
    /// The number of the position of the whole expression.
    pub first: u16,
}
