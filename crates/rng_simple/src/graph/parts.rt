// The definitions and the elements of a schema, by number.
ghost use Rattle.std.specs.Prelude.{◌≡◌};
ghost use Rattle.rng_simple.specs.views.GraphView.{arity};

use rng_model::{Datatype, DatatypeValue, NameClass};

/// A row of a list of patterns. In such a list the children of a pattern come before it, in order.
///
/// Elements and refs are replaced by numbers.
#[derive(Clone, Copy)]
pub enum GraphRow<'a> {
    /// The pattern that matches nothing.
    NotAllowed,
    Empty,
    Text,
    /// An element, by its number.
    Element(usize),
    /// A definition, by its number, in place of a ref, a parent ref or a nested grammar.
    Definition(usize),
    /// A datatype that excludes nothing.
    Data(&'a Datatype),
    Value(&'a DatatypeValue),
    /// An attribute with the last pattern before it.
    Attribute(&'a NameClass),
    List,
    /// A datatype that excludes the last pattern before it.
    DataExcept(&'a Datatype),
    Mixed,
    /// `p?`
    Optional,
    /// `p*`
    ZeroOrMore,
    /// `p+`
    OneOrMore,
    /// So many of the last patterns before it, joined by `,`.
    Group(usize),
    /// So many of the last patterns before it, joined by `&`.
    Interleave(usize),
    /// So many of the last patterns before it, joined by `|`.
    Choice(usize),
}

impl<'a> GraphRow<'a> {
    /// Returns how many of the last patterns before the row are its children. Allocates nothing.
    pub fn arity(&self) -> usize
        ensures { result ≡ arity self.now }
    {
        match self {
            GraphRow::NotAllowed | GraphRow::Empty | GraphRow::Text => 0,
            GraphRow::Element(_) | GraphRow::Definition(_) => 0,
            GraphRow::Data(_) | GraphRow::Value(_) => 0,
            GraphRow::Attribute(_) | GraphRow::List | GraphRow::DataExcept(_) => 1,
            GraphRow::Mixed | GraphRow::Optional => 1,
            GraphRow::ZeroOrMore | GraphRow::OneOrMore => 1,
            GraphRow::Group(count) => *count,
            GraphRow::Interleave(count) => *count,
            GraphRow::Choice(count) => *count,
        }
    }
}

/// An element: its name class, and the rows of its body, which are one pattern.
#[derive(Drop)]
pub struct GraphElement<'a> {
    pub class: &'a NameClass,
    pub content: Vec<GraphRow<'a>>,
}

/// The body of a definition: the rows of the patterns of its components, in order.
///
/// A name may have any number of components, which nest in twos from the left.
///
/// RELAX NG Specification, section 4.17.
#[derive(Drop)]
pub enum GraphBody<'a> {
    Choice(Vec<GraphRow<'a>>),
    Interleave(Vec<GraphRow<'a>>),
}

/// The bodies of the definitions that are met from the start, and the elements. The start is definition 0.
#[derive(Drop)]
pub struct Graph<'a> {
    pub bodies: Vec<GraphBody<'a>>,
    pub elements: Vec<GraphElement<'a>>,
}
