// One pattern of a simple grammar's table.
use crate::datatype::{Datatype, DatatypeValue};
use crate::name::NameClass;

/// A position in a grammar's table of patterns, from 0.
#[derive(Clone, Copy, PartialEq, Eq, Hash)]
pub struct PatternId(pub usize);

/// A position in a grammar's table of elements, from 0.
#[derive(Clone, Copy, PartialEq, Eq, Hash)]
pub struct ElementId(pub usize);

/// A pattern in simple form. Its children are positions.
///
/// RELAX NG Specification, section 5.
#[derive(Drop)]
pub enum Simple {
    NotAllowed,
    Empty,
    Text,
    /// A ref to an element that the grammar lists.
    Element(ElementId),
    Attribute(Box<NameClass>, PatternId),
    List(PatternId),
    Data(Box<Datatype>),
    /// A datatype, and its except.
    DataExcept(Box<Datatype>, PatternId),
    Value(Box<DatatypeValue>),
    OneOrMore(PatternId),
    Group(PatternId, PatternId),
    Interleave(PatternId, PatternId),
    Choice(PatternId, PatternId),
}
