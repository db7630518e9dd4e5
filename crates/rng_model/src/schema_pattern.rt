// Patterns as they are written in a schema of one or more grammars.
ghost use Rattle.std.specs.Prelude.{◌≡◌};
ghost use Rattle.rng_model.specs.views.SchemaView.{row_arity};

use crate::datatype::{Datatype, DatatypeValue};
use crate::name::NameClass;
use crate::place::Place;

/// A row of a pattern. The children of a row are before it, in order.
///
/// RELAX NG Specification, section 3, and sections 4.6, 4.7 and 4.18 for other files and nested grammars. A choice of
/// no members means `NotAllowed`, a group or an interleave of none means `Empty`. One of one member means that member.
#[derive(Drop)]
pub enum SchemaRow {
    /// The pattern that matches nothing.
    NotAllowed,
    Empty,
    Text,
    /// An element whose body is the last pattern before it.
    Element(Box<NameClass>),
    /// An attribute with the last pattern before it.
    Attribute(Box<NameClass>),
    /// A list of the last pattern before it.
    List,
    /// A datatype that excludes nothing.
    Data(Box<Datatype>),
    /// A datatype that excludes the last pattern before it.
    DataExcept(Box<Datatype>),
    Value(Box<DatatypeValue>),
    Mixed,
    /// `p?`
    Optional,
    /// `p*`
    ZeroOrMore,
    /// `p+`
    OneOrMore,
    /// So many of the last patterns before it, joined by `,`.
    Group(usize),
    /// So many of the last patterns before it, joined by `&`.
    Interleave(usize),
    /// So many of the last patterns before it, joined by `|`.
    Choice(usize),
    Ref(String),
    ParentRef(String),
    /// A nested grammar, at its place.
    Grammar(Place),
    /// The pattern of another file, which is the last one before it. If the file is a grammar, it is a nested grammar.
    External,
}

/// A pattern as it is written in a schema of one or more grammars. Its members are in order, and mentions of files are
/// followed.
///
/// It is a list of rows, so that neither a walk nor a drop recurses. The first pattern that is left when each row has
/// taken its children is the pattern itself. If none is left, that is `NotAllowed`. A child that is missing is
/// `NotAllowed` too.
///
/// RELAX NG Specification, section 3.
#[derive(Drop)]
pub struct SchemaPattern {
    pub rows: Vec<SchemaRow>,
}

impl SchemaRow {
    /// Returns how many of the last patterns before the row are its children. Allocates nothing.
    pub fn arity(&self) -> usize
        ensures { result ≡ row_arity self.now }
    {
        match self {
            SchemaRow::NotAllowed | SchemaRow::Empty | SchemaRow::Text => 0,
            SchemaRow::Data(_) | SchemaRow::Value(_) => 0,
            SchemaRow::Ref(_) | SchemaRow::ParentRef(_) | SchemaRow::Grammar(_) => 0,
            SchemaRow::Element(_) | SchemaRow::Attribute(_) | SchemaRow::DataExcept(_) => 1,
            SchemaRow::List | SchemaRow::Mixed | SchemaRow::Optional => 1,
            SchemaRow::ZeroOrMore | SchemaRow::OneOrMore | SchemaRow::External => 1,
            SchemaRow::Group(count) => *count,
            SchemaRow::Interleave(count) => *count,
            SchemaRow::Choice(count) => *count,
        }
    }
}
