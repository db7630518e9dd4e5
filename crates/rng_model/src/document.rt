// Documents.
use crate::name::Name;

/// An attribute of an element. Namespace declarations are not attributes.
///
/// RELAX NG Specification, section 2.
#[derive(Debug, Drop)]
pub struct Attr {
    pub name: Name,
    pub value: String,
}

/// A child of an element, or the root of a document.
///
/// RELAX NG Specification, section 2. Among the children of an element, no string is empty and no two strings are
/// adjacent.
#[derive(Debug, Drop)]
pub enum Item {
    Text(String),
    Element {
        name: Name,
        attrs: Vec<Attr>,
        children: Vec<Item>,
    },
}
