// Names and attributes as a parser tells them.

/// An expanded name: a namespace, which is empty if there is none, and a local name.
///
/// Namespaces in XML 1.0, section 2.1.
#[derive(Clone, Copy, PartialEq, Eq, Hash)]
pub struct ExpandedName<'a> {
    pub namespace: &'a str,
    pub local: &'a str,
}

/// An attribute of an element. Declarations of namespaces are not attributes.
///
/// RELAX NG Specification, section 2.
#[derive(Clone, Copy)]
pub struct Attribute<'a> {
    pub name: ExpandedName<'a>,
    pub value: &'a str,
}
