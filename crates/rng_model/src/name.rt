// Names and name classes.
use crate::namespace::Namespace;

/// An expanded name: a namespace, which is empty if there is none, and a local name.
///
/// Namespaces in XML 1.0, section 2.1.
#[derive(Debug, Drop, PartialEq, Eq, Hash)]
pub struct Name {
    pub ns: Namespace,
    pub local: String,
}

/// A set of names.
///
/// RELAX NG Specification, section 6.1; Compact Syntax, "Syntax". A choice has its members in the order in which they
/// are written. A choice of no members holds no name. Any class may occur in an except.
#[derive(Debug)]
pub enum NameClass {
    /// Every name: `*`.
    Any,
    /// Every name except those of the class: `* - class`.
    AnyExcept(Box<NameClass>),
    /// Every name of the namespace, which is empty for names without one: `p:*`.
    Ns(Namespace),
    /// Every name of the namespace except those of the class: `p:* - class`.
    NsExcept(Namespace, Box<NameClass>),
    /// Only this name.
    Name(Name),
    /// The names of each member: members joined by `|`.
    Choice(Vec<NameClass>),
}

impl Drop for NameClass {
    // A class nests as deep as a list of names is long, so what is not on the way down a list has a function of its own.
    #[cycle(drops)]
    fn drop(self) {
        match self {
            NameClass::Any => {}
            NameClass::AnyExcept(except) => drop_except(except),
            NameClass::Ns(_ns) => {}
            NameClass::NsExcept(_ns, except) => drop_except(except),
            NameClass::Name(_name) => {}
            NameClass::Choice(_members) => {}
        }
    }
}

/// Drops the class of an except.
#[cycle(drops)]
#[inline(never)]
fn drop_except(except: Box<NameClass>) {
    let _class = Box::into_inner(except);
}
