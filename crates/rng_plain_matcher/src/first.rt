// What a pattern takes first.
use rng_model::Attr;

/// A string or an attribute that comes first. A piece is a string between two blanks in a list, where there are no lists
/// (RELAX NG Specification, sections 6.2.10 and 7.1.3).
#[derive(Clone, Copy)]
pub enum First<'s> {
    Piece(&'s str),
    Text(&'s str),
    Attribute(&'s Attr),
}
