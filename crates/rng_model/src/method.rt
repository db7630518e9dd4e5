// How the components of one name are combined.

/// How a component is combined with others of its name.
///
/// RELAX NG Specification, section 4.17; Compact Syntax, "Syntax" (`assignMethod`).
#[derive(Clone, Copy, Debug, PartialEq, Eq)]
pub enum Method {
    /// `=`
    Plain,
    /// `|=`
    Choice,
    /// `&=`
    Interleave,
}
