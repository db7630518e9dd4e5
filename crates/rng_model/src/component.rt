// Components of the grammars of a schema.
use crate::method::Method;
use crate::schema_pattern::SchemaPattern;

/// A part of a grammar that defines a name or the start of the grammar. The start has no name.
///
/// RELAX NG Specification, section 3 (`grammarContent`), and sections 4.17 and 4.18.
#[derive(Drop)]
pub struct Component {
    /// `None` for the start.
    pub name: Option<String>,
    pub method: Method,
    pub pattern: SchemaPattern,
}
