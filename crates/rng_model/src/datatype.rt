// Datatypes as a schema refers to them.

/// A datatype: the URI of its library, its name there, and its parameters in the order in which they are written.
///
/// RELAX NG Specification, section 2.
#[derive(Debug, Drop)]
pub struct Datatype {
    pub library: String,
    pub name: String,
    pub parameters: Vec<(String, String)>,
}

/// A value of a datatype: the URI of the library (empty for the built-in library), the name of the datatype, and the
/// text.
///
/// RELAX NG Specification, section 3 (`value`).
#[derive(Drop)]
pub struct DatatypeValue {
    pub library: String,
    pub name: String,
    pub text: String,
}
