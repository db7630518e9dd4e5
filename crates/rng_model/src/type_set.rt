// The sets of datatypes.

/// A set of datatypes with which a schema is compiled. Both sets have the two types that are built into RELAX NG.
///
/// RELAX NG Specification, section 4.16: which datatypes a processor knows is its own choice.
#[derive(Clone, Copy, PartialEq, Eq, Debug)]
pub enum TypeSet {
    /// The six types of XML Schema that the profile has: `string`, `token`, `NCName`, `NMTOKEN`, `boolean` and `integer`.
    Profile,
    /// The types of the library of XML Schema that `xsd_types` has.
    XmlSchema,
}
