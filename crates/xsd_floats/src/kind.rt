// The two types of floating-point numbers.

/// A type of floating-point numbers.
///
/// XML Schema Part 2, Second Edition, sections 3.2.4 and 3.2.5.
#[derive(Clone, Copy, Debug, PartialEq, Eq)]
pub enum FloatKind {
    /// `float`: numbers of 32 bits (IEEE 754, binary32).
    Float,
    /// `double`: numbers of 64 bits (IEEE 754, binary64).
    Double,
}
