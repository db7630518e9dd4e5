// `hexBinary` and `base64Binary`.
ghost use Rattle.std.specs.Prelude.{◌≡◌};
ghost use Rattle.rng_model.specs.datatypes.Datatypes.{is_allowed_by, are_equal_by};
ghost use Rattle.rng_types.specs.views.View.{lengths_of};
ghost use Rattle.xsd_types.specs.views.Octets.{octets_by};

use rng_types::Lengths;
use xsd_octets::{base64_binary_len, hex_binary_len, is_same_base64_binary, is_same_hex_binary};

/// How a text writes octets.
#[derive(Clone, Copy, Debug)]
pub enum OctetKind {
    /// Two hexadecimal digits for each octet: `hexBinary`, section 3.2.15.
    Hex,
    /// Four characters for each three octets: `base64Binary`, section 3.2.16.
    Base64,
}

/// A type whose values are octets, of a number that its parameters bound.
///
/// XML Schema Part 2, sections 3.2.15, 3.2.16 and 4.3.1 to 4.3.3.
#[derive(Clone, Copy)]
pub struct Octets {
    pub kind: OctetKind,
    pub lengths: Lengths,
}

impl Octets {
    // whether the text writes so many octets
    pub(crate) fn allows(&self, text: &str) -> bool
        ensures { result ≡ is_allowed_by (octets_by self.now.kind (lengths_of self.now.lengths)) text.now }
    {
        let found = match self.kind {
            OctetKind::Hex => hex_binary_len(text),
            OctetKind::Base64 => base64_binary_len(text),
        };
        match found {
            Some(count) => self.lengths.allow(count),
            None => false,
        }
    }

    // whether both texts write the same octets, and so many
    pub(crate) fn equal(&self, a: &str, b: &str) -> bool
        ensures { result ≡ are_equal_by (octets_by self.now.kind (lengths_of self.now.lengths)) a.now b.now }
    {
        let is_same = match self.kind {
            OctetKind::Hex => is_same_hex_binary(a, b),
            OctetKind::Base64 => is_same_base64_binary(a, b),
        };
        is_same && self.allows(a)
    }
}
