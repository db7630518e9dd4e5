// `normalizedString`.
ghost use Rattle.std.specs.Prelude.{◌≡◌};
ghost use Rattle.std.specs.Str.{bytes_eq};
ghost use Rattle.rng_model.specs.datatypes.Datatypes.{is_allowed_by, are_equal_by};
ghost use Rattle.rng_model.specs.datatypes.Facets.{fits};
ghost use Rattle.rng_types.specs.views.View.{lengths_of};
ghost use Rattle.rng_model.specs.xsd.Names.{replaced, replaced_byte};
ghost use Rattle.rng_model.specs.xsd.Types.{xsd_normalized};

use rng_types::{Lengths, char_count};

/// `normalizedString`: every text whose number of characters is allowed. Texts that differ only in which blanks they
/// have are equal.
///
/// XML Schema Part 2, sections 3.3.1 and 4.3.6, `replace`.
#[derive(Clone, Copy, Debug)]
pub struct NormalizedString {
    pub lengths: Lengths,
}

impl NormalizedString {
    // whether the text has an allowed number of characters
    pub(crate) fn allows(&self, text: &str) -> bool
        ensures { result ≡ is_allowed_by (xsd_normalized (lengths_of self.now.lengths)) text.now }
    {
        self.fits(text)
    }

    // whether the number of characters is allowed, which replacing does not change
    fn fits(&self, text: &str) -> bool
        ensures { result ≡ fits (lengths_of self.now.lengths) text.now }
    {
        self.lengths.allow(char_count(text))
    }

    // whether both texts are allowed, and are the same once their blanks are spaces
    pub(crate) fn equal(&self, a: &str, b: &str) -> bool
        ensures { result ≡ are_equal_by (xsd_normalized (lengths_of self.now.lengths)) a.now b.now }
    {
        self.fits(a) && self.fits(b) && is_same_replaced(a.as_bytes(), b.as_bytes())
    }
}

// whether the two texts are the same once each blank is a space
fn is_same_replaced(a: &[u8], b: &[u8]) -> bool
    ensures { result ≡ bytes_eq (replaced a.now) (replaced b.now) }
{
    let (mut left, mut right) = (a, b);
    'bytes: while let [byte, after @ ..] = left {
        match right {
            [other, behind @ ..] if replaced_byte(*byte) == replaced_byte(*other) => {
                left = after;
                right = behind;
            }
            _ => return false,
        }
    }
    right.is_empty()
}

fn replaced_byte(byte: u8) -> u8
    ensures { result ≡ replaced_byte byte }
{
    if matches!(byte, b' ' | b'\t' | b'\n' | b'\r') {
        b' '
    } else {
        byte
    }
}
