// The values of both types.
ghost use Rattle.std.specs.Prelude.{◌≡◌};
ghost use Rattle.std.specs.Float.{Format};
ghost use Rattle.std.specs.Option.{option_map};
ghost use Rattle.rng_model.specs.xsd.primitives.Floats.{float_of, floats, same_float};
ghost use Rattle.xsd_floats.specs.views.Values.{format_of, number_of};

use crate::kind::FloatKind;
use crate::numbers::{is_less, is_same};
use crate::numerals::{begins_number, nearest};
use rng_types::only_piece;

/// A value of `float` or `double`: a number, positive or negative infinity, or NaN. There is one zero and one NaN.
///
/// XML Schema Part 2, Second Edition, sections 3.2.4 and 3.2.5. Compare values of one type only: each value of `float` is one of
/// `double`, but the number nearest to a text may be another one in each.
#[derive(Clone, Copy, Debug)]
pub struct FloatValue {
    number: f64,
}

impl FloatValue {
    /// Returns the value that the text writes in the type, with blanks before or behind it: the number of the type that is
    /// nearest to a decimal, which may have an exponent, or one of `INF`, `-INF` and `NaN`. Returns `None` if the text writes
    /// none, and in no other case. A number too large for the type is read as infinity. Takes time in proportion to the text.
    /// Allocates nothing.
    ///
    /// XML Schema Part 2, Second Edition, sections 3.2.4.1 and 3.2.5.1.
    pub fn read(kind: FloatKind, text: &str) -> Option<FloatValue>
        ensures { option_map number_of result ≡ (floats (format_of kind)).value_of text.now }
    {
        match only_piece(text) {
            Some(piece) => read_piece(kind, piece),
            None => None,
        }
    }

    /// Returns whether the values are the same. NaN equals itself.
    ///
    /// XML Schema Part 2, Second Edition, section 3.2.4.
    pub fn equal(self, other: FloatValue) -> bool
        ensures { result ≡ same_float (number_of self) (number_of other) }
    {
        is_same(self.number, other.number)
    }

    /// Returns whether the first value is at most the second one. NaN is at most itself, and not comparable with any other value.
    ///
    /// XML Schema Part 2, Second Edition, section 3.2.4.
    pub fn is_at_most(self, other: FloatValue) -> bool
        ensures { (format : Format) → result ≡ (floats format).is_at_most (number_of self) (number_of other) }
    {
        is_same(self.number, other.number) || is_less(self.number, other.number)
    }

    /// Returns whether the first value is less than the second one. NaN is less than no value, and no value is less than NaN.
    ///
    /// XML Schema Part 2, Second Edition, section 3.2.4.
    pub fn is_less(self, other: FloatValue) -> bool
        ensures { (format : Format) → result ≡ (floats format).is_less (number_of self) (number_of other) }
    {
        is_less(self.number, other.number)
    }
}

// the value that the text writes without blanks
fn read_piece(kind: FloatKind, text: &str) -> Option<FloatValue>
    ensures { option_map number_of result ≡ float_of (format_of kind) text.now }
{
    let number = match text {
        "INF" => f64::INFINITY,
        "-INF" => f64::NEG_INFINITY,
        "NaN" => f64::NAN,
        numeral if begins_number(numeral) => nearest(kind, numeral)?,
        _ => return None,
    };
    Some(FloatValue { number })
}
