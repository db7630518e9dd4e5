// Decimals that texts write.
ghost use Rattle.std.specs.Prelude.{◌≡◌};
ghost use Rattle.rng_model.specs.xsd.primitives.Decimals.{decimals, has_total_digits, has_fraction_digits};
ghost use Rattle.rng_model.specs.plain.OneDecimal.{same_decimal};

use crate::number::{self, Number};
use crate::reading::read_number;
use std::marker::Model;

/// A decimal that a text writes, with any number of digits. It borrows the text. Contracts see the number.
///
/// XML Schema Part 2, section 3.2.3.
#[derive(Drop)]
pub struct Decimal<'a> {
    pub(crate) number: Number<'a>,
}

impl<'a> Model for Decimal<'a> {
    ghost use Rattle.rng_model.specs.xsd.primitives.Decimals as written;
    ghost use Rattle.xsd_decimals.specs.plain.Numbers.{IsNumber, value_of};

    ghost Value = { written.Decimal };

    ghost view = { λ d. value_of d.number };

    ghost invariant = { λ d. IsNumber d.number };
}

impl<'a> Decimal<'a> {
    /// Returns the decimal that the text writes, with or without blanks around it: an optional sign, and digits that a
    /// point may separate, of which there is one at least. One pass over the text. Allocates nothing.
    ///
    /// XML Schema Part 2, section 3.2.3.1.
    pub fn read(text: &'a str) -> Option<Decimal<'a>>
        ensures { result ≡ decimals.value_of text.now }
    {
        match read_number(text) {
            Some(number) => Some(Decimal { number }),
            None => None,
        }
    }

    /// Returns whether the two numbers are the same. One pass over their digits.
    pub fn is_same(&self, other: &Decimal<'_>) -> bool
        ensures { result ≡ same_decimal self.now other.now }
    {
        number::is_same(&self.number, &other.number)
    }

    /// Returns whether this number is at most the other one. One pass over their digits.
    pub fn is_at_most(&self, other: &Decimal<'_>) -> bool
        ensures { result ≡ decimals.is_at_most self.now other.now }
    {
        number::is_at_most(&self.number, &other.number)
    }

    /// Returns whether this number is less than the other one. One pass over their digits.
    pub fn is_less(&self, other: &Decimal<'_>) -> bool
        ensures { result ≡ decimals.is_less self.now other.now }
    {
        number::is_below(&self.number, &other.number)
    }

    /// Returns whether the number has at most so many digits. Zeros in front of it and at its end do not count, but
    /// those between the point and the first digit do.
    ///
    /// XML Schema Part 2, section 4.3.11.
    pub fn has_total_digits(&self, total: usize) -> bool
        ensures { result ≡ has_total_digits total self.now }
    {
        number::has_total_digits(&self.number, total)
    }

    /// Returns whether the number has at most so many digits behind the point. Zeros at its end do not count.
    ///
    /// XML Schema Part 2, section 4.3.12.
    pub fn has_fraction_digits(&self, fraction: usize) -> bool
        ensures { result ≡ has_fraction_digits fraction self.now }
    {
        number::has_fraction_digits(&self.number, fraction)
    }
}
