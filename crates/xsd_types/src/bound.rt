// Integers that schemas give as bounds.
ghost use Rattle.std.specs.Prelude.{◌≡◌, int_le, int_lt};
ghost use Rattle.rng_model.specs.datatypes.Facets.{passes};
ghost use Rattle.rng_model.specs.xsd.Numbers.{written_integer};
ghost use Rattle.xsd_types.specs.plain.Digits.{IsNumeral, value_of};
ghost use Rattle.xsd_types.specs.views.Finding.{IsMadeOf};

use crate::fault::TypeFault;
use crate::numerals::{Numeral, is_at_most, is_below, read_numeral};
use std::alloc::Global;
use std::marker::Model;

/// An integer of any number of digits that bounds others. Contracts see the integer.
#[derive(Drop)]
pub struct Bound {
    negative: bool,
    digits: Vec<u8>,
}

impl Model for Bound {
    ghost use Rattle.std.specs.Prelude.{ℤ};
    ghost use Rattle.xsd_types.specs.plain.Digits.{IsSigned, signed_value};

    ghost Value = { ℤ };

    ghost view = { λ b. signed_value b.negative b.digits.items };

    ghost invariant = { λ b. IsSigned b.negative b.digits.items };
}

impl Bound {
    // the integer that the text writes, if it does
    pub(crate) fn read(alloc: Global, text: &str) -> Result<Option<Bound>, TypeFault>
        ensures { IsMadeOf (λ found. found) (written_integer text.now) result }
    {
        match read_numeral(text) {
            Some(n) => Ok(Some(Bound::of(alloc, &n)?)),
            None => Ok(None),
        }
    }

    // a copy of the number
    fn of(alloc: Global, n: &Numeral<'_>) -> Result<Bound, TypeFault>
        requires { IsNumeral n.now }
        ensures { IsMadeOf (λ made. made) (value_of n.now) result }
    {
        match n.digits.to_vec(alloc) {
            Ok(digits) => Ok(Bound {
                negative: n.negative,
                digits,
            }),
            Err(_) => Err(TypeFault::Memory),
        }
    }

    // its sign and digits
    fn numeral(&self) -> Numeral<'_>
        ensures value { value_of result ≡ self.now }
        ensures numeral { IsNumeral result }
    {
        Numeral {
            negative: self.negative,
            digits: self.digits.as_slice(),
        }
    }

    // whether it is at most the other one
    pub(crate) fn is_at_most(&self, other: &Bound) -> bool
        ensures { result ≡ int_le self.now other.now }
    {
        is_at_most(&self.numeral(), &other.numeral())
    }

    // whether it is less than the other one
    pub(crate) fn is_below(&self, other: &Bound) -> bool
        ensures { result ≡ int_lt self.now other.now }
    {
        is_below(&self.numeral(), &other.numeral())
    }
}

// whether the number is at least the bound, if there is one
pub(crate) fn is_no_less(n: &Numeral<'_>, least: &Option<Bound>) -> bool
    requires { IsNumeral n.now }
    ensures { result ≡ passes (λ b. int_le b (value_of n.now)) least.now }
{
    match least {
        Some(least) => is_at_most(&least.numeral(), n),
        None => true,
    }
}

pub(crate) fn is_no_more(n: &Numeral<'_>, greatest: &Option<Bound>) -> bool
    requires { IsNumeral n.now }
    ensures { result ≡ passes (λ b. int_le (value_of n.now) b) greatest.now }
{
    match greatest {
        Some(greatest) => is_at_most(n, &greatest.numeral()),
        None => true,
    }
}

pub(crate) fn is_more(n: &Numeral<'_>, below: &Option<Bound>) -> bool
    requires { IsNumeral n.now }
    ensures { result ≡ passes (λ b. int_lt b (value_of n.now)) below.now }
{
    match below {
        Some(below) => is_below(&below.numeral(), n),
        None => true,
    }
}

pub(crate) fn is_less(n: &Numeral<'_>, above: &Option<Bound>) -> bool
    requires { IsNumeral n.now }
    ensures { result ≡ passes (λ b. int_lt (value_of n.now) b) above.now }
{
    match above {
        Some(above) => is_below(n, &above.numeral()),
        None => true,
    }
}
