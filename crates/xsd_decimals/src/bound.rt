// Decimals that schemas give as bounds.
ghost use Rattle.std.specs.Prelude.{◌≡◌, IfOk};
ghost use Rattle.rng_model.specs.xsd.primitives.Decimals.{decimals};
ghost use Rattle.xsd_decimals.specs.plain.Numbers.{IsNumber, value_of};

use crate::decimal::Decimal;
use crate::number::{Number, is_at_most, is_below};
use crate::reading::read_number;
use rng_model::OutOfMemory;
use std::alloc::Global;
use std::marker::Model;
use xsd_limits::{Bound, BoundedBy, OrderedType};

/// A decimal with any number of digits that bounds others. It owns its digits. Contracts see the number.
#[derive(Drop)]
pub struct DecimalBound {
    negative: bool,
    whole: Vec<u8>,
    fraction: Vec<u8>,
}

impl Model for DecimalBound {
    ghost use Rattle.rng_model.specs.xsd.primitives.Decimals as written;
    ghost use Rattle.xsd_decimals.specs.plain.Numbers.{IsWritten, number_of};

    ghost Value = { written.Decimal };

    ghost view = { λ b. number_of b.negative b.whole.items b.fraction.items };

    ghost invariant = { λ b. IsWritten b.negative b.whole.items b.fraction.items };
}

impl DecimalBound {
    // a copy of the number
    fn of(alloc: Global, n: &Number<'_>) -> Result<DecimalBound, OutOfMemory>
        requires { IsNumber n.now }
        ensures { IfOk result (λ made. made ≡ value_of n.now) }
    {
        let whole = n.whole.to_vec(alloc)?;
        let fraction = n.fraction.to_vec(alloc)?;
        Ok(DecimalBound {
            negative: n.negative,
            whole,
            fraction,
        })
    }

    // its sign and digits
    fn number(&self) -> Number<'_>
        ensures value { value_of result ≡ self.now }
        ensures number { IsNumber result }
    {
        Number {
            negative: self.negative,
            whole: self.whole.as_slice(),
            fraction: self.fraction.as_slice(),
        }
    }
}

impl Bound for DecimalBound {
    ghost at_most = { decimals.is_at_most };

    ghost less = { decimals.is_less };

    fn is_at_most(&self, other: &DecimalBound) -> bool {
        is_at_most(&self.number(), &other.number())
    }

    fn is_less(&self, other: &DecimalBound) -> bool {
        is_below(&self.number(), &other.number())
    }
}

/// The type `decimal`, without facets.
///
/// XML Schema Part 2, section 3.2.3.
#[derive(Clone, Copy, Debug)]
pub struct Decimals;

impl OrderedType<DecimalBound> for Decimals {
    ghost value_of = { λ t. decimals.value_of };

    fn is_value(&self, text: &str) -> bool {
        read_number(text).is_some()
    }

    fn read(&self, alloc: Global, text: &str) -> Result<Option<DecimalBound>, OutOfMemory> {
        match read_number(text) {
            Some(n) => Ok(Some(DecimalBound::of(alloc, &n)?)),
            None => Ok(None),
        }
    }
}

impl<'a> BoundedBy<DecimalBound> for Decimal<'a> {
    ghost value = { λ d. d };

    fn is_at_least(&self, bound: &DecimalBound) -> bool {
        is_at_most(&bound.number(), &self.number)
    }

    fn is_above(&self, bound: &DecimalBound) -> bool {
        is_below(&bound.number(), &self.number)
    }

    fn is_at_most(&self, bound: &DecimalBound) -> bool {
        is_at_most(&self.number, &bound.number())
    }

    fn is_below(&self, bound: &DecimalBound) -> bool {
        is_below(&self.number, &bound.number())
    }
}
