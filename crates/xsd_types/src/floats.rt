// Floating-point numbers that bound others.
ghost use Rattle.std.specs.Prelude.{◌≡◌};
ghost use Rattle.std.specs.Float.{binary64};
ghost use Rattle.rng_model.specs.xsd.primitives.Floats.{floats};
ghost use Rattle.rng_model.specs.xsd.primitives.Values.{float};
ghost use Rattle.xsd_floats.specs.views.Values.{format_of};

use crate::limited::{OrderedValue, ValueType};
use rng_model::OutOfMemory;
use std::alloc::Global;
use std::marker::Model;
use xsd_floats::{FloatKind, FloatValue};
use xsd_limits::{Bound, OrderedType};

/// A value of `float` or `double`, as a bound or as the value of a text. Contracts see the number.
///
/// XML Schema Part 2, sections 3.2.4 and 3.2.5.
#[derive(Drop)]
pub struct FloatBound {
    number: FloatValue,
}

impl Model for FloatBound {
    ghost use Rattle.std.specs.Float.{Float};
    ghost use Rattle.xsd_floats.specs.views.Values.{number_of};

    ghost Value = { Float };

    ghost view = { λ b. number_of b.number };
}

impl Bound for FloatBound {
    ghost at_most = { (floats binary64).is_at_most };

    ghost less = { (floats binary64).is_less };

    fn is_at_most(&self, other: &FloatBound) -> bool {
        self.number.is_at_most(other.number)
    }

    fn is_less(&self, other: &FloatBound) -> bool {
        self.number.is_less(other.number)
    }
}

impl OrderedValue for FloatBound {
    ghost value = { float };

    fn is_same(&self, other: &FloatBound) -> bool {
        self.number.equal(other.number)
    }
}

/// `float` or `double`.
#[derive(Clone, Copy, Debug)]
pub struct Floats {
    pub kind: FloatKind,
}

impl OrderedType<FloatBound> for Floats {
    ghost value_of = { λ t. (floats (format_of t.kind)).value_of };

    fn is_value(&self, text: &str) -> bool {
        FloatValue::read(self.kind, text).is_some()
    }

    fn read(&self, _alloc: Global, text: &str) -> Result<Option<FloatBound>, OutOfMemory> {
        Ok(self.value(text))
    }
}

impl ValueType<FloatBound> for Floats {
    fn value(&self, text: &str) -> Option<FloatBound> {
        match FloatValue::read(self.kind, text) {
            Some(number) => Some(FloatBound { number }),
            None => None,
        }
    }
}
