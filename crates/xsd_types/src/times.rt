// Times of day that bound others.
ghost use Rattle.std.specs.Prelude.{◌≡◌};
ghost use Rattle.rng_model.specs.xsd.primitives.Moments.{times};
ghost use Rattle.rng_model.specs.xsd.primitives.Values.{time};
ghost use Rattle.rng_model.specs.xsd.primitives.Zones.{is_before};

use crate::limited::{OrderedValue, ValueType};
use rng_model::OutOfMemory;
use std::alloc::Global;
use std::marker::Model;
use xsd_limits::{Bound, OrderedType};
use xsd_moments::Time;

/// A time of day, as a bound or as the value of a text. Contracts see its moment on one arbitrary day.
///
/// XML Schema Part 2, section 3.2.8.
#[derive(Drop)]
pub struct TimeBound {
    time: Time,
}

impl Model for TimeBound {
    ghost use Rattle.rng_model.specs.xsd.primitives.Zones as zones;
    ghost use Rattle.xsd_moments.specs.Views.{time_view};

    ghost Value = { zones.Moment };

    ghost view = { λ b. time_view b.time };
}

impl Bound for TimeBound {
    ghost at_most = { times.is_at_most };

    ghost less = { is_before };

    fn is_at_most(&self, other: &TimeBound) -> bool {
        self.time.is_at_most(&other.time)
    }

    fn is_less(&self, other: &TimeBound) -> bool {
        self.time.is_less(&other.time)
    }
}

impl OrderedValue for TimeBound {
    ghost value = { time };

    fn is_same(&self, other: &TimeBound) -> bool {
        self.time.equal(&other.time)
    }
}

/// The type `time`.
#[derive(Clone, Copy, Debug)]
pub struct Times;

impl OrderedType<TimeBound> for Times {
    ghost value_of = { λ t. times.value_of };

    fn is_value(&self, text: &str) -> bool {
        Time::read(text).is_some()
    }

    fn read(&self, _alloc: Global, text: &str) -> Result<Option<TimeBound>, OutOfMemory> {
        Ok(self.value(text))
    }
}

impl ValueType<TimeBound> for Times {
    fn value(&self, text: &str) -> Option<TimeBound> {
        match Time::read(text) {
            Some(time) => Some(TimeBound { time }),
            None => None,
        }
    }
}
