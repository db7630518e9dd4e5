// Durations that bound others.
ghost use Rattle.std.specs.Prelude.{◌≡◌};
ghost use Rattle.rng_model.specs.xsd.primitives.Values.{duration};
ghost use Rattle.rng_model.specs.xsd.primitives.Durations.{durations, is_less};

use crate::limited::{OrderedValue, ValueType};
use rng_model::OutOfMemory;
use std::alloc::Global;
use std::marker::Model;
use xsd_durations::Duration;
use xsd_limits::{Bound, OrderedType};

/// A duration, as a bound or as the value of a text. Contracts see the duration.
///
/// XML Schema Part 2, section 3.2.6.
#[derive(Drop)]
pub struct DurationBound {
    duration: Duration,
}

impl Model for DurationBound {
    ghost use Rattle.rng_model.specs.xsd.primitives.Durations as written;
    ghost use Rattle.xsd_durations.specs.Views.{duration_view};

    ghost Value = { written.Duration };

    ghost view = { λ b. duration_view b.duration };
}

impl Bound for DurationBound {
    ghost at_most = { durations.is_at_most };

    ghost less = { is_less };

    fn is_at_most(&self, other: &DurationBound) -> bool {
        self.duration.is_at_most(&other.duration)
    }

    fn is_less(&self, other: &DurationBound) -> bool {
        self.duration.is_less(&other.duration)
    }
}

impl OrderedValue for DurationBound {
    ghost value = { duration };

    fn is_same(&self, other: &DurationBound) -> bool {
        self.duration.equal(&other.duration)
    }
}

/// The type `duration`.
#[derive(Clone, Copy, Debug)]
pub struct Durations;

impl OrderedType<DurationBound> for Durations {
    ghost value_of = { λ t. durations.value_of };

    fn is_value(&self, text: &str) -> bool {
        Duration::read(text).is_some()
    }

    fn read(&self, _alloc: Global, text: &str) -> Result<Option<DurationBound>, OutOfMemory> {
        Ok(self.value(text))
    }
}

impl ValueType<DurationBound> for Durations {
    fn value(&self, text: &str) -> Option<DurationBound> {
        match Duration::read(text) {
            Some(duration) => Some(DurationBound { duration }),
            None => None,
        }
    }
}
