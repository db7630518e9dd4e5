// Moments that bound others.
ghost use Rattle.std.specs.Prelude.{◌≡◌, ◌||◌};
ghost use Rattle.rng_model.specs.xsd.primitives.Values.{moment};
ghost use Rattle.rng_model.specs.xsd.primitives.Zones.{is_before, same_moment};
ghost use Rattle.xsd_moments.specs.Views.{ordered_of};

use crate::limited::{OrderedValue, ValueType};
use rng_model::OutOfMemory;
use std::alloc::Global;
use std::marker::Model;
use xsd_limits::{Bound, OrderedType};
use xsd_moments::{Moment, MomentKind};

/// A moment, as a bound or as the value of a text. Contracts see the moment.
///
/// XML Schema Part 2, section 3.2.7.
#[derive(Drop)]
pub struct MomentBound {
    moment: Moment,
}

impl Model for MomentBound {
    ghost use Rattle.rng_model.specs.xsd.primitives.Zones as zones;
    ghost use Rattle.xsd_moments.specs.Views.{moment_of};

    ghost Value = { zones.Moment };

    ghost view = { λ b. moment_of b.moment };
}

impl Bound for MomentBound {
    ghost at_most = { λ a b. same_moment a b || is_before a b };

    ghost less = { is_before };

    fn is_at_most(&self, other: &MomentBound) -> bool {
        self.moment.is_at_most(&other.moment)
    }

    fn is_less(&self, other: &MomentBound) -> bool {
        self.moment.is_less(&other.moment)
    }
}

impl OrderedValue for MomentBound {
    ghost value = { moment };

    fn is_same(&self, other: &MomentBound) -> bool {
        self.moment.equal(&other.moment)
    }
}

/// A type whose values are moments.
#[derive(Clone, Copy, Debug)]
pub struct Moments {
    pub kind: MomentKind,
}

impl OrderedType<MomentBound> for Moments {
    ghost value_of = { λ t. (ordered_of t.kind).value_of };

    fn is_value(&self, text: &str) -> bool {
        Moment::read(self.kind, text).is_some()
    }

    fn read(&self, _alloc: Global, text: &str) -> Result<Option<MomentBound>, OutOfMemory> {
        Ok(self.value(text))
    }
}

impl ValueType<MomentBound> for Moments {
    fn value(&self, text: &str) -> Option<MomentBound> {
        match Moment::read(self.kind, text) {
            Some(moment) => Some(MomentBound { moment }),
            None => None,
        }
    }
}
