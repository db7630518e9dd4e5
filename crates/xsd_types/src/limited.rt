// Ordered types whose values hold no text, and that take the four bounds.
ghost use Rattle.std.specs.Prelude.{◌≡◌, map};
ghost use Rattle.rng_model.specs.datatypes.DatatypeViews.{parameter_of};
ghost use Rattle.rng_model.specs.datatypes.Datatypes.{is_allowed_by, are_equal_by};
ghost use Rattle.rng_model.specs.datatypes.Texts.{Value, same_value};
ghost use Rattle.rng_model.specs.xsd.primitives.Types.{with_limits};
ghost use Rattle.xsd_limits.specs.views.Limits.{ordered};
ghost use Rattle.xsd_types.specs.views.Finding.{IsMade};
ghost use Rattle.xsd_types.specs.views.Ordered.{limited_by};

use crate::fault::TypeFault;
use std::alloc::Global;
use xsd_limits::{Bound, Limits, NoFacets, OrderedType};

/// A value of an ordered type that holds no text.
pub trait OrderedValue: Bound {
    // the value of the texts that write it
    ghost value: { Self → Value };

    /// Returns whether the two are the same value. In constant time.
    fn is_same(&self, other: &Self) -> bool
        ensures { result ≡ same_value (value self.now) (value other.now) };
}

/// An ordered type whose values hold no text.
pub trait ValueType<B: OrderedValue>: OrderedType<B> + Copy {
    /// Returns the value that the text writes, if it writes one. Allocates nothing.
    fn value(&self, text: &str) -> Option<B>
        ensures { result ≡ Self.value_of self.now text.now };
}

/// An ordered type with the bounds that parameters set to its values.
///
/// XML Schema Part 2, sections 3.2.4 to 3.2.14 and 4.3.7 to 4.3.10.
#[derive(Drop)]
pub struct Limited<B: OrderedValue, T: ValueType<B>> {
    pub datatype: T,
    pub limits: Limits<B>,
}

impl<B: OrderedValue, T: ValueType<B>> Limited<B, T> {
    // the type with the bounds that the parameters write
    pub(crate) fn find(
        alloc: Global,
        datatype: T,
        params: &[(String, String)],
    ) -> Result<Limited<B, T>, TypeFault>
        ensures { IsMade (limited_by B.value B.at_most B.less T.value_of) (with_limits B.value (ordered B.at_most B.less (T.value_of datatype)) (map parameter_of params.now)) result }
    {
        match Limits::find::<T, NoFacets>(alloc, &datatype, params) {
            Ok(Some(limits)) => Ok(Limited { datatype, limits }),
            Ok(None) => Err(TypeFault::BadParameter),
            Err(_) => Err(TypeFault::Memory),
        }
    }

    // whether the text writes a value within the bounds
    pub(crate) fn allows(&self, text: &str) -> bool
        ensures { result ≡ is_allowed_by (limited_by B.value B.at_most B.less T.value_of self.now) text.now }
    {
        match self.datatype.value(text) {
            Some(value) => self.limits.allow(&value),
            None => false,
        }
    }

    // whether both texts write the same value, each within the bounds
    pub(crate) fn equal(&self, a: &str, b: &str) -> bool
        ensures { result ≡ are_equal_by (limited_by B.value B.at_most B.less T.value_of self.now) a.now b.now }
    {
        let Some(a) = self.datatype.value(a) else {
            return false;
        };
        match self.datatype.value(b) {
            Some(b) => a.is_same(&b) && self.limits.allow(&a) && self.limits.allow(&b),
            None => false,
        }
    }
}
