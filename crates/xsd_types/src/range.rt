// The integers from a least one to a greatest one.
ghost use Rattle.std.specs.Prelude.{◌≡◌, option_copied};
ghost use Rattle.std.specs.Option.{option_and_then};
ghost use Rattle.rng_model.specs.datatypes.Facets.{is_inside};
ghost use Rattle.rng_model.specs.xsd.Numbers.{written_integer};
ghost use Rattle.xsd_types.specs.plain.Digits.{IsNumeral, value_of};
ghost use Rattle.xsd_types.specs.views.Finding.{IsMadeOf};
ghost use Rattle.xsd_types.specs.views.Numbers.{range_of, written_range};

use crate::bound::{Bound, is_no_less, is_no_more};
use crate::fault::TypeFault;
use crate::numerals::Numeral;
use std::alloc::Global;

/// The least and the greatest integer of a type, as they are written, if there is one. Both are inclusive.
#[derive(Clone, Copy)]
pub(crate) struct WrittenRange {
    pub least: Option<&'static str>,
    pub greatest: Option<&'static str>,
}

/// The least and the greatest integer of a type, if there is one. Both are inclusive.
///
/// XML Schema Part 2, sections 3.3.13 to 3.3.25.
#[derive(Drop)]
pub struct Range {
    pub least: Option<Bound>,
    pub greatest: Option<Bound>,
}

impl Range {
    // the range that is written so
    pub(crate) fn read(alloc: Global, range: &WrittenRange) -> Result<Range, TypeFault>
        ensures { IsMadeOf range_of (written_range range.now) result }
    {
        Ok(Range {
            least: read_bound(alloc, range.least)?,
            greatest: read_bound(alloc, range.greatest)?,
        })
    }

    // whether the number is within the range
    pub(crate) fn allows(&self, n: &Numeral<'_>) -> bool
        requires { IsNumeral n.now }
        ensures { result ≡ is_inside (range_of self.now) (value_of n.now) }
    {
        is_no_less(n, &self.least) && is_no_more(n, &self.greatest)
    }
}

// the integer that the text writes, if there is one
pub(crate) fn read_bound(alloc: Global, text: Option<&str>) -> Result<Option<Bound>, TypeFault>
    ensures { IsMadeOf (λ found. found) (option_and_then written_integer (option_copied text.entry)) result }
{
    match text {
        Some(text) => Bound::read(alloc, text),
        None => Ok(None),
    }
}
