// `integer` and the types below it.
ghost use Rattle.std.specs.Prelude.{◌≡◌, map};
ghost use Rattle.rng_model.specs.datatypes.DatatypeViews.{parameter_of};
ghost use Rattle.rng_model.specs.datatypes.Datatypes.{is_allowed_by, are_equal_by};
ghost use Rattle.rng_model.specs.datatypes.Texts.{are_equal};
ghost use Rattle.rng_model.specs.xsd.Datatypes.{with_number_facets};
ghost use Rattle.rng_model.specs.xsd.Integers.{is_within_facets};
ghost use Rattle.xsd_types.specs.plain.Digits.{IsNumeral, value_of};
ghost use Rattle.xsd_types.specs.views.Finding.{IsMade};
ghost use Rattle.xsd_types.specs.views.Numbers.{range_of, written_range, facets_of, number_by, number_meaning};

use crate::fault::TypeFault;
use crate::number_facets::{NumberFacets, number_facets};
use crate::numerals::{Numeral, is_same, read_numeral};
use crate::range::{Range, WrittenRange};
use std::alloc::Global;

/// `integer` or a type below it: an optional sign and digits, with or without blanks around them, within the range of
/// the type and the facets. Texts that write the same number are equal.
///
/// XML Schema Part 2, sections 3.3.13 to 3.3.25. A number may have any number of digits.
#[derive(Drop)]
pub struct Integer {
    pub range: Range,
    pub facets: NumberFacets,
}

impl Integer {
    // the integers of the range, with the facets that the parameters write
    pub(crate) fn find(
        alloc: Global,
        range: &WrittenRange,
        params: &[(String, String)],
    ) -> Result<Integer, TypeFault>
        ensures { IsMade number_meaning (with_number_facets (written_range range.now) (map parameter_of params.now)) result }
    {
        let range = Range::read(alloc, range)?;
        let facets = number_facets(alloc, &range, params)?;
        Ok(Integer { range, facets })
    }

    // whether the text writes such a number
    pub(crate) fn allows(&self, text: &str) -> bool
        ensures { result ≡ is_allowed_by (number_meaning self.now) text.now }
    {
        match read_numeral(text) {
            Some(n) => self.allows_number(&n),
            None => false,
        }
    }

    // whether both texts write the same number, and it is such a number
    #[tactic(auto, using(crate::proofs::Values::no_right))]
    pub(crate) fn equal(&self, a: &str, b: &str) -> bool
        ensures { result ≡ are_equal_by (number_meaning self.now) a.now b.now }
    {
        let Some(a) = read_numeral(a) else {
            return false;
        };
        match read_numeral(b) {
            Some(b) => self.equal_numbers(&a, &b),
            None => false,
        }
    }

    // whether the two numbers are the same, and it is such a number
    fn equal_numbers(&self, a: &Numeral<'_>, b: &Numeral<'_>) -> bool
        requires left { IsNumeral a.now }
        requires right { IsNumeral b.now }
        ensures { result ≡ are_equal (number_by self.now (value_of a.now)) (number_by self.now (value_of b.now)) }
    {
        is_same(a, b) && self.allows_number(a)
    }

    // whether the number is within the range and the facets
    fn allows_number(&self, n: &Numeral<'_>) -> bool
        requires { IsNumeral n.now }
        ensures { result ≡ is_within_facets (range_of self.now.range) (facets_of self.now.facets) (value_of n.now) }
    {
        self.range.allows(n) && self.facets.allow(n)
    }
}
