// `decimal` with its facets.
ghost use Rattle.std.specs.Prelude.{◌≡◌, ◌&&◌, map};
ghost use Rattle.rng_model.specs.datatypes.DatatypeViews.{parameter_of};
ghost use Rattle.rng_model.specs.datatypes.Datatypes.{is_allowed_by, are_equal_by};
ghost use Rattle.rng_model.specs.datatypes.Facets.{passes};
ghost use Rattle.rng_model.specs.datatypes.Texts.{are_equal};
ghost use Rattle.rng_model.specs.xsd.primitives.Decimals.{is_within_digits, is_within_decimal_facets, are_digits_in_order};
ghost use Rattle.rng_model.specs.xsd.primitives.Decimals as written;
ghost use Rattle.rng_model.specs.xsd.primitives.Types.{value_if, with_decimal_facets};
ghost use Rattle.rng_model.specs.xsd.primitives.Values as values;
ghost use Rattle.xsd_types.specs.views.Finding.{IsMade};
ghost use Rattle.xsd_types.specs.views.Ordered.{decimal_by, digits_of, decimal_facets_of};

use crate::counts::{count, count_named};
use crate::fault::TypeFault;
use rng_types::is_once;
use std::alloc::Global;
use xsd_decimals::{Decimal, DecimalBound, Decimals};
use xsd_limits::{Limits, OtherFacets};

/// The facets on digits.
struct DigitFacets;

impl OtherFacets for DigitFacets {
    ghost facets = { written.decimal_facets };

    fn is_facet(param: &(String, String)) -> bool {
        match param.0.as_str() {
            "totalDigits" => count(param.1.as_str(), 1).is_some(),
            "fractionDigits" => count(param.1.as_str(), 0).is_some(),
            _ => false,
        }
    }

    fn are_once(params: &[(String, String)]) -> bool {
        is_once(params, "totalDigits") && is_once(params, "fractionDigits")
    }
}

/// The most digits of a number, and the most of those behind the point, each if a parameter sets it.
///
/// XML Schema Part 2, sections 4.3.11 and 4.3.12.
#[derive(Clone, Copy)]
pub struct DigitLimits {
    pub total: Option<usize>,
    pub fraction: Option<usize>,
}

impl DigitLimits {
    // the numbers that the parameters write
    fn of(params: &[(String, String)]) -> DigitLimits
        ensures { digits_of result ≡ written.digits_of (map parameter_of params.now) }
    {
        DigitLimits {
            total: count_named(params, "totalDigits", 1),
            fraction: count_named(params, "fractionDigits", 0),
        }
    }

    // whether there are not more digits behind the point than there are digits
    fn are_in_order(&self) -> bool
        ensures { result ≡ are_digits_in_order (digits_of self.now) }
    {
        match (self.fraction, self.total) {
            (Some(fraction), Some(total)) => fraction <= total,
            _ => true,
        }
    }

    // whether the number has no more digits
    fn allow(&self, n: &Decimal<'_>) -> bool
        ensures { result ≡ is_within_digits (digits_of self.now) n.now }
    {
        self.allow_total(n) && self.allow_fraction(n)
    }

    fn allow_total(&self, n: &Decimal<'_>) -> bool
        ensures { result ≡ passes (λ total. written.has_total_digits total n.now) self.now.total }
    {
        match self.total {
            Some(total) => n.has_total_digits(total),
            None => true,
        }
    }

    fn allow_fraction(&self, n: &Decimal<'_>) -> bool
        ensures { result ≡ passes (λ fraction. written.has_fraction_digits fraction n.now) self.now.fraction }
    {
        match self.fraction {
            Some(fraction) => n.has_fraction_digits(fraction),
            None => true,
        }
    }
}

/// `decimal`: an optional sign and digits, which a point may separate, within the facets. Texts that write the same number are
/// equal.
///
/// XML Schema Part 2, section 3.2.3. A number may have any number of digits.
#[derive(Drop)]
pub struct BoundedDecimal {
    pub limits: Limits<DecimalBound>,
    pub digits: DigitLimits,
}

impl BoundedDecimal {
    // the type with the facets that the parameters write
    pub(crate) fn find(
        alloc: Global,
        params: &[(String, String)],
    ) -> Result<BoundedDecimal, TypeFault>
        ensures { IsMade decimal_by (with_decimal_facets (map parameter_of params.now)) result }
    {
        let digits = DigitLimits::of(params);
        match Limits::find::<Decimals, DigitFacets>(alloc, &Decimals, params) {
            Ok(Some(limits)) if digits.are_in_order() => Ok(BoundedDecimal { limits, digits }),
            Ok(_) => Err(TypeFault::BadParameter),
            Err(_) => Err(TypeFault::Memory),
        }
    }

    // whether the text writes a number within the facets
    pub(crate) fn allows(&self, text: &str) -> bool
        ensures { result ≡ is_allowed_by (decimal_by self.now) text.now }
    {
        match Decimal::read(text) {
            Some(n) => self.allows_number(&n),
            None => false,
        }
    }

    // whether both texts write the same number, and it is within the facets
    #[tactic(auto, using(crate::proofs::Values::no_right))]
    pub(crate) fn equal(&self, a: &str, b: &str) -> bool
        ensures { result ≡ are_equal_by (decimal_by self.now) a.now b.now }
    {
        let Some(a) = Decimal::read(a) else {
            return false;
        };
        match Decimal::read(b) {
            Some(b) => self.equal_numbers(&a, &b),
            None => false,
        }
    }

    // whether the two numbers are the same, and it is within the facets
    #[tactic(auto, using(crate::proofs::OneValue::decimals_if))]
    fn equal_numbers(&self, a: &Decimal<'_>, b: &Decimal<'_>) -> bool
        ensures { result ≡ are_equal (value_if values.decimal (is_within_decimal_facets (decimal_facets_of self.now)) a.now) (value_if values.decimal (is_within_decimal_facets (decimal_facets_of self.now)) b.now) }
    {
        a.is_same(b) && self.allows_number(a)
    }

    // whether the number is within the facets
    fn allows_number(&self, n: &Decimal<'_>) -> bool
        ensures { result ≡ is_within_decimal_facets (decimal_facets_of self.now) n.now }
    {
        self.limits.allow(n) && self.digits.allow(n)
    }
}
