// The parameters that bound integers.
ghost use Rattle.std.specs.Prelude.{◌≡◌, ◌&&◌, ◌++◌, map};
ghost use Rattle.std.specs.List.{list_all};
ghost use Rattle.rng_model.specs.datatypes.DatatypeViews.{parameter_of};
ghost use Rattle.rng_model.specs.datatypes.Facets.{passes};
ghost use Rattle.rng_model.specs.xsd.Facets.{are_facets, is_facet, is_read};
ghost use Rattle.rng_model.specs.xsd.Integers.{integers, digit_facets, has_digits, is_zero_count, written_facets};
ghost use Rattle.rng_model.specs.xsd.Limits.{bound_of, limit_facets, is_within_limits};
ghost use Rattle.rng_model.specs.xsd.Numbers.{count_of};
ghost use Rattle.xsd_types.specs.plain.Digits.{IsNumeral, value_of};
ghost use Rattle.xsd_types.specs.views.Numbers.{any_range, facets_of, limits_of, range_of};
ghost use Rattle.xsd_types.specs.views.Finding.{IsMade};

use crate::counts::{count, count_named};
use crate::fault::TypeFault;
use crate::limits::Limits;
use crate::numerals::{Numeral, has_digits, read_numeral};
use crate::range::Range;
use rng_types::is_once;
use std::alloc::Global;

/// Bounds on integers, and the most digits of a number, each if a parameter sets it.
///
/// XML Schema Part 2, sections 4.3.7 to 4.3.11.
#[derive(Drop)]
pub struct NumberFacets {
    pub limits: Limits,
    pub total_digits: Option<usize>,
}

impl NumberFacets {
    // whether the number is within the facets
    pub(crate) fn allow(&self, n: &Numeral<'_>) -> bool
        requires { IsNumeral n.now }
        ensures { result ≡ (is_within_limits (integers any_range) (limits_of self.now.limits) (value_of n.now) && passes (has_digits (value_of n.now)) self.now.total_digits) }
    {
        self.limits.allow(n) && has_digits(n, self.total_digits)
    }
}

// the facets that the parameters write
#[tactic(auto, unfolding(rng_model::specs::xsd::Limits::written_limits))]
pub(crate) fn number_facets(
    alloc: Global,
    range: &Range,
    params: &[(String, String)],
) -> Result<NumberFacets, TypeFault>
    ensures { IsMade facets_of (written_facets (range_of range.now) (map parameter_of params.now)) result }
{
    if !are_number_facets(range, params) {
        return Err(TypeFault::BadParameter);
    }
    let limits = Limits::of(alloc, params)?;
    if limits.are_single() && limits.are_in_order() {
        Ok(NumberFacets {
            limits,
            total_digits: count_named(params, "totalDigits", 1),
        })
    } else {
        Err(TypeFault::BadParameter)
    }
}

// whether each parameter is one of integers, and none occurs twice
fn are_number_facets(range: &Range, params: &[(String, String)]) -> bool
    ensures { result ≡ are_facets (limit_facets (integers (range_of range.now)) ++ digit_facets) (map parameter_of params.now) }
{
    bound_numbers(range, params)
        && is_once(params, "minInclusive")
        && is_once(params, "minExclusive")
        && is_once(params, "maxInclusive")
        && is_once(params, "maxExclusive")
        && is_once(params, "totalDigits")
        && is_once(params, "fractionDigits")
}

// whether each parameter is one of integers
fn bound_numbers(range: &Range, params: &[(String, String)]) -> bool
    ensures { result ≡ list_all (is_facet (limit_facets (integers (range_of range.now)) ++ digit_facets)) (map parameter_of params.now) }
{
    params.iter().all(|param| is_number_facet(range, param))
}

fn is_number_facet(range: &Range, param: &(String, String)) -> bool
    ensures { result ≡ is_facet (limit_facets (integers (range_of range.now)) ++ digit_facets) (parameter_of param.now) }
{
    match param.0.as_str() {
        "minInclusive" | "minExclusive" | "maxInclusive" | "maxExclusive" => {
            is_bound(range, param.1.as_str())
        }
        "totalDigits" => count(param.1.as_str(), 1).is_some(),
        "fractionDigits" => is_zero_count(param.1.as_str()),
        _ => false,
    }
}

// whether the text writes a number of the range
fn is_bound(range: &Range, text: &str) -> bool
    ensures { result ≡ is_read (bound_of (integers (range_of range.now))) text.now }
{
    match read_numeral(text) {
        Some(n) => range.allows(&n),
        None => false,
    }
}

// whether the text writes the number of fraction digits that an integer has
fn is_zero_count(text: &str) -> bool
    ensures { result ≡ is_zero_count (count_of text.now) }
{
    matches!(count(text, 0), Some(0))
}
