// The four bounds that parameters set to integers.
ghost use Rattle.std.specs.Prelude.{◌≡◌, not, int_le, int_lt, map};
ghost use Rattle.rng_model.specs.datatypes.DatatypeViews.{parameter_of};
ghost use Rattle.rng_model.specs.xsd.Facets.{clash, written};
ghost use Rattle.rng_model.specs.xsd.Integers.{integers};
ghost use Rattle.rng_model.specs.xsd.Limits.{is_within_limits, is_above_lower, is_below_upper, is_one, are_single, are_in_order};
ghost use Rattle.rng_model.specs.xsd.Limits.{is_inclusive_in_order, is_exclusive_in_order, limits_of};
ghost use Rattle.rng_model.specs.xsd.Numbers.{written_integer};
ghost use Rattle.xsd_types.specs.plain.Digits.{IsNumeral, value_of};
ghost use Rattle.xsd_types.specs.views.Finding.{IsMadeOf};
ghost use Rattle.xsd_types.specs.views.Numbers as view;
ghost use Rattle.xsd_types.specs.views.Numbers.{any_range};

use crate::bound::{Bound, is_less, is_more, is_no_less, is_no_more};
use crate::fault::TypeFault;
use crate::numerals::Numeral;
use crate::range::read_bound;
use rng_types::value_named;
use std::alloc::Global;

/// Bounds on integers, each if a parameter sets it.
///
/// XML Schema Part 2, sections 4.3.7 to 4.3.10.
#[derive(Drop)]
pub struct Limits {
    pub min_inclusive: Option<Bound>,
    pub min_exclusive: Option<Bound>,
    pub max_inclusive: Option<Bound>,
    pub max_exclusive: Option<Bound>,
}

impl Limits {
    // the bounds that the parameters write
    pub(crate) fn of(alloc: Global, params: &[(String, String)]) -> Result<Limits, TypeFault>
        ensures { IsMadeOf view.limits_of (limits_of (integers any_range) (map parameter_of params.now)) result }
    {
        Ok(Limits {
            min_inclusive: bound_named(alloc, params, "minInclusive")?,
            min_exclusive: bound_named(alloc, params, "minExclusive")?,
            max_inclusive: bound_named(alloc, params, "maxInclusive")?,
            max_exclusive: bound_named(alloc, params, "maxExclusive")?,
        })
    }

    // whether the number is within the bounds
    pub(crate) fn allow(&self, n: &Numeral<'_>) -> bool
        requires { IsNumeral n.now }
        ensures { result ≡ is_within_limits (integers any_range) (view.limits_of self.now) (value_of n.now) }
    {
        self.allow_above(n) && self.allow_below(n)
    }

    // whether the number is not below the lower bounds
    fn allow_above(&self, n: &Numeral<'_>) -> bool
        requires { IsNumeral n.now }
        ensures { result ≡ is_above_lower (integers any_range) (view.limits_of self.now) (value_of n.now) }
    {
        is_no_less(n, &self.min_inclusive) && is_more(n, &self.min_exclusive)
    }

    // whether the number is not above the upper bounds
    fn allow_below(&self, n: &Numeral<'_>) -> bool
        requires { IsNumeral n.now }
        ensures { result ≡ is_below_upper (integers any_range) (view.limits_of self.now) (value_of n.now) }
    {
        is_no_more(n, &self.max_inclusive) && is_less(n, &self.max_exclusive)
    }

    // whether there is one bound at each end at most
    pub(crate) fn are_single(&self) -> bool
        ensures { result ≡ are_single (view.limits_of self.now) }
    {
        is_one(&self.min_inclusive, &self.min_exclusive)
            && is_one(&self.max_inclusive, &self.max_exclusive)
    }

    // whether the lower bound is not above the upper one
    pub(crate) fn are_in_order(&self) -> bool
        ensures { result ≡ are_in_order (integers any_range) (view.limits_of self.now) }
    {
        self.is_inclusive_in_order() && self.is_exclusive_in_order()
    }

    fn is_inclusive_in_order(&self) -> bool
        ensures { result ≡ is_inclusive_in_order (integers any_range) (view.limits_of self.now) }
    {
        is_at_most(&self.min_inclusive, &self.max_inclusive)
            && is_below(&self.min_inclusive, &self.max_exclusive)
    }

    fn is_exclusive_in_order(&self) -> bool
        ensures { result ≡ is_exclusive_in_order (integers any_range) (view.limits_of self.now) }
    {
        is_below(&self.min_exclusive, &self.max_inclusive)
            && is_at_most(&self.min_exclusive, &self.max_exclusive)
    }
}

// whether one of the two is not there
fn is_one(a: &Option<Bound>, b: &Option<Bound>) -> bool
    ensures { result ≡ is_one a.now b.now }
{
    a.is_none() || b.is_none()
}

// whether the first bound is at most the second one, if both are there
fn is_at_most(a: &Option<Bound>, b: &Option<Bound>) -> bool
    ensures { result ≡ not (clash int_le a.now b.now) }
{
    match (a, b) {
        (Some(a), Some(b)) => a.is_at_most(b),
        _ => true,
    }
}

fn is_below(a: &Option<Bound>, b: &Option<Bound>) -> bool
    ensures { result ≡ not (clash int_lt a.now b.now) }
{
    match (a, b) {
        (Some(a), Some(b)) => a.is_below(b),
        _ => true,
    }
}

// the integer that the parameter of that name writes
fn bound_named(
    alloc: Global,
    params: &[(String, String)],
    name: &str,
) -> Result<Option<Bound>, TypeFault>
    ensures { IsMadeOf (λ found. found) (written written_integer name.now (map parameter_of params.now)) result }
{
    read_bound(alloc, value_named(params, name))
}
