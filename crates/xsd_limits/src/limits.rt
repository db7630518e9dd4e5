// The four bounds on the values of an ordered type.
ghost use Rattle.std.specs.Prelude.{◌≡◌, IfOk, not, map, option_copied};
ghost use Rattle.std.specs.Option.{option_and_then, option_map};
ghost use Rattle.rng_model.specs.datatypes.DatatypeViews.{parameter_of};
ghost use Rattle.rng_model.specs.datatypes.Facets.{passes};
ghost use Rattle.rng_model.specs.xsd.Facets.{clash, written};
ghost use Rattle.rng_model.specs.xsd.Limits.{is_within_limits, is_above_lower, is_below_upper, is_one, are_single, are_in_order};
ghost use Rattle.rng_model.specs.xsd.Limits.{is_inclusive_in_order, is_exclusive_in_order, written_limits};
ghost use Rattle.rng_model.specs.xsd.Limits as bounds;
ghost use Rattle.xsd_limits.specs.views.Limits.{limits_of, nothing, ordered};

use crate::bound::{Bound, BoundedBy, OrderedType};
use crate::facets::{OtherFacets, are_facets};
use rng_model::OutOfMemory;
use rng_types::value_named;
use std::alloc::Global;

/// Bounds on the values of an ordered type, each if a parameter sets it.
///
/// XML Schema Part 2, sections 4.3.7 to 4.3.10.
#[derive(Drop)]
pub struct Limits<B: Bound> {
    pub min_inclusive: Option<B>,
    pub min_exclusive: Option<B>,
    pub max_inclusive: Option<B>,
    pub max_exclusive: Option<B>,
}

impl<B: Bound> Limits<B> {
    /// Returns the bounds that the parameters write, if the type takes them, and `None` if it does not: a parameter is
    /// neither a bound nor one of the other facets, or occurs twice, or its text is no value of it; two bounds stand at
    /// one end, or the lower one is above the upper one. A few passes over the parameters.
    ///
    /// # Errors
    ///
    /// Returns `OutOfMemory` if memory is out, and in no other case.
    #[tactic(auto, unfolding(rng_model::specs::xsd::Limits::written_limits))]
    pub fn find<T: OrderedType<B>, F: OtherFacets>(
        alloc: Global,
        datatype: &T,
        params: &[(String, String)],
    ) -> Result<Option<Limits<B>>, OutOfMemory>
        ensures { IfOk result (λ found. option_map limits_of found ≡ written_limits (ordered B.at_most B.less (T.value_of datatype.now)) F.facets (map parameter_of params.now)) }
    {
        if !are_facets::<B, T, F>(datatype, params) {
            return Ok(None);
        }
        let limits = Limits::of(alloc, datatype, params)?;
        if limits.are_single() && limits.are_in_order() {
            Ok(Some(limits))
        } else {
            Ok(None)
        }
    }

    // the bounds that the parameters write
    fn of<T: OrderedType<B>>(
        alloc: Global,
        datatype: &T,
        params: &[(String, String)],
    ) -> Result<Limits<B>, OutOfMemory>
        ensures { IfOk result (λ made. limits_of made ≡ bounds.limits_of (ordered B.at_most B.less (T.value_of datatype.now)) (map parameter_of params.now)) }
    {
        Ok(Limits {
            min_inclusive: bound_named(alloc, datatype, params, "minInclusive")?,
            min_exclusive: bound_named(alloc, datatype, params, "minExclusive")?,
            max_inclusive: bound_named(alloc, datatype, params, "maxInclusive")?,
            max_exclusive: bound_named(alloc, datatype, params, "maxExclusive")?,
        })
    }

    /// Returns whether the value is within the bounds. One that is not comparable with a bound is not. A comparison with
    /// each bound. Allocates nothing.
    pub fn allow<V: BoundedBy<B>>(&self, value: &V) -> bool
        ensures { result ≡ is_within_limits (ordered B.at_most B.less nothing) (limits_of self.now) (V.value value.now) }
    {
        self.allow_above(value) && self.allow_below(value)
    }

    // whether the value is not below the lower bounds
    fn allow_above<V: BoundedBy<B>>(&self, value: &V) -> bool
        ensures { result ≡ is_above_lower (ordered B.at_most B.less nothing) (limits_of self.now) (V.value value.now) }
    {
        is_no_less(value, &self.min_inclusive) && is_more(value, &self.min_exclusive)
    }

    // whether the value is not above the upper bounds
    fn allow_below<V: BoundedBy<B>>(&self, value: &V) -> bool
        ensures { result ≡ is_below_upper (ordered B.at_most B.less nothing) (limits_of self.now) (V.value value.now) }
    {
        is_no_more(value, &self.max_inclusive) && is_less(value, &self.max_exclusive)
    }

    // whether there is one bound at each end at most
    fn are_single(&self) -> bool
        ensures { result ≡ are_single (limits_of self.now) }
    {
        is_one(&self.min_inclusive, &self.min_exclusive)
            && is_one(&self.max_inclusive, &self.max_exclusive)
    }

    // whether the lower bound is not above the upper one
    fn are_in_order(&self) -> bool
        ensures { result ≡ are_in_order (ordered B.at_most B.less nothing) (limits_of self.now) }
    {
        self.is_inclusive_in_order() && self.is_exclusive_in_order()
    }

    fn is_inclusive_in_order(&self) -> bool
        ensures { result ≡ is_inclusive_in_order (ordered B.at_most B.less nothing) (limits_of self.now) }
    {
        are_at_most(&self.min_inclusive, &self.max_inclusive)
            && are_less(&self.min_inclusive, &self.max_exclusive)
    }

    fn is_exclusive_in_order(&self) -> bool
        ensures { result ≡ is_exclusive_in_order (ordered B.at_most B.less nothing) (limits_of self.now) }
    {
        are_less(&self.min_exclusive, &self.max_inclusive)
            && are_at_most(&self.min_exclusive, &self.max_exclusive)
    }
}

// whether one of the two is not there
fn is_one<B: Bound>(a: &Option<B>, b: &Option<B>) -> bool
    ensures { result ≡ is_one a.now b.now }
{
    a.is_none() || b.is_none()
}

// whether the first bound is at most the second one, if both are there
fn are_at_most<B: Bound>(a: &Option<B>, b: &Option<B>) -> bool
    ensures { result ≡ not (clash B.at_most a.now b.now) }
{
    match (a, b) {
        (Some(a), Some(b)) => a.is_at_most(b),
        _ => true,
    }
}

// whether the first bound is less than the second one, if both are there
fn are_less<B: Bound>(a: &Option<B>, b: &Option<B>) -> bool
    ensures { result ≡ not (clash B.less a.now b.now) }
{
    match (a, b) {
        (Some(a), Some(b)) => a.is_less(b),
        _ => true,
    }
}

// whether the value is at least the bound, if there is one
fn is_no_less<B: Bound, V: BoundedBy<B>>(value: &V, least: &Option<B>) -> bool
    ensures { result ≡ passes (λ b. B.at_most b (V.value value.now)) least.now }
{
    match least {
        Some(least) => value.is_at_least(least),
        None => true,
    }
}

fn is_more<B: Bound, V: BoundedBy<B>>(value: &V, below: &Option<B>) -> bool
    ensures { result ≡ passes (λ b. B.less b (V.value value.now)) below.now }
{
    match below {
        Some(below) => value.is_above(below),
        None => true,
    }
}

fn is_no_more<B: Bound, V: BoundedBy<B>>(value: &V, greatest: &Option<B>) -> bool
    ensures { result ≡ passes (λ b. B.at_most (V.value value.now) b) greatest.now }
{
    match greatest {
        Some(greatest) => value.is_at_most(greatest),
        None => true,
    }
}

fn is_less<B: Bound, V: BoundedBy<B>>(value: &V, above: &Option<B>) -> bool
    ensures { result ≡ passes (λ b. B.less (V.value value.now) b) above.now }
{
    match above {
        Some(above) => value.is_below(above),
        None => true,
    }
}

// the value that the parameter of that name writes
fn bound_named<B: Bound, T: OrderedType<B>>(
    alloc: Global,
    datatype: &T,
    params: &[(String, String)],
    name: &str,
) -> Result<Option<B>, OutOfMemory>
    ensures { IfOk result (λ found. found ≡ written (T.value_of datatype.now) name.now (map parameter_of params.now)) }
{
    match value_named(params, name) {
        Some(text) => datatype.read(alloc, text),
        None => Ok(None),
    }
}
