// The parameters of datatypes.
ghost use Rattle.std.specs.Prelude.{◌≡◌, codes, map, option_copied};
ghost use Rattle.std.specs.List.{list_all};
ghost use Rattle.std.specs.Option.{option_and_then};
ghost use Rattle.rng_model.specs.datatypes.DatatypeViews.{parameter_of};
ghost use Rattle.rng_model.specs.datatypes.Facets.{length_of, short_bound_of, named, is_named, is_once, is_range_facet, are_range_facets, written_range};
ghost use Rattle.rng_types.specs.views.View.{lengths_of, bounds_of, seen};
ghost use Rattle.rng_types.specs.views.Finding.{or_bad};

use crate::builtin::TypeFault;
use crate::lengths::Lengths;
use crate::numerals::{Bounds, integer, length};

// the bounds on lengths that the parameters write
#[tactic(auto, unfolding(rng_model::specs::datatypes::Facets::written_range))]
pub(crate) fn lengths(params: &[(String, String)]) -> Result<Lengths, TypeFault>
    ensures { seen lengths_of result ≡ or_bad (written_range length_of (codes "minLength") (codes "maxLength") (map parameter_of params.now)) }
{
    if takes_lengths(params) {
        Ok(Lengths {
            min: length_named(params, "minLength"),
            max: length_named(params, "maxLength"),
        })
    } else {
        Err(TypeFault::BadParameter)
    }
}

// the bounds on numbers that the parameters write
#[tactic(auto, unfolding(rng_model::specs::datatypes::Facets::written_range))]
pub(crate) fn bounds(params: &[(String, String)]) -> Result<Bounds, TypeFault>
    ensures { seen bounds_of result ≡ or_bad (written_range short_bound_of (codes "minInclusive") (codes "maxInclusive") (map parameter_of params.now)) }
{
    if takes_bounds(params) {
        Ok(Bounds {
            min: bound_named(params, "minInclusive"),
            max: bound_named(params, "maxInclusive"),
        })
    } else {
        Err(TypeFault::BadParameter)
    }
}

// each parameter is a bound on lengths, and none occurs twice
fn takes_lengths(params: &[(String, String)]) -> bool
    ensures { result ≡ are_range_facets length_of (codes "minLength") (codes "maxLength") (map parameter_of params.now) }
{
    are_lengths(params) && is_once(params, "minLength") && is_once(params, "maxLength")
}

// each parameter is a bound on numbers, and none occurs twice
fn takes_bounds(params: &[(String, String)]) -> bool
    ensures { result ≡ are_range_facets short_bound_of (codes "minInclusive") (codes "maxInclusive") (map parameter_of params.now) }
{
    are_bounds(params) && is_once(params, "minInclusive") && is_once(params, "maxInclusive")
}

// each parameter is a bound on lengths
fn are_lengths(params: &[(String, String)]) -> bool
    ensures { result ≡ list_all (is_range_facet length_of (codes "minLength") (codes "maxLength")) (map parameter_of params.now) }
{
    params.iter().all(is_length)
}

// each parameter is a bound on numbers
fn are_bounds(params: &[(String, String)]) -> bool
    ensures { result ≡ list_all (is_range_facet short_bound_of (codes "minInclusive") (codes "maxInclusive")) (map parameter_of params.now) }
{
    params.iter().all(is_bound)
}

fn is_length(param: &(String, String)) -> bool
    ensures { result ≡ is_range_facet length_of (codes "minLength") (codes "maxLength") (parameter_of param.now) }
{
    (is_named(param, "minLength") || is_named(param, "maxLength"))
        && length(param.1.as_str()).is_some()
}

fn is_bound(param: &(String, String)) -> bool
    ensures { result ≡ is_range_facet short_bound_of (codes "minInclusive") (codes "maxInclusive") (parameter_of param.now) }
{
    (is_named(param, "minInclusive") || is_named(param, "maxInclusive"))
        && integer(param.1.as_str()).is_some()
}

fn is_named(param: &(String, String), name: &str) -> bool
    ensures { result ≡ is_named name.now (parameter_of param.now) }
{
    name == param.0.as_str()
}

/// Returns whether at most one parameter has the name. One pass over the parameters. Allocates nothing.
pub fn is_once(params: &[(String, String)], name: &str) -> bool
    ensures { result ≡ is_once name.now (map parameter_of params.now) }
{
    params.iter().filter(|param| is_named(param, name)).count() <= 1
}

// the length that the parameter of that name writes
fn length_named(params: &[(String, String)], name: &str) -> Option<usize>
    ensures { result ≡ option_and_then length_of (named name.now (map parameter_of params.now)) }
{
    match value_named(params, name) {
        Some(value) => length(value),
        None => None,
    }
}

// the number that the parameter of that name writes
fn bound_named(params: &[(String, String)], name: &str) -> Option<i128>
    ensures { result ≡ option_and_then short_bound_of (named name.now (map parameter_of params.now)) }
{
    match value_named(params, name) {
        Some(value) => integer(value),
        None => None,
    }
}

/// Returns the value of the first parameter of that name. One pass over the parameters. Allocates nothing.
pub fn value_named<'a>(params: &'a [(String, String)], name: &str) -> Option<&'a str>
    ensures { option_copied result ≡ named name.now (map parameter_of params.now) }
{
    for param in params {
        if is_named(param, name) {
            return Some(param.1.as_str());
        }
    }
    None
}
