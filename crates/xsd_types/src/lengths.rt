// The parameters that bound lengths.
ghost use Rattle.std.specs.Prelude.{◌≡◌, map, Some, None};
ghost use Rattle.std.specs.List.{list_all};
ghost use Rattle.std.specs.Option.{option_map};
ghost use Rattle.rng_model.specs.datatypes.DatatypeViews.{parameter_of};
ghost use Rattle.rng_types.specs.views.View.{lengths_of};
ghost use Rattle.rng_model.specs.xsd.Facets.{are_facets, is_facet, length_facets, is_range, joined_lengths, written_lengths};
ghost use Rattle.xsd_types.specs.views.Finding.{IsMade};

use crate::counts::{count, count_named};
use crate::fault::TypeFault;
use rng_types::{Lengths, is_once};

// the bounds on lengths that the parameters write, none of them less than the least of the type
#[tactic(auto, unfolding(rng_model::specs::xsd::Facets::written_lengths))]
pub(crate) fn lengths(params: &[(String, String)], least: u8) -> Result<Lengths, TypeFault>
    ensures { IsMade lengths_of (written_lengths least (map parameter_of params.now)) result }
{
    if !are_length_facets(params, least) {
        return Err(TypeFault::BadParameter);
    }
    let exact = count_named(params, "length", least);
    let range = Lengths {
        min: count_named(params, "minLength", least),
        max: count_named(params, "maxLength", least),
    };
    match joined(exact, range) {
        Some(lengths) => Ok(lengths),
        None => Err(TypeFault::BadParameter),
    }
}

// the bounds that all three make, if they may occur together
fn joined(exact: Option<usize>, range: Lengths) -> Option<Lengths>
    ensures { option_map lengths_of result ≡ joined_lengths exact (lengths_of range) }
{
    match exact {
        Some(n) => exactly(n, range),
        None => if_range(range),
    }
}

fn if_range(range: Lengths) -> Option<Lengths>
    ensures { option_map lengths_of result ≡ joined_lengths None (lengths_of range) }
{
    if is_range(&range) { Some(range) } else { None }
}

// this number alone
fn exactly(n: usize, range: Lengths) -> Option<Lengths>
    ensures { option_map lengths_of result ≡ joined_lengths (Some n) (lengths_of range) }
{
    if range.min.is_none() && range.max.is_none() {
        Some(Lengths {
            min: Some(n),
            max: Some(n),
        })
    } else {
        None
    }
}

// whether the least is at most the greatest
fn is_range(range: &Lengths) -> bool
    ensures { result ≡ is_range (lengths_of range.now) }
{
    match (range.min, range.max) {
        (Some(min), Some(max)) => min <= max,
        _ => true,
    }
}

// whether each parameter bounds lengths, and none occurs twice
fn are_length_facets(params: &[(String, String)], least: u8) -> bool
    ensures { result ≡ are_facets (length_facets least) (map parameter_of params.now) }
{
    bound_lengths(params, least)
        && is_once(params, "length")
        && is_once(params, "minLength")
        && is_once(params, "maxLength")
}

// each parameter bounds lengths
fn bound_lengths(params: &[(String, String)], least: u8) -> bool
    ensures { result ≡ list_all (is_facet (length_facets least)) (map parameter_of params.now) }
{
    params.iter().all(|param| is_length_facet(param, least))
}

fn is_length_facet(param: &(String, String), least: u8) -> bool
    ensures { result ≡ is_facet (length_facets least) (parameter_of param.now) }
{
    match param.0.as_str() {
        "length" | "minLength" | "maxLength" => count(param.1.as_str(), least).is_some(),
        _ => false,
    }
}
