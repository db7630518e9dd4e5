// Which parameters a type takes that has bounds.
ghost use Rattle.std.specs.Prelude.{◌≡◌, ◌&&◌, ◌++◌, [], map};
ghost use Rattle.std.specs.List.{list_all};
ghost use Rattle.rng_model.specs.datatypes.DatatypeViews.{parameter_of};
ghost use Rattle.rng_model.specs.datatypes.Facets.{is_once};
ghost use Rattle.rng_model.specs.xsd.Facets.{Facets, are_facets, is_facet};
ghost use Rattle.rng_model.specs.xsd.Limits.{limit_facets};
ghost use Rattle.xsd_limits.specs.views.Limits.{ordered};

use crate::bound::{Bound, OrderedType};
use rng_types::is_once;

/// The facets that a type takes besides the four bounds. None of them has the name of a bound.
///
/// XML Schema Part 2, section 4.3.
pub trait OtherFacets {
    // the name of each, and which texts are values of it
    ghost facets: { Facets };

    /// Returns whether the parameter is one of the facets, with a value of it. Allocates nothing.
    fn is_facet(param: &(String, String)) -> bool
        ensures { result ≡ is_facet facets (parameter_of param.now) };

    /// Returns whether no facet occurs twice. A pass over the parameters for each facet. Allocates nothing.
    fn are_once(params: &[(String, String)]) -> bool
        ensures { result ≡ list_all (λ f. is_once f.0 (map parameter_of params.now)) facets };
}

/// No facets.
#[derive(Clone, Copy, Debug)]
pub struct NoFacets;

impl OtherFacets for NoFacets {
    ghost facets = { [] };

    fn is_facet(_param: &(String, String)) -> bool {
        false
    }

    fn are_once(_params: &[(String, String)]) -> bool {
        true
    }
}

// whether each parameter is a bound or another facet of the type, with a value of it, and none occurs twice
pub(crate) fn are_facets<B: Bound, T: OrderedType<B>, F: OtherFacets>(
    datatype: &T,
    params: &[(String, String)],
) -> bool
    ensures { result ≡ are_facets (limit_facets (ordered B.at_most B.less (T.value_of datatype.now)) ++ F.facets) (map parameter_of params.now) }
{
    have_values::<B, T, F>(datatype, params)
        && is_once(params, "minInclusive")
        && is_once(params, "minExclusive")
        && is_once(params, "maxInclusive")
        && is_once(params, "maxExclusive")
        && F::are_once(params)
}

// whether each parameter is a bound or another facet of the type, with a value of it
fn have_values<B: Bound, T: OrderedType<B>, F: OtherFacets>(
    datatype: &T,
    params: &[(String, String)],
) -> bool
    ensures { result ≡ list_all (is_facet (limit_facets (ordered B.at_most B.less (T.value_of datatype.now)) ++ F.facets)) (map parameter_of params.now) }
{
    params
        .iter()
        .all(|param| has_value::<B, T, F>(datatype, param))
}

// whether the parameter is a bound or another facet of the type, with a value of it
fn has_value<B: Bound, T: OrderedType<B>, F: OtherFacets>(
    datatype: &T,
    param: &(String, String),
) -> bool
    ensures { result ≡ is_facet (limit_facets (ordered B.at_most B.less (T.value_of datatype.now)) ++ F.facets) (parameter_of param.now) }
{
    match param.0.as_str() {
        "minInclusive" | "minExclusive" | "maxInclusive" | "maxExclusive" => {
            datatype.is_value(param.1.as_str())
        }
        _ => F::is_facet(param),
    }
}
