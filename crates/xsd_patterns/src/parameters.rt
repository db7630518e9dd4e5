// The parameters of a datatype besides its patterns.
ghost use Rattle.std.specs.Prelude.{◌≡◌, IfOk, map, not};
ghost use Rattle.std.specs.List.{list_all};
ghost use Rattle.rng_model.specs.datatypes.DatatypeViews.{parameter_of};
ghost use Rattle.rng_model.specs.regexes.Patterns.{is_pattern, other_parameters};

use rng_model::OutOfMemory;
use std::alloc::Global;

// whether the parameter is a pattern
pub(crate) fn is_pattern(param: &(String, String)) -> bool
    ensures { result ≡ is_pattern (parameter_of param.now) }
{
    param.0.as_str() == "pattern"
}

// whether the parameter is no pattern
fn is_other(param: &(String, String)) -> bool
    ensures { result ≡ not (is_pattern (parameter_of param.now)) }
{
    !is_pattern(param)
}

/// Returns whether none of the parameters is a pattern. One pass over them. Allocates nothing.
pub fn have_no_pattern(params: &[(String, String)]) -> bool
    ensures { result ≡ list_all (λ p. not (is_pattern p)) (map parameter_of params.now) }
{
    params.iter().all(is_other)
}

/// Returns copies of the parameters that are no patterns, in order. Fails only when out of memory.
pub fn other_parameters(
    alloc: Global,
    params: &[(String, String)],
) -> Result<Vec<(String, String)>, OutOfMemory>
    ensures { IfOk result (λ others. map parameter_of others.items ≡ other_parameters (map parameter_of params.now)) }
{
    let mut others = Vec::new(alloc);
    for param in params {
        if is_other(param) {
            others.push(copy(alloc, param)?)?;
        }
    }
    Ok(others)
}

fn copy(alloc: Global, param: &(String, String)) -> Result<(String, String), OutOfMemory>
    ensures { IfOk result (λ c. parameter_of c ≡ parameter_of param.now) }
{
    let name = String::from_str(alloc, param.0.as_str())?;
    let value = String::from_str(alloc, param.1.as_str())?;
    Ok((name, value))
}
