// Elements of a grammar that take the same.
ghost use Rattle.std.specs.Prelude.{◌≡◌, IfOk, IfSome, Some, slice_get, true};
ghost use Rattle.rng_model.specs.declared.name.NameClass.TheVariants as classes;
ghost use Rattle.rng_deriv_ways.specs.plain.Alike.{AreAlike, IsAlike};

use rng_model::{ElementId, Name, NameClass, OutOfMemory, PatternId, SimpleGrammar};
use rng_names::{NameKey, NameKeys, is_same_name};
use std::alloc::Global;
use std::collections::HashMap;

/// The elements found so far: the first one of each name, given by its key, and each body.
type Met = HashMap<(NameKey, PatternId), ElementId>;

/// Returns for each element of a grammar the first one with the same name and the same body. If the class of an element
/// is not one name, this is the element itself.
///
/// Each of the two elements may replace the other (RELAX NG Specification, section 6.2.7). Fails only when out of
/// memory. The cost is one look-up for each element.
pub fn alike_elements(
    alloc: Global,
    grammar: &SimpleGrammar,
    keys: &NameKeys,
) -> Result<Vec<ElementId>, OutOfMemory>
    ensures { IfOk result (λ all. AreAlike grammar.now all.items) }
{
    let mut met = HashMap::new(alloc);
    let mut all = Vec::new(alloc);
    'elements: for number in 0..usize::MAX {
        let element = ElementId(number);
        if grammar.element(element).is_none() {
            break;
        }
        all.push(first_alike(&mut met, grammar, keys, element)?)?;
    }
    Ok(all)
}

/// Returns the first element found so far that takes the same, or this one if there is none.
fn first_alike(
    met: &mut Met,
    grammar: &SimpleGrammar,
    keys: &NameKeys,
    element: ElementId,
) -> Result<ElementId, OutOfMemory>
    ensures { IfOk result (λ first. IsAlike grammar.now element.0 first.0) }
{
    let Some((name, body)) = named_element(grammar, element) else {
        return Ok(element);
    };
    let content = (keys.key(name), body);
    if let Some(first) = met.get(&content) {
        let first = *first;
        return Ok(if are_alike(grammar, element, first) {
            first
        } else {
            element
        });
    }
    met.insert(content, element)?;
    Ok(element)
}

/// Returns the name and the body of an element whose class is one name.
fn named_element(grammar: &SimpleGrammar, element: ElementId) -> Option<(&Name, PatternId)>
    ensures { IfSome result (λ r. slice_get grammar.now.elements element.0 ≡ Some (classes.Name r.0.now, r.1)) }
{
    let (class, body) = grammar.element(element)?;
    match class {
        NameClass::Name(name) => Some((name, *body)),
        _ => None,
    }
}

/// Returns true only if two elements have the same name and the same body.
fn are_alike(grammar: &SimpleGrammar, one: ElementId, other: ElementId) -> bool
    ensures { result ≡ true → IsAlike grammar.now one.0 other.0 }
{
    let Some((first, body)) = named_element(grammar, one) else {
        return false;
    };
    let Some((second, same)) = named_element(grammar, other) else {
        return false;
    };
    if body != same {
        return false;
    }
    is_same_name(first, second)
}
