// The name classes of a grammar.
ghost use Rattle.std.specs.Prelude.{◌≡◌, ◌≤◌, ℕ, IfOk, Option, Some, map, slice_get};
ghost use Rattle.rng_model.specs.names.Names as names;
ghost use Rattle.rng_names.specs.plain.Written.{longest};
ghost use Rattle.rng_names.specs.views.GrammarClasses.{attribute_class, element_class, seen_class};

use crate::written::longest;
use rng_model::{ElementId, NameClass, OutOfMemory, PatternId, Simple, SimpleGrammar};
use std::alloc::Global;

/// Returns the name class of each element of the grammar.
pub(crate) fn element_classes<'a>(
    alloc: Global,
    grammar: &'a SimpleGrammar,
) -> Result<Vec<Option<&'a NameClass>>, OutOfMemory>
    ensures { IfOk result (λ all. map seen_class all.items ≡ map element_class grammar.now.elements) }
{
    let mut all = Vec::new(alloc);
    'elements: while let Some(element) = grammar.element(ElementId(all.len())) {
        all.push(Some(&element.0))?;
    }
    Ok(all)
}

/// Returns for each pattern of the grammar its name class, if it is an attribute.
pub(crate) fn attribute_classes<'a>(
    alloc: Global,
    grammar: &'a SimpleGrammar,
) -> Result<Vec<Option<&'a NameClass>>, OutOfMemory>
    ensures { IfOk result (λ all. map seen_class all.items ≡ map attribute_class grammar.now.patterns) }
{
    let mut all = Vec::new(alloc);
    'patterns: while let Some(pattern) = grammar.pattern(PatternId(all.len())) {
        all.push(attribute_class(pattern))?;
    }
    Ok(all)
}

/// Returns the name class of a pattern that is an attribute.
fn attribute_class(pattern: &Simple) -> Option<&NameClass>
    ensures { seen_class result ≡ attribute_class pattern.now }
{
    match pattern {
        Simple::Attribute(class, _) => Some(&**class),
        _ => None,
    }
}

/// Returns the number of bytes in the longest text that is written in these classes.
pub(crate) fn longest_among(classes: &[Option<&NameClass>]) -> usize
    ensures { (k : ℕ) (c : names.NameClass) → slice_get (map seen_class classes.now) k ≡ Some (Some c) → longest c ≤ result }
{
    let mut most = 0;
    'classes: for class in classes {
        let Some(class) = class else {
            continue;
        };
        most = most.max(longest(class));
    }
    most
}
