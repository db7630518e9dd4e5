// Definitions by number.
ghost use Rattle.std.specs.Prelude.{◌≡◌, IfOk, OnOk, map};
ghost use Rattle.rng_simple.specs.views.Definitions.{definition_of};
ghost use Rattle.rng_simple.specs.plain.Graph.{number_of};
ghost use Rattle.rng_simple.specs.plain.Resolving.{with_definition};

use crate::graph::parts::GraphElement;
use indexmap::IndexSet;
use rng_model::{OutOfMemory, Place};

/// A definition: a name of the grammar at a place, or the start of that grammar.
#[derive(Clone, Copy, PartialEq, Eq, Hash)]
pub(crate) struct Definition<'a> {
    pub place: &'a Place,
    pub name: Option<&'a str>,
}

/// What is numbered: the definitions that are met, and the elements whose bodies are done.
#[derive(Drop)]
pub(crate) struct Numbering<'a> {
    pub definitions: IndexSet<Definition<'a>>,
    pub elements: Vec<GraphElement<'a>>,
}

/// Returns the number of a definition. A new definition gets the next number.
pub(crate) fn number<'a>(
    definitions: &mut IndexSet<Definition<'a>>,
    definition: Definition<'a>,
) -> Result<usize, OutOfMemory>
    ensures number { IfOk result (λ n. n ≡ number_of (map definition_of definitions.old.keys) (definition_of definition.entry)) }
    ensures numbered { OnOk result (map definition_of definitions.new.keys ≡ with_definition (map definition_of definitions.old.keys) (definition_of definition.entry)) }
{
    let (number, _) = definitions.insert_full(definition)?;
    Ok(number)
}
