// From a schema to the grammar by which documents are judged.
ghost use Rattle.std.specs.Prelude.{IfErr, IfOk, OnOk};
ghost use Rattle.rng_load.specs.views.PlacedGrammars.{schema_of};
ghost use Rattle.rng_model.specs.restrictions.RestrictionFaults.{BreaksNone};
ghost use Rattle.rng_model.specs.simple.Table.{grammar_of};
ghost use Rattle.rng_model.specs.xsd.SchemasWith.{BreaksNoClauseWith};
ghost use Rattle.rncv_validator.specs.views.Validators.{JudgesWith};
ghost use Rattle.rncv_validator.specs.plain.LeastFaults.{IsLeastFault};

use rng_load::Schema;
use rng_model::{SchemaFault, SimpleGrammar, TypeSet};
use rng_rules::restrict;
use rng_simple::simplify_with;
use std::alloc::Global;

/// Returns the simple form of a schema that breaks no clause with this set of datatypes, or the least clause that it
/// breaks, 11 to 27.
pub(crate) fn good_grammar(
    alloc: Global,
    types: TypeSet,
    schema: Schema,
) -> Result<SimpleGrammar, SchemaFault>
    ensures judges { IfOk result (λ g. JudgesWith types g (schema_of schema)) }
    ensures restricted { IfOk result (λ g. BreaksNone (grammar_of g)) }
    ensures kept { OnOk result (BreaksNoClauseWith types (schema_of schema)) }
    ensures broken { IfErr result (IsLeastFault types (schema_of schema)) }
{
    let grammar = simplify_with(alloc, types, &schema)?;
    drop(schema);
    restrict(alloc, &grammar)?;
    Ok(grammar)
}
