// From a schema to its simple form.
ghost use Rattle.std.specs.Prelude.{◌≡◌, ℕ, IfErr, IfOk, OnOk};
ghost use Rattle.rng_load.specs.views.PlacedGrammars.{schema_of};
ghost use Rattle.rng_model.specs.schema.SchemaClauses.{BreaksSchemaClause};
ghost use Rattle.rng_model.specs.simple.SchemaForm.{IsOnlySimpleGrammarOf, IsSimpleGrammarOf};
ghost use Rattle.rng_model.specs.simple.SimplifiedSchema.{AreSameDocuments, IsInSimpleSyntax, AreAllUsed, IsSchemaFault};
ghost use Rattle.rng_model.specs.simple.Table.{AreToldApart, grammar_of};
ghost use Rattle.rng_model.specs.xsd.SchemasWith.{AreSameDocumentsWith, BreaksSchemaClauseWith};
ghost use Rattle.rng_simple.specs.views.SchemaFaults.{IsSchemaFaultWith};

use crate::graph::{expansion_order, schema_graph};
use crate::schema_form::simple_grammar;
use rng_load::Schema;
use rng_model::{SchemaFault, SimpleGrammar, TypeSet};
use rng_schema_checks::check_components;
use std::alloc::Global;

/// Returns the simple form of a schema with the datatypes of the profile, by the rules of sections 4.12 to 4.15 and 4.17
/// to 4.21 of the RELAX NG Specification. It is what `simplify_with` returns for the set `Profile`.
///
/// The result is in the simple syntax of section 5. It is the only simple form of the schema, up to the numbers of its
/// elements. A document is valid by it exactly if it is valid by the schema as it is written. Each pattern of its
/// tables is in the start or in an element, and equal patterns have one number. Each datatype is one of the profile and
/// takes its parameters, and the datatype of a value has none (section 4.16).
///
/// Fails with `Clause` exactly if one of the clauses 11 to 17 is broken, and reports the least of them, as
/// `simplify_with` says. Never fails with `File`. Fails with `Memory` only when out of memory.
///
/// Takes time and memory linear in the schema, apart from hash collisions. Recurses as deep as a name class nests.
pub fn simplify(alloc: Global, schema: &Schema) -> Result<SimpleGrammar, SchemaFault>
    ensures syntax { IfOk result (λ g. IsInSimpleSyntax (grammar_of g)) }
    ensures used { IfOk result AreAllUsed }
    ensures apart { IfOk result AreToldApart }
    ensures simple_form { IfOk result (λ g. IsSimpleGrammarOf (schema_of schema.now) (grammar_of g)) }
    ensures only { IfOk result (λ g. IsOnlySimpleGrammarOf (schema_of schema.now) (grammar_of g)) }
    ensures documents { IfOk result (λ g. AreSameDocuments (schema_of schema.now) (grammar_of g)) }
    ensures kept { OnOk result ((clause : ℕ) → ¬ (BreaksSchemaClause (schema_of schema.now) clause)) }
    ensures broken { IfErr result (IsSchemaFault (schema_of schema.now)) }
{
    simplify_with(alloc, TypeSet::Profile, schema)
}

/// Returns the simple form of a schema with the datatypes of a set, by the rules of sections 4.12 to 4.15 and 4.17 to
/// 4.21 of the RELAX NG Specification.
///
/// The result is in the simple syntax of section 5. It is the only simple form of the schema, up to the numbers of its
/// elements. A document is valid by it exactly if it is valid by the schema as it is written, with this set. Each
/// pattern of its tables is in the start or in an element, and equal patterns have one number. Each datatype is one of
/// the set and takes its parameters, and the datatype of a value has none. The result keeps the set.
///
/// Which datatypes a schema may name is the choice of the processor (section 4.16). The set `Profile` has six types of
/// the library of XML Schema, and the set `XmlSchema` has those that `xsd_types` serves. Both have the two types that
/// are built in. In the set `XmlSchema` no text is a value of `QName` or `NOTATION`.
///
/// Fails with `Clause` exactly if one of the clauses 11 to 17 is broken, and reports the least of them. Clauses 11 to
/// 15 are broken at any place, whether reached or not:
///
/// - 11 by a name class;
/// - 12 by a datatype that is not one of the set or does not take its parameters, or by a text that is no value of its
///   datatype (section 4.16);
/// - 13 by components of one name that do not combine;
/// - 14 by a grammar without a start;
/// - 15 by a ref without a definition.
///
/// Clauses 16 and 17 are broken by what is reached: by an expansion that loops outside elements, or by one that is
/// deeper than 1,000. Never fails with `File`. Fails with `Memory` only when out of memory.
///
/// Takes time and memory linear in the schema, apart from hash collisions. Recurses as deep as a name class nests.
pub fn simplify_with(
    alloc: Global,
    types: TypeSet,
    schema: &Schema,
) -> Result<SimpleGrammar, SchemaFault>
    ensures set { IfOk result (λ g. g.types ≡ types) }
    ensures syntax { IfOk result (λ g. IsInSimpleSyntax (grammar_of g)) }
    ensures used { IfOk result AreAllUsed }
    ensures apart { IfOk result AreToldApart }
    ensures simple_form { IfOk result (λ g. IsSimpleGrammarOf (schema_of schema.now) (grammar_of g)) }
    ensures only { IfOk result (λ g. IsOnlySimpleGrammarOf (schema_of schema.now) (grammar_of g)) }
    ensures documents { IfOk result (λ g. AreSameDocumentsWith types (schema_of schema.now) (grammar_of g)) }
    ensures kept { OnOk result ((clause : ℕ) → ¬ (BreaksSchemaClauseWith types (schema_of schema.now) clause)) }
    ensures broken { IfErr result (IsSchemaFaultWith types (schema_of schema.now)) }
{
    check_components(alloc, types, schema)?;
    let graph = schema_graph(alloc, schema)?;
    let order = expansion_order(alloc, &graph)?;
    Ok(simple_grammar(alloc, types, graph, order)?)
}
