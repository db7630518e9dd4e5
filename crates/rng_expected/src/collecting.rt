// What may come next, leaf by leaf.
ghost use Rattle.std.specs.Prelude.{◌≡◌, All, IfOk, OnOk, map, slice_get, string_bytes};
ghost use Rattle.rng_model.specs.datatypes.DatatypeViews.{datatype_of};
ghost use Rattle.rng_model.specs.schema.Patterns.{without_parameters};
ghost use Rattle.rng_model.specs.simple.Table.{grammar_of};
ghost use Rattle.rng_model.specs.simple.Tree.{s_leaf};
ghost use Rattle.rng_deriv_table.specs.views.Trees.{data_found, tree_of};
ghost use Rattle.rng_expected.specs.plain.Leaves.{IsLeafAt};
ghost use Rattle.rng_expected.specs.plain.Nexts.{with_datatype, with_leaf, with_leaves, with_value};
ghost use Rattle.rng_expected.specs.views.Next.{next_of};

use crate::leaves::Standing;
use crate::next::Expected;
use rng_deriv_table::{Pattern, PatternNumber, PatternTable};
use rng_model::{
    Datatype, DatatypeValue, ElementId, OutOfMemory, PatternId, Simple, SimpleGrammar,
};
use std::alloc::Global;

/// Returns that these leaves may come.
pub fn collected<'a>(
    alloc: Global,
    grammar: &'a SimpleGrammar,
    table: &PatternTable,
    found: &[PatternNumber],
) -> Result<Expected<'a>, OutOfMemory>
    requires { All (IsLeafAt Standing.First table.now) found.now }
    ensures { IfOk result (λ e. next_of e ≡ with_leaves (grammar_of grammar.now) (map (λ n. tree_of grammar.now table.now n.0) found.now)) }
{
    let mut expected = Expected::nothing(alloc);
    'leaves: for leaf in found {
        take_leaf(grammar, table, *leaf, &mut expected)?;
    }
    Ok(expected)
}

/// Adds that a leaf may come.
fn take_leaf<'a>(
    grammar: &'a SimpleGrammar,
    table: &PatternTable,
    leaf: PatternNumber,
    expected: &mut Expected<'a>,
) -> Result<(), OutOfMemory>
    requires { IsLeafAt Standing.First table.now leaf }
    ensures { OnOk result (next_of expected.new ≡ with_leaf (grammar_of grammar.now) (next_of expected.old) (tree_of grammar.now table.now leaf.0)) }
{
    match table.pattern(leaf) {
        Pattern::Element(element) => take_element(grammar, *element, expected),
        Pattern::Data(position) => take_data(grammar, *position, expected),
        _ => {
            expected.text = true;
            Ok(())
        }
    }
}

/// Adds that the element of this number may start.
fn take_element<'a>(
    grammar: &'a SimpleGrammar,
    element: ElementId,
    expected: &mut Expected<'a>,
) -> Result<(), OutOfMemory>
    ensures { OnOk result (next_of expected.new ≡ with_leaf (grammar_of grammar.now) (next_of expected.old) (s_leaf element.0)) }
{
    let Some((class, _)) = grammar.element(element) else {
        return Ok(());
    };
    expected.elements.push(class)?;
    Ok(())
}

/// Adds that a text may come of the list, the data or the value at a position of the grammar.
fn take_data<'a>(
    grammar: &'a SimpleGrammar,
    position: PatternId,
    expected: &mut Expected<'a>,
) -> Result<(), OutOfMemory>
    ensures { OnOk result (next_of expected.new ≡ with_leaf (grammar_of grammar.now) (next_of expected.old)
        (data_found grammar.now (slice_get grammar.now.patterns position.0))) }
{
    match grammar.pattern(position) {
        Some(Simple::Data(datatype)) => take_datatype(datatype, expected),
        Some(Simple::DataExcept(datatype, _)) => take_datatype(datatype, expected),
        Some(Simple::Value(value)) => take_value(value, expected),
        _ => {
            expected.text = true;
            Ok(())
        }
    }
}

/// Adds that a text of a datatype may come.
fn take_datatype<'a>(datatype: &'a Datatype, expected: &mut Expected<'a>) -> Result<(), OutOfMemory>
    ensures { OnOk result (next_of expected.new ≡ with_datatype (datatype_of datatype.now) (next_of expected.old)) }
{
    expected.text = true;
    expected.datatypes.push(datatype)?;
    Ok(())
}

/// Adds that a value may come.
fn take_value<'a>(value: &'a DatatypeValue, expected: &mut Expected<'a>) -> Result<(), OutOfMemory>
    ensures { OnOk result (next_of expected.new ≡ with_value (without_parameters (string_bytes value.now.library) (string_bytes value.now.name))
        (string_bytes value.now.text) (next_of expected.old)) }
{
    expected.text = true;
    expected.values.push(value)?;
    Ok(())
}
