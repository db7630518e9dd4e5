// The contents of attributes that may have a name.
ghost use Rattle.std.specs.Prelude.{◌<◌, All, IfOk, length, map};
ghost use Rattle.rng_model.specs.matching.GrammarMatching.{reading_of};
ghost use Rattle.rng_model.specs.names.NameViews.{name_of};
ghost use Rattle.rng_deriv_table.specs.views.Trees.{tree_of};
ghost use Rattle.rng_deriv_ways.specs.plain.Starting.{IsReady};
ghost use Rattle.rng_expected.specs.AttributeValues.{AreContents};
ghost use Rattle.rng_expected.specs.plain.Leaves.{IsLeafAt};
ghost use Rattle.rng_expected.specs.plain.TagLeaves.{AreContentsOf, IsContentAt};

use crate::leaves::{Standing, leaves};
use rng_deriv_table::{Pattern, PatternNumber, PatternTable};
use rng_deriv_ways::{Context, number_at};
use rng_model::{Name, OutOfMemory, Simple};
use rng_names::contains;

/// Returns the contents of the attributes that may have the name, by the alternatives for what the body of their element
/// takes. `expected` tells of them what the value may be. A content may be listed several times.
///
/// RELAX NG Specification, sections 6.2.7 and 6.2.8. Fails only when out of memory. Time and memory are linear in the number
/// of patterns of the table.
pub fn attribute_contents(
    context: &Context<'_>,
    table: &PatternTable,
    bodies: &[PatternNumber],
    name: &Name,
) -> Result<Vec<PatternNumber>, OutOfMemory>
    requires inside { All (λ b. b.0 < length table.now) bodies.now }
    requires ready { IsReady context.now.grammar.now table.now context.now.numbers.now }
    ensures inside { IfOk result (λ contents. All (λ n. n.0 < length table.now) contents.items) }
    ensures contents { IfOk result (λ contents. AreContents (reading_of context.now.grammar.now)
        (map (λ b. tree_of context.now.grammar.now table.now b.0) bodies.now) (name_of name.now)
        (map (λ n. tree_of context.now.grammar.now table.now n.0) contents.items)) }
{
    let attributes = leaves(context.alloc, table, Standing::InTag, bodies)?;
    let contents = contents_of(context, table, attributes.as_slice(), name)?;
    Ok(contents)
}

/// Returns the contents of the leaves, which are attributes, that may have the name.
fn contents_of(
    context: &Context<'_>,
    table: &PatternTable,
    attributes: &[PatternNumber],
    name: &Name,
) -> Result<Vec<PatternNumber>, OutOfMemory>
    requires ready { IsReady context.now.grammar.now table.now context.now.numbers.now }
    requires attributes { All (IsLeafAt Standing.InTag table.now) attributes.now }
    ensures { IfOk result (λ contents. AreContentsOf context.now.grammar.now table.now (name_of name.now) attributes.now contents.items) }
{
    let mut contents = Vec::new(context.alloc);
    'attributes: for leaf in attributes {
        let Some(content) = content_at(context, table, *leaf, name) else {
            continue;
        };
        contents.push(content)?;
    }
    Ok(contents)
}

/// Returns the content of a leaf, which is an attribute, if it may have the name.
fn content_at(
    context: &Context<'_>,
    table: &PatternTable,
    leaf: PatternNumber,
    name: &Name,
) -> Option<PatternNumber>
    requires ready { IsReady context.now.grammar.now table.now context.now.numbers.now }
    requires leaf { IsLeafAt Standing.InTag table.now leaf }
    ensures { IsContentAt context.now.grammar.now table.now (name_of name.now) leaf result }
{
    let Pattern::Attribute(position) = table.pattern(leaf) else {
        return None;
    };
    let Some(row) = context.grammar.pattern(*position) else {
        return None;
    };
    let Simple::Attribute(class, content) = row else {
        return None;
    };
    if !contains(class, name) {
        return None;
    }
    Some(number_at(context.numbers, *content))
}
