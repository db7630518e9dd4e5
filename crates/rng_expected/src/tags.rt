// What the tag of an element may have.
ghost use Rattle.std.specs.Prelude.{◌≡◌, ◌<◌, All, IfOk, IfSome, Some, length, map};
ghost use Rattle.std.specs.Option.{option_map};
ghost use Rattle.rng_model.specs.matching.GrammarMatching.{reading_of};
ghost use Rattle.rng_model.specs.names.NameViews.{class_of, name_of};
ghost use Rattle.rng_model.specs.simple.TableRules.{IsClassPaired, IsPaired, IsTable};
ghost use Rattle.rng_model.specs.simple.Table.{Table};
ghost use Rattle.rng_deriv_laws.specs.plain.Restricted.{IsRestricted};
ghost use Rattle.rng_deriv_table.specs.views.Trees.{attribute_found, tree_of};
ghost use Rattle.rng_deriv_ways.specs.plain.Starting.{HasRestrictedBodies, IsReady};
ghost use Rattle.rng_expected.specs.Tags.{AreBodies, IsTag, IsTagOf, no_tag};
ghost use Rattle.rng_expected.specs.plain.Leaves.{IsLeafAt};
ghost use Rattle.rng_expected.specs.plain.TagLeaves.{AreBodiesOf, AreClassesOf, IsBody, IsClass, IsClassOf};
ghost use Rattle.rng_expected.specs.views.Next.{tag_of};

use crate::leaves::{Standing, leaves};
use crate::needs::needed_of;
use rng_deriv_table::{Pattern, PatternNumber, PatternTable};
use rng_deriv_ways::{Context, number_at};
use rng_model::{Name, NameClass, OutOfMemory, Simple, SimpleGrammar};
use rng_names::contains;
use std::alloc::Global;

/// What the tag of an element may have.
///
/// RELAX NG Specification, sections 6.2.7 and 6.2.8. A class is listed once for each attribute pattern of the schema's
/// simple form that has it, so it may be listed several times.
#[derive(Drop)]
pub struct ExpectedTag<'a> {
    /// The name classes of the attributes that the tag may have.
    pub attributes: Vec<&'a NameClass>,
    /// The names without which it matches no element pattern. Each is the only name of one of the classes.
    pub required: Vec<&'a Name>,
}

impl<'a> ExpectedTag<'a> {
    /// Returns that the tag may have nothing. Allocates nothing.
    pub fn nothing(alloc: Global) -> Self
        ensures { tag_of result ≡ no_tag }
    {
        ExpectedTag {
            attributes: Vec::new(alloc),
            required: Vec::new(alloc),
        }
    }
}

/// Returns what the tag of an element of this name may have, by the alternatives for what remains of the element around
/// it.
///
/// RELAX NG Specification, sections 6.2.7 and 6.2.8. It is stated on what is left of the pattern: an attribute counts where
/// its pattern is in the body of an element that may start and may have the name, whether or not a value matches it. Fails
/// only when out of memory. Memory is linear in the number of patterns of the table, and so is the time for each name
/// that is the only one of a class.
pub fn expected_tag<'a>(
    context: &Context<'a>,
    table: &PatternTable,
    alternatives: &[PatternNumber],
    name: &Name,
) -> Result<ExpectedTag<'a>, OutOfMemory>
    requires inside { All (λ n. n.0 < length table.now) alternatives.now }
    requires ready { IsReady context.now.grammar.now table.now context.now.numbers.now }
    ensures { IfOk result (λ tag. IsTag (reading_of context.now.grammar.now)
        (map (λ n. tree_of context.now.grammar.now table.now n.0) alternatives.now) (name_of name.now) (tag_of tag)) }
{
    let bodies = expected_bodies(context, table, alternatives, name)?;
    let tag = tag_of_bodies(context.alloc, context.grammar, table, bodies.as_slice())?;
    Ok(tag)
}

/// Returns what the tag of an element may have, by the alternatives for what its body takes.
///
/// RELAX NG Specification, sections 6.2.7 and 6.2.8. It is stated on the patterns: an attribute counts wherever it is in one
/// of them, and a name is needed if each of them needs it. Fails only when out of memory. Costs what `expected_tag` costs.
pub fn tag_of_bodies<'a>(
    alloc: Global,
    grammar: &'a SimpleGrammar,
    table: &PatternTable,
    bodies: &[PatternNumber],
) -> Result<ExpectedTag<'a>, OutOfMemory>
    requires grammar { IsTable grammar.now }
    requires bodies { All (λ b. b.0 < length table.now) bodies.now }
    ensures { IfOk result (λ tag. IsTagOf (map (λ b. tree_of grammar.now table.now b.0) bodies.now) (tag_of tag)) }
{
    let found = leaves(alloc, table, Standing::InTag, bodies)?;
    let attributes = classes_of(alloc, grammar, table, found.as_slice())?;
    let required = needed_of(alloc, grammar, table, bodies, attributes.as_slice())?;
    Ok(ExpectedTag {
        attributes,
        required,
    })
}

/// Returns the bodies of the elements of this name that may come next, by the alternatives for what remains of the element
/// around them. A body may be listed several times.
///
/// RELAX NG Specification, section 6.2.7. If the bodies of the grammar's elements obey section 7 in the table, so do these.
/// Fails only when out of memory. Time and memory are linear in the number of patterns of the table.
pub fn expected_bodies(
    context: &Context<'_>,
    table: &PatternTable,
    alternatives: &[PatternNumber],
    name: &Name,
) -> Result<Vec<PatternNumber>, OutOfMemory>
    requires inside { All (λ n. n.0 < length table.now) alternatives.now }
    requires ready { IsReady context.now.grammar.now table.now context.now.numbers.now }
    ensures inside { IfOk result (λ bodies. All (λ b. b.0 < length table.now) bodies.items) }
    ensures bodies { IfOk result (λ bodies. AreBodies (reading_of context.now.grammar.now)
        (map (λ n. tree_of context.now.grammar.now table.now n.0) alternatives.now) (name_of name.now)
        (map (λ b. tree_of context.now.grammar.now table.now b.0) bodies.items)) }
    ensures restricted { IfOk result (λ bodies. HasRestrictedBodies context.now.grammar.now table.now context.now.numbers.now
        → All (λ b. IsRestricted (tree_of context.now.grammar.now table.now b.0)) bodies.items) }
{
    let starts = leaves(context.alloc, table, Standing::First, alternatives)?;
    let bodies = bodies_of(context, table, starts.as_slice(), name)?;
    Ok(bodies)
}

/// Returns the bodies of the leaves that are elements which may have the name.
fn bodies_of(
    context: &Context<'_>,
    table: &PatternTable,
    starts: &[PatternNumber],
    name: &Name,
) -> Result<Vec<PatternNumber>, OutOfMemory>
    requires ready { IsReady context.now.grammar.now table.now context.now.numbers.now }
    requires starts { All (IsLeafAt Standing.First table.now) starts.now }
    ensures bodies { IfOk result (λ bodies. AreBodiesOf context.now.grammar.now table.now (name_of name.now) starts.now bodies.items) }
    ensures restricted { IfOk result (λ bodies. HasRestrictedBodies context.now.grammar.now table.now context.now.numbers.now
        → All (λ b. IsRestricted (tree_of context.now.grammar.now table.now b.0)) bodies.items) }
{
    let mut bodies = Vec::new(context.alloc);
    'starts: for leaf in starts {
        let Some(body) = body_of(context, table, *leaf, name) else {
            continue;
        };
        bodies.push(body)?;
    }
    Ok(bodies)
}

/// Returns the body of a leaf, if it is an element that may have the name.
fn body_of(
    context: &Context<'_>,
    table: &PatternTable,
    leaf: PatternNumber,
    name: &Name,
) -> Option<PatternNumber>
    requires ready { IsReady context.now.grammar.now table.now context.now.numbers.now }
    requires leaf { IsLeafAt Standing.First table.now leaf }
    ensures body { IsBody context.now.grammar.now table.now (name_of name.now) leaf result }
    ensures restricted { IfSome result (λ b. HasRestrictedBodies context.now.grammar.now table.now context.now.numbers.now
        → IsRestricted (tree_of context.now.grammar.now table.now b.0)) }
{
    let Pattern::Element(element) = table.pattern(leaf) else {
        return None;
    };
    let Some((class, body)) = context.grammar.element(*element) else {
        return None;
    };
    if !contains(class, name) {
        return None;
    }
    Some(number_at(context.numbers, *body))
}

/// Returns the name classes of the leaves, which are attributes.
fn classes_of<'a>(
    alloc: Global,
    grammar: &'a SimpleGrammar,
    table: &PatternTable,
    attributes: &[PatternNumber],
) -> Result<Vec<&'a NameClass>, OutOfMemory>
    requires grammar { IsTable grammar.now }
    requires attributes { All (IsLeafAt Standing.InTag table.now) attributes.now }
    ensures paired { IfOk result (λ classes. All (λ c. IsPaired c.now) classes.items) }
    ensures classes { IfOk result (λ classes. AreClassesOf grammar.now table.now attributes.now (map (λ c. class_of c.now) classes.items)) }
{
    let mut classes = Vec::new(alloc);
    'attributes: for leaf in attributes {
        let Some(class) = class_at(grammar, table, *leaf) else {
            continue;
        };
        classes.push(class)?;
    }
    Ok(classes)
}

/// Returns the name class of a leaf, which is an attribute.
fn class_at<'a>(
    grammar: &'a SimpleGrammar,
    table: &PatternTable,
    leaf: PatternNumber,
) -> Option<&'a NameClass>
    requires grammar { IsTable grammar.now }
    requires leaf { IsLeafAt Standing.InTag table.now leaf }
    ensures paired { IfSome result (λ c. IsPaired c.now) }
    ensures class { IsClass grammar.now table.now leaf (option_map (λ c. class_of c.now) result) }
{
    let Pattern::Attribute(position) = table.pattern(leaf) else {
        return None;
    };
    class_in(grammar.pattern(*position)?)
}

/// Returns the name class of a pattern, if it is an attribute.
fn class_in(pattern: &Simple) -> Option<&NameClass>
    ensures paired { IsClassPaired pattern.now → IfSome result (λ c. IsPaired c.now) }
    ensures class { (t : Table) → IsClassOf (attribute_found t (Some pattern.now)) (option_map (λ c. class_of c.now) result) }
{
    match pattern {
        Simple::Attribute(class, _) => Some(class.as_ref()),
        _ => None,
    }
}
