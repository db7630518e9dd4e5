// What a start tag may have after some of its attributes.
ghost use Rattle.std.specs.Prelude.{◌≡◌, ◌<◌, All, IfOk, OnOk, length, map};
ghost use Rattle.std.specs.Option.{option_map};
ghost use Rattle.rng_model.specs.documents.EventViews.{attribute_of};
ghost use Rattle.rng_model.specs.matching.GrammarMatching.{reading_of};
ghost use Rattle.rng_model.specs.names.NameViews.{name_of};
ghost use Rattle.rng_deriv_laws.specs.plain.Restricted.{IsRestricted};
ghost use Rattle.rng_deriv_table.specs.views.Choices.{SomeTakes};
ghost use Rattle.rng_deriv_table.specs.views.PatternTable.{Longer};
ghost use Rattle.rng_deriv_table.specs.views.Trees.{tree_of, trees};
ghost use Rattle.rng_deriv_ways.specs.plain.Starting.{HasRestrictedBodies, IsReady};
ghost use Rattle.rng_deriv_ways.specs.views.KnownWays.{AreAllKnown};
ghost use Rattle.rng_reasons.specs.TagOptions.{AreOptionsOf, IsRest, IsTagOptionsOf};
ghost use Rattle.rng_reasons.specs.views.Options.{options_of};

use crate::tag_faults::is_left;
use rng_deriv_table::{PatternNumber, PatternTable};
use rng_deriv_texts::after_attribute;
use rng_deriv_ways::{Context, Known};
use rng_expected::{
    Expected, ExpectedTag, attribute_contents, expected, expected_bodies, tag_of_bodies,
};
use rng_model::{Attr, Name, OutOfMemory, SimpleGrammar};

/// What a start tag may have after some of its attributes.
///
/// RELAX NG Specification, sections 6.2.7 and 6.2.8.
#[derive(Drop)]
pub struct TagOptions<'a> {
    /// The attributes that may still come, and the names without which what is left is not complete.
    pub tag: ExpectedTag<'a>,
    /// What the value of the attribute that is asked for may be. By section 7.1.1 no element is in it.
    pub value: Expected<'a>,
}

/// The beginning of a start tag, and an attribute that is asked for.
#[derive(Clone, Copy)]
pub struct TagBeginning<'a> {
    /// The alternatives for what remains of the element around the tag.
    pub alternatives: &'a [PatternNumber],
    /// The name of the tag.
    pub name: &'a Name,
    /// The attributes that it has.
    pub attrs: &'a [Attr],
    /// The name of the attribute that is asked for.
    pub named: &'a Name,
}

/// Returns what a start tag may have after some of its attributes, or `None` if nothing is left after them. The grammar is
/// that of the context.
///
/// RELAX NG Specification, sections 6.2.7 and 6.2.8, for patterns that obey section 7. It is stated on what is left of the
/// pattern, as by `expected_tag`. Fails only when out of memory. Costs what `tag_fault` costs, and then what `expected_tag`
/// and `expected` cost.
pub fn tag_options<'a>(
    context: &Context,
    grammar: &'a SimpleGrammar,
    table: &mut PatternTable,
    known: &mut Known,
    tag: &TagBeginning<'_>,
) -> Result<Option<TagOptions<'a>>, OutOfMemory>
    requires grammar { grammar.now ≡ context.now.grammar.now }
    requires inside { All (λ n. n.0 < length table.old) tag.now.alternatives.now }
    requires restricted { HasRestrictedBodies context.now.grammar.now table.old context.now.numbers.now }
    requires ready { IsReady context.now.grammar.now table.old context.now.numbers.now }
    requires known { AreAllKnown context.now.grammar.now context.now.keys.now table.old known.old }
    ensures longer { OnOk result (Longer table.old table.new) }
    ensures known { OnOk result (AreAllKnown context.now.grammar.now context.now.keys.now table.new known.new) }
    ensures options { IfOk result (λ o. IsTagOptionsOf (reading_of context.now.grammar.now) (trees context.now.grammar.now table.new)
        (map (λ n. tree_of context.now.grammar.now table.old n.0) tag.now.alternatives.now) (name_of tag.now.name.now)
        (map attribute_of tag.now.attrs.now) (name_of tag.now.named.now) (option_map options_of o)) }
{
    let bodies = expected_bodies(context, table, tag.alternatives, tag.name)?;
    let rest = rest_after(context, table, known, bodies.as_slice(), tag.attrs)?;
    let Some(left) = rest else {
        return Ok(None);
    };
    let options = options_by(context, grammar, table, left, tag.named)?;
    Ok(Some(options))
}

/// Returns what is left of a choice of these bodies after the attributes, or `None` if nothing is.
fn rest_after(
    context: &Context,
    table: &mut PatternTable,
    known: &mut Known,
    bodies: &[PatternNumber],
    attrs: &[Attr],
) -> Result<Option<PatternNumber>, OutOfMemory>
    requires inside { All (λ b. b.0 < length table.old) bodies.now }
    requires restricted { All (λ b. IsRestricted (tree_of context.now.grammar.now table.old b.0)) bodies.now }
    requires ready { IsReady context.now.grammar.now table.old context.now.numbers.now }
    requires known { AreAllKnown context.now.grammar.now context.now.keys.now table.old known.old }
    ensures longer { OnOk result (Longer table.old table.new) }
    ensures known { OnOk result (AreAllKnown context.now.grammar.now context.now.keys.now table.new known.new) }
    ensures rest { IfOk result (IsRest (reading_of context.now.grammar.now) (trees context.now.grammar.now table.new)
        (SomeTakes (reading_of context.now.grammar.now) (tree_of context.now.grammar.now table.old) bodies.now) (map attribute_of attrs.now)) }
{
    let mut left = table.choice(context.alloc, bodies)?;
    'attrs: for attr in attrs {
        left = after_attribute(context, table, known, attr, left)?;
    }
    if !is_left(table, left) {
        return Ok(None);
    }
    Ok(Some(left))
}

/// Returns what may come by a pattern, and what the value of an attribute of this name may be.
fn options_by<'a>(
    context: &Context,
    grammar: &'a SimpleGrammar,
    table: &PatternTable,
    left: PatternNumber,
    named: &Name,
) -> Result<TagOptions<'a>, OutOfMemory>
    requires grammar { grammar.now ≡ context.now.grammar.now }
    requires inside { left.0 < length table.now }
    requires ready { IsReady context.now.grammar.now table.now context.now.numbers.now }
    ensures { IfOk result (λ o. AreOptionsOf (reading_of context.now.grammar.now) (tree_of context.now.grammar.now table.now left.0)
        (name_of named.now) (options_of o)) }
{
    let bodies = [left];
    let tag = tag_of_bodies(context.alloc, grammar, table, bodies.as_slice())?;
    let contents = attribute_contents(context, table, bodies.as_slice(), named)?;
    let value = expected(context.alloc, grammar, table, contents.as_slice())?;
    Ok(TagOptions { tag, value })
}
