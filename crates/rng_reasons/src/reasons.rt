// Why a start or an end tag leaves nothing.
ghost use Rattle.std.specs.Prelude.{◌≡◌, ◌<◌, All, IfOk, None, OnOk, Some, false, length, map, true};
ghost use Rattle.rng_model.specs.documents.EventViews.{attribute_of};
ghost use Rattle.rng_model.specs.matching.GrammarMatching.{reading_of};
ghost use Rattle.rng_model.specs.names.NameViews.{name_of};
ghost use Rattle.rng_deriv_table.specs.views.PatternTable.{Longer};
ghost use Rattle.rng_deriv_table.specs.views.Trees.{tree_of, trees};
ghost use Rattle.rng_deriv_ways.specs.plain.Starting.{HasRestrictedBodies, IsReady};
ghost use Rattle.rng_deriv_ways.specs.views.KnownWays.{AreAllKnown};
ghost use Rattle.rng_reasons.specs.Reasons.{IsEndReason, IsStartReason, IsTextFaulty};
ghost use Rattle.rng_reasons.specs.TagReasons.{IsTagFaultOf};
ghost use Rattle.rng_reasons.specs.views.Left.{AreThere, alternatives_in, reason_of};

use crate::tag_faults::{TagFault, tag_fault};
use rng_deriv_table::{PatternNumber, PatternTable};
use rng_deriv_ways::{Context, Known};
use rng_expected::{expected, expected_bodies};
use rng_model::{Attr, Name, OutOfMemory};

/// Why a start or an end tag leaves nothing of what may come next.
///
/// RELAX NG Specification, sections 6.2.7 and 6.2.8.
#[derive(Clone, Copy)]
pub enum Reason {
    /// The name or the attributes of a start.
    Tag(TagFault),
    /// The text before the tag: no text may come in its place, or it is before a start that would leave something without
    /// it.
    Text,
    /// The text before an end: it is none of those that may come in its place, and no element may come behind it.
    TextValue,
    /// An end comes too early.
    Incomplete,
    /// None of these: the event leaves patterns, but no continuation of the document matches them.
    NothingMatches,
}

/// The alternatives for what remains of the innermost open element.
#[derive(Clone, Copy)]
pub struct LeftHere<'a> {
    /// Behind the string since the last tag, given that an element is beside it. A blank string counts as nothing.
    pub behind: &'a [PatternNumber],
    /// In place of that string.
    pub in_place: &'a [PatternNumber],
    /// Whether the string is not blank.
    pub has_text: bool,
}

/// The name and the attributes of a start tag.
#[derive(Clone, Copy)]
pub struct StartTag<'a> {
    pub name: &'a Name,
    pub attrs: &'a [Attr],
}

/// Returns why a start tag leaves nothing of these alternatives, or `None` if it leaves something.
///
/// RELAX NG Specification, sections 6.2.7 and 6.2.8, for patterns that obey section 7. Fails only when out of memory. Costs
/// what `expected_bodies` and `tag_fault` cost, twice if there is a text.
pub fn start_reason(
    context: &Context,
    table: &mut PatternTable,
    known: &mut Known,
    left: &LeftHere<'_>,
    tag: &StartTag<'_>,
) -> Result<Option<Reason>, OutOfMemory>
    requires inside { AreThere table.old left.now }
    requires restricted { HasRestrictedBodies context.now.grammar.now table.old context.now.numbers.now }
    requires ready { IsReady context.now.grammar.now table.old context.now.numbers.now }
    requires known { AreAllKnown context.now.grammar.now context.now.keys.now table.old known.old }
    ensures longer { OnOk result (Longer table.old table.new) }
    ensures known { OnOk result (AreAllKnown context.now.grammar.now context.now.keys.now table.new known.new) }
    ensures reason { IfOk result (IsStartReason (reading_of context.now.grammar.now) (trees context.now.grammar.now table.new)
        (name_of tag.now.name.now) (map attribute_of tag.now.attrs.now) (alternatives_in context.now.grammar.now table.old left.now)) }
{
    if !left.has_text {
        let fault = fault_of(context, table, known, left.behind, tag)?;
        return Ok(reason_of(fault, false));
    }
    let is_wrong = is_text_wrong(context, table, known, left.in_place, tag)?;
    let fault = fault_of(context, table, known, left.behind, tag)?;
    Ok(reason_of(fault, is_wrong))
}

/// Returns the reason of a start with this fault, given whether the text before it is at fault.
fn reason_of(fault: Option<TagFault>, is_text_wrong: bool) -> Option<Reason>
    ensures { result ≡ reason_of fault is_text_wrong }
{
    match fault {
        None => None,
        Some(_) if is_text_wrong => Some(Reason::Text),
        Some(fault) => Some(Reason::Tag(fault)),
    }
}

/// Returns why a start tag leaves nothing of the bodies of the elements that it may begin by these alternatives.
fn fault_of(
    context: &Context,
    table: &mut PatternTable,
    known: &mut Known,
    alternatives: &[PatternNumber],
    tag: &StartTag<'_>,
) -> Result<Option<TagFault>, OutOfMemory>
    requires inside { All (λ n. n.0 < length table.old) alternatives.now }
    requires restricted { HasRestrictedBodies context.now.grammar.now table.old context.now.numbers.now }
    requires ready { IsReady context.now.grammar.now table.old context.now.numbers.now }
    requires known { AreAllKnown context.now.grammar.now context.now.keys.now table.old known.old }
    ensures longer { OnOk result (Longer table.old table.new) }
    ensures known { OnOk result (AreAllKnown context.now.grammar.now context.now.keys.now table.new known.new) }
    ensures fault { IfOk result (IsTagFaultOf (reading_of context.now.grammar.now) (trees context.now.grammar.now table.new)
        (map (λ n. tree_of context.now.grammar.now table.old n.0) alternatives.now) (name_of tag.now.name.now) (map attribute_of tag.now.attrs.now)) }
{
    let bodies = expected_bodies(context, table, alternatives, tag.name)?;
    let fault = tag_fault(context, table, known, bodies.as_slice(), tag.attrs)?;
    Ok(fault)
}

/// Returns whether the text before a start is at fault, given the alternatives in place of the text.
fn is_text_wrong(
    context: &Context,
    table: &mut PatternTable,
    known: &mut Known,
    in_place: &[PatternNumber],
    tag: &StartTag<'_>,
) -> Result<bool, OutOfMemory>
    requires inside { All (λ n. n.0 < length table.old) in_place.now }
    requires restricted { HasRestrictedBodies context.now.grammar.now table.old context.now.numbers.now }
    requires ready { IsReady context.now.grammar.now table.old context.now.numbers.now }
    requires known { AreAllKnown context.now.grammar.now context.now.keys.now table.old known.old }
    ensures longer { OnOk result (Longer table.old table.new) }
    ensures known { OnOk result (AreAllKnown context.now.grammar.now context.now.keys.now table.new known.new) }
    ensures wrong { IfOk result (IsTextFaulty (reading_of context.now.grammar.now) (trees context.now.grammar.now table.new)
        (name_of tag.now.name.now) (map attribute_of tag.now.attrs.now) (map (λ n. tree_of context.now.grammar.now table.old n.0) in_place.now)) }
{
    let next = expected(context.alloc, context.grammar, table, in_place)?;
    if !next.text {
        return Ok(true);
    }
    let fault = fault_of(context, table, known, in_place, tag)?;
    Ok(fault.is_none())
}

/// Returns why an end tag leaves nothing of these alternatives, where it may not come.
///
/// RELAX NG Specification, section 6.2.7. Fails only when out of memory. Costs what `expected` costs, at most twice.
pub fn end_reason(
    context: &Context,
    table: &PatternTable,
    left: &LeftHere<'_>,
) -> Result<Reason, OutOfMemory>
    requires { AreThere table.now left.now }
    ensures { IfOk result (IsEndReason (reading_of context.now.grammar.now) (alternatives_in context.now.grammar.now table.now left.now)) }
{
    if !left.has_text {
        return Ok(Reason::Incomplete);
    }
    let in_place = expected(context.alloc, context.grammar, table, left.in_place)?;
    if !in_place.text {
        return Ok(Reason::Text);
    }
    let behind = expected(context.alloc, context.grammar, table, left.behind)?;
    if behind.elements.as_slice().is_empty() {
        return Ok(Reason::TextValue);
    }
    Ok(Reason::Incomplete)
}
