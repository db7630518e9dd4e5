// Why a start tag leaves nothing.
ghost use Rattle.std.specs.Prelude.{◌≡◌, ◌<◌, All, IfOk, OnOk, false, length, map, true};
ghost use Rattle.rng_model.specs.documents.EventViews.{attribute_of};
ghost use Rattle.rng_model.specs.matching.GrammarMatching.{reading_of};
ghost use Rattle.rng_model.specs.simple.Table.{Table};
ghost use Rattle.rng_model.specs.simple.Tree.{s_not_allowed};
ghost use Rattle.rng_deriv_laws.specs.plain.Restricted.{IsRestricted};
ghost use Rattle.rng_deriv_table.specs.views.Choices.{SomeTakes};
ghost use Rattle.rng_deriv_table.specs.views.PatternTable.{Longer};
ghost use Rattle.rng_deriv_table.specs.views.Trees.{tree_of, trees};
ghost use Rattle.rng_deriv_ways.specs.plain.Closing.{IsClosed};
ghost use Rattle.rng_deriv_ways.specs.plain.Starting.{IsReady};
ghost use Rattle.rng_deriv_ways.specs.views.KnownWays.{AreAllKnown};
ghost use Rattle.rng_reasons.specs.AllowedPatterns.{HasNoNotAllowed};
ghost use Rattle.rng_reasons.specs.TagFaults.{IsTagFault};

use crate::named_attributes::has_named;
use rng_deriv_table::{PatternNumber, PatternTable};
use rng_deriv_texts::after_attribute;
use rng_deriv_ways::{Context, Known, close};
use rng_model::{Attr, OutOfMemory};

/// Why a start tag leaves nothing of the elements that its name may begin.
///
/// RELAX NG Specification, sections 6.2.7 and 6.2.8. Where alternatives exclude one another, the order of the attributes
/// decides which one is told.
#[derive(Clone, Copy)]
pub enum TagFault {
    /// There is no such element, or each is one that nothing matches: the name is not expected.
    NoElement,
    /// The first attribute, by its position in the tag, that nothing takes which is left by those before it. If an
    /// attribute pattern that is left has its name, its value is at fault. Otherwise the attribute is not allowed.
    Attribute { index: usize, is_name_taken: bool },
    /// All attributes are taken, and others are missing.
    Missing,
}

/// Returns why the attributes of a start tag leave nothing of these bodies of elements, or `None` if they leave something.
/// The bodies are those of the elements that the name of the tag may begin.
///
/// RELAX NG Specification, sections 6.2.7 and 6.2.8, for patterns that obey section 7. Fails only when out of memory. The
/// cost is that of taking the attributes from a choice of the bodies. Where an attribute is at fault, there is also a walk
/// over the patterns of the table.
pub fn tag_fault(
    context: &Context,
    table: &mut PatternTable,
    known: &mut Known,
    bodies: &[PatternNumber],
    attrs: &[Attr],
) -> Result<Option<TagFault>, OutOfMemory>
    requires inside { All (λ b. b.0 < length table.old) bodies.now }
    requires restricted { All (λ b. IsRestricted (tree_of context.now.grammar.now table.old b.0)) bodies.now }
    requires ready { IsReady context.now.grammar.now table.old context.now.numbers.now }
    requires known { AreAllKnown context.now.grammar.now context.now.keys.now table.old known.old }
    ensures longer { OnOk result (Longer table.old table.new) }
    ensures known { OnOk result (AreAllKnown context.now.grammar.now context.now.keys.now table.new known.new) }
    ensures fault { IfOk result (IsTagFault (SomeTakes (reading_of context.now.grammar.now) (tree_of context.now.grammar.now table.old) bodies.now)
        (reading_of context.now.grammar.now) (trees context.now.grammar.now table.new) (map attribute_of attrs.now)) }
{
    let mut left = table.choice(context.alloc, bodies)?;
    if !is_left(table, left) {
        return Ok(Some(TagFault::NoElement));
    }
    'attrs: for (index, attr) in attrs.iter().enumerate() {
        let rest = after_attribute(context, table, known, attr, left)?;
        if !is_left(table, rest) {
            let is_name_taken = has_named(context, table, &attr.name, left)?;
            return Ok(Some(TagFault::Attribute {
                index,
                is_name_taken,
            }));
        }
        left = rest;
    }
    let rest = closed(context, table, known, left)?;
    if !is_left(table, rest) {
        return Ok(Some(TagFault::Missing));
    }
    Ok(None)
}

/// Returns whether the pattern is not notAllowed. Then notAllowed occurs nowhere in it. Allocates nothing.
pub(crate) fn is_left(table: &PatternTable, number: PatternNumber) -> bool
    requires { number.0 < length table.now }
    ensures left { result ≡ true → (t : Table) → HasNoNotAllowed (tree_of t table.now number.0) }
    ensures nothing { result ≡ false → (t : Table) → tree_of t table.now number.0 ≡ s_not_allowed }
{
    // A call of a reader of the table proves that the rules about notAllowed have been applied to its patterns.
    let _pattern = table.pattern(number);
    !table.is_not_allowed(number)
}

/// Returns what is left of a pattern once the tag is closed.
fn closed(
    context: &Context,
    table: &mut PatternTable,
    known: &mut Known,
    number: PatternNumber,
) -> Result<PatternNumber, OutOfMemory>
    requires inside { number.0 < length table.old }
    requires known { AreAllKnown context.now.grammar.now context.now.keys.now table.old known.old }
    ensures longer { OnOk result (Longer table.old table.new) }
    ensures known { OnOk result (AreAllKnown context.now.grammar.now context.now.keys.now table.new known.new) }
    ensures closed { IfOk result (IsClosed table.old table.new number) }
{
    close(context.alloc, table, &mut known.rests, number)
}
