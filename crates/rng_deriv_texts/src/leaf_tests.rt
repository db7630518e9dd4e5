// Whether leaves take strings: data and values, and which leaf is a list.
ghost use Rattle.std.specs.Prelude.{◌≡◌, ◌<◌, IfNone, IfOk, IfSome, Some, length, slice_get, true};
ghost use Rattle.rng_model.specs.datatypes.Texts.{is_blank};
ghost use Rattle.rng_model.specs.declared.simple.Simple.TheVariants as rows;
ghost use Rattle.rng_model.specs.matching.GrammarMatching.{reading_of};
ghost use Rattle.rng_model.specs.simple.Table.{Table};
ghost use Rattle.rng_deriv_table.specs.views.Trees.{data_found, tree_of};
ghost use Rattle.rng_deriv_ways.specs.declared.way.Place.{Place};
ghost use Rattle.rng_deriv_ways.specs.declared.way.Place.TheVariants as places;
ghost use Rattle.rng_deriv_ways.specs.views.Datatypes.{AreDatatypesOf};
ghost use Rattle.rng_deriv_texts.specs.plain.After.{IsLeafFor, IsNoListIn, TellsTaken};
ghost use Rattle.rng_deriv_texts.specs.declared.first.First.TheVariants as firsts;

use crate::first::First;
use crate::texts::is_excepted;
use rng_deriv_table::{Pattern, PatternNumber, PatternTable};
use rng_deriv_ways::{Context, Datatypes, Place};
use rng_model::{OutOfMemory, PatternId, Simple, SimpleGrammar};

/// Returns whether a text contains only spaces, tabs and line ends.
pub fn is_blank(text: &str) -> bool
    ensures { result ≡ is_blank text.now }
{
    text.as_bytes()
        .iter()
        .all(|byte| matches!(*byte, b' ' | b'\t' | b'\n' | b'\r'))
}

/// Returns true only if a pattern is a leaf of the sort that may take this. Allocates nothing.
pub fn is_leaf_for(table: &PatternTable, first: First, number: PatternNumber) -> bool
    requires { number.0 < length table.now }
    ensures { result ≡ true → (t : Table) → IsLeafFor first.entry (tree_of t table.now number.0) }
{
    match (first, table.pattern(number)) {
        (First::Text(_, _), Pattern::Text) => true,
        (First::Text(_, _), Pattern::Data(_)) => true,
        (First::Attribute(_), Pattern::Attribute(_)) => true,
        _ => false,
    }
}

/// Returns the body of the list at a position of the grammar, if there is a list. Where a string is tried in a list
/// itself, there is none (RELAX NG Specification, section 7.1.3).
pub fn list_body(grammar: &SimpleGrammar, place: Place, position: PatternId) -> Option<PatternId>
    ensures inside { IfSome result (λ body. body.0 < length grammar.now.patterns) }
    ensures content { IfSome result (λ body. place ≡ places.Content) }
    ensures found { IfSome result (λ body. slice_get grammar.now.patterns position.0 ≡ Some (rows.List body)) }
    ensures none { IfNone result (IsNoListIn place (slice_get grammar.now.patterns position.0)) }
{
    let Place::Content = place else {
        return None;
    };
    let row = grammar.pattern(position)?;
    match row {
        Simple::List(body) => Some(*body),
        _ => None,
    }
}

/// Returns whether the data or the value at a position of the grammar takes a string.
///
/// RELAX NG Specification, sections 6.2.8 and 6.2.9. Fails only when out of memory, and only for a data with an except.
pub fn data_takes(
    context: &Context,
    datatypes: &Datatypes,
    position: PatternId,
    text: &str,
) -> Result<bool, OutOfMemory>
    requires { AreDatatypesOf context.now.grammar.now datatypes.now }
    ensures { IfOk result (λ b. (place : Place) → IsNoListIn place (slice_get context.now.grammar.now.patterns position.0)
        → TellsTaken (reading_of context.now.grammar.now) (firsts.Text place text.entry)
        (data_found context.now.grammar.now (slice_get context.now.grammar.now.patterns position.0)) b) }
{
    let Some(row) = context.grammar.pattern(position) else {
        return Ok(false);
    };
    match row {
        Simple::Data(_) => Ok(datatypes.allow(position, text)),
        Simple::DataExcept(_, except) => {
            if !datatypes.allow(position, text) {
                return Ok(false);
            }
            let excepted = is_excepted(context.alloc, context.grammar, datatypes, *except, text)?;
            Ok(!excepted)
        }
        Simple::Value(value) => Ok(datatypes.equate(position, value.text.as_str(), text)),
        _ => Ok(false),
    }
}
