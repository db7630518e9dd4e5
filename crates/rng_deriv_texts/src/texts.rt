// Texts that an except excludes.
ghost use Rattle.std.specs.Prelude.{◌≡◌, ◌<◌, IfOk, OnOk, length};
ghost use Rattle.rng_model.specs.simple.Table.{tree_at};
ghost use Rattle.rng_deriv_laws.specs.plain.Derivatives.{is_excepted};
ghost use Rattle.rng_deriv_ways.specs.views.Datatypes.{AreDatatypesOf};
ghost use Rattle.rng_deriv_texts.specs.plain.Excepts.{AreWithout, IsChoiceAt};
ghost use Rattle.rng_model.specs.matching.GrammarMatching.{reading_of};

use rng_deriv_ways::Datatypes;
use rng_model::{OutOfMemory, PatternId, Simple, SimpleGrammar};
use std::alloc::Global;
use std::collections::HashSet;

/// The positions of choices that are known not to have a text.
type Without = HashSet<usize>;

/// Returns whether the except of a data has a text.
///
/// RELAX NG Specification, section 6.2.8. Fails only when out of memory. Each choice of the except is found at most
/// once not to have the text, however often it occurs in others. The recursion is as deep as the except.
pub fn is_excepted(
    alloc: Global,
    grammar: &SimpleGrammar,
    datatypes: &Datatypes,
    except: PatternId,
    text: &str,
) -> Result<bool, OutOfMemory>
    requires inside { except.0 < length grammar.now.patterns }
    requires datatypes { AreDatatypesOf grammar.now datatypes.now }
    ensures { IfOk result (λ b. b ≡ is_excepted (reading_of grammar.now) (tree_at grammar.now.patterns except) text.now) }
{
    let mut without = HashSet::new(alloc);
    has_text(grammar, datatypes, &mut without, except, text)
}

/// Returns whether a pattern of an except has a text, if some choices are known not to have it.
#[cycle(has_text)]
fn has_text(
    grammar: &SimpleGrammar,
    datatypes: &Datatypes,
    without: &mut Without,
    pattern: PatternId,
    text: &str,
) -> Result<bool, OutOfMemory>
    requires inside { pattern.0 < length grammar.now.patterns }
    requires datatypes { AreDatatypesOf grammar.now datatypes.now }
    requires without { AreWithout grammar.now text.now without.old }
    ensures without { OnOk result (AreWithout grammar.now text.now without.new) }
    ensures text { IfOk result (λ b. b ≡ is_excepted (reading_of grammar.now) (tree_at grammar.now.patterns pattern) text.now) }
{
    let Some(row) = grammar.pattern(pattern) else {
        return Ok(false);
    };
    match row {
        Simple::Data(_) => Ok(datatypes.allow(pattern, text)),
        Simple::DataExcept(_, inner) => {
            if !datatypes.allow(pattern, text) {
                return Ok(false);
            }
            let excepted = has_text(grammar, datatypes, without, *inner, text)?;
            Ok(!excepted)
        }
        Simple::Value(value) => Ok(datatypes.equate(pattern, value.text.as_str(), text)),
        Simple::Choice(_, _) => either_has_text(grammar, datatypes, without, pattern, text),
        _ => Ok(false),
    }
}

/// The same for a choice.
#[cycle(has_text)]
fn either_has_text(
    grammar: &SimpleGrammar,
    datatypes: &Datatypes,
    without: &mut Without,
    choice: PatternId,
    text: &str,
) -> Result<bool, OutOfMemory>
    requires choice { IsChoiceAt grammar.now choice }
    requires datatypes { AreDatatypesOf grammar.now datatypes.now }
    requires without { AreWithout grammar.now text.now without.old }
    ensures without { OnOk result (AreWithout grammar.now text.now without.new) }
    ensures text { IfOk result (λ b. b ≡ is_excepted (reading_of grammar.now) (tree_at grammar.now.patterns choice) text.now) }
{
    let Some(Simple::Choice(first, second)) = grammar.pattern(choice) else {
        unreachable!()
    };
    if without.contains(&choice.0) {
        return Ok(false);
    }
    if has_text(grammar, datatypes, without, *first, text)? {
        return Ok(true);
    }
    if has_text(grammar, datatypes, without, *second, text)? {
        return Ok(true);
    }
    without.insert(choice.0)?;
    Ok(false)
}
