// Whether a pattern has an attribute that may have a name.
ghost use Rattle.std.specs.Prelude.{◌≡◌, ◌<◌, ℕ, All, IfOk, false, get_or, length, slice_get};
ghost use Rattle.std.specs.List.{list_any};
ghost use Rattle.rng_model.specs.names.NameViews.{name_of};
ghost use Rattle.rng_model.specs.simple.Tree as tree;
ghost use Rattle.rng_deriv_table.specs.views.Node.{node_of};
ghost use Rattle.rng_deriv_table.specs.views.PatternTable.{ArePartsBelow};
ghost use Rattle.rng_deriv_table.specs.views.Trees.{attribute_found, tree_of, tree_over};
ghost use Rattle.rng_reasons.specs.NamedAttributes.{has_named, AreTests};

use rng_deriv_table::{Pattern, PatternNumber, PatternTable};
use rng_deriv_ways::Context;
use rng_model::{Name, OutOfMemory, PatternId, Simple, SimpleGrammar};
use rng_names::contains;

/// Returns whether the pattern with this number has an attribute whose name class holds the name.
///
/// RELAX NG Specification, section 6.2.8. Fails only when out of memory. Time and memory are linear in the number of
/// patterns before this one.
pub fn has_named(
    context: &Context,
    table: &PatternTable,
    name: &Name,
    number: PatternNumber,
) -> Result<bool, OutOfMemory>
    requires { number.0 < length table.now }
    ensures { IfOk result (λ b. b ≡ has_named (name_of name.now) (tree_of context.now.grammar.now table.now number.0)) }
{
    let mut tests = Vec::new(context.alloc);
    'rows: while tests.len() <= number.0 {
        let pattern = table.pattern(PatternNumber(tests.len()));
        let test = has_named_by(context.grammar, pattern, name, tests.as_slice());
        tests.push(test)?;
    }
    Ok(tests[number.0])
}

/// The same for a pattern, given the tests of the patterns before it.
fn has_named_by(grammar: &SimpleGrammar, pattern: &Pattern, name: &Name, tests: &[bool]) -> bool
    requires { ArePartsBelow (length tests.now) (node_of pattern.now) }
    ensures { (of : ℕ → tree.Simple ℕ) → AreTests (name_of name.now) of tests.now
        → result ≡ has_named (name_of name.now) (tree_over grammar.now of (node_of pattern.now)) }
{
    match pattern {
        Pattern::Attribute(position) => is_named(grammar, *position, name),
        Pattern::Choice(members) => some_pass(members.as_slice(), tests),
        Pattern::Group(first, second) => tests[first.0] || tests[second.0],
        Pattern::Interleave(first, second) => tests[first.0] || tests[second.0],
        Pattern::OneOrMore(body) => tests[body.0],
        _ => false,
    }
}

/// Returns whether one of these patterns passes its test.
fn some_pass(members: &[PatternNumber], tests: &[bool]) -> bool
    requires { All (λ m. m.0 < length tests.now) members.now }
    ensures { result ≡ list_any (λ m. get_or tests.now m.0 false) members.now }
{
    'members: for member in members {
        if tests[member.0] {
            return true;
        }
    }
    false
}

/// Returns whether the pattern at this position of the grammar is an attribute whose name class holds the name.
fn is_named(grammar: &SimpleGrammar, position: PatternId, name: &Name) -> bool
    ensures { result ≡ has_named (name_of name.now) (attribute_found grammar.now (slice_get grammar.now.patterns position.0)) }
{
    match grammar.pattern(position) {
        Some(Simple::Attribute(class, _)) => contains(class, name),
        _ => false,
    }
}
