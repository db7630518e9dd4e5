// Names of attributes that a tag must have.
ghost use Rattle.std.specs.Prelude.{◌≡◌, ◌↔◌, ◌<◌, ℕ, All, IfNone, IfOk, IfSome, false, get_or, length, map, slice_get, true};
ghost use Rattle.rng_model.specs.names.Names as names;
ghost use Rattle.rng_model.specs.names.NameViews.{class_of, name_of};
ghost use Rattle.rng_model.specs.simple.TableRules.{IsPaired, IsTable};
ghost use Rattle.rng_model.specs.simple.Tree as tree;
ghost use Rattle.rng_deriv_table.specs.views.Node.{node_of};
ghost use Rattle.rng_deriv_table.specs.views.PatternTable.{ArePartsBelow};
ghost use Rattle.rng_deriv_table.specs.views.Trees.{attribute_found, tree_of, tree_over};
ghost use Rattle.rng_expected.specs.Tags.{Needs};
ghost use Rattle.rng_expected.specs.plain.TagLeaves.{AllNeed, AreNeeded, AreTests, IsNoName};

use rng_deriv_table::{Pattern, PatternNumber, PatternTable};
use rng_model::{Name, NameClass, OutOfMemory, PatternId, Simple, SimpleGrammar};
use rng_names::is_same_name;
use std::alloc::Global;

/// Returns the names among the classes that each of the bodies needs.
pub fn needed_of<'a>(
    alloc: Global,
    grammar: &SimpleGrammar,
    table: &PatternTable,
    bodies: &[PatternNumber],
    classes: &[&'a NameClass],
) -> Result<Vec<&'a Name>, OutOfMemory>
    requires grammar { IsTable grammar.now }
    requires bodies { All (λ b. b.0 < length table.now) bodies.now }
    requires classes { All (λ c. IsPaired c.now) classes.now }
    ensures { IfOk result (λ needed. AreNeeded grammar.now table.now bodies.now
        (map (λ c. class_of c.now) classes.now) (map (λ n. name_of n.now) needed.items)) }
{
    let mut needed = Vec::new(alloc);
    'classes: for class in classes {
        let Some(name) = only_name(class) else {
            continue;
        };
        if is_needed(alloc, grammar, table, bodies, name)? {
            needed.push(name)?;
        }
    }
    Ok(needed)
}

/// Returns whether each of the bodies needs the name.
fn is_needed(
    alloc: Global,
    grammar: &SimpleGrammar,
    table: &PatternTable,
    bodies: &[PatternNumber],
    name: &Name,
) -> Result<bool, OutOfMemory>
    requires grammar { IsTable grammar.now }
    requires bodies { All (λ b. b.0 < length table.now) bodies.now }
    ensures { IfOk result (λ b. (b ≡ true) ↔ AllNeed grammar.now table.now (name_of name.now) bodies.now) }
{
    let tests = tests_of(alloc, grammar, table, name)?;
    'bodies: for body in bodies {
        if !tests[body.0] {
            return Ok(false);
        }
    }
    Ok(true)
}

/// Returns of each pattern of the table whether it needs the name.
fn tests_of(
    alloc: Global,
    grammar: &SimpleGrammar,
    table: &PatternTable,
    name: &Name,
) -> Result<Vec<bool>, OutOfMemory>
    requires { IsTable grammar.now }
    ensures long { IfOk result (λ tests. length tests.items ≡ length table.now) }
    ensures tests { IfOk result (λ tests. AreTests grammar.now table.now (name_of name.now) tests.items) }
{
    let mut tests = Vec::new(alloc);
    'rows: while tests.len() < table.len() {
        let pattern = table.pattern(PatternNumber(tests.len()));
        let test = needs(grammar, pattern, name, tests.as_slice());
        tests.push(test)?;
    }
    Ok(tests)
}

/// Returns whether a pattern needs the name, given the tests of the patterns before it.
fn needs(grammar: &SimpleGrammar, pattern: &Pattern, name: &Name, tests: &[bool]) -> bool
    requires grammar { IsTable grammar.now }
    requires parts { ArePartsBelow (length tests.now) (node_of pattern.now) }
    ensures { (of : ℕ → tree.Simple ℕ) → ((i : ℕ) → i < length tests.now → (get_or tests.now i false ≡ true) ↔ Needs (name_of name.now) (of i))
        → (result ≡ true) ↔ Needs (name_of name.now) (tree_over grammar.now of (node_of pattern.now)) }
{
    match pattern {
        Pattern::NotAllowed => true,
        Pattern::Attribute(position) => attribute_needs(grammar, *position, name),
        Pattern::Choice(members) => all_need(members.as_slice(), tests),
        Pattern::Group(first, second) => tests[first.0] || tests[second.0],
        Pattern::Interleave(first, second) => tests[first.0] || tests[second.0],
        Pattern::OneOrMore(body) => tests[body.0],
        _ => false,
    }
}

/// Returns whether all tests of these patterns hold.
fn all_need(members: &[PatternNumber], tests: &[bool]) -> bool
    requires { All (λ m. m.0 < length tests.now) members.now }
    ensures { (result ≡ true) ↔ All (λ m. get_or tests.now m.0 false ≡ true) members.now }
{
    'members: for member in members {
        if !tests[member.0] {
            return false;
        }
    }
    true
}

/// Returns whether the attribute at this position has only the name.
fn attribute_needs(grammar: &SimpleGrammar, position: PatternId, name: &Name) -> bool
    requires { IsTable grammar.now }
    ensures { (result ≡ true) ↔ Needs (name_of name.now) (attribute_found grammar.now (slice_get grammar.now.patterns position.0)) }
{
    match grammar.pattern(position) {
        Some(Simple::Attribute(class, _)) => is_only(class, name),
        _ => false,
    }
}

/// Returns whether the class is of this name alone.
fn is_only(class: &NameClass, name: &Name) -> bool
    requires { IsPaired class.now }
    ensures { (result ≡ true) ↔ (class_of class.now ≡ names.name_is (name_of name.now)) }
{
    match only_name(class) {
        Some(own) => is_same_name(own, name),
        None => false,
    }
}

/// Returns the only name of a class, if it is a name.
fn only_name(class: &NameClass) -> Option<&Name>
    requires { IsPaired class.now }
    ensures some { IfSome result (λ n. class_of class.now ≡ names.name_is (name_of n.now)) }
    ensures none { IfNone result (IsNoName (class_of class.now)) }
{
    match class {
        NameClass::Name(name) => Some(name),
        NameClass::Any
        | NameClass::AnyExcept(_)
        | NameClass::Ns(_)
        | NameClass::NsExcept(_, _)
        | NameClass::Choice(_) => None,
    }
}
