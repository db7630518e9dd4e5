// The clauses that the parts of a grammar break, of those that a part breaks by itself.
ghost use Rattle.std.specs.Prelude.{All, MatchOption, ◌≡◌, ◌<◌, ℕ, length, map, IfOk};
ghost use Rattle.rng_model.specs.restrictions.RestrictionFaults.{IsLeastRestriction};
ghost use Rattle.rng_model.specs.simple.Table.{grammar_of};
ghost use Rattle.rng_model.specs.simple.Grammar.{Grammar};
ghost use Rattle.rng_model.specs.simple.Tree as tree;
ghost use Rattle.rng_model.specs.declared.simple.PatternId.{PatternId};
ghost use Rattle.rng_rules.specs.plain.Broken.{IsIntactBelow, body_broken, either_broken, grammar_broken, part_broken, parts_broken, start_broken};
ghost use Rattle.rng_rules.specs.plain.Facts.{HasFacts, facts_of};

use crate::facts::{Facts, facts_of};
use rng_model::{ElementId, OutOfMemory, PatternId, SimpleGrammar};
use std::alloc::Global;

/// The broken clauses, of those that a start or a body breaks by itself.
#[derive(Clone, Copy)]
pub struct Broken {
    /// S18.
    pub attribute: bool,
    /// S19.
    pub one_or_more: bool,
    /// S20.
    pub list: bool,
    /// S21.
    pub except: bool,
    /// S22.
    pub start: bool,
    /// S23.
    pub content: bool,
    /// S25.
    pub wildcard: bool,
    /// S27.
    pub text: bool,
}

impl Broken {
    /// Returns the least broken clause of S18 to S23.
    pub fn first_before_names(&self) -> Option<u8>
        ensures { (g : Grammar) → self.now ≡ grammar_broken g → MatchOption result (IsIntactBelow g 24) (IsLeastRestriction g) }
    {
        if self.attribute {
            Some(18)
        } else if self.one_or_more {
            Some(19)
        } else if self.list {
            Some(20)
        } else if self.except {
            Some(21)
        } else if self.start {
            Some(22)
        } else if self.content {
            Some(23)
        } else {
            None
        }
    }
}

/// Returns the clauses that the start or the body of a listed element breaks. Linear in the grammar.
pub fn broken_in(alloc: Global, grammar: &SimpleGrammar) -> Result<Broken, OutOfMemory>
    ensures { IfOk result (λ broken. broken ≡ grammar_broken (grammar_of grammar.now)) }
{
    let facts = facts_of(alloc, grammar)?;
    let bodies = bodies_of(alloc, grammar)?;
    Ok(broken_by_parts(&facts, grammar.start(), &bodies))
}

/// Returns the body of each listed element.
fn bodies_of(alloc: Global, grammar: &SimpleGrammar) -> Result<Vec<PatternId>, OutOfMemory>
    ensures { IfOk result (λ bodies. bodies.items ≡ map (λ e. e.1) grammar.now.elements) }
{
    let mut bodies = Vec::new(alloc);
    'elements: loop {
        let Some((_, body)) = grammar.element(ElementId(bodies.len())) else {
            return Ok(bodies);
        };
        bodies.push(*body)?;
    }
}

/// Returns the clauses that a start or one of some bodies breaks.
fn broken_by_parts(facts: &[Facts], start: PatternId, bodies: &[PatternId]) -> Broken
    requires start { start.0 < length facts.now }
    requires bodies { All (λ body. body.0 < length facts.now) bodies.now }
    ensures { (of : PatternId → tree.Simple ℕ) → HasFacts of facts.now → result ≡ parts_broken (facts_of (of start)) (map (λ body. facts_of (of body)) bodies.now) }
{
    let mut broken = broken_by_start(facts[start.0]);
    'bodies: for body in bodies {
        broken = broken_by_either(broken, broken_by_body(facts[body.0]));
    }
    broken
}

/// Returns the clauses that one or the other breaks.
fn broken_by_either(first: Broken, second: Broken) -> Broken
    ensures { result ≡ either_broken first second }
{
    Broken {
        attribute: first.attribute | second.attribute,
        one_or_more: first.one_or_more | second.one_or_more,
        list: first.list | second.list,
        except: first.except | second.except,
        start: first.start | second.start,
        content: first.content | second.content,
        wildcard: first.wildcard | second.wildcard,
        text: first.text | second.text,
    }
}

/// Returns the clauses that a start breaks, from its facts.
fn broken_by_start(facts: Facts) -> Broken
    ensures { result ≡ start_broken facts }
{
    broken_by_part(facts, facts.held.barred_from_start, false)
}

/// Returns the clauses that the body of an element breaks, from its facts.
fn broken_by_body(facts: Facts) -> Broken
    ensures { result ≡ body_broken facts }
{
    broken_by_part(facts, false, !facts.not_allowed & facts.content.is_none())
}

/// Returns the clauses that a start or a body breaks, from its facts. Those for S22 and S23 are given.
fn broken_by_part(facts: Facts, start: bool, content: bool) -> Broken
    ensures { result ≡ part_broken start content facts }
{
    Broken {
        attribute: facts.held.breaks_attribute,
        one_or_more: facts.held.breaks_one_or_more,
        list: facts.held.breaks_list,
        except: facts.held.breaks_except,
        start,
        content,
        wildcard: facts.unrepeated_wildcard,
        text: facts.breaks_text,
    }
}
