// What is known of each pattern of a grammar.
ghost use Rattle.std.specs.Prelude.{◌≡◌, ℕ, length, IfOk};
ghost use Rattle.rng_model.specs.simple.Table.{tree_at, tree_over};
ghost use Rattle.rng_model.specs.simple.TableRules.{AreChildrenBelow};
ghost use Rattle.rng_model.specs.simple.Tree as tree;
ghost use Rattle.rng_model.specs.names.NameViews.{class_of};
ghost use Rattle.rng_model.specs.declared.simple.PatternId.{PatternId};
ghost use Rattle.rng_rules.specs.plain.FactsOver as over;
ghost use Rattle.rng_rules.specs.plain.Facts.{HasFacts, facts_of};
ghost use Rattle.rng_rules.specs.plain.Kinds.{kind_seen};

use crate::content::{ContentType, of_attribute, of_both, of_either};
use crate::held::{Held, held_by_either, held_by_none, held_with};
use crate::kind::{Kind, kind_of};
use crate::wildcard::has_wildcard;
use rng_model::{NameClass, OutOfMemory, PatternId, Simple, SimpleGrammar};
use std::alloc::Global;

/// What is known of a pattern without looking into it again.
#[derive(Clone, Copy)]
pub struct Facts {
    /// What the pattern contains, including itself.
    pub held: Held,
    /// Whether it is notAllowed.
    pub not_allowed: bool,
    /// Its content type, if it has one.
    pub content: Option<ContentType>,
    /// Whether it contains an attribute with a wildcard in its name class, outside every oneOrMore.
    pub unrepeated_wildcard: bool,
    /// Whether text occurs in it, reached only through choices, groups, interleaves and oneOrMores.
    pub text_occurs: bool,
    /// Whether it contains an interleave that breaks S27.
    pub breaks_text: bool,
}

/// Returns the facts of each pattern of the grammar, at its position. The cost is one step and a few bytes for each
/// pattern.
pub fn facts_of(alloc: Global, grammar: &SimpleGrammar) -> Result<Vec<Facts>, OutOfMemory>
    ensures len { IfOk result (λ v. length v.items ≡ length grammar.now.patterns) }
    ensures facts { IfOk result (λ v. HasFacts (tree_at grammar.now.patterns) v.items) }
{
    let mut facts = Vec::new(alloc);
    'patterns: loop {
        let position = PatternId(facts.len());
        let Some(pattern) = grammar.pattern(position) else {
            return Ok(facts);
        };
        facts.push(facts_over(&facts, pattern))?;
    }
}

/// Returns the facts of a pattern, from those of its children.
fn facts_over(below: &[Facts], pattern: &Simple) -> Facts
    requires { AreChildrenBelow (length below.now) pattern.now }
    ensures { (of : PatternId → tree.Simple ℕ) → HasFacts of below.now → result ≡ facts_of (tree_over of pattern.now) }
{
    let kind = kind_of(pattern);
    match pattern {
        Simple::NotAllowed
        | Simple::Empty
        | Simple::Text
        | Simple::Element(_)
        | Simple::Data(_)
        | Simple::Value(_) => facts_of_leaf(kind),
        Simple::Attribute(class, body) => facts_of_attribute(class, below[body.0]),
        Simple::List(body) | Simple::DataExcept(_, body) => facts_of_simple(kind, below[body.0]),
        Simple::OneOrMore(body) => facts_of_repeated(below[body.0]),
        Simple::Group(first, second)
        | Simple::Interleave(first, second)
        | Simple::Choice(first, second) => facts_of_joined(kind, below[first.0], below[second.0]),
    }
}

/// Returns the facts of a pattern of this kind, which has no children.
fn facts_of_leaf(kind: Kind) -> Facts
    ensures { result ≡ over.facts_of_leaf (kind_seen kind) }
{
    Facts {
        held: held_with(kind, held_by_none()),
        not_allowed: matches!(kind, Kind::NotAllowed),
        content: match kind {
            Kind::NotAllowed => None,
            Kind::Empty => Some(ContentType::Empty),
            Kind::Text | Kind::Ref => Some(ContentType::Complex),
            _ => Some(ContentType::Simple),
        },
        unrepeated_wildcard: false,
        text_occurs: matches!(kind, Kind::Text),
        breaks_text: false,
    }
}

/// Returns the facts of an attribute, from those of its content.
fn facts_of_attribute(class: &NameClass, body: Facts) -> Facts
    ensures { result ≡ over.facts_of_attribute (class_of class.now) body }
{
    Facts {
        held: held_with(Kind::Attribute, body.held),
        not_allowed: false,
        content: of_attribute(body.content),
        unrepeated_wildcard: has_wildcard(class) | body.unrepeated_wildcard,
        text_occurs: false,
        breaks_text: body.breaks_text,
    }
}

/// Returns the facts of a list, or of a datatype with an except, from those of its content or its except.
fn facts_of_simple(kind: Kind, body: Facts) -> Facts
    ensures { result ≡ over.facts_of_simple (kind_seen kind) body }
{
    Facts {
        held: held_with(kind, body.held),
        not_allowed: false,
        content: Some(ContentType::Simple),
        unrepeated_wildcard: body.unrepeated_wildcard,
        text_occurs: false,
        breaks_text: body.breaks_text,
    }
}

/// Returns the facts of a oneOrMore, from those of its content.
fn facts_of_repeated(body: Facts) -> Facts
    ensures { result ≡ over.facts_of_repeated body }
{
    Facts {
        held: held_with(Kind::OneOrMore, body.held),
        not_allowed: false,
        content: of_both(body.content, body.content),
        unrepeated_wildcard: false,
        text_occurs: body.text_occurs,
        breaks_text: body.breaks_text,
    }
}

/// Returns the facts of a group, an interleave or a choice, from those of its sides.
fn facts_of_joined(kind: Kind, first: Facts, second: Facts) -> Facts
    ensures { result ≡ over.facts_of_joined (kind_seen kind) first second }
{
    let both = first.text_occurs & second.text_occurs;
    Facts {
        held: held_with(kind, held_by_either(first.held, second.held)),
        not_allowed: false,
        content: match kind {
            Kind::Choice => of_either(first.content, second.content),
            _ => of_both(first.content, second.content),
        },
        unrepeated_wildcard: first.unrepeated_wildcard | second.unrepeated_wildcard,
        text_occurs: first.text_occurs | second.text_occurs,
        breaks_text: matches!(kind, Kind::Interleave) & both
            | first.breaks_text
            | second.breaks_text,
    }
}
