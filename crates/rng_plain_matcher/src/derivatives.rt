// What is left of a pattern after a string or attributes.
ghost use Rattle.std.specs.Prelude.{◌≡◌, cond, IfOk, map};
ghost use Rattle.rng_model.specs.documents.EventViews.{attribute_of};
ghost use Rattle.rng_model.specs.simple.Tree.{s_not_allowed};
ghost use Rattle.rng_model.specs.matching.GrammarMatching.{reading_of};
ghost use Rattle.rng_deriv_laws.specs.plain.Derivatives.{after_attributes, choice_of, closed, has_text, list_has, rests_of};
ghost use Rattle.rng_plain_matcher.specs.views.Trees.{tree_of};
ghost use Rattle.rng_plain_matcher.specs.views.Ways.{way_of};
ghost use Rattle.rng_deriv_laws.specs.plain.Derivatives as laws;
ghost use Rattle.rng_plain_matcher.specs.plain.First.{after_first, takes_first, ways_for};

use crate::context::Context;
use crate::datatypes::{has_name, is_blank};
use crate::excepts::takes_piece;
use crate::first::First;
use crate::tree::{Connector, Tree, choice, copy, is_nullable, joined, repeated};
use crate::ways::{Ways, attribute_ways, item_ways};
use rng_model::{Attr, OutOfMemory, Pieces};

/// Returns what is left of a pattern after a string or an attribute: notAllowed if the pattern does not take it.
///
/// RELAX NG Specification, section 6.2. Fails only when out of memory.
#[cycle(derivatives)]
pub fn after<'a>(
    context: &Context<'a>,
    first: First,
    tree: &Tree<'a>,
) -> Result<Tree<'a>, OutOfMemory>
    ensures { IfOk result (λ left. tree_of left ≡ after_first (reading_of context.now.grammar.now) first.entry (tree_of tree.now)) }
{
    let ways = ways_for(context, first, tree)?;
    rests(context, first, ways)
}

/// Returns the ways of a pattern to begin with a string or an attribute.
fn ways_for<'t, 'a>(
    context: &Context<'a>,
    first: First,
    tree: &'t Tree<'a>,
) -> Result<Ways<'t, 'a>, OutOfMemory>
    ensures { IfOk result (λ ways. map way_of ways.items ≡ ways_for first.entry (tree_of tree.now)) }
{
    match first {
        First::Piece(_) => item_ways(context.alloc, tree),
        First::Text(_) => item_ways(context.alloc, tree),
        First::Attribute(_) => attribute_ways(context.alloc, tree),
    }
}

/// Returns a choice of what is left after the ways whose leaf takes a string or an attribute.
#[cycle(derivatives)]
fn rests<'a>(
    context: &Context<'a>,
    first: First,
    mut ways: Ways<'_, 'a>,
) -> Result<Tree<'a>, OutOfMemory>
    ensures { IfOk result (λ left. tree_of left ≡ rests_of (takes_first (reading_of context.now.grammar.now) first.entry) (map way_of ways.entry.items)) }
{
    let mut left = Tree::NotAllowed;
    'ways: while let Some(way) = ways.pop() {
        let is_taken = takes(context, first, way.leaf)?;
        left = with_rest(context, is_taken, way.rest, left)?;
    }
    Ok(left)
}

/// Returns a choice of a rest, if its leaf takes what comes first, and of another pattern.
fn with_rest<'a>(
    context: &Context<'a>,
    is_taken: bool,
    rest: Tree<'a>,
    left: Tree<'a>,
) -> Result<Tree<'a>, OutOfMemory>
    ensures { IfOk result (λ all. tree_of all ≡ choice_of (cond is_taken (tree_of rest.entry) s_not_allowed) (tree_of left.entry)) }
{
    if is_taken {
        choice(context.alloc, rest, left)
    } else {
        Ok(left)
    }
}

/// Returns whether a leaf takes a string or an attribute.
#[cycle(derivatives)]
fn takes<'a>(context: &Context<'a>, first: First, leaf: &Tree<'a>) -> Result<bool, OutOfMemory>
    ensures { IfOk result (λ takes. takes ≡ takes_first (reading_of context.now.grammar.now) first.entry (tree_of leaf.now)) }
{
    match first {
        First::Piece(text) => takes_piece(context, leaf, text),
        First::Text(text) => takes_text(context, leaf, text),
        First::Attribute(attr) => takes_attribute(context, leaf, attr),
    }
}

/// Returns whether a leaf takes a string.
#[cycle(derivatives)]
fn takes_text<'a>(context: &Context<'a>, leaf: &Tree<'a>, text: &str) -> Result<bool, OutOfMemory>
    ensures { IfOk result (λ takes. takes
        ≡ laws.takes_text (reading_of context.now.grammar.now) (list_has (reading_of context.now.grammar.now)) text.now (tree_of leaf.now)) }
{
    match leaf {
        Tree::List(body) => list_has(context, body, text),
        Tree::NotAllowed
        | Tree::Empty
        | Tree::Text
        | Tree::Element(_)
        | Tree::Attribute(_, _)
        | Tree::Data(_)
        | Tree::DataExcept(_, _)
        | Tree::Value(_)
        | Tree::OneOrMore(_)
        | Tree::Joined(_, _, _) => takes_piece(context, leaf, text),
    }
}

/// Returns whether a leaf takes an attribute.
#[cycle(derivatives)]
fn takes_attribute<'a>(
    context: &Context<'a>,
    leaf: &Tree<'a>,
    attr: &Attr,
) -> Result<bool, OutOfMemory>
    ensures { IfOk result (λ takes. takes ≡ laws.takes_attribute (reading_of context.now.grammar.now) (attribute_of attr.now) (tree_of leaf.now)) }
{
    match leaf {
        Tree::Attribute(class, body) => {
            if !has_name(class, &attr.name) {
                return Ok(false);
            }
            let has = has_text(context, body, attr.value.as_str())?;
            Ok(has)
        }
        Tree::NotAllowed
        | Tree::Empty
        | Tree::Text
        | Tree::Element(_)
        | Tree::List(_)
        | Tree::Data(_)
        | Tree::DataExcept(_, _)
        | Tree::Value(_)
        | Tree::OneOrMore(_)
        | Tree::Joined(_, _, _) => Ok(false),
    }
}

/// Returns whether the body of a list has the pieces of a text, one after another.
///
/// RELAX NG Specification, section 6.2.10.
#[cycle(derivatives)]
fn list_has<'a>(context: &Context<'a>, body: &Tree<'a>, text: &str) -> Result<bool, OutOfMemory>
    ensures { IfOk result (λ has. has ≡ list_has (reading_of context.now.grammar.now) (tree_of body.now) text.now) }
{
    let mut left = copy(context.alloc, body)?;
    'pieces: for piece in Pieces::new(text) {
        left = after(context, First::Piece(piece), &left)?;
    }
    Ok(is_nullable(&left))
}

/// Returns whether a pattern weakly matches a string that is an only child or the value of an attribute.
///
/// RELAX NG Specification, section 6.2.7. Fails only when out of memory.
#[cycle(derivatives)]
pub fn has_text<'a>(context: &Context<'a>, tree: &Tree<'a>, text: &str) -> Result<bool, OutOfMemory>
    ensures { IfOk result (λ has. has ≡ has_text (reading_of context.now.grammar.now) (tree_of tree.now) text.now) }
{
    let left = after(context, First::Text(text), tree)?;
    Ok(is_nullable(&left) || is_nullable(tree) && is_blank(text))
}

/// Returns what is left of a pattern after attributes, one after another. Fails only when out of memory.
pub fn after_attributes<'a>(
    context: &Context<'a>,
    tree: &Tree<'a>,
    attrs: &[Attr],
) -> Result<Tree<'a>, OutOfMemory>
    ensures { IfOk result (λ left. tree_of left ≡ after_attributes (reading_of context.now.grammar.now) (tree_of tree.now) (map attribute_of attrs.now)) }
{
    let [attr, others @ ..] = attrs else {
        return copy(context.alloc, tree);
    };
    let next = after(context, First::Attribute(attr), tree)?;
    let left = after_attributes(context, &next, others)?;
    Ok(left)
}

/// Returns a pattern after all attributes of a tag: a part that still needs an attribute is notAllowed.
///
/// Fails only when out of memory.
pub fn closed<'a>(context: &Context<'a>, tree: &Tree<'a>) -> Result<Tree<'a>, OutOfMemory>
    ensures { IfOk result (λ left. tree_of left ≡ closed (tree_of tree.now)) }
{
    match tree {
        Tree::Attribute(_, _) => Ok(Tree::NotAllowed),
        Tree::OneOrMore(body) => {
            let body = closed(context, body)?;
            repeated(context.alloc, body)
        }
        Tree::Joined(connector, first, second) => {
            let first = closed(context, first)?;
            let second = closed(context, second)?;
            match connector {
                Connector::Choice => choice(context.alloc, first, second),
                Connector::Group | Connector::Interleave => {
                    joined(context.alloc, *connector, first, second)
                }
            }
        }
        Tree::NotAllowed
        | Tree::Empty
        | Tree::Text
        | Tree::Element(_)
        | Tree::List(_)
        | Tree::Data(_)
        | Tree::DataExcept(_, _)
        | Tree::Value(_) => copy(context.alloc, tree),
    }
}
