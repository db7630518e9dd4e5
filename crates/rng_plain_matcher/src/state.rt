// Patterns inside open elements, and what each event does to them.
ghost use Rattle.std.specs.Prelude.{◌≡◌, IfOk, map, option_map};
ghost use Rattle.rng_model.specs.documents.EventViews.{attribute_of};
ghost use Rattle.rng_model.specs.names.NameViews.{name_of};
ghost use Rattle.rng_model.specs.matching.GrammarMatching.{reading_of};
ghost use Rattle.rng_deriv_laws.specs.plain.States.{accepts, after_of, either_of, end_tag, end_text, if_so, is_ended, is_never, start_tag, string};
ghost use Rattle.rng_deriv_laws.specs.plain.Derivatives.{bodies_of, closed};
ghost use Rattle.rng_deriv_laws.specs.plain.Derivatives as laws_of;
ghost use Rattle.rng_model.specs.simple.Table.{tree_at};
ghost use Rattle.rng_model.specs.simple.Tree.{s_leaf};
ghost use Rattle.rng_plain_matcher.specs.plain.Bodies.{body_named};
ghost use Rattle.rng_deriv_laws.specs.plain.States as laws;
ghost use Rattle.rng_plain_matcher.specs.views.States.{state_of};
ghost use Rattle.rng_plain_matcher.specs.views.Trees.{tree_of};
ghost use Rattle.rng_plain_matcher.specs.views.Ways.{way_of};

use crate::context::Context;
use crate::datatypes::has_name;
use crate::derivatives::{after, after_attributes, closed, has_text};
use crate::first::First;
use crate::grammar_trees::tree_at;
use crate::tree::{Tree, copy, is_not_allowed, is_nullable};
use crate::ways::{Way, item_ways};
use rng_model::{Attr, ElementId, Name, OutOfMemory, PatternId};

/// What may remain of a document.
#[derive(Drop)]
pub enum State<'a> {
    /// No continuation is valid.
    Never,
    /// Nothing remains, outside of the root.
    Finished,
    /// This pattern remains in the innermost open element, and the state in those around it.
    After(Tree<'a>, Box<State<'a>>),
    Either(Box<State<'a>>, Box<State<'a>>),
}

/// Copies a state. Fails only when out of memory.
pub fn copy_state<'a>(context: &Context<'a>, state: &State<'a>) -> Result<State<'a>, OutOfMemory>
    ensures { IfOk result (λ copied. state_of copied ≡ state_of state.now) }
{
    match state {
        State::Never => Ok(State::Never),
        State::Finished => Ok(State::Finished),
        State::After(tree, outer) => {
            let tree = copy(context.alloc, tree)?;
            let outer = copy_state(context, outer)?;
            Ok(State::After(tree, Box::new(context.alloc, outer)?))
        }
        State::Either(first, second) => {
            let first = copy_state(context, first)?;
            let second = copy_state(context, second)?;
            pair(context, first, second)
        }
    }
}

/// Returns two states, as they are.
fn pair<'a>(
    context: &Context<'a>,
    first: State<'a>,
    second: State<'a>,
) -> Result<State<'a>, OutOfMemory>
    ensures { IfOk result (λ state. state_of state ≡ laws.either (state_of first.entry) (state_of second.entry)) }
{
    let first = Box::new(context.alloc, first)?;
    let second = Box::new(context.alloc, second)?;
    Ok(State::Either(first, second))
}

/// Returns whether no continuation is valid.
pub fn is_never(state: &State) -> bool
    ensures { result ≡ is_never (state_of state.now) }
{
    matches!(state, State::Never)
}

/// Returns the state with this pattern inside and this state around: never if one of them allows nothing.
///
/// Fails only when out of memory.
pub fn after_of<'a>(
    context: &Context<'a>,
    tree: Tree<'a>,
    outer: State<'a>,
) -> Result<State<'a>, OutOfMemory>
    ensures { IfOk result (λ state. state_of state ≡ after_of (tree_of tree.entry) (state_of outer.entry)) }
{
    if is_not_allowed(&tree) || is_never(&outer) {
        return Ok(State::Never);
    }
    Ok(State::After(tree, Box::new(context.alloc, outer)?))
}

/// Returns a choice of states. One that is never is left out.
fn either_of<'a>(
    context: &Context<'a>,
    first: State<'a>,
    second: State<'a>,
) -> Result<State<'a>, OutOfMemory>
    ensures { IfOk result (λ state. state_of state ≡ either_of (state_of first.entry) (state_of second.entry)) }
{
    if is_never(&first) {
        return Ok(second);
    }
    if is_never(&second) {
        return Ok(first);
    }
    pair(context, first, second)
}

/// Returns a copy of a state, or never.
fn if_so<'a>(
    context: &Context<'a>,
    is_so: bool,
    state: &State<'a>,
) -> Result<State<'a>, OutOfMemory>
    ensures { IfOk result (λ left. state_of left ≡ if_so is_so (state_of state.now)) }
{
    if is_so {
        copy_state(context, state)
    } else {
        Ok(State::Never)
    }
}

/// Returns the state after the start of an element. Fails only when out of memory.
pub fn start_tag<'a>(
    context: &Context<'a>,
    state: &State<'a>,
    name: &Name,
    attrs: &[Attr],
) -> Result<State<'a>, OutOfMemory>
    ensures { IfOk result (λ left. state_of left
        ≡ start_tag (reading_of context.now.grammar.now) (state_of state.now) (name_of name.now) (map attribute_of attrs.now)) }
{
    match state {
        State::Never | State::Finished => Ok(State::Never),
        State::After(tree, outer) => {
            let ways = item_ways(context.alloc, tree)?;
            enter(context, ways.as_slice(), outer, name, attrs)
        }
        State::Either(first, second) => {
            let first = start_tag(context, first, name, attrs)?;
            let second = start_tag(context, second, name, attrs)?;
            either_of(context, first, second)
        }
    }
}

/// Returns the state inside the bodies of those leaves that take an element of this name.
fn enter<'a>(
    context: &Context<'a>,
    ways: &[Way<'_, 'a>],
    outer: &State<'a>,
    name: &Name,
    attrs: &[Attr],
) -> Result<State<'a>, OutOfMemory>
    ensures { IfOk result (λ left. state_of left ≡ laws.enter (reading_of context.now.grammar.now) (map attribute_of attrs.now)
        (bodies_of (reading_of context.now.grammar.now) (name_of name.now) (map way_of ways.now)) (state_of outer.now)) }
{
    let [way, others @ ..] = ways else {
        return Ok(State::Never);
    };
    let others = enter(context, others, outer, name, attrs)?;
    let Some(body) = body_named(context, way.leaf, name) else {
        return Ok(others);
    };
    let rest = &way.rest;
    let inside = opened(context, body, rest, outer, attrs)?;
    let all = either_of(context, inside, others)?;
    Ok(all)
}

/// Returns the state inside a body of the grammar, after the attributes of its tag, with this rest around it.
fn opened<'a>(
    context: &Context<'a>,
    body: PatternId,
    rest: &Tree<'a>,
    outer: &State<'a>,
    attrs: &[Attr],
) -> Result<State<'a>, OutOfMemory>
    ensures { IfOk result (λ state. state_of state
        ≡ after_of (closed (laws_of.after_attributes (reading_of context.now.grammar.now) (tree_at context.now.grammar.now.patterns body) (map attribute_of attrs.now)))
        (after_of (tree_of rest.now) (state_of outer.now))) }
{
    let rest = copy(context.alloc, rest)?;
    let outer = copy_state(context, outer)?;
    let outer = after_of(context, rest, outer)?;
    let inside = entered(context, body, attrs)?;
    let state = after_of(context, inside, outer)?;
    Ok(state)
}

/// Returns the body of the element that a leaf is, if the leaf is an element with this name.
fn body_named(context: &Context, leaf: &Tree, name: &Name) -> Option<PatternId>
    ensures { option_map (tree_at context.now.grammar.now.patterns) result ≡ body_named (reading_of context.now.grammar.now) (name_of name.now) (tree_of leaf.now) }
{
    match leaf {
        Tree::Element(element) => listed_body(context, *element, name),
        Tree::NotAllowed
        | Tree::Empty
        | Tree::Text
        | Tree::Attribute(_, _)
        | Tree::List(_)
        | Tree::Data(_)
        | Tree::DataExcept(_, _)
        | Tree::Value(_)
        | Tree::OneOrMore(_)
        | Tree::Joined(_, _, _) => None,
    }
}

/// Returns the body of an element of the grammar, if the element may have this name.
fn listed_body(context: &Context, element: ElementId, name: &Name) -> Option<PatternId>
    ensures { option_map (tree_at context.now.grammar.now.patterns) result ≡ body_named (reading_of context.now.grammar.now) (name_of name.now) (s_leaf element.0) }
{
    match context.grammar.element(element) {
        Some((class, body)) => {
            if has_name(class, name) {
                Some(*body)
            } else {
                None
            }
        }
        None => None,
    }
}

/// Returns what is left of a body of the grammar after the attributes of a tag.
fn entered<'a>(
    context: &Context<'a>,
    body: PatternId,
    attrs: &[Attr],
) -> Result<Tree<'a>, OutOfMemory>
    ensures { IfOk result (λ left. tree_of left
        ≡ closed (laws_of.after_attributes (reading_of context.now.grammar.now) (tree_at context.now.grammar.now.patterns body) (map attribute_of attrs.now))) }
{
    let tree = tree_at(context, body)?;
    let left = after_attributes(context, &tree, attrs)?;
    closed(context, &left)
}

/// Returns the state after a string with an element beside it. Fails only when out of memory.
pub fn string<'a>(
    context: &Context<'a>,
    state: &State<'a>,
    text: &str,
) -> Result<State<'a>, OutOfMemory>
    ensures { IfOk result (λ left. state_of left ≡ string (reading_of context.now.grammar.now) (state_of state.now) text.now) }
{
    match state {
        State::Never | State::Finished => Ok(State::Never),
        State::After(tree, outer) => {
            let left = after(context, First::Text(text), tree)?;
            let outer = copy_state(context, outer)?;
            after_of(context, left, outer)
        }
        State::Either(first, second) => {
            let first = string(context, first, text)?;
            let second = string(context, second, text)?;
            either_of(context, first, second)
        }
    }
}

/// Returns the state after the end of an element that has a child element. Fails only when out of memory.
pub fn end_tag<'a>(context: &Context<'a>, state: &State<'a>) -> Result<State<'a>, OutOfMemory>
    ensures { IfOk result (λ left. state_of left ≡ end_tag (state_of state.now)) }
{
    match state {
        State::Never | State::Finished => Ok(State::Never),
        State::After(tree, outer) => if_so(context, is_nullable(tree), outer),
        State::Either(first, second) => {
            let first = end_tag(context, first)?;
            let second = end_tag(context, second)?;
            either_of(context, first, second)
        }
    }
}

/// Returns the state after the end of an element with only one string, or with nothing if the string is empty.
///
/// Fails only when out of memory.
pub fn end_text<'a>(
    context: &Context<'a>,
    state: &State<'a>,
    text: &str,
) -> Result<State<'a>, OutOfMemory>
    ensures { IfOk result (λ left. state_of left ≡ end_text (reading_of context.now.grammar.now) (state_of state.now) text.now) }
{
    match state {
        State::Never | State::Finished => Ok(State::Never),
        State::After(tree, outer) => {
            let has = has_text(context, tree, text)?;
            if_so(context, has, outer)
        }
        State::Either(first, second) => {
            let first = end_text(context, first, text)?;
            let second = end_text(context, second, text)?;
            either_of(context, first, second)
        }
    }
}

/// Returns whether nothing remains and nothing is needed.
fn is_ended(state: &State) -> bool
    ensures { result ≡ is_ended (state_of state.now) }
{
    match state {
        State::Never | State::After(_, _) => false,
        State::Finished => true,
        State::Either(first, second) => is_ended(first) || is_ended(second),
    }
}

/// Returns whether a document may end in this state.
pub fn accepts(state: &State) -> bool
    ensures { result ≡ accepts (state_of state.now) }
{
    match state {
        State::Never | State::Finished => false,
        State::After(tree, outer) => is_nullable(tree) && is_ended(outer),
        State::Either(first, second) => accepts(first) || accepts(second),
    }
}
