// Trees of patterns, and how they are made.
ghost use Rattle.std.specs.Prelude.{◌≡◌, IfOk};
ghost use Rattle.rng_model.specs.simple.Tree.{s_joined};
ghost use Rattle.rng_deriv_laws.specs.plain.Derivatives.{choice_of, is_empty, is_not_allowed, is_nullable, joined_of, more_of, repeat_of};
ghost use Rattle.rng_plain_matcher.specs.views.Trees.{connector_of, tree_of};

use rng_model::{Datatype, DatatypeValue, ElementId, NameClass, OutOfMemory};
use std::alloc::Global;

/// How two patterns are joined: `|`, `,` or `&`.
#[derive(Clone, Copy)]
pub enum Connector {
    Choice,
    Group,
    Interleave,
}

/// A pattern in simple form with all its parts, as a tree. Its name classes and datatypes are those of the grammar.
///
/// RELAX NG Specification, section 5.
#[derive(Drop)]
pub enum Tree<'a> {
    NotAllowed,
    Empty,
    Text,
    /// A ref to an element of the grammar.
    Element(ElementId),
    Attribute(&'a NameClass, Box<Tree<'a>>),
    List(Box<Tree<'a>>),
    Data(&'a Datatype),
    /// A datatype, and its except.
    DataExcept(&'a Datatype, Box<Tree<'a>>),
    Value(&'a DatatypeValue),
    OneOrMore(Box<Tree<'a>>),
    Joined(Connector, Box<Tree<'a>>, Box<Tree<'a>>),
}

/// Copies a tree.
#[cycle(copies)]
pub fn copy<'a>(alloc: Global, tree: &Tree<'a>) -> Result<Tree<'a>, OutOfMemory>
    ensures { IfOk result (λ copied. tree_of copied ≡ tree_of tree.now) }
{
    match tree {
        Tree::NotAllowed => Ok(Tree::NotAllowed),
        Tree::Empty => Ok(Tree::Empty),
        Tree::Text => Ok(Tree::Text),
        Tree::Element(element) => Ok(Tree::Element(*element)),
        Tree::Attribute(class, body) => Ok(Tree::Attribute(class, boxed_copy(alloc, body)?)),
        Tree::List(body) => Ok(Tree::List(boxed_copy(alloc, body)?)),
        Tree::Data(datatype) => Ok(Tree::Data(datatype)),
        Tree::DataExcept(datatype, except) => {
            Ok(Tree::DataExcept(datatype, boxed_copy(alloc, except)?))
        }
        Tree::Value(value) => Ok(Tree::Value(value)),
        Tree::OneOrMore(body) => Ok(Tree::OneOrMore(boxed_copy(alloc, body)?)),
        Tree::Joined(connector, first, second) => {
            let first = boxed_copy(alloc, first)?;
            let second = boxed_copy(alloc, second)?;
            Ok(Tree::Joined(*connector, first, second))
        }
    }
}

/// Copies a tree into a box.
#[cycle(copies)]
fn boxed_copy<'a>(alloc: Global, tree: &Tree<'a>) -> Result<Box<Tree<'a>>, OutOfMemory>
    ensures { IfOk result (λ copied. tree_of copied.value ≡ tree_of tree.now) }
{
    let copied = copy(alloc, tree)?;
    Ok(Box::new(alloc, copied)?)
}

/// Returns whether a pattern needs no attribute and no item.
pub fn is_nullable(tree: &Tree) -> bool
    ensures { result ≡ is_nullable (tree_of tree.now) }
{
    match tree {
        Tree::Empty | Tree::Text => true,
        Tree::OneOrMore(body) => is_nullable(body),
        Tree::Joined(Connector::Choice, first, second) => is_nullable(first) || is_nullable(second),
        Tree::Joined(Connector::Group | Connector::Interleave, first, second) => {
            is_nullable(first) && is_nullable(second)
        }
        Tree::NotAllowed
        | Tree::Element(_)
        | Tree::Attribute(_, _)
        | Tree::List(_)
        | Tree::Data(_)
        | Tree::DataExcept(_, _)
        | Tree::Value(_) => false,
    }
}

/// Returns whether a pattern is notAllowed.
pub fn is_not_allowed(tree: &Tree) -> bool
    ensures { result ≡ is_not_allowed (tree_of tree.now) }
{
    matches!(tree, Tree::NotAllowed)
}

/// Returns whether a pattern is empty.
fn is_empty(tree: &Tree) -> bool
    ensures { result ≡ is_empty (tree_of tree.now) }
{
    matches!(tree, Tree::Empty)
}

/// Joins two patterns as they are.
fn pair<'a>(
    alloc: Global,
    connector: Connector,
    first: Tree<'a>,
    second: Tree<'a>,
) -> Result<Tree<'a>, OutOfMemory>
    ensures { IfOk result (λ tree. tree_of tree ≡ s_joined (connector_of connector) (tree_of first.entry) (tree_of second.entry)) }
{
    let first = Box::new(alloc, first)?;
    let second = Box::new(alloc, second)?;
    Ok(Tree::Joined(connector, first, second))
}

/// Returns a choice. A side that is notAllowed is left out (RELAX NG Specification, section 4.20).
pub fn choice<'a>(alloc: Global, first: Tree<'a>, second: Tree<'a>) -> Result<Tree<'a>, OutOfMemory>
    ensures { IfOk result (λ tree. tree_of tree ≡ choice_of (tree_of first.entry) (tree_of second.entry)) }
{
    if is_not_allowed(&first) {
        return Ok(second);
    }
    if is_not_allowed(&second) {
        return Ok(first);
    }
    pair(alloc, Connector::Choice, first, second)
}

/// Returns a group or an interleave. It is notAllowed if a side is, and a side that is empty is left out (RELAX NG
/// Specification, sections 4.20 and 4.21).
pub fn joined<'a>(
    alloc: Global,
    connector: Connector,
    first: Tree<'a>,
    second: Tree<'a>,
) -> Result<Tree<'a>, OutOfMemory>
    ensures { IfOk result (λ tree. tree_of tree ≡ joined_of (connector_of connector) (tree_of first.entry) (tree_of second.entry)) }
{
    if is_not_allowed(&first) || is_not_allowed(&second) {
        return Ok(Tree::NotAllowed);
    }
    if is_empty(&first) {
        return Ok(second);
    }
    if is_empty(&second) {
        return Ok(first);
    }
    pair(alloc, connector, first, second)
}

/// Returns a oneOrMore. It is notAllowed or empty if its body is (RELAX NG Specification, sections 4.20 and 4.21).
pub fn repeated<'a>(alloc: Global, body: Tree<'a>) -> Result<Tree<'a>, OutOfMemory>
    ensures { IfOk result (λ tree. tree_of tree ≡ repeat_of (tree_of body.entry)) }
{
    if is_not_allowed(&body) || is_empty(&body) {
        return Ok(body);
    }
    Ok(Tree::OneOrMore(Box::new(alloc, body)?))
}

/// Returns what may follow the first copy of a oneOrMore with this body.
pub fn more<'a>(alloc: Global, body: &Tree<'a>) -> Result<Tree<'a>, OutOfMemory>
    ensures { IfOk result (λ tree. tree_of tree ≡ more_of (tree_of body.now)) }
{
    let again = Tree::OneOrMore(boxed_copy(alloc, body)?);
    pair(alloc, Connector::Choice, again, Tree::Empty)
}
