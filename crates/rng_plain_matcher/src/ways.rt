// The ways of a pattern to begin with an item or an attribute.
ghost use Rattle.std.specs.Prelude.{◌≡◌, ◌++◌, [], cond, IfOk, map};
ghost use Rattle.rng_deriv_laws.specs.plain.Derivatives.{attribute_ways, behind, group_before, group_of, interleave_before, interleave_of, is_nullable};
ghost use Rattle.rng_deriv_laws.specs.plain.Derivatives.{item_ways, joined_of, more_of};
ghost use Rattle.rng_plain_matcher.specs.views.Trees.{connector_of, tree_of};
ghost use Rattle.rng_plain_matcher.specs.views.Ways.{lone_way, way_of};

use crate::tree::{Connector, Tree, copy, is_nullable, joined, more};
use rng_model::OutOfMemory;
use std::alloc::Global;

/// A leaf of a pattern that takes the first item or attribute, and what is left of the pattern after it.
#[derive(Drop)]
pub struct Way<'t, 'a> {
    pub leaf: &'t Tree<'a>,
    pub rest: Tree<'a>,
}

/// The ways of a pattern.
pub type Ways<'t, 'a> = Vec<Way<'t, 'a>>;

/// Returns the only way of a leaf.
fn alone<'t, 'a>(
    alloc: Global,
    leaf: &'t Tree<'a>,
    rest: Tree<'a>,
) -> Result<Ways<'t, 'a>, OutOfMemory>
    ensures { IfOk result (λ ways. map way_of ways.items ≡ lone_way (tree_of leaf.now) (tree_of rest.entry)) }
{
    let mut ways = Vec::new(alloc);
    ways.push(Way { leaf, rest })?;
    Ok(ways)
}

/// Returns the ways of both lists.
fn both<'t, 'a>(mut ways: Ways<'t, 'a>, mut more: Ways<'t, 'a>) -> Result<Ways<'t, 'a>, OutOfMemory>
    ensures { IfOk result (λ all. map way_of all.items ≡ map way_of ways.entry.items ++ map way_of more.entry.items) }
{
    ways.append(&mut more)?;
    Ok(ways)
}

/// Returns the ways of the first of two joined patterns, each with the second one in what is left.
fn before<'t, 'a>(
    alloc: Global,
    ways: Ways<'t, 'a>,
    connector: Connector,
    second: &Tree<'a>,
) -> Result<Ways<'t, 'a>, OutOfMemory>
    ensures { IfOk result (λ all. map way_of all.items
        ≡ behind (λ rest. joined_of (connector_of connector) rest (tree_of second.now)) (map way_of ways.entry.items)) }
{
    let mut all = Vec::new(alloc);
    'ways: for way in ways {
        let second = copy(alloc, second)?;
        let rest = joined(alloc, connector, way.rest, second)?;
        all.push(Way {
            leaf: way.leaf,
            rest,
        })?;
    }
    Ok(all)
}

/// Returns the ways of the second of two joined patterns, each with the first one in what is left.
fn behind<'t, 'a>(
    alloc: Global,
    first: &Tree<'a>,
    connector: Connector,
    ways: Ways<'t, 'a>,
) -> Result<Ways<'t, 'a>, OutOfMemory>
    ensures { IfOk result (λ all. map way_of all.items
        ≡ behind (joined_of (connector_of connector) (tree_of first.now)) (map way_of ways.entry.items)) }
{
    let mut all = Vec::new(alloc);
    'ways: for way in ways {
        let first = copy(alloc, first)?;
        let rest = joined(alloc, connector, first, way.rest)?;
        all.push(Way {
            leaf: way.leaf,
            rest,
        })?;
    }
    Ok(all)
}

/// A side of two joined patterns, and its ways.
#[derive(Drop)]
struct Side<'t, 'a> {
    tree: &'t Tree<'a>,
    ways: Ways<'t, 'a>,
}

/// Returns the ways of an interleave: those of both sides, each with the other side in what is left.
fn of_interleave<'t, 'a>(
    alloc: Global,
    first: Side<'t, 'a>,
    second: Side<'t, 'a>,
) -> Result<Ways<'t, 'a>, OutOfMemory>
    ensures { IfOk result (λ all. map way_of all.items ≡ behind (interleave_before (tree_of second.entry.tree.now)) (map way_of first.entry.ways.items)
        ++ behind (interleave_of (tree_of first.entry.tree.now)) (map way_of second.entry.ways.items)) }
{
    let ways = before(alloc, first.ways, Connector::Interleave, second.tree)?;
    let others = behind(alloc, first.tree, Connector::Interleave, second.ways)?;
    let all = both(ways, others)?;
    Ok(all)
}

/// Returns the ways of a group to begin with an attribute: those of both sides, each with the other side in what is left.
fn of_unordered_group<'t, 'a>(
    alloc: Global,
    first: Side<'t, 'a>,
    second: Side<'t, 'a>,
) -> Result<Ways<'t, 'a>, OutOfMemory>
    ensures { IfOk result (λ all. map way_of all.items ≡ behind (group_before (tree_of second.entry.tree.now)) (map way_of first.entry.ways.items)
        ++ behind (group_of (tree_of first.entry.tree.now)) (map way_of second.entry.ways.items)) }
{
    let ways = before(alloc, first.ways, Connector::Group, second.tree)?;
    let others = behind(alloc, first.tree, Connector::Group, second.ways)?;
    let all = both(ways, others)?;
    Ok(all)
}

/// Returns the ways of a group to begin with an item: those of the first side, and those of the second if the first may
/// be left out.
fn of_group<'t, 'a>(
    alloc: Global,
    first: Side<'t, 'a>,
    second: Side<'t, 'a>,
) -> Result<Ways<'t, 'a>, OutOfMemory>
    ensures { IfOk result (λ all. map way_of all.items ≡ behind (group_before (tree_of second.entry.tree.now)) (map way_of first.entry.ways.items)
        ++ cond (is_nullable (tree_of first.entry.tree.now)) (map way_of second.entry.ways.items) []) }
{
    let ways = before(alloc, first.ways, Connector::Group, second.tree)?;
    let others = if is_nullable(first.tree) {
        second.ways
    } else {
        Vec::new(alloc)
    };
    let all = both(ways, others)?;
    Ok(all)
}

/// Returns the ways of a repetition, given those of its body.
fn of_repetition<'t, 'a>(alloc: Global, body: Side<'t, 'a>) -> Result<Ways<'t, 'a>, OutOfMemory>
    ensures { IfOk result (λ all. map way_of all.items ≡ behind (group_before (more_of (tree_of body.entry.tree.now))) (map way_of body.entry.ways.items)) }
{
    let more = more(alloc, body.tree)?;
    let all = before(alloc, body.ways, Connector::Group, &more)?;
    Ok(all)
}

/// Returns the ways of a pattern to begin with an item: the leaves that may take it. Fails only when out of memory.
pub fn item_ways<'t, 'a>(alloc: Global, tree: &'t Tree<'a>) -> Result<Ways<'t, 'a>, OutOfMemory>
    ensures { IfOk result (λ ways. map way_of ways.items ≡ item_ways (tree_of tree.now)) }
{
    match tree {
        Tree::NotAllowed | Tree::Empty | Tree::Attribute(_, _) => Ok(Vec::new(alloc)),
        Tree::Text => alone(alloc, tree, Tree::Text),
        Tree::Element(_)
        | Tree::List(_)
        | Tree::Data(_)
        | Tree::DataExcept(_, _)
        | Tree::Value(_) => alone(alloc, tree, Tree::Empty),
        Tree::OneOrMore(body) => {
            let ways = item_ways(alloc, body)?;
            of_repetition(alloc, Side { tree: body, ways })
        }
        Tree::Joined(connector, first, second) => {
            let ways = item_ways(alloc, first)?;
            let others = item_ways(alloc, second)?;
            let first = Side { tree: first, ways };
            let second = Side {
                tree: second,
                ways: others,
            };
            match connector {
                Connector::Choice => both(first.ways, second.ways),
                Connector::Group => of_group(alloc, first, second),
                Connector::Interleave => of_interleave(alloc, first, second),
            }
        }
    }
}

/// Returns the ways of a pattern to begin with an attribute: the attributes that may take it. Fails only when out of
/// memory.
pub fn attribute_ways<'t, 'a>(
    alloc: Global,
    tree: &'t Tree<'a>,
) -> Result<Ways<'t, 'a>, OutOfMemory>
    ensures { IfOk result (λ ways. map way_of ways.items ≡ attribute_ways (tree_of tree.now)) }
{
    match tree {
        Tree::Attribute(_, _) => alone(alloc, tree, Tree::Empty),
        Tree::OneOrMore(body) => {
            let ways = attribute_ways(alloc, body)?;
            of_repetition(alloc, Side { tree: body, ways })
        }
        Tree::Joined(connector, first, second) => {
            let ways = attribute_ways(alloc, first)?;
            let others = attribute_ways(alloc, second)?;
            let first = Side { tree: first, ways };
            let second = Side {
                tree: second,
                ways: others,
            };
            match connector {
                Connector::Choice => both(first.ways, second.ways),
                Connector::Group => of_unordered_group(alloc, first, second),
                Connector::Interleave => of_interleave(alloc, first, second),
            }
        }
        Tree::NotAllowed
        | Tree::Empty
        | Tree::Text
        | Tree::Element(_)
        | Tree::List(_)
        | Tree::Data(_)
        | Tree::DataExcept(_, _)
        | Tree::Value(_) => Ok(Vec::new(alloc)),
    }
}
