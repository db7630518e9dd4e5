// Depths of patterns and name classes whose members are nested in twos. Depths stop at the limit plus one.
ghost use Rattle.std.specs.Prelude.{◌≡◌, map, slice_index_or, IfOk, OnOk};
ghost use Rattle.rng_model.specs.names.Names.{some_of};
ghost use Rattle.rng_model.specs.simple.Leaves.{class_depth as depth_of_class};
ghost use Rattle.rng_model.specs.names.NameViews.{class_of};
ghost use Rattle.rng_simple.specs.plain.InTwos.{nested};
ghost use Rattle.rng_simple.specs.plain.DepthWith.{cut_off, one_more, depth_with};
ghost use Rattle.rng_simple.specs.views.GraphView.{child, forest, graph_body_of};
ghost use Rattle.rng_simple.specs.plain.MemberDepths.{members_depth, depth_in, depth_at_spot, row_depth};

use crate::graph::parts::{GraphBody, GraphRow};
use rng_model::NameClass;
use std::alloc::AllocError;

/// The largest depth of a tree.
pub const DEPTH_LIMIT: u32 = 1000;

/// This depth plus one, but at most the limit plus one.
pub fn one_more(depth: u32) -> u32
    ensures { result ≡ one_more depth }
{
    if depth > DEPTH_LIMIT {
        DEPTH_LIMIT + 1
    } else {
        depth + 1
    }
}

/// The depth of a name class whose members are nested in twos from the left. Does not build the nested class.
#[cycle(classes)]
pub fn class_depth(class: &NameClass) -> u32
    ensures { result ≡ cut_off (depth_of_class (nested (class_of class.now))) }
{
    match class {
        NameClass::Any | NameClass::Ns(_) | NameClass::Name(_) => 1,
        NameClass::AnyExcept(except) | NameClass::NsExcept(_, except) => one_more(class_depth(
            except,
        )),
        NameClass::Choice(members) => choice_depth(members),
    }
}

/// The depth of a choice of these members. A choice of no members is everything except everything.
#[cycle(classes)]
#[tactic(auto, using(crate::proofs::NumberedGraphs::MemberDepths::choice_depth))]
fn choice_depth(members: &[NameClass]) -> u32
    ensures { result ≡ cut_off (depth_of_class (nested (some_of (map class_of members.now)))) }
{
    let [first, rest @ ..] = members else {
        return 2;
    };
    let mut depth = class_depth(first);
    for member in rest {
        depth = one_more(depth.max(class_depth(member)));
    }
    depth
}

/// The depth of the pattern of a row, given the depths of its children and of the definitions.
fn row_depth(row: &GraphRow<'_>, children: &[u32], definitions: &[u32]) -> u32
    ensures { result ≡ row_depth (depth_at_spot definitions.now) row.now children.now }
{
    match row {
        GraphRow::NotAllowed | GraphRow::Empty | GraphRow::Text => 1,
        GraphRow::Element(_) | GraphRow::Data(_) | GraphRow::Value(_) => 1,
        GraphRow::Definition(j) => depth_at(definitions, *j, 0),
        GraphRow::Attribute(class) => one_more(class_depth(class).max(depth_at(children, 0, 1))),
        GraphRow::List | GraphRow::DataExcept(_) => one_more(depth_at(children, 0, 1)),
        GraphRow::Mixed | GraphRow::Optional => one_more(depth_at(children, 0, 1).max(1)),
        GraphRow::ZeroOrMore => one_more(one_more(depth_at(children, 0, 1))),
        GraphRow::OneOrMore => one_more(depth_at(children, 0, 1)),
        GraphRow::Group(_) | GraphRow::Interleave(_) => members_depth(children),
        GraphRow::Choice(_) => members_depth(children),
    }
}

/// The depth of patterns with these depths that are nested in twos from the left.
fn members_depth(depths: &[u32]) -> u32
    ensures { result ≡ members_depth depths.now }
{
    let [first, rest @ ..] = depths else {
        return 1;
    };
    let mut depth = *first;
    for member in rest {
        depth = one_more(depth.max(*member));
    }
    depth
}

/// The depth at a place of the list, or another one past its end.
fn depth_at(depths: &[u32], place: usize, otherwise: u32) -> u32
    ensures { result ≡ slice_index_or depths.now place otherwise }
{
    match depths.get(place) {
        Some(depth) => *depth,
        None => otherwise,
    }
}

/// Puts the depths of the patterns of these rows into `depths`, in order, given the depths of the definitions.
fn put_depths(
    depths: &mut Vec<u32>,
    rows: &[GraphRow<'_>],
    definitions: &[u32],
) -> Result<(), AllocError>
    ensures { OnOk result (depths.new.items ≡ map (depth_with (depth_at_spot definitions.now)) (forest rows.now)) }
{
    depths.clear();
    for row in rows {
        let start = depths.len().saturating_sub(row.arity());
        let depth = row_depth(row, &depths[start..], definitions);
        depths.truncate(start);
        depths.push(depth)?;
    }
    Ok(())
}

/// The depth of a definition, or 0 if there is none.
pub fn definition_depth(definitions: &[u32], j: usize) -> u32
    ensures { result ≡ depth_in definitions.now j }
{
    depth_at(definitions, j, 0)
}

/// The depth of the pattern of these rows, given the depths of the definitions. Uses `depths`.
#[tactic(auto, using(crate::proofs::NumberedGraphs::MemberDepths::depth_of_child))]
pub fn pattern_depth(
    depths: &mut Vec<u32>,
    rows: &[GraphRow<'_>],
    definitions: &[u32],
) -> Result<u32, AllocError>
    ensures { IfOk result (λ depth. depth ≡ depth_with (depth_at_spot definitions.now) (child (forest rows.now))) }
{
    put_depths(depths, rows, definitions)?;
    Ok(depth_at(depths.as_slice(), 0, 1))
}

/// The depth of the body of a definition, given the depths of the others. Uses `depths`.
#[tactic(auto, using(crate::proofs::NumberedGraphs::MemberDepths::depth_of_combined))]
pub fn body_depth(
    depths: &mut Vec<u32>,
    body: &GraphBody<'_>,
    definitions: &[u32],
) -> Result<u32, AllocError>
    ensures { IfOk result (λ depth. depth ≡ depth_with (depth_at_spot definitions.now) (graph_body_of body.now)) }
{
    match body {
        GraphBody::Choice(rows) => put_depths(depths, rows, definitions)?,
        GraphBody::Interleave(rows) => put_depths(depths, rows, definitions)?,
    }
    Ok(members_depth(depths.as_slice()))
}
