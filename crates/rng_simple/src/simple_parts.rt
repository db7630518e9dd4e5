// The simple forms of the patterns of a graph, from the leaves up.
ghost use Rattle.std.specs.Prelude.{◌≡◌, ◌<◌, map, slice_index_or, IfOk, OnOk};
ghost use Rattle.rng_simple.specs.views.GraphView.{child, combined, forest, graph_body_of};
ghost use Rattle.rng_simple.specs.plain.GrammarBy.{spot_simple};
ghost use Rattle.rng_simple.specs.views.Joining.{connector_of};
ghost use Rattle.rng_simple.specs.views.RowTable.{IsGrown, IsRowTable, row_count, tree_of};
ghost use Rattle.rng_simple.specs.plain.SimpleParts.{AreRowsBelow, all_joined, components_joined, none_of, row_simple, side, values_in};

use crate::graph::{GraphBody, GraphRow};
use crate::joining::{Connector, attribute, data, data_except, join, list, one_or_more};
use crate::row_table::{EMPTY, RowTable};
use crate::rows::Row;
use std::alloc::AllocError;

/// The simple form of the pattern of these rows. `parts` has the rows of the definitions that it mentions. Uses `sides`.
///
/// Takes time linear in the rows, and does not recurse.
pub fn simple_pattern<'a>(
    table: &mut RowTable<'a>,
    parts: &[usize],
    sides: &mut Vec<usize>,
    rows: &[GraphRow<'a>],
) -> Result<usize, AllocError>
    requires table { IsRowTable table.old }
    requires parts { AreRowsBelow (row_count table.old) parts.now }
    ensures grown { OnOk result (IsGrown table.old table.new) }
    ensures there { IfOk result (λ id. id < row_count table.new) }
    ensures tree { IfOk result (λ id. tree_of table.new id ≡ spot_simple (values_in table.old parts.now) (child (forest rows.now))) }
{
    put_sides(table, parts, sides, rows)?;
    first_side(table, sides.as_slice())
}

/// Puts the simple forms of the patterns of these rows into `sides`, in order.
fn put_sides<'a>(
    table: &mut RowTable<'a>,
    parts: &[usize],
    sides: &mut Vec<usize>,
    rows: &[GraphRow<'a>],
) -> Result<(), AllocError>
    requires table { IsRowTable table.old }
    requires parts { AreRowsBelow (row_count table.old) parts.now }
    ensures grown { OnOk result (IsGrown table.old table.new) }
    ensures there { OnOk result (AreRowsBelow (row_count table.new) sides.new.items) }
    ensures trees { OnOk result (map (tree_of table.new) sides.new.items ≡ map (spot_simple (values_in table.old parts.now)) (forest rows.now)) }
{
    sides.clear();
    for row in rows {
        let start = sides.len().saturating_sub(row.arity());
        let side = simple_row(table, parts, &sides[start..], *row)?;
        sides.truncate(start);
        sides.push(side)?;
    }
    Ok(())
}

/// The simple form of the pattern of a row, given those of its children.
fn simple_row<'a>(
    table: &mut RowTable<'a>,
    parts: &[usize],
    children: &[usize],
    row: GraphRow<'a>,
) -> Result<usize, AllocError>
    requires table { IsRowTable table.old }
    requires parts { AreRowsBelow (row_count table.old) parts.now }
    requires children { AreRowsBelow (row_count table.old) children.now }
    ensures grown { OnOk result (IsGrown table.old table.new) }
    ensures there { IfOk result (λ id. id < row_count table.new) }
    ensures tree { IfOk result (λ id. tree_of table.new id
        ≡ row_simple (values_in table.old parts.now) row.entry (map (tree_of table.old) children.now)) }
{
    match row {
        GraphRow::NotAllowed => table.put(Row::NotAllowed),
        GraphRow::Empty => Ok(EMPTY),
        GraphRow::Text => table.put(Row::Text),
        GraphRow::Element(element) => table.put(Row::Element(element)),
        GraphRow::Definition(definition) => Ok(row_of(parts, definition)),
        GraphRow::Data(datatype) => data(table, datatype),
        GraphRow::Value(value) => {
            let value = table.value_label(value)?;
            table.put(Row::Value(value))
        }
        GraphRow::Attribute(class) => {
            let body = first_side(table, children)?;
            attribute(table, class, body)
        }
        GraphRow::List => {
            let body = first_side(table, children)?;
            list(table, body)
        }
        GraphRow::DataExcept(datatype) => {
            let except = first_side(table, children)?;
            data_except(table, datatype, except)
        }
        GraphRow::Mixed => {
            let body = first_side(table, children)?;
            let text = table.put(Row::Text)?;
            join(table, Connector::Interleave, body, text)
        }
        GraphRow::Optional => {
            let body = first_side(table, children)?;
            join(table, Connector::Choice, body, EMPTY)
        }
        GraphRow::ZeroOrMore => {
            let body = first_side(table, children)?;
            let some = one_or_more(table, body)?;
            join(table, Connector::Choice, some, EMPTY)
        }
        GraphRow::OneOrMore => {
            let body = first_side(table, children)?;
            one_or_more(table, body)
        }
        GraphRow::Group(_) => joined_sides(table, Connector::Group, children),
        GraphRow::Interleave(_) => joined_sides(table, Connector::Interleave, children),
        GraphRow::Choice(_) => joined_sides(table, Connector::Choice, children),
    }
}

/// The first of these sides, or `notAllowed` if there is none.
fn first_side(table: &mut RowTable<'_>, sides: &[usize]) -> Result<usize, AllocError>
    requires table { IsRowTable table.old }
    requires sides { AreRowsBelow (row_count table.old) sides.now }
    ensures grown { OnOk result (IsGrown table.old table.new) }
    ensures there { IfOk result (λ id. id < row_count table.new) }
    ensures tree { IfOk result (λ id. tree_of table.new id ≡ side (map (tree_of table.old) sides.now)) }
{
    match sides {
        [] => table.put(Row::NotAllowed),
        [first, ..] => Ok(*first),
    }
}

/// Sides with a connector, nested in twos from the left.
///
/// RELAX NG Specification, section 4.12.
fn joined_sides(
    table: &mut RowTable<'_>,
    connector: Connector,
    sides: &[usize],
) -> Result<usize, AllocError>
    requires table { IsRowTable table.old }
    requires sides { AreRowsBelow (row_count table.old) sides.now }
    ensures grown { OnOk result (IsGrown table.old table.new) }
    ensures there { IfOk result (λ id. id < row_count table.new) }
    ensures tree { IfOk result (λ id. tree_of table.new id ≡ all_joined (connector_of connector) (map (tree_of table.old) sides.now)) }
{
    let mut joined = no_members(table, connector)?;
    for next in sides {
        joined = join(table, connector, joined, *next)?;
    }
    Ok(joined)
}

/// The simple form of no members with this connector.
#[tactic(auto, using(crate::proofs::Tables::SimpleParts::empty_is, crate::proofs::Tables::SimpleParts::empty_below))]
fn no_members(table: &mut RowTable<'_>, connector: Connector) -> Result<usize, AllocError>
    requires table { IsRowTable table.old }
    ensures grown { OnOk result (IsGrown table.old table.new) }
    ensures there { IfOk result (λ id. id < row_count table.new) }
    ensures tree { IfOk result (λ id. tree_of table.new id ≡ none_of (connector_of connector)) }
{
    match connector {
        Connector::Choice => table.put(Row::NotAllowed),
        Connector::Group | Connector::Interleave => Ok(EMPTY),
    }
}

/// The simple form of the body of a definition. Uses `sides`.
///
/// Takes time linear in the rows of the body, and does not recurse.
pub fn simple_body<'a>(
    table: &mut RowTable<'a>,
    parts: &[usize],
    sides: &mut Vec<usize>,
    body: &GraphBody<'a>,
) -> Result<usize, AllocError>
    requires table { IsRowTable table.old }
    requires parts { AreRowsBelow (row_count table.old) parts.now }
    ensures grown { OnOk result (IsGrown table.old table.new) }
    ensures there { IfOk result (λ id. id < row_count table.new) }
    ensures tree { IfOk result (λ id. tree_of table.new id ≡ spot_simple (values_in table.old parts.now) (graph_body_of body.now)) }
{
    match body {
        GraphBody::Choice(rows) => simple_components(table, parts, sides, Connector::Choice, rows),
        GraphBody::Interleave(rows) => simple_components(
            table,
            parts,
            sides,
            Connector::Interleave,
            rows,
        ),
    }
}

/// The patterns of components with a connector, nested in twos from the left.
///
/// RELAX NG Specification, section 4.17.
fn simple_components<'a>(
    table: &mut RowTable<'a>,
    parts: &[usize],
    sides: &mut Vec<usize>,
    connector: Connector,
    rows: &[GraphRow<'a>],
) -> Result<usize, AllocError>
    requires table { IsRowTable table.old }
    requires parts { AreRowsBelow (row_count table.old) parts.now }
    ensures grown { OnOk result (IsGrown table.old table.new) }
    ensures there { IfOk result (λ id. id < row_count table.new) }
    ensures tree { IfOk result (λ id. tree_of table.new id
        ≡ spot_simple (values_in table.old parts.now) (combined (connector_of connector) (forest rows.now))) }
{
    put_sides(table, parts, sides, rows)?;
    joined_components(table, connector, sides.as_slice())
}

/// The sides of components with a connector, nested in twos from the left. No sides are `notAllowed`.
fn joined_components(
    table: &mut RowTable<'_>,
    connector: Connector,
    sides: &[usize],
) -> Result<usize, AllocError>
    requires table { IsRowTable table.old }
    requires sides { AreRowsBelow (row_count table.old) sides.now }
    ensures grown { OnOk result (IsGrown table.old table.new) }
    ensures there { IfOk result (λ id. id < row_count table.new) }
    ensures tree { IfOk result (λ id. tree_of table.new id ≡ components_joined (connector_of connector) (map (tree_of table.old) sides.now)) }
{
    match sides {
        [] => table.put(Row::NotAllowed),
        _ => joined_sides(table, connector, sides),
    }
}

/// The row at a place of the list, or `empty` past its end.
pub fn row_of(rows: &[usize], place: usize) -> usize
    ensures { result ≡ slice_index_or rows.now place 0 }
{
    match rows.get(place) {
        Some(row) => *row,
        None => EMPTY,
    }
}
