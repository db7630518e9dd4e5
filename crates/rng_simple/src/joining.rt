// Making patterns in simple form from others in simple form, by the rules of sections 4.20 and 4.21 of the RELAX NG
// Specification.
ghost use Rattle.std.specs.Prelude.{◌≡◌, ◌<◌, IfOk, OnOk};
ghost use Rattle.rng_model.specs.simple.Tree as tree;
ghost use Rattle.rng_model.specs.datatypes.DatatypeViews.{datatype_of};
ghost use Rattle.rng_model.specs.names.NameViews.{class_of};
ghost use Rattle.rng_simple.specs.plain.InTwos.{nested};
ghost use Rattle.rng_simple.specs.views.Joining.{connector_of};
ghost use Rattle.rng_simple.specs.views.RowTable.{IsGrown, IsRowTable, row_count, tree_of};
ghost use Rattle.rng_simple.specs.plain.SimpleOf.{attribute_by, except_by, join as joined, list_by, some_of, sort_of};

use crate::row_table::{RowTable, Sort};
use crate::rows::Row;
use rng_model::{Datatype, NameClass};
use std::alloc::AllocError;

/// The connector between members.
#[derive(Clone, Copy)]
pub enum Connector {
    Choice,
    Group,
    Interleave,
}

/// Two sides with a connector between them.
pub fn join(
    table: &mut RowTable<'_>,
    connector: Connector,
    a: usize,
    b: usize,
) -> Result<usize, AllocError>
    requires table { IsRowTable table.old }
    requires first { a < row_count table.old }
    requires second { b < row_count table.old }
    ensures grown { OnOk result (IsGrown table.old table.new) }
    ensures there { IfOk result (λ id. id < row_count table.new) }
    ensures tree { IfOk result (λ id. tree_of table.new id ≡ joined (connector_of connector) (tree_of table.old a) (tree_of table.old b)) }
{
    match connector {
        Connector::Choice => choice(table, a, b),
        Connector::Group => group(table, a, b),
        Connector::Interleave => interleave(table, a, b),
    }
}

/// A choice of two sides. If one side is `empty`, it comes first.
fn choice(table: &mut RowTable<'_>, a: usize, b: usize) -> Result<usize, AllocError>
    requires table { IsRowTable table.old }
    requires first { a < row_count table.old }
    requires second { b < row_count table.old }
    ensures grown { OnOk result (IsGrown table.old table.new) }
    ensures there { IfOk result (λ id. id < row_count table.new) }
    ensures tree { IfOk result (λ id. tree_of table.new id ≡ joined tree.choice (tree_of table.old a) (tree_of table.old b)) }
{
    match (table.sort(a), table.sort(b)) {
        (Sort::NotAllowed, _) => Ok(b),
        (_, Sort::NotAllowed) | (Sort::Empty, Sort::Empty) => Ok(a),
        (Sort::Proper, Sort::Empty) => table.put(Row::Choice(b, a)),
        (_, Sort::Proper) => table.put(Row::Choice(a, b)),
    }
}

fn group(table: &mut RowTable<'_>, a: usize, b: usize) -> Result<usize, AllocError>
    requires table { IsRowTable table.old }
    requires first { a < row_count table.old }
    requires second { b < row_count table.old }
    ensures grown { OnOk result (IsGrown table.old table.new) }
    ensures there { IfOk result (λ id. id < row_count table.new) }
    ensures tree { IfOk result (λ id. tree_of table.new id ≡ joined tree.group (tree_of table.old a) (tree_of table.old b)) }
{
    match (table.sort(a), table.sort(b)) {
        (Sort::NotAllowed, _) | (_, Sort::Empty) => Ok(a),
        (Sort::Empty, _) | (_, Sort::NotAllowed) => Ok(b),
        (Sort::Proper, Sort::Proper) => table.put(Row::Group(a, b)),
    }
}

fn interleave(table: &mut RowTable<'_>, a: usize, b: usize) -> Result<usize, AllocError>
    requires table { IsRowTable table.old }
    requires first { a < row_count table.old }
    requires second { b < row_count table.old }
    ensures grown { OnOk result (IsGrown table.old table.new) }
    ensures there { IfOk result (λ id. id < row_count table.new) }
    ensures tree { IfOk result (λ id. tree_of table.new id ≡ joined tree.interleave (tree_of table.old a) (tree_of table.old b)) }
{
    match (table.sort(a), table.sort(b)) {
        (Sort::NotAllowed, _) | (_, Sort::Empty) => Ok(a),
        (Sort::Empty, _) | (_, Sort::NotAllowed) => Ok(b),
        (Sort::Proper, Sort::Proper) => table.put(Row::Interleave(a, b)),
    }
}

/// One or more of a pattern.
pub fn one_or_more(table: &mut RowTable<'_>, body: usize) -> Result<usize, AllocError>
    requires table { IsRowTable table.old }
    requires body { body < row_count table.old }
    ensures grown { OnOk result (IsGrown table.old table.new) }
    ensures there { IfOk result (λ id. id < row_count table.new) }
    ensures tree { IfOk result (λ id. tree_of table.new id ≡ some_of (tree_of table.old body)) }
{
    match table.sort(body) {
        Sort::NotAllowed | Sort::Empty => Ok(body),
        Sort::Proper => table.put(Row::OneOrMore(body)),
    }
}

pub fn list(table: &mut RowTable<'_>, body: usize) -> Result<usize, AllocError>
    requires table { IsRowTable table.old }
    requires body { body < row_count table.old }
    ensures grown { OnOk result (IsGrown table.old table.new) }
    ensures there { IfOk result (λ id. id < row_count table.new) }
    ensures tree { IfOk result (λ id. let s = tree_of table.old body in tree_of table.new id ≡ list_by (sort_of s) s) }
{
    match table.sort(body) {
        Sort::NotAllowed => Ok(body),
        Sort::Empty | Sort::Proper => table.put(Row::List(body)),
    }
}

pub fn attribute<'a>(
    table: &mut RowTable<'a>,
    class: &'a NameClass,
    body: usize,
) -> Result<usize, AllocError>
    requires table { IsRowTable table.old }
    requires body { body < row_count table.old }
    ensures grown { OnOk result (IsGrown table.old table.new) }
    ensures there { IfOk result (λ id. id < row_count table.new) }
    ensures tree { IfOk result (λ id. let s = tree_of table.old body in
        tree_of table.new id ≡ attribute_by (sort_of s) (nested (class_of class.now)) s) }
{
    match table.sort(body) {
        Sort::NotAllowed => Ok(body),
        Sort::Empty | Sort::Proper => {
            let class = table.class_label(class)?;
            table.put(Row::Attribute(class, body))
        }
    }
}

pub fn data<'a>(table: &mut RowTable<'a>, datatype: &'a Datatype) -> Result<usize, AllocError>
    requires table { IsRowTable table.old }
    ensures grown { OnOk result (IsGrown table.old table.new) }
    ensures there { IfOk result (λ id. id < row_count table.new) }
    ensures tree { IfOk result (λ id. tree_of table.new id ≡ tree.s_data (datatype_of datatype.now)) }
{
    let datatype = table.datatype_label(datatype)?;
    table.put(Row::Data(datatype))
}

/// A datatype without the texts that a pattern matches.
pub fn data_except<'a>(
    table: &mut RowTable<'a>,
    datatype: &'a Datatype,
    except: usize,
) -> Result<usize, AllocError>
    requires table { IsRowTable table.old }
    requires except { except < row_count table.old }
    ensures grown { OnOk result (IsGrown table.old table.new) }
    ensures there { IfOk result (λ id. id < row_count table.new) }
    ensures tree { IfOk result (λ id. let s = tree_of table.old except in
        tree_of table.new id ≡ except_by (sort_of s) (datatype_of datatype.now) s) }
{
    match table.sort(except) {
        Sort::NotAllowed => data(table, datatype),
        Sort::Empty | Sort::Proper => {
            let datatype = table.datatype_label(datatype)?;
            table.put(Row::DataExcept(datatype, except))
        }
    }
}
