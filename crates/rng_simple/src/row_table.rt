// A table of patterns in simple form. Equal rows have one number.
ghost use Rattle.std.specs.Prelude.{◌≡◌, ◌<◌, length, string_bytes, IfOk, OnOk};
ghost use Rattle.rng_model.specs.schema.Patterns.{without_parameters};
ghost use Rattle.rng_simple.specs.plain.SimpleBodies.{IsPlainBody};
ghost use Rattle.rng_model.specs.datatypes.DatatypeViews.{datatype_of};
ghost use Rattle.rng_model.specs.names.NameViews.{class_of};
ghost use Rattle.rng_simple.specs.plain.InTwos.{nested};
ghost use Rattle.rng_simple.specs.views.Rows.{AreChildrenBelow, IsLabelled, class_at, datatype_at, row_tree, value_at};
ghost use Rattle.rng_simple.specs.views.RowTable.{IsGrown, IsRelabelled, IsRowTable, finished_labels, labels_of, row_count, sort_seen, tree_of};
ghost use Rattle.rng_simple.specs.plain.SimpleOf.{sort_of};

use crate::rows::{Row, number};
use indexmap::IndexSet;
use rng_labels::{LabelPart, place_of_code, put_class, put_datatype, put_value};
use rng_model::{Datatype, DatatypeValue, NameClass};
use std::alloc::{AllocError, Global};
use std::collections::HashMap;

/// The number of the row of `empty`.
pub const EMPTY: usize = 0;

/// Patterns in simple form. The first one is `empty`. Rows and labels are distinct, and children come before their
/// parents.
#[derive(Drop)]
pub struct RowTable<'a> {
    pub alloc: Global,
    pub rows: Vec<Row>,
    pub numbers: HashMap<Row, usize>,
    pub classes: Vec<&'a NameClass>,
    pub datatypes: Vec<&'a Datatype>,
    pub values: Vec<&'a DatatypeValue>,
    /// The codes of the labels of each kind, in order. Equal labels have equal codes.
    pub class_codes: IndexSet<Vec<LabelPart<'a>>>,
    pub datatype_codes: IndexSet<Vec<LabelPart<'a>>>,
    pub value_codes: IndexSet<Vec<LabelPart<'a>>>,
}

/// The rows of a table and their labels, when nothing more is added.
#[derive(Drop)]
pub struct FinishedRows<'a> {
    pub rows: Vec<Row>,
    pub classes: Vec<&'a NameClass>,
    pub datatypes: Vec<&'a Datatype>,
    pub values: Vec<&'a DatatypeValue>,
}

/// What the rules of simplification need to know of a side.
#[derive(Clone, Copy)]
pub enum Sort {
    NotAllowed,
    Empty,
    Proper,
}

impl<'a> RowTable<'a> {
    /// Creates a table with only `empty`.
    pub fn new(alloc: Global) -> Result<RowTable<'a>, AllocError>
        ensures { IfOk result IsRowTable }
    {
        let mut rows = Vec::new(alloc);
        let mut numbers = HashMap::new(alloc);
        number(&mut rows, &mut numbers, Row::Empty)?;
        Ok(RowTable {
            alloc,
            rows,
            numbers,
            classes: Vec::new(alloc),
            datatypes: Vec::new(alloc),
            values: Vec::new(alloc),
            class_codes: IndexSet::new(alloc),
            datatype_codes: IndexSet::new(alloc),
            value_codes: IndexSet::new(alloc),
        })
    }

    /// Returns the number of a row, and adds the row if it is new. Its children and labels must be in the table.
    pub fn put(&mut self, row: Row) -> Result<usize, AllocError>
        requires table { IsRowTable self.old }
        requires below { AreChildrenBelow (row_count self.old) row }
        requires labelled { IsLabelled (labels_of self.old) row }
        requires simple { IsPlainBody (row_tree (labels_of self.old) (tree_of self.old) row) }
        ensures grown { OnOk result (IsGrown self.old self.new) }
        ensures there { IfOk result (λ id. id < row_count self.new) }
        ensures tree { IfOk result (λ id. tree_of self.new id ≡ row_tree (labels_of self.old) (tree_of self.old) row) }
    {
        let id = number(&mut self.rows, &mut self.numbers, row)?;
        Ok(id)
    }

    /// Keeps the rows and their labels, and frees the indexes by which numbers are found.
    pub fn finished(self) -> FinishedRows<'a>
        ensures rows { result.rows.items ≡ self.entry.rows.items }
        ensures labels { finished_labels result ≡ labels_of self.entry }
    {
        FinishedRows {
            rows: self.rows,
            classes: self.classes,
            datatypes: self.datatypes,
            values: self.values,
        }
    }

    /// Returns what the rules of simplification need to know of a row as a side.
    pub fn sort(&self, id: usize) -> Sort
        requires table { IsRowTable self.now }
        requires there { id < row_count self.now }
        ensures { sort_seen result ≡ sort_of (tree_of self.now id) }
    {
        match self.rows[id] {
            Row::NotAllowed => Sort::NotAllowed,
            Row::Empty => Sort::Empty,
            _ => Sort::Proper,
        }
    }

    /// Returns the number of a name class, and adds the class if it is new. Classes have one number if they are equal
    /// with the members of each choice nested in twos.
    pub fn class_label(&mut self, class: &'a NameClass) -> Result<usize, AllocError>
        requires table { IsRowTable self.old }
        ensures table { OnOk result (IsRelabelled self.old self.new) }
        ensures there { IfOk result (λ c. c < length (labels_of self.new).classes) }
        ensures is { IfOk result (λ c. class_at (labels_of self.new) c ≡ nested (class_of class.now)) }
    {
        let mut code = Vec::new(self.alloc);
        put_class(&mut code, class)?;
        if let Some(label) = place_of_code(&mut self.class_codes, code)? {
            return Ok(label);
        }
        let label = self.classes.len();
        self.classes.push(class)?;
        Ok(label)
    }

    /// Returns the number of a datatype, and adds the datatype if it is new. Equal ones have one number.
    pub fn datatype_label(&mut self, datatype: &'a Datatype) -> Result<usize, AllocError>
        requires table { IsRowTable self.old }
        ensures table { OnOk result (IsRelabelled self.old self.new) }
        ensures there { IfOk result (λ d. d < length (labels_of self.new).datatypes) }
        ensures is { IfOk result (λ d. datatype_at (labels_of self.new) d ≡ datatype_of datatype.now) }
    {
        let mut code = Vec::new(self.alloc);
        put_datatype(&mut code, datatype)?;
        if let Some(label) = place_of_code(&mut self.datatype_codes, code)? {
            return Ok(label);
        }
        let label = self.datatypes.len();
        self.datatypes.push(datatype)?;
        Ok(label)
    }

    /// Returns the number of a value, and adds the value if it is new. Equal ones have one number.
    pub fn value_label(&mut self, value: &'a DatatypeValue) -> Result<usize, AllocError>
        requires table { IsRowTable self.old }
        ensures table { OnOk result (IsRelabelled self.old self.new) }
        ensures there { IfOk result (λ v. v < length (labels_of self.new).values) }
        ensures is { IfOk result (λ v. value_at (labels_of self.new) v ≡ (without_parameters (string_bytes value.now.library) (string_bytes value.now.name), string_bytes value.now.text)) }
    {
        let mut code = Vec::new(self.alloc);
        put_value(&mut code, value)?;
        if let Some(label) = place_of_code(&mut self.value_codes, code)? {
            return Ok(label);
        }
        let label = self.values.len();
        self.values.push(value)?;
        Ok(label)
    }
}
