// The rows of a grammar that have name classes, and which of them have names in common with a class.
ghost use Rattle.std.specs.Prelude.{◌≡◌, ◌<◌, ◌⊎◌, ◌↔◌, ◌++◌, ℕ, length, map, option_copied, Contains, IfOk, OnOk};
ghost use Rattle.rng_model.specs.names.Names.{Overlap};
ghost use Rattle.rng_model.specs.names.NameViews.{class_of};
ghost use Rattle.rng_model.specs.declared.name.NameClass.{NameClass};
ghost use Rattle.rng_rules.specs.views.NamesMeetLabels.{AreLabels, judged_class, label_list, label_of, ready_label_of};
ghost use Rattle.rng_rules.specs.plain.NamesMeetReach.{lists};
ghost use Rattle.rng_rules.specs.views.NamesMeetSides.{AreRows};

use crate::names_meet_joins::under_joins;
use crate::names_meet_sides::Rows;
use rng_model::{NameClass, OutOfMemory, PatternId};
use rng_names::PreparedClass;
use std::alloc::Global;

/// A row that itself has a name class.
#[derive(Clone, Copy)]
pub(crate) struct Label<'a> {
    pub row: usize,
    pub class: &'a NameClass,
}

/// Returns the rows that have name classes themselves, of those inside a row between whose sides names must not meet.
/// Linear.
pub(crate) fn labels<'a>(alloc: Global, rows: &Rows<'a>) -> Result<Vec<Label<'a>>, OutOfMemory>
    requires { AreRows rows.now }
    ensures { IfOk result (λ ls. AreLabels rows.now.of rows.now.grammar.now (lists rows.now.above.items) (map label_of ls.items)) }
{
    let under = under_joins(alloc, rows)?;
    let mut labels = Vec::new(alloc);
    for row in 0..under.len() {
        add_label(&mut labels, rows, under.as_slice(), row)?;
    }
    Ok(labels)
}

/// Adds the row if it is marked and has a name class.
fn add_label<'a>(
    labels: &mut Vec<Label<'a>>,
    rows: &Rows<'a>,
    under: &[usize],
    row: usize,
) -> Result<(), OutOfMemory>
    requires { row < length under.now }
    ensures { OnOk result (map label_of labels.new.items
        ≡ map label_of labels.old.items ++ label_list row (judged_class rows.now.of rows.now.grammar.now under.now row)) }
{
    if let Some(class) = judged_class(rows, under, row) {
        labels.push(Label { row, class })?;
    }
    Ok(())
}

/// Returns the name class that a row itself has, if the row is marked.
fn judged_class<'a>(rows: &Rows<'a>, under: &[usize], row: usize) -> Option<&'a NameClass>
    requires { row < length under.now }
    ensures { option_copied result ≡ judged_class rows.now.of rows.now.grammar.now under.now row }
{
    if under[row] != 1 {
        return None;
    }
    match rows.grammar.pattern(PatternId(row)) {
        Some(pattern) => rows.of.class(rows.grammar, pattern),
        None => None,
    }
}

/// A row that itself has a name class, with this class prepared for comparisons.
#[derive(Drop)]
pub(crate) struct ReadyLabel<'a> {
    pub row: usize,
    pub class: PreparedClass<'a>,
}

/// Prepares the classes of these labels. Linear, apart from hashing.
pub(crate) fn ready_labels<'a>(
    alloc: Global,
    labels: &[Label<'a>],
) -> Result<Vec<ReadyLabel<'a>>, OutOfMemory>
    ensures { IfOk result (λ all. map ready_label_of all.items ≡ map label_of labels.now) }
{
    let mut all = Vec::new(alloc);
    for label in labels {
        let class = PreparedClass::of(alloc, label.class)?;
        all.push(ReadyLabel {
            row: label.row,
            class,
        })?;
    }
    Ok(all)
}

/// Returns the rows whose classes have a name in common with this one.
pub(crate) fn overlapping(
    alloc: Global,
    labels: &[ReadyLabel<'_>],
    class: &PreparedClass,
) -> Result<Vec<usize>, OutOfMemory>
    ensures { IfOk result (λ rows. (row : ℕ) → Contains rows.items row
        ↔ ((c : NameClass) × Contains (map ready_label_of labels.now) (row, c) × Overlap (class_of class.now) (class_of c))) }
{
    let mut rows = Vec::new(alloc);
    for label in labels {
        add_overlapping(&mut rows, class, label)?;
    }
    Ok(rows)
}

/// Adds the row if its class has a name in common with this one.
fn add_overlapping(
    rows: &mut Vec<usize>,
    class: &PreparedClass,
    label: &ReadyLabel<'_>,
) -> Result<(), OutOfMemory>
    ensures { OnOk result ((row : ℕ) → Contains rows.new.items row
        ↔ (Contains rows.old.items row ⊎ ((row ≡ label.now.row) × Overlap (class_of class.now) (class_of label.now.class)))) }
{
    if class.overlaps(&label.class) {
        rows.push(label.row)?;
    }
    Ok(())
}
