// The search for rows whose names meet.
ghost use Rattle.std.specs.Prelude.{◌≡◌, ◌<◌, ◌+◌, [], ℕ, length, map, slice_index_or, All, Contains, IfOk, OnOk, IsTrue, IsFalse};
ghost use Rattle.rng_model.specs.declared.name.NameClass.{NameClass};
ghost use Rattle.rng_names.specs.views.PlainNames.{IsPlain};
ghost use Rattle.rng_rules.specs.views.NamesMeetLabels.{label_of, ready_label_of};
ghost use Rattle.rng_rules.specs.views.NamesMeetHeads.{MeetsItself};
ghost use Rattle.rng_rules.specs.plain.NamesMeetReach.{AreBelow, lists};
ghost use Rattle.rng_rules.specs.views.NamesMeetSearch.{IsSearch, Meeting};
ghost use Rattle.rng_rules.specs.views.NamesMeetSides.{AreMarks, AreRows, MeetBetween};

use crate::names_meet_heads::heads;
use crate::names_meet_labels::{Label, ReadyLabel, overlapping, ready_labels};
use crate::names_meet_sides::{Marks, Rows};
use rng_model::OutOfMemory;
use std::alloc::Global;

/// What a search for rows that occur on both sides of another row keeps from one group to the next.
#[derive(Drop)]
pub(crate) struct Search {
    /// For each row its head.
    pub heads: Vec<usize>,
    /// For each row whether it is known to be on both sides of no row.
    pub apart: Vec<bool>,
    pub marks: Marks,
}

impl Search {
    /// Starts a search. Fails only when out of memory. Linear.
    fn new(alloc: Global, rows: &Rows<'_>) -> Result<Self, OutOfMemory>
        requires { AreRows rows.now }
        ensures { IfOk result (IsSearch rows.now 1) }
    {
        Ok(Search {
            heads: heads(alloc, rows)?,
            apart: vec![in alloc; false; rows.standing.len()]?,
            marks: rows.marks(alloc)?,
        })
    }

    /// Returns whether a row occurs on both sides of another row. Each row is looked for once.
    fn meets_itself(
        &mut self,
        alloc: Global,
        rows: &Rows<'_>,
        round: usize,
        row: usize,
    ) -> Result<bool, OutOfMemory>
        requires rows { AreRows rows.now }
        requires search { IsSearch rows.now round self.old }
        requires below { row < length rows.now.standing.items }
        ensures search { OnOk result (IsSearch rows.now (round + 1) self.new) }
        ensures only { IfOk result (λ yes. IsTrue yes → MeetsItself rows.now row) }
        ensures all { IfOk result (λ yes. MeetsItself rows.now row → IsTrue yes) }
    {
        if self.apart[row] {
            return Ok(false);
        }
        let asked = [row];
        let asked = asked.as_slice();
        if rows.meet(alloc, &mut self.marks, round, asked, asked)? {
            return Ok(true);
        }
        self.apart[row] = true;
        Ok(false)
    }

    /// Returns whether two of these rows, or one and itself, occur on the two sides of a row. For a single row the
    /// search starts at its head.
    fn group_meets(
        &mut self,
        alloc: Global,
        rows: &Rows<'_>,
        round: usize,
        group: &[usize],
    ) -> Result<bool, OutOfMemory>
        requires rows { AreRows rows.now }
        requires search { IsSearch rows.now round self.old }
        requires below { All (λ k. k < length rows.now.standing.items) group.now }
        ensures search { OnOk result (IsSearch rows.now (round + 1) self.new) }
        ensures only { IfOk result (λ yes. IsTrue yes → MeetBetween rows.now.of rows.now.grammar.now (lists rows.now.above.items) group.now group.now) }
        ensures all { IfOk result (λ yes. MeetBetween rows.now.of rows.now.grammar.now (lists rows.now.above.items) group.now group.now → IsTrue yes) }
    {
        match group {
            [row] => {
                let head = self.heads[*row];
                self.meets_itself(alloc, rows, round, head)
            }
            _ => rows.meet(alloc, &mut self.marks, round, group, group),
        }
    }
}

/// Returns whether two rows of one group, or one and itself, occur on the two sides of a row. The cost is linear in the
/// rows and in what each group of two or more rows reaches. For single rows it is what is reached from each first row
/// above them that is a part of two rows, once for all that have it above them.
pub(crate) fn groups_meet(
    alloc: Global,
    rows: &Rows<'_>,
    groups: &[Vec<usize>],
) -> Result<bool, OutOfMemory>
    requires rows { AreRows rows.now }
    requires below { AreBelow (length rows.now.standing.items) (lists groups.now) }
    ensures only { IfOk result (λ yes. IsTrue yes → (k : ℕ) × MeetBetween rows.now.of rows.now.grammar.now (lists rows.now.above.items)
        (slice_index_or (lists groups.now) k []) (slice_index_or (lists groups.now) k [])) }
    ensures none { IfOk result (λ yes. IsFalse yes → (k : ℕ) → k < length groups.now → ¬ (MeetBetween rows.now.of rows.now.grammar.now
        (lists rows.now.above.items) (slice_index_or (lists groups.now) k []) (slice_index_or (lists groups.now) k []))) }
{
    let mut search = Search::new(alloc, rows)?;
    let mut round = 1;
    for group in groups {
        if search.group_meets(alloc, rows, round, group.as_slice())? {
            return Ok(true);
        }
        round += 1;
    }
    Ok(false)
}

/// Returns whether two rows occur on the two sides of a row. One of the two must have a class that is not a name, and
/// the two classes must have a name in common. The cost is, for each class that is not a name, one comparison with each
/// other class and the time linear in what is reached.
pub(crate) fn others_meet(
    alloc: Global,
    rows: &Rows<'_>,
    labels: &[Label<'_>],
) -> Result<bool, OutOfMemory>
    requires rows { AreRows rows.now }
    requires below { (row : ℕ) (c : NameClass) → Contains (map label_of labels.now) (row, c) → row < length rows.now.standing.items }
    ensures only { IfOk result (λ yes. IsTrue yes → Meeting rows.now.of rows.now.grammar.now (lists rows.now.above.items) (map label_of labels.now)) }
    ensures none { IfOk result (λ yes. IsFalse yes → (m : Meeting rows.now.of rows.now.grammar.now (lists rows.now.above.items) (map label_of labels.now))
        → IsPlain m.first.1) }
{
    let ready = ready_labels(alloc, labels)?;
    ready_meet(alloc, rows, ready.as_slice())
}

/// Returns whether two such rows occur on the two sides of a row, with all classes prepared.
fn ready_meet(
    alloc: Global,
    rows: &Rows<'_>,
    labels: &[ReadyLabel<'_>],
) -> Result<bool, OutOfMemory>
    requires rows { AreRows rows.now }
    requires below { (row : ℕ) (c : NameClass) → Contains (map ready_label_of labels.now) (row, c) → row < length rows.now.standing.items }
    ensures only { IfOk result (λ yes. IsTrue yes → Meeting rows.now.of rows.now.grammar.now (lists rows.now.above.items) (map ready_label_of labels.now)) }
    ensures none { IfOk result (λ yes. IsFalse yes → (m : Meeting rows.now.of rows.now.grammar.now (lists rows.now.above.items) (map ready_label_of labels.now))
        → IsPlain m.first.1) }
{
    let mut marks = rows.marks(alloc)?;
    let mut round = 1;
    for label in labels {
        if one_meets(alloc, rows, &mut marks, round, labels, label)? {
            return Ok(true);
        }
        round += 1;
    }
    Ok(false)
}

/// Returns whether this row, if its class is not a name, and another one occur on the two sides of a row.
fn one_meets(
    alloc: Global,
    rows: &Rows<'_>,
    marks: &mut Marks,
    round: usize,
    labels: &[ReadyLabel<'_>],
    label: &ReadyLabel<'_>,
) -> Result<bool, OutOfMemory>
    requires rows { AreRows rows.now }
    requires below { (row : ℕ) (c : NameClass) → Contains (map ready_label_of labels.now) (row, c) → row < length rows.now.standing.items }
    requires there { Contains (map ready_label_of labels.now) (ready_label_of label.now) }
    requires marks { AreMarks (length rows.now.standing.items) round marks.old }
    ensures marks { OnOk result (AreMarks (length rows.now.standing.items) (round + 1) marks.new) }
    ensures only { IfOk result (λ yes. IsTrue yes → Meeting rows.now.of rows.now.grammar.now (lists rows.now.above.items) (map ready_label_of labels.now)) }
    ensures none { IfOk result (λ yes. IsFalse yes → (m : Meeting rows.now.of rows.now.grammar.now (lists rows.now.above.items) (map ready_label_of labels.now))
        → m.first ≡ ready_label_of label.now → IsPlain m.first.1) }
{
    if label.class.is_name() {
        return Ok(false);
    }
    let others = overlapping(alloc, labels, &label.class)?;
    let alone = [label.row];
    rows.meet(alloc, marks, round, alone.as_slice(), others.as_slice())
}
