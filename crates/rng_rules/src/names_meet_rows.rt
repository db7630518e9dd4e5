// The rows of a grammar: their parts, and the rows in which they occur.
ghost use Rattle.std.specs.Prelude.{◌≡◌, ◌<◌, ◌⊎◌, ◌↔◌, ℕ, [], length, map, slice_get, slice_index_or, All, Contains, IfOk, OnOk, Some};
ghost use Rattle.rng_model.specs.simple.TableRules.{AreChildrenBelow};
ghost use Rattle.rng_labels.specs.plain.Queues.{IsReachedBy};
ghost use Rattle.rng_rules.specs.plain.NamesMeetReach.{lists};
ghost use Rattle.rng_rules.specs.views.NamesMeetRows.{IsAbove, children, children_at, part_rows, passed};

use crate::names_meet_reach::reach;
use rng_model::{ElementId, OutOfMemory, PatternId, Simple, SimpleGrammar};
use std::alloc::Global;

/// Returns for each row 1 if it is in the start or in the body of a listed element, and 0 if not.
pub(crate) fn standing(alloc: Global, grammar: &SimpleGrammar) -> Result<Vec<usize>, OutOfMemory>
    ensures long { IfOk result (λ marks. length marks.items ≡ length grammar.now.patterns) }
    ensures exact { IfOk result (λ marks. (k : ℕ) → IsReachedBy (children_at grammar.now.patterns) (part_rows grammar.now) k ↔ (slice_get marks.items k ≡ Some 1)) }
{
    let mut parts = bodies(alloc, grammar)?;
    parts.push(grammar.start().0)?;
    within(alloc, grammar, parts.as_slice())
}

/// Returns for each row 1 if it is one of these or inside one, and 0 if not. Linear.
pub(crate) fn within(
    alloc: Global,
    grammar: &SimpleGrammar,
    rows: &[usize],
) -> Result<Vec<usize>, OutOfMemory>
    requires { All (λ k. k < length grammar.now.patterns) rows.now }
    ensures long { IfOk result (λ marks. length marks.items ≡ length grammar.now.patterns) }
    ensures exact { IfOk result (λ marks. (k : ℕ) → IsReachedBy (children_at grammar.now.patterns) rows.now k ↔ (slice_get marks.items k ≡ Some 1)) }
{
    let _ = grammar.start();
    let below = below(alloc, grammar)?;
    let mut marks = no_marks(alloc, below.len())?;
    let _ = reach(alloc, below.as_slice(), rows, &mut marks, 1)?;
    Ok(marks)
}

/// Returns a 0 for each row.
pub(crate) fn no_marks(alloc: Global, count: usize) -> Result<Vec<usize>, OutOfMemory>
    ensures long { IfOk result (λ marks. length marks.items ≡ count) }
    ensures none { IfOk result (λ marks. (k m : ℕ) → slice_get marks.items k ≡ Some m → m ≡ 0) }
{
    let mut marks = Vec::new(alloc);
    for _ in 0..count {
        marks.push(0)?;
    }
    Ok(marks)
}

/// Returns the rows of the bodies.
fn bodies(alloc: Global, grammar: &SimpleGrammar) -> Result<Vec<usize>, OutOfMemory>
    ensures { IfOk result (λ rows. rows.items ≡ map (λ e. e.1.0) grammar.now.elements) }
{
    let mut rows = Vec::new(alloc);
    'bodies: while let Some(element) = grammar.element(ElementId(rows.len())) {
        rows.push(element.1.0)?;
    }
    Ok(rows)
}

/// Returns the children of each row.
fn below(alloc: Global, grammar: &SimpleGrammar) -> Result<Vec<Vec<usize>>, OutOfMemory>
    ensures { IfOk result (λ all. lists all.items ≡ map children grammar.now.patterns) }
{
    let mut all = Vec::new(alloc);
    'rows: while let Some(pattern) = grammar.pattern(PatternId(all.len())) {
        all.push(children(alloc, pattern)?)?;
    }
    Ok(all)
}

/// Returns the rows of the children of a pattern.
fn children(alloc: Global, pattern: &Simple) -> Result<Vec<usize>, OutOfMemory>
    ensures { IfOk result (λ rows. rows.items ≡ children pattern.now) }
{
    let mut rows = Vec::new(alloc);
    match pattern {
        Simple::NotAllowed
        | Simple::Empty
        | Simple::Text
        | Simple::Element(_)
        | Simple::Data(_)
        | Simple::Value(_) => {}
        Simple::Attribute(_, a)
        | Simple::List(a)
        | Simple::DataExcept(_, a)
        | Simple::OneOrMore(a) => rows.push(a.0)?,
        Simple::Choice(a, b) | Simple::Group(a, b) | Simple::Interleave(a, b) => {
            rows.push(a.0)?;
            rows.push(b.0)?;
        }
    }
    Ok(rows)
}

/// Returns for each row the choices, groups, interleaves and oneOrMores that have it as a direct part.
pub(crate) fn above(alloc: Global, grammar: &SimpleGrammar) -> Result<Vec<Vec<usize>>, OutOfMemory>
    ensures { IfOk result (λ all. IsAbove grammar.now.patterns (lists all.items)) }
{
    let mut all = Vec::new(alloc);
    'rows: while let Some(pattern) = grammar.pattern(PatternId(all.len())) {
        let row = all.len();
        add_row(&mut all, pattern, row)?;
        all.push(Vec::new(alloc))?;
    }
    Ok(all)
}

/// Adds a row to the lists of the rows that it passes to.
fn add_row(all: &mut Vec<Vec<usize>>, pattern: &Simple, row: usize) -> Result<(), OutOfMemory>
    requires { AreChildrenBelow (length all.old.items) pattern.now }
    ensures long { OnOk result (length all.new.items ≡ length all.old.items) }
    ensures exact { OnOk result ((c p : ℕ) → Contains (slice_index_or (lists all.new.items) c []) p
        ↔ (Contains (slice_index_or (lists all.old.items) c []) p ⊎ ((p ≡ row) × Contains (passed pattern.now) c))) }
{
    match pattern {
        Simple::OneOrMore(a) => add_above(all, a.0, row),
        Simple::Choice(a, b) | Simple::Group(a, b) | Simple::Interleave(a, b) => {
            add_above(all, a.0, row)?;
            add_above(all, b.0, row)
        }
        _ => Ok(()),
    }
}

/// Adds a row to the list of its child.
pub(crate) fn add_above(
    all: &mut Vec<Vec<usize>>,
    child: usize,
    row: usize,
) -> Result<(), OutOfMemory>
    requires { child < length all.old.items }
    ensures long { OnOk result (length all.new.items ≡ length all.old.items) }
    ensures exact { OnOk result ((c p : ℕ) → Contains (slice_index_or (lists all.new.items) c []) p
        ↔ (Contains (slice_index_or (lists all.old.items) c []) p ⊎ ((p ≡ row) × (c ≡ child)))) }
{
    all[child].push(row)?;
    Ok(())
}
