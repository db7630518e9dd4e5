// What is reached from numbers by repeated steps, marked with the number of the round.
ghost use Rattle.std.specs.Prelude.{◌≡◌, ◌<◌, ◌≤◌, ◌↔◌, ℕ, [], ◌∷◌, length, slice_get, slice_index_or, All, Contains, IfOk, OnOk, Some};
ghost use Rattle.rng_labels.specs.plain.Queues.{Adds, IsReachedBy};
ghost use Rattle.rng_rules.specs.plain.NamesMeetReach.{AreBelow, IsMarked, lists};

use rng_model::OutOfMemory;
use std::alloc::Global;

/// Returns what is reached from the start: the start, and everything next to a number that is reached, once each. It
/// gets the mark of the round, which must be greater than all marks so far.
///
/// `next` has for each number those that are next to it. Time and memory are linear in what is reached. There is no
/// recursion.
pub(crate) fn reach(
    alloc: Global,
    next: &[Vec<usize>],
    start: &[usize],
    marks: &mut Vec<usize>,
    round: usize,
) -> Result<Vec<usize>, OutOfMemory>
    requires next { AreBelow (length next.now) (lists next.now) }
    requires start { All (λ k. k < length next.now) start.now }
    requires long { length marks.old.items ≡ length next.now }
    requires round { All (λ m. m < round) marks.old.items }
    ensures long { OnOk result (length marks.new.items ≡ length next.now) }
    ensures round { OnOk result (All (λ m. m ≤ round) marks.new.items) }
    ensures reached { IfOk result (λ rows. (k : ℕ) → IsReachedBy (λ j. slice_index_or (lists next.now) j []) start.now k ↔ Contains rows.items k) }
    ensures below { IfOk result (λ rows. All (λ k. k < length next.now) rows.items) }
    ensures marked { OnOk result ((k : ℕ) → IsReachedBy (λ j. slice_index_or (lists next.now) j []) start.now k ↔ (slice_get marks.new.items k ≡ Some round)) }
{
    let mut rows = Vec::new(alloc);
    add(marks, &mut rows, start, round)?;
    let mut done = 0;
    'queue: while done < rows.len() {
        let row = rows[done];
        add(marks, &mut rows, next_to(next, row), round)?;
        done += 1;
    }
    Ok(rows)
}

/// Returns what is next to a number.
fn next_to(next: &[Vec<usize>], k: usize) -> &[usize]
    requires { k < length next.now }
    ensures { result.now ≡ slice_index_or (lists next.now) k [] }
{
    next[k].as_slice()
}

/// Adds the numbers that do not have the mark of the round, and marks them.
fn add(
    marks: &mut Vec<usize>,
    rows: &mut Vec<usize>,
    numbers: &[usize],
    round: usize,
) -> Result<(), OutOfMemory>
    requires marked { IsMarked round marks.old.items rows.old.items }
    requires below { All (λ k. k < length marks.old.items) numbers.now }
    ensures marked { OnOk result (IsMarked round marks.new.items rows.new.items) }
    ensures long { OnOk result (length marks.new.items ≡ length marks.old.items) }
    ensures adds { OnOk result (Adds rows.old.items numbers.now rows.new.items) }
{
    for k in numbers {
        add_one(marks, rows, *k, round)?;
    }
    Ok(())
}

/// Adds the number if it does not have the mark of the round, and marks it.
fn add_one(
    marks: &mut Vec<usize>,
    rows: &mut Vec<usize>,
    k: usize,
    round: usize,
) -> Result<(), OutOfMemory>
    requires marked { IsMarked round marks.old.items rows.old.items }
    requires below { k < length marks.old.items }
    ensures marked { OnOk result (IsMarked round marks.new.items rows.new.items) }
    ensures long { OnOk result (length marks.new.items ≡ length marks.old.items) }
    ensures adds { OnOk result (Adds rows.old.items (k ∷ []) rows.new.items) }
{
    if marks[k] != round {
        marks[k] = round;
        rows.push(k)?;
    }
    Ok(())
}
