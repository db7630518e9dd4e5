// The numbers that are reached from a start by following numbers to the next ones.
ghost use Rattle.std.specs.Prelude.{◌≡◌, ◌<◌, ◌↔◌, ℕ, [], ◌∷◌, length, slice_get, slice_index_or, All, IfOk, OnOk, Some, true};
ghost use Rattle.rng_simple.specs.plain.Search.{AreMentionsBelow, lists};
ghost use Rattle.rng_labels.specs.plain.Queues.{Adds, IsReachedBy};
ghost use Rattle.rng_simple.specs.plain.Worklist.{IsMarked};

use std::alloc::{AllocError, Global};

/// Marks each number that is reached from the start: those of the start, and those next to a reached number.
///
/// `next` has for each number those that are next to it. Takes time and memory linear in all of them, and does not
/// recurse.
pub fn collect(alloc: Global, next: &[Vec<usize>], start: &[usize]) -> Result<Vec<bool>, AllocError>
    requires next { AreMentionsBelow (lists next.now) }
    requires start { All (λ k. k < length next.now) start.now }
    ensures long { IfOk result (λ marks. length marks.items ≡ length next.now) }
    ensures reached { IfOk result (λ marks. (k : ℕ) →
        IsReachedBy (λ j. slice_index_or (lists next.now) j []) start.now k ↔ (slice_get marks.items k ≡ Some true)) }
{
    let mut marks = no_marks(alloc, next.len())?;
    let mut seen = Vec::new(alloc);
    add(&mut marks, &mut seen, start)?;
    let mut i = 0;
    'queue: while i < seen.len() {
        let k = seen[i];
        add(&mut marks, &mut seen, next_to(next, k))?;
        i += 1;
    }
    Ok(marks)
}

/// No number is marked.
fn no_marks(alloc: Global, n: usize) -> Result<Vec<bool>, AllocError>
    ensures long { IfOk result (λ marks. length marks.items ≡ n) }
    ensures none { IfOk result (λ marks. IsMarked marks.items []) }
{
    let mut marks = Vec::new(alloc);
    for k in 0..n {
        marks.push(false)?;
    }
    Ok(marks)
}

/// The numbers next to a number.
fn next_to(next: &[Vec<usize>], k: usize) -> &[usize]
    requires { k < length next.now }
    ensures { result.now ≡ slice_index_or (lists next.now) k [] }
{
    next[k].as_slice()
}

/// Adds those of the numbers that are not marked, and marks them.
fn add(marks: &mut Vec<bool>, seen: &mut Vec<usize>, numbers: &[usize]) -> Result<(), AllocError>
    requires marked { IsMarked marks.old.items seen.old.items }
    requires below { All (λ k. k < length marks.old.items) numbers.now }
    ensures marked { OnOk result (IsMarked marks.new.items seen.new.items) }
    ensures long { OnOk result (length marks.new.items ≡ length marks.old.items) }
    ensures adds { OnOk result (Adds seen.old.items numbers.now seen.new.items) }
{
    for k in numbers {
        add_one(marks, seen, *k)?;
    }
    Ok(())
}

/// Adds the number if it is not marked, and marks it.
fn add_one(marks: &mut Vec<bool>, seen: &mut Vec<usize>, k: usize) -> Result<(), AllocError>
    requires marked { IsMarked marks.old.items seen.old.items }
    requires below { k < length marks.old.items }
    ensures marked { OnOk result (IsMarked marks.new.items seen.new.items) }
    ensures long { OnOk result (length marks.new.items ≡ length marks.old.items) }
    ensures adds { OnOk result (Adds seen.old.items (k ∷ []) seen.new.items) }
{
    if !marks[k] {
        marks[k] = true;
        seen.push(k)?;
    }
    Ok(())
}
