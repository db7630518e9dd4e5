// An order of numbers in which each comes after those that it mentions, or a number that leads to itself.
ghost use Rattle.std.specs.Prelude.{◌≡◌, ◌+◌, ◌<◌, [], ◌∷◌, ◌++◌, length, map, slice_index_or, IfOk, OnOk};
ghost use Rattle.rng_simple.specs.plain.Search.{AreMentionsBelow, IsAnswer, IsSearch, IsStart, IsStep, lists, weight};
ghost use Rattle.rng_simple.specs.declared.graph.order.Task.TheVariants as task;

use std::alloc::{AllocError, Global};

/// The result of a sort.
#[derive(Drop)]
pub enum Sorted {
    /// All numbers, each after those that it mentions.
    Order(Vec<usize>),
    /// A number that leads to itself through mentions.
    Loop(usize),
}

/// The state of a number in the search.
#[derive(Clone, Copy)]
pub enum Mark {
    New,
    Open,
    Done,
}

/// A task that the search still has to do.
#[derive(Clone, Copy)]
pub enum Task {
    /// Process what the number mentions.
    Enter(usize),
    /// Append the number to the order, after everything that it mentions.
    Leave(usize),
}

/// Returns an order of the numbers in which each comes after everything that it mentions, or a number that leads to
/// itself.
///
/// `all` has for each number those that it mentions, which must be numbers too. Takes time and memory linear in all
/// mentions, and does not recurse. Fails only when out of memory.
pub fn sort(alloc: Global, all: &[Vec<usize>]) -> Result<Sorted, AllocError>
    requires { AreMentionsBelow (lists all.now) }
    ensures { IfOk result (IsAnswer (lists all.now)) }
{
    let (mut marks, mut tasks) = start(alloc, all.len())?;
    let mut order = Vec::new(alloc);
    'search: while let Some(task) = tasks.pop() {
        if let Some(j) = step(&mut marks, &mut tasks, &mut order, all, task)? {
            return Ok(Sorted::Loop(j));
        }
    }
    Ok(Sorted::Order(order))
}

/// The start of the search: every number is new, and has a task to enter it.
fn start(alloc: Global, n: usize) -> Result<(Vec<Mark>, Vec<Task>), AllocError>
    ensures { IfOk result (λ x. IsStart n x.0.items x.1.items) }
{
    let mut marks = Vec::new(alloc);
    let mut tasks = Vec::new(alloc);
    for k in 0..n {
        marks.push(Mark::New)?;
        tasks.push(Task::Enter(k))?;
    }
    Ok((marks, tasks))
}

/// Does one task of the search, the last of the list. Returns a number that leads to itself, if it finds one.
fn step(
    marks: &mut Vec<Mark>,
    tasks: &mut Vec<Task>,
    order: &mut Vec<usize>,
    all: &[Vec<usize>],
    task: Task,
) -> Result<Option<usize>, AllocError>
    requires below { AreMentionsBelow (lists all.now) }
    requires search { IsSearch (lists all.now) marks.old.items (tasks.old.items ++ task ∷ []) order.old.items }
    ensures { IfOk result (IsStep (lists all.now) (weight marks.old.items (lists all.now) + length tasks.old.items + 1)
        marks.new.items tasks.new.items order.new.items) }
{
    match task {
        Task::Enter(j) => match marks[j] {
            Mark::New => {
                marks[j] = Mark::Open;
                enter(tasks, j, mentions(all, j))?;
                Ok(None)
            }
            Mark::Open => Ok(Some(j)),
            Mark::Done => Ok(None),
        },
        Task::Leave(j) => {
            marks[j] = Mark::Done;
            order.push(j)?;
            Ok(None)
        }
    }
}

/// The numbers that a number mentions.
fn mentions(all: &[Vec<usize>], j: usize) -> &[usize]
    requires { j < length all.now }
    ensures { result.now ≡ slice_index_or (lists all.now) j [] }
{
    all[j].as_slice()
}

/// Appends the task to leave the number, and then the tasks to enter what it mentions. The last task is done first.
fn enter(tasks: &mut Vec<Task>, j: usize, mentions: &[usize]) -> Result<(), AllocError>
    ensures { OnOk result (tasks.new.items ≡ (tasks.old.items ++ task.Leave j ∷ []) ++ map task.Enter mentions.now) }
{
    tasks.push(Task::Leave(j))?;
    for i in mentions {
        tasks.push(Task::Enter(*i))?;
    }
    Ok(())
}
