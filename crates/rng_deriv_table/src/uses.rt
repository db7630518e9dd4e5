// Which patterns of a grammar get a number of their own in a table of patterns.
ghost use Rattle.std.specs.Prelude.{◌≡◌, ◌<◌, ◌++◌, ◌∷◌, [], ℕ, IfOk, IfSome, IfNone, IsTrue, IsFalse, OnOk, Some, length, slice_get};
ghost use Rattle.rng_model.specs.simple.Table.{tree_at};
ghost use Rattle.rng_model.specs.simple.TableRules.{AreChildrenBelow};
ghost use Rattle.rng_model.specs.simple.Tree.{choice, s_joined};
ghost use Rattle.rng_deriv_table.specs.plain.AskedFor.{AreOpened, HasNumber, HasPart, IsAskedFor, IsOwn, steps_for};
ghost use Rattle.rng_model.specs.declared.name.NameClass.{NameClass};
ghost use Rattle.rng_model.specs.declared.simple.PatternId.{PatternId};
ghost use Rattle.rng_model.specs.declared.simple.Simple.{Simple};

use rng_model::{ElementId, OutOfMemory, PatternId, Simple, SimpleGrammar};
use std::alloc::Global;

/// How the patterns of a grammar use the one at a position.
#[derive(Clone, Copy)]
pub enum Use {
    /// No pattern uses it.
    Unused,
    /// It is a side of one choice, and nothing else uses it.
    Side,
    /// It is the start, the body of an element, a part of a pattern that is no choice, or a side of several choices; or
    /// it is a choice of few members, or no choice.
    Own,
}

/// The patterns of a grammar, and how each is used.
///
/// A choice gets a number of its own if its use is `Own`, and so do all patterns that are no choice. Any other choice
/// is a side of one choice alone. It is opened there, and needs no number.
///
/// RELAX NG Specification, section 6.2.1.
#[derive(Drop)]
pub struct Uses<'a> {
    pub grammar: &'a SimpleGrammar,
    pub by_position: Vec<Use>,
}

impl<'a> Uses<'a> {
    /// Looks through a grammar. Fails only when out of memory. Linear in its tables.
    pub fn of(alloc: Global, grammar: &'a SimpleGrammar) -> Result<Self, OutOfMemory>
        ensures grammar { IfOk result (λ uses. uses.grammar.now ≡ grammar.now) }
        ensures own { IfOk result (λ uses. (k : ℕ) → IsAskedFor grammar.now k → IsOwn uses.by_position.items k) }
    {
        let start = grammar.start();
        let mut by_position = parts(alloc, grammar)?;
        add_bodies(&mut by_position, grammar)?;
        by_position[start.0] = Use::Own;
        Ok(Uses {
            grammar,
            by_position,
        })
    }

    /// Returns whether the use of the pattern at a position is `Own`. Allocates nothing.
    pub fn is_own(&self, position: PatternId) -> bool
        ensures yes { IsTrue result → IsOwn self.now.by_position.items position.0 }
        ensures no { IsFalse result → ¬ (IsOwn self.now.by_position.items position.0) }
    {
        matches!(self.by_position.get(position.0), Some(Use::Own))
    }

    /// Returns the members of a choice with these sides. Choices without a number among them are opened.
    ///
    /// Fails only when out of memory. Each choice that is opened costs a step, and none is opened in two choices.
    pub fn members(
        &self,
        alloc: Global,
        first: PatternId,
        second: PatternId,
    ) -> Result<Vec<PatternId>, OutOfMemory>
        requires first { first.0 < length self.now.grammar.now.patterns }
        requires second { second.0 < length self.now.grammar.now.patterns }
        ensures { IfOk result (λ members. AreOpened self.now.grammar.now self.now.by_position.items first second [] members.items) }
    {
        let mut members = Vec::new(alloc);
        let mut todo = Vec::new(alloc);
        todo.push(first)?;
        todo.push(second)?;
        'todo: while let Some(position) = todo.pop() {
            self.look_at(position, &mut todo, &mut members)?;
        }
        Ok(members)
    }

    /// Adds the pattern at a position to the members of a choice, or its sides to those that are still to be looked at.
    fn look_at(
        &self,
        position: PatternId,
        todo: &mut Vec<PatternId>,
        members: &mut Vec<PatternId>,
    ) -> Result<(), OutOfMemory>
        ensures opened { OnOk result ((first second : PatternId) → AreOpened self.now.grammar.now self.now.by_position.items first second
            (todo.old.items ++ position ∷ []) members.old.items
            → AreOpened self.now.grammar.now self.now.by_position.items first second todo.new.items members.new.items) }
        ensures fewer { OnOk result (steps_for todo.new.items < steps_for (todo.old.items ++ position ∷ [])) }
    {
        match self.sides(position) {
            Some((first, second)) => {
                todo.push(first)?;
                todo.push(second)?;
            }
            None => members.push(position)?,
        }
        Ok(())
    }

    /// Returns the sides of the pattern at a position if it is a choice without a number. Allocates nothing.
    fn sides(&self, position: PatternId) -> Option<(PatternId, PatternId)>
        ensures sides { IfSome result (λ s. tree_at self.now.grammar.now.patterns position
            ≡ s_joined choice (tree_at self.now.grammar.now.patterns s.0) (tree_at self.now.grammar.now.patterns s.1)) }
        ensures below { IfSome result (λ s. (s.0.0 < position.0) × (s.1.0 < position.0)) }
        ensures none { IfNone result (HasNumber self.now.grammar.now self.now.by_position.items position.0) }
    {
        if self.is_own(position) {
            return None;
        }
        match self.grammar.pattern(position) {
            Some(Simple::Choice(first, second)) => Some((*first, *second)),
            _ => None,
        }
    }
}

/// The most members of a choice that gets a number in any case. Members of choices are compared in twos as they are
/// joined, and in a long choice they are not.
const FEW_MEMBERS: u32 = 4;

/// Returns how the patterns of a grammar use each other. Linear.
fn parts(alloc: Global, grammar: &SimpleGrammar) -> Result<Vec<Use>, OutOfMemory>
    ensures long { IfOk result (λ uses. length uses.items ≡ length grammar.now.patterns) }
    ensures parts { IfOk result (λ uses. (i k : ℕ) (p : Simple) → slice_get grammar.now.patterns i ≡ Some p → HasPart p k → IsOwn uses.items k) }
{
    let mut uses = Vec::new(alloc);
    let mut counts = Vec::new(alloc);
    'rows: while let Some(row) = grammar.pattern(PatternId(uses.len())) {
        add_parts(&mut uses, row);
        let count = member_count(counts.as_slice(), row);
        uses.push(use_by_count(count))?;
        counts.push(count)?;
    }
    Ok(uses)
}

/// Returns the number of members of a choice, at any depth of choices, and 1 for any other pattern.
fn member_count(counts: &[u32], row: &Simple) -> u32
    requires { AreChildrenBelow (length counts.now) row.now }
{
    match row {
        Simple::Choice(first, second) => counts[first.0].saturating_add(counts[second.0]),
        _ => 1,
    }
}

/// Returns the use of a pattern with so many members that nothing uses so far.
fn use_by_count(count: u32) -> Use {
    if count <= FEW_MEMBERS {
        Use::Own
    } else {
        Use::Unused
    }
}

/// Adds the uses of a pattern's parts.
fn add_parts(uses: &mut Vec<Use>, row: &Simple)
    requires { AreChildrenBelow (length uses.old.items) row.now }
    ensures long { length uses.new.items ≡ length uses.old.items }
    ensures stays { (k : ℕ) → IsOwn uses.old.items k → IsOwn uses.new.items k }
    ensures parts { (k : ℕ) → HasPart row.now k → IsOwn uses.new.items k }
{
    match row {
        Simple::NotAllowed
        | Simple::Empty
        | Simple::Text
        | Simple::Element(_)
        | Simple::Data(_)
        | Simple::Value(_) => {}
        Simple::Attribute(_, part)
        | Simple::List(part)
        | Simple::DataExcept(_, part)
        | Simple::OneOrMore(part) => add_part(uses, *part),
        Simple::Group(first, second) | Simple::Interleave(first, second) => {
            add_part(uses, *first);
            add_part(uses, *second);
        }
        Simple::Choice(first, second) => {
            add_side(uses, *first);
            add_side(uses, *second);
        }
    }
}

/// Adds the use of a part of a pattern that is no choice.
fn add_part(uses: &mut Vec<Use>, part: PatternId)
    requires { part.0 < length uses.old.items }
    ensures long { length uses.new.items ≡ length uses.old.items }
    ensures stays { (k : ℕ) → IsOwn uses.old.items k → IsOwn uses.new.items k }
    ensures own { IsOwn uses.new.items part.0 }
{
    uses[part.0] = Use::Own;
}

/// Adds the use of a side of a choice.
fn add_side(uses: &mut Vec<Use>, side: PatternId)
    requires { side.0 < length uses.old.items }
    ensures long { length uses.new.items ≡ length uses.old.items }
    ensures stays { (k : ℕ) → IsOwn uses.old.items k → IsOwn uses.new.items k }
{
    uses[side.0] = match uses[side.0] {
        Use::Unused => Use::Side,
        Use::Side | Use::Own => Use::Own,
    };
}

/// Adds the uses of the bodies of elements.
fn add_bodies(uses: &mut Vec<Use>, grammar: &SimpleGrammar) -> Result<(), OutOfMemory>
    requires { length uses.old.items ≡ length grammar.now.patterns }
    ensures long { OnOk result (length uses.new.items ≡ length uses.old.items) }
    ensures stays { OnOk result ((k : ℕ) → IsOwn uses.old.items k → IsOwn uses.new.items k) }
    ensures bodies { OnOk result ((i : ℕ) (e : NameClass × PatternId) → slice_get grammar.now.elements i ≡ Some e → IsOwn uses.new.items e.1.0) }
{
    let _start = grammar.start();
    'bodies: for number in 0..usize::MAX {
        let Some((_, body)) = grammar.element(ElementId(number)) else {
            return Ok(());
        };
        add_part(uses, *body);
    }
    Err(OutOfMemory)
}
