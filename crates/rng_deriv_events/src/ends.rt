// The end of an element.
ghost use Rattle.std.specs.Prelude.{◌≡◌, ◌↔◌, ◌<◌, ◌||◌, ◌&&◌, [], ◌∷◌, All, IfOk, IfSome, OnOk, Some, length, map, slice_get, true};
ghost use Rattle.std.specs.List.{AllZip, list_any};
ghost use Rattle.rng_deriv_laws.specs.plain.LevelStates.{EndsNow};
ghost use Rattle.rng_deriv_laws.specs.plain.Derivatives.{is_nullable};
ghost use Rattle.rng_deriv_events.specs.views.Basis.{reading_by};
ghost use Rattle.rng_deriv_events.specs.views.Levels.{AddsEnded, AreEndsWith, IsOnlyRest, IsRestWithin, LeavesBy};
ghost use Rattle.rng_deriv_events.specs.views.Numbers.{Adds, IsChoiceOf, IsInside, tree_of};

use crate::derivatives::Derivatives;
use crate::level_table::{Link, Numbers};
use crate::lists::Tests;
use rng_deriv_table::PatternNumber;
use rng_model::OutOfMemory;
use smallvec::SmallVec;
use std::alloc::Global;

/// Returns which of the alternatives may end an element that has a child element.
pub fn which_end<D: Derivatives>(
    derivatives: &D,
    alloc: Global,
    now: &[PatternNumber],
) -> Result<Tests, OutOfMemory>
    requires { All (IsInside (D.trees derivatives.now)) now.now }
    ensures { IfOk result (λ good. AllZip (λ p b. (b ≡ true) ↔ EndsNow (reading_by (D.basis derivatives.now)) p)
        (map (tree_of (D.trees derivatives.now)) now.now) good.items) }
{
    let mut good = SmallVec::new(alloc);
    'alternatives: for pattern in now {
        good.push(derivatives.is_nullable(*pattern))?;
    }
    Ok(good)
}

/// Returns whether some alternative may end.
pub fn some_end<D: Derivatives>(derivatives: &D, now: &[PatternNumber]) -> bool
    requires { All (IsInside (D.trees derivatives.now)) now.now }
    ensures { result ≡ list_any (λ p. is_nullable (tree_of (D.trees derivatives.now) p)) now.now }
{
    'alternatives: for pattern in now {
        if derivatives.is_nullable(*pattern) {
            return true;
        }
    }
    false
}

/// Returns whether the pattern may end an element with only a string, given what is left of it after the string.
fn may_end<D: Derivatives>(
    derivatives: &D,
    pattern: PatternNumber,
    after: PatternNumber,
    blank: bool,
) -> bool
    requires pattern { IsInside (D.trees derivatives.now) pattern }
    requires after { IsInside (D.trees derivatives.now) after }
    ensures { result ≡ (is_nullable (tree_of (D.trees derivatives.now) after) || (is_nullable (tree_of (D.trees derivatives.now) pattern) && blank)) }
{
    derivatives.is_nullable(after) || (derivatives.is_nullable(pattern) && blank)
}

/// Returns which of the alternatives may end an element with only a string, blank or not, given what is left of each
/// after the string.
pub fn which_end_with<D: Derivatives>(
    derivatives: &D,
    alloc: Global,
    now: &[PatternNumber],
    after: &[PatternNumber],
    blank: bool,
) -> Result<Tests, OutOfMemory>
    requires now { All (IsInside (D.trees derivatives.now)) now.now }
    requires after { All (IsInside (D.trees derivatives.now)) after.now }
    requires count { length now.now ≡ length after.now }
    ensures { IfOk result (λ good. AreEndsWith (reading_by (D.basis derivatives.now)) (D.trees derivatives.now) now.now after.now blank now.now good.items) }
{
    let mut good = SmallVec::new(alloc);
    'alternatives: for (place, pattern) in now.iter().enumerate() {
        good.push(may_end(derivatives, *pattern, after[place], blank))?;
    }
    Ok(good)
}

/// Returns whether some alternative may end an element with only a string, blank or not, given what is left of each after
/// the string.
pub fn some_end_with<D: Derivatives>(
    derivatives: &D,
    now: &[PatternNumber],
    after: &[PatternNumber],
    blank: bool,
) -> bool
    requires now { All (IsInside (D.trees derivatives.now)) now.now }
    requires after { All (IsInside (D.trees derivatives.now)) after.now }
    ensures { result ≡ (list_any (λ p. is_nullable (tree_of (D.trees derivatives.now) p)) after.now
        || (blank && list_any (λ p. is_nullable (tree_of (D.trees derivatives.now) p)) now.now)) }
{
    some_end(derivatives, after) || (blank && some_end(derivatives, now))
}

/// Returns whether the alternative at a place is good.
fn is_good(good: &[bool], place: usize) -> bool
    ensures { (result ≡ true) ↔ (slice_get good.now place ≡ Some true) }
{
    good.get(place) == Some(&true)
}

/// Returns a choice of two patterns. If the first is notAllowed, returns the second.
fn joined<D: Derivatives>(
    derivatives: &mut D,
    alloc: Global,
    first: PatternNumber,
    second: PatternNumber,
) -> Result<PatternNumber, OutOfMemory>
    requires first { IsInside (D.trees derivatives.old) first }
    requires second { IsInside (D.trees derivatives.old) second }
    ensures basis { OnOk result (D.basis derivatives.new ≡ D.basis derivatives.old) }
    ensures choice { IfOk result (Adds (IsChoiceOf (reading_by (D.basis derivatives.old)) (D.trees derivatives.old) (first ∷ second ∷ []))
        (D.trees derivatives.old) (D.trees derivatives.new)) }
{
    if derivatives.is_not_allowed(first) {
        return Ok(second);
    }
    derivatives.choice(alloc, &[first, second])
}

/// Takes a way out of an element: if the alternative inside is good, the alternative around may also continue with the
/// rest.
fn leave<D: Derivatives>(
    derivatives: &mut D,
    alloc: Global,
    good: &[bool],
    link: Link,
    outside: &mut Numbers,
) -> Result<(), OutOfMemory>
    requires outside { All (IsInside (D.trees derivatives.old)) outside.old.items }
    requires link { IsRestWithin (D.trees derivatives.old) (length outside.old.items) link }
    ensures basis { OnOk result (D.basis derivatives.new ≡ D.basis derivatives.old) }
    ensures leaves { OnOk result (LeavesBy (reading_by (D.basis derivatives.old)) good.now (D.trees derivatives.old) (D.trees derivatives.new) link
        outside.old.items outside.new.items) }
{
    if !is_good(good, link.inner) {
        return Ok(());
    }
    let joined = joined(derivatives, alloc, outside[link.outer], link.rest)?;
    outside[link.outer] = joined;
    Ok(())
}

/// Returns the rest of the only way out, if it leads from a good alternative into the only one around.
fn only_rest(good: &[bool], links: &[Link], around: usize) -> Option<PatternNumber>
    ensures { IfSome result (IsOnlyRest good.now links.now around) }
{
    let [link] = links else {
        return None;
    };
    if around != 1 || !is_good(good, link.inner) {
        return None;
    }
    Some(link.rest)
}

/// Returns the alternatives around an element after its end, given its ways out and which alternatives inside are good.
///
/// The ways out are taken from the last to the first. What is left after a member of a list ends with what is left
/// after the later members. So if these may be left out, one alternative remains at a time.
pub fn ended<D: Derivatives>(
    derivatives: &mut D,
    alloc: Global,
    good: &[bool],
    links: &[Link],
    around: usize,
) -> Result<Numbers, OutOfMemory>
    requires { All (IsRestWithin (D.trees derivatives.old) around) links.now }
    ensures basis { OnOk result (D.basis derivatives.new ≡ D.basis derivatives.old) }
    ensures ended { IfOk result (λ outside. AddsEnded (reading_by (D.basis derivatives.old)) good.now around (D.trees derivatives.old)
        (D.trees derivatives.new) links.now outside.items) }
{
    if let Some(rest) = only_rest(good, links, around) {
        return Ok(SmallVec::from_slice(alloc, &[rest])?);
    }
    let none = derivatives.choice(alloc, &[])?;
    let mut outside = SmallVec::from_elem(alloc, none, around)?;
    let mut left = links.len();
    'links: while left > 0 {
        left -= 1;
        leave(derivatives, alloc, good, links[left], &mut outside)?;
    }
    Ok(outside)
}
