// Levels of alternatives, by number.
ghost use Rattle.std.specs.Prelude.{◌≡◌, ◌<◌, ◌∷◌, [], All, IfOk, IfSome, OnOk, Some, length, map, true};
ghost use Rattle.std.specs.List.{list_all, list_any};
ghost use Rattle.rng_model.specs.documents.EventViews.{attribute_of};
ghost use Rattle.rng_deriv_laws.specs.plain.Derivatives.{has_data, is_not_allowed};
ghost use Rattle.rng_deriv_laws.specs.plain.LevelStates.{IsAfterTag, IsAfterText};
ghost use Rattle.rng_deriv_events.specs.views.Basis.{HoldsBy, Keeps, reading_by};
ghost use Rattle.rng_deriv_events.specs.plain.Bits.{bits_of};
ghost use Rattle.rng_deriv_events.specs.views.LevelTable.{levels_in, numbers_in, sample_in, sample_of};
ghost use Rattle.rng_deriv_events.specs.views.KeptLevels.{AddsAfter, AddsLevels, AreKept, IsLevelOf, IsLikeSample, nullable_in};
ghost use Rattle.rng_deriv_events.specs.views.Numbers.{IsInside, tree_of};

use crate::derivatives::Derivatives;
use crate::level_table::{Level, LevelNumber, LevelTable, Numbers, bits_of};
use crate::levels::{after_string, entered};
use crate::lists::Tests;
use rng_deriv_table::PatternNumber;
use rng_model::{Attr, OutOfMemory};
use smallvec::SmallVec;
use std::alloc::Global;

/// Returns which of the alternatives are nullable.
fn which_are_nullable<D: Derivatives>(
    derivatives: &D,
    alloc: Global,
    numbers: &[PatternNumber],
) -> Result<Tests, OutOfMemory>
    requires { All (IsInside (D.trees derivatives.now)) numbers.now }
    ensures { IfOk result (λ tests. tests.items ≡ nullable_in (D.trees derivatives.now) numbers.now) }
{
    let mut tests = SmallVec::new(alloc);
    'alternatives: for pattern in numbers {
        tests.push(derivatives.is_nullable(*pattern))?;
    }
    Ok(tests)
}

/// Returns which of the alternatives are nullable, as `bits_of` has it.
fn nullable_bits<D: Derivatives>(
    derivatives: &D,
    alloc: Global,
    numbers: &[PatternNumber],
) -> Result<Option<u64>, OutOfMemory>
    requires { All (IsInside (D.trees derivatives.now)) numbers.now }
    ensures { IfOk result (λ good. IfSome good (λ bits. bits ≡ bits_of (nullable_in (D.trees derivatives.now) numbers.now))) }
{
    let tests = which_are_nullable(derivatives, alloc, numbers)?;
    Ok(bits_of(tests.as_slice()))
}

/// Returns whether no alternative is left, or each is notAllowed.
fn is_hopeless<D: Derivatives>(derivatives: &D, now: &[PatternNumber]) -> bool
    requires { All (IsInside (D.trees derivatives.now)) now.now }
    ensures { result ≡ list_all (λ p. is_not_allowed (tree_of (D.trees derivatives.now) p)) now.now }
{
    'alternatives: for pattern in now {
        if !derivatives.is_not_allowed(*pattern) {
            return false;
        }
    }
    true
}

/// Returns whether some alternative contains a data, a value or a list.
fn some_tests_strings<D: Derivatives>(derivatives: &D, now: &[PatternNumber]) -> bool
    requires { All (IsInside (D.trees derivatives.now)) now.now }
    ensures { result ≡ list_any (λ p. has_data (tree_of (D.trees derivatives.now) p)) now.now }
{
    'alternatives: for pattern in now {
        if derivatives.tests_strings(*pattern) {
            return true;
        }
    }
    false
}

/// Returns the number of the level of these alternatives. Adds it if it is not there.
pub fn level_of<D: Derivatives>(
    derivatives: &D,
    alloc: Global,
    table: &mut LevelTable,
    numbers: Numbers,
) -> Result<LevelNumber, OutOfMemory>
    requires inside { All (IsInside (D.trees derivatives.now)) numbers.items }
    requires kept { HoldsBy AreKept (D.basis derivatives.now) (D.trees derivatives.now) table.old }
    ensures adds { OnOk result (HoldsBy (AddsLevels table.old) (D.basis derivatives.now) (D.trees derivatives.now) table.new) }
    ensures level { IfOk result (λ n. IsLevelOf table.new n numbers.items) }
{
    if let Some(level) = table.find(numbers.as_slice()) {
        return Ok(level);
    }
    let good = nullable_bits(derivatives, alloc, numbers.as_slice())?;
    let dead = is_hopeless(derivatives, numbers.as_slice());
    let tests_strings = some_tests_strings(derivatives, numbers.as_slice());
    let number = table.add(
        alloc,
        Level {
            numbers,
            good,
            dead,
            tests_strings,
        },
    )?;
    Ok(number)
}

/// Returns the number of the level of one alternative. Adds it if it is not there.
#[inline(always)]
fn level_of_one<D: Derivatives>(
    derivatives: &D,
    alloc: Global,
    table: &mut LevelTable,
    number: PatternNumber,
) -> Result<LevelNumber, OutOfMemory>
    requires inside { IsInside (D.trees derivatives.now) number }
    requires kept { HoldsBy AreKept (D.basis derivatives.now) (D.trees derivatives.now) table.old }
    ensures adds { OnOk result (HoldsBy (AddsLevels table.old) (D.basis derivatives.now) (D.trees derivatives.now) table.new) }
    ensures level { IfOk result (λ n. IsLevelOf table.new n (number ∷ [])) }
{
    if let Some(level) = table.find(&[number]) {
        return Ok(level);
    }
    let numbers = SmallVec::from_slice(alloc, &[number])?;
    level_of(derivatives, alloc, table, numbers)
}

/// Returns the level of what is left of each alternative of a level after the attributes of a tag.
pub fn level_after_tag<D: Derivatives>(
    derivatives: &mut D,
    alloc: Global,
    table: &mut LevelTable,
    level: LevelNumber,
    attrs: &[Attr],
) -> Result<LevelNumber, OutOfMemory>
    requires kept { HoldsBy AreKept (D.basis derivatives.old) (D.trees derivatives.old) table.old }
    requires level { level.0 < length (levels_in table.old) }
    ensures keeps { OnOk result (Keeps (AddsLevels table.old) (D.basis derivatives.old) (D.basis derivatives.new) (D.trees derivatives.new) table.new) }
    ensures after { IfOk result (AddsAfter (IsAfterTag (reading_by (D.basis derivatives.old)) (map attribute_of attrs.now)) (D.trees derivatives.old)
        (D.trees derivatives.new) (numbers_in (levels_in table.old) level.0) table.new) }
{
    if let [body] = table.numbers(level) {
        let left = derivatives.after_tag(alloc, *body, attrs)?;
        return level_of_one(derivatives, alloc, table, left);
    }
    let numbers = entered(derivatives, alloc, table.numbers(level), attrs)?;
    let after = level_of(derivatives, alloc, table, numbers)?;
    Ok(after)
}

/// Returns the level of what is left of each alternative of a level after a string.
fn level_after_string<D: Derivatives>(
    derivatives: &mut D,
    alloc: Global,
    table: &mut LevelTable,
    level: LevelNumber,
    text: &str,
) -> Result<LevelNumber, OutOfMemory>
    requires kept { HoldsBy AreKept (D.basis derivatives.old) (D.trees derivatives.old) table.old }
    requires level { level.0 < length (levels_in table.old) }
    ensures keeps { OnOk result (Keeps (AddsLevels table.old) (D.basis derivatives.old) (D.basis derivatives.new) (D.trees derivatives.new) table.new) }
    ensures after { IfOk result (AddsAfter (IsAfterText (reading_by (D.basis derivatives.old)) text.now) (D.trees derivatives.old)
        (D.trees derivatives.new) (numbers_in (levels_in table.old) level.0) table.new) }
{
    if let [pattern] = table.numbers(level) {
        let left = derivatives.after_text(alloc, *pattern, text)?;
        return level_of_one(derivatives, alloc, table, left);
    }
    let numbers = after_string(derivatives, alloc, table.numbers(level), text)?;
    let after = level_of(derivatives, alloc, table, numbers)?;
    Ok(after)
}

/// Returns the level of what is left of each alternative of a level after a tag without attributes. It is kept.
fn level_in_bare_tag<D: Derivatives>(
    derivatives: &mut D,
    alloc: Global,
    table: &mut LevelTable,
    level: LevelNumber,
) -> Result<LevelNumber, OutOfMemory>
    requires kept { HoldsBy AreKept (D.basis derivatives.old) (D.trees derivatives.old) table.old }
    requires level { level.0 < length (levels_in table.old) }
    ensures keeps { OnOk result (Keeps (AddsLevels table.old) (D.basis derivatives.old) (D.basis derivatives.new) (D.trees derivatives.new) table.new) }
    ensures after { IfOk result (AddsAfter (IsAfterTag (reading_by (D.basis derivatives.old)) []) (D.trees derivatives.old)
        (D.trees derivatives.new) (numbers_in (levels_in table.old) level.0) table.new) }
{
    if let Some(closed) = table.closed(level) {
        return Ok(closed);
    }
    let closed = level_after_tag(derivatives, alloc, table, level, &[])?;
    table.keep_closed(level, closed)?;
    Ok(closed)
}

/// Returns the level of what is left of each alternative of a level after the attributes of a tag.
pub fn level_in_tag<D: Derivatives>(
    derivatives: &mut D,
    alloc: Global,
    table: &mut LevelTable,
    level: LevelNumber,
    attrs: &[Attr],
) -> Result<LevelNumber, OutOfMemory>
    requires kept { HoldsBy AreKept (D.basis derivatives.old) (D.trees derivatives.old) table.old }
    requires level { level.0 < length (levels_in table.old) }
    ensures keeps { OnOk result (Keeps (AddsLevels table.old) (D.basis derivatives.old) (D.basis derivatives.new) (D.trees derivatives.new) table.new) }
    ensures after { IfOk result (AddsAfter (IsAfterTag (reading_by (D.basis derivatives.old)) (map attribute_of attrs.now)) (D.trees derivatives.old)
        (D.trees derivatives.new) (numbers_in (levels_in table.old) level.0) table.new) }
{
    if attrs.is_empty() {
        return level_in_bare_tag(derivatives, alloc, table, level);
    }
    level_after_tag(derivatives, alloc, table, level, attrs)
}

/// Returns the sample string of a level. What is left after it is left after the empty string. If no alternative tests
/// strings, it is left after every string: one that is not blank is an example for all.
#[inline(always)]
fn sample(level: &Level) -> &'static str
    ensures { result.now ≡ sample_of (Some level.now) }
{
    if level.tests_strings { "" } else { "x" }
}

/// Returns whether the sample string of a level is an example for a string.
#[inline(always)]
fn is_like_sample(level: &Level, text: &str) -> bool
    ensures { result ≡ true → IsLikeSample (Some level.now) text.now }
{
    text.is_empty() || !level.tests_strings
}

/// Returns the level of what is left of each alternative of a level after its sample string. It is kept.
pub fn level_after_sample<D: Derivatives>(
    derivatives: &mut D,
    alloc: Global,
    table: &mut LevelTable,
    level: LevelNumber,
) -> Result<LevelNumber, OutOfMemory>
    requires kept { HoldsBy AreKept (D.basis derivatives.old) (D.trees derivatives.old) table.old }
    requires level { level.0 < length (levels_in table.old) }
    ensures keeps { OnOk result (Keeps (AddsLevels table.old) (D.basis derivatives.old) (D.basis derivatives.new) (D.trees derivatives.new) table.new) }
    ensures after { IfOk result (AddsAfter (IsAfterText (reading_by (D.basis derivatives.old)) (sample_in (levels_in table.old) level.0))
        (D.trees derivatives.old) (D.trees derivatives.new) (numbers_in (levels_in table.old) level.0) table.new) }
{
    if let Some(after) = table.sampled(level) {
        return Ok(after);
    }
    let text = sample(table.level(level));
    let after = level_after_string(derivatives, alloc, table, level, text)?;
    table.keep_sampled(level, after)?;
    Ok(after)
}

/// Returns the level of what is left of each alternative of a level after a string. It is kept for an empty string, and
/// for every string if no alternative tests strings.
pub fn level_after_text<D: Derivatives>(
    derivatives: &mut D,
    alloc: Global,
    table: &mut LevelTable,
    level: LevelNumber,
    text: &str,
) -> Result<LevelNumber, OutOfMemory>
    requires kept { HoldsBy AreKept (D.basis derivatives.old) (D.trees derivatives.old) table.old }
    requires level { level.0 < length (levels_in table.old) }
    ensures keeps { OnOk result (Keeps (AddsLevels table.old) (D.basis derivatives.old) (D.basis derivatives.new) (D.trees derivatives.new) table.new) }
    ensures after { IfOk result (AddsAfter (IsAfterText (reading_by (D.basis derivatives.old)) text.now) (D.trees derivatives.old)
        (D.trees derivatives.new) (numbers_in (levels_in table.old) level.0) table.new) }
{
    if is_like_sample(table.level(level), text) {
        return level_after_sample(derivatives, alloc, table, level);
    }
    level_after_string(derivatives, alloc, table, level, text)
}
