// Strings that may still turn out to be only children.
ghost use Rattle.std.specs.Prelude.{◌≡◌, ◌<◌, Some, IfOk, OnOk, false, length};
ghost use Rattle.rng_model.specs.datatypes.Texts.{is_blank};
ghost use Rattle.rng_deriv_events.specs.views.Basis.{HoldsBy, Keeps, reading_by};
ghost use Rattle.rng_deriv_events.specs.views.LevelTable.{levels_in, numbers_in, tests_in};
ghost use Rattle.rng_deriv_events.specs.views.KeptLevels.{AddsLevels, AreKept};
ghost use Rattle.rng_deriv_events.specs.views.OpenPositions.{IsHeldKept, held_string, open_string};
ghost use Rattle.rng_deriv_events.specs.views.Strings.{AddsHeld, IsHeld};

use crate::derivatives::Derivatives;
use crate::level_table::{LevelNumber, LevelTable};
use crate::numbering::{level_after_sample, level_after_text};
use rng_model::OutOfMemory;
use std::alloc::Global;

/// A string: whether it is blank, and the level after it.
#[derive(Clone, Copy)]
pub struct Held {
    pub blank: bool,
    pub after: LevelNumber,
}

/// The content of an element without child elements: the level before its string, and the string.
#[derive(Drop)]
pub struct Content {
    pub level: LevelNumber,
    pub string: Held,
}

/// Returns whether a text has only spaces, tabs and line ends.
fn is_blank(text: &str) -> bool
    ensures { result ≡ is_blank text.now }
{
    text.as_bytes()
        .iter()
        .all(|byte| matches!(*byte, b' ' | b'\t' | b'\n' | b'\r'))
}

/// Holds a string.
pub fn hold<D: Derivatives>(
    derivatives: &mut D,
    alloc: Global,
    table: &mut LevelTable,
    now: LevelNumber,
    text: &str,
) -> Result<Held, OutOfMemory>
    requires kept { HoldsBy AreKept (D.basis derivatives.old) (D.trees derivatives.old) table.old }
    requires now { now.0 < length (levels_in table.old) }
    ensures keeps { OnOk result (Keeps (AddsLevels table.old) (D.basis derivatives.old) (D.basis derivatives.new) (D.trees derivatives.new) table.new) }
    ensures inside { IfOk result (λ h. IsHeldKept table.new now (Some h)) }
    ensures held { IfOk result (λ h. AddsHeld (λ s. s ≡ text.now) (reading_by (D.basis derivatives.old)) (D.trees derivatives.old)
        (D.trees derivatives.new) (numbers_in (levels_in table.old) now.0) (held_string table.new h)) }
{
    let after = level_after_text(derivatives, alloc, table, now, text)?;
    Ok(Held {
        blank: is_blank(text),
        after,
    })
}

/// Holds a string of which only this is known: whether it is blank. No alternative tests what a string says.
pub fn hold_any<D: Derivatives>(
    derivatives: &mut D,
    alloc: Global,
    table: &mut LevelTable,
    now: LevelNumber,
    blank: bool,
) -> Result<Held, OutOfMemory>
    requires kept { HoldsBy AreKept (D.basis derivatives.old) (D.trees derivatives.old) table.old }
    requires now { now.0 < length (levels_in table.old) }
    requires any { tests_in (levels_in table.old) now.0 ≡ false }
    ensures keeps { OnOk result (Keeps (AddsLevels table.old) (D.basis derivatives.old) (D.basis derivatives.new) (D.trees derivatives.new) table.new) }
    ensures inside { IfOk result (λ h. IsHeldKept table.new now (Some h)) }
    ensures held { IfOk result (λ h. AddsHeld (λ s. is_blank s ≡ blank) (reading_by (D.basis derivatives.old)) (D.trees derivatives.old)
        (D.trees derivatives.new) (numbers_in (levels_in table.old) now.0) (held_string table.new h)) }
{
    let after = level_after_sample(derivatives, alloc, table, now)?;
    Ok(Held { blank, after })
}

/// Returns the held string, or the empty one if no string is held.
pub fn held_or_empty<D: Derivatives>(
    derivatives: &mut D,
    alloc: Global,
    table: &mut LevelTable,
    now: LevelNumber,
    string: Option<Held>,
) -> Result<Held, OutOfMemory>
    requires kept { HoldsBy AreKept (D.basis derivatives.old) (D.trees derivatives.old) table.old }
    requires now { now.0 < length (levels_in table.old) }
    requires string { IsHeldKept table.old now string }
    ensures keeps { OnOk result (Keeps (AddsLevels table.old) (D.basis derivatives.old) (D.basis derivatives.new) (D.trees derivatives.new) table.new) }
    ensures inside { IfOk result (λ h. IsHeldKept table.new now (Some h)) }
    ensures held { IfOk result (λ h. AddsHeld (IsHeld (reading_by (D.basis derivatives.old)) (D.trees derivatives.old) (numbers_in (levels_in table.old) now.0)
        (open_string table.old string)) (reading_by (D.basis derivatives.old)) (D.trees derivatives.old) (D.trees derivatives.new)
        (numbers_in (levels_in table.old) now.0) (held_string table.new h)) }
{
    match string {
        Some(string) => Ok(string),
        None => hold(derivatives, alloc, table, now, ""),
    }
}
