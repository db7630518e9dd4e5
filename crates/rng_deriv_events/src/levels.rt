// Levels of open elements, at each event.
ghost use Rattle.std.specs.Prelude.{◌≡◌, All, IfOk, OnOk, map};
ghost use Rattle.rng_model.specs.documents.EventViews.{attribute_of};
ghost use Rattle.rng_deriv_laws.specs.plain.LevelStates.{IsAfterTag, IsAfterText};
ghost use Rattle.rng_deriv_events.specs.views.Basis.{reading_by};
ghost use Rattle.rng_deriv_events.specs.views.Numbers.{AddsEach, IsInside};

use crate::derivatives::Derivatives;
use crate::level_table::Numbers;
use rng_deriv_table::PatternNumber;
use rng_model::{Attr, OutOfMemory};
use smallvec::SmallVec;
use std::alloc::Global;

/// Returns what is left of each body after the attributes of a tag.
pub fn entered<D: Derivatives>(
    derivatives: &mut D,
    alloc: Global,
    bodies: &[PatternNumber],
    attrs: &[Attr],
) -> Result<Numbers, OutOfMemory>
    requires { All (IsInside (D.trees derivatives.old)) bodies.now }
    ensures basis { OnOk result (D.basis derivatives.new ≡ D.basis derivatives.old) }
    ensures entered { IfOk result (λ all. AddsEach (IsAfterTag (reading_by (D.basis derivatives.old)) (map attribute_of attrs.now))
        (D.trees derivatives.old) (D.trees derivatives.new) bodies.now all.items) }
{
    let mut entered = SmallVec::new(alloc);
    'bodies: for body in bodies {
        entered.push(derivatives.after_tag(alloc, *body, attrs)?)?;
    }
    Ok(entered)
}

/// Returns what is left of each pattern after a string.
pub fn after_string<D: Derivatives>(
    derivatives: &mut D,
    alloc: Global,
    patterns: &[PatternNumber],
    text: &str,
) -> Result<Numbers, OutOfMemory>
    requires { All (IsInside (D.trees derivatives.old)) patterns.now }
    ensures basis { OnOk result (D.basis derivatives.new ≡ D.basis derivatives.old) }
    ensures after { IfOk result (λ all. AddsEach (IsAfterText (reading_by (D.basis derivatives.old)) text.now)
        (D.trees derivatives.old) (D.trees derivatives.new) patterns.now all.items) }
{
    let mut after = SmallVec::new(alloc);
    'patterns: for pattern in patterns {
        after.push(derivatives.after_text(alloc, *pattern, text)?)?;
    }
    Ok(after)
}
