// What is left of patterns after a tag is closed, kept for later.
ghost use Rattle.std.specs.Prelude.{◌≡◌, ◌⊎◌, OnOk};
ghost use Rattle.rng_deriv_table.specs.declared.pattern.PatternNumber.{PatternNumber};
ghost use Rattle.rng_deriv_ways.specs.views.KnownRests.{HasRest};

use rng_deriv_table::PatternNumber;
use rng_model::OutOfMemory;
use std::collections::HashMap;

/// What is left of patterns after the attributes of a tag are taken, as far as it is known.
pub type KnownRests = HashMap<PatternNumber, PatternNumber>;

/// Keeps what is left of a pattern. Fails only when out of memory.
pub fn keep_rest(
    known: &mut KnownRests,
    number: PatternNumber,
    rest: PatternNumber,
) -> Result<(), OutOfMemory>
    ensures { OnOk result ((n r : PatternNumber) → HasRest known.new n r → HasRest known.old n r ⊎ ((n ≡ number) × (r ≡ rest))) }
{
    known.insert(number, rest)?;
    Ok(())
}
