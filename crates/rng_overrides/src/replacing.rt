// Included components, and those that override some of them.
ghost use Rattle.std.specs.Prelude.{◌≡◌, ◌++◌, OnOk, filter, map, not};
ghost use Rattle.rnc_model.specs.loading.Places.{is_overridden};
ghost use Rattle.rng_overrides.specs.views.Gathered.{replaced_by, without_grammars};

use crate::gathered::GatheredComponent;
use crate::overriding_names::OverridingNames;
use rng_model::OutOfMemory;
use std::alloc::Global;

/// Appends the included components that are not overridden, and then the overriding ones.
///
/// A component is overridden by one of its name, a start by a start. Takes time linear in the number of components. Fails
/// only when out of memory.
///
/// RELAX NG Specification, section 4.7.
pub fn replace<G: Drop>(
    alloc: Global,
    all: &mut Vec<GatheredComponent<G>>,
    mut included: Vec<GatheredComponent<G>>,
    mut overriding: Vec<GatheredComponent<G>>,
) -> Result<(), OutOfMemory>
    ensures { OnOk result (all.new.items ≡ all.old.items ++ replaced_by included.items overriding.items) }
{
    remove_overridden(alloc, &mut included, &overriding)?;
    all.append(&mut included)?;
    all.append(&mut overriding)?;
    Ok(())
}

/// Removes the included components that are overridden. Takes time linear in the number of both.
fn remove_overridden<G: Drop>(
    alloc: Global,
    included: &mut Vec<GatheredComponent<G>>,
    overriding: &[GatheredComponent<G>],
) -> Result<(), OutOfMemory>
    ensures { OnOk result (included.new.items ≡ filter (λ g. not (is_overridden (map without_grammars overriding.now) (without_grammars g))) included.old.items) }
{
    let names = OverridingNames::of_all(alloc, overriding)?;
    included.retain(|component| !names.has(&component.component.name));
    Ok(())
}
