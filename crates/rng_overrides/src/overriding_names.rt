// The names that the components in the braces of an include have.
ghost use Rattle.std.specs.Prelude.{◌≡◌, ◌||◌, ℕ, IfOk, List, OnOk, Option, map, option_map, string_bytes};
ghost use Rattle.rng_model.specs.schema.Schema.{same_component_name};
ghost use Rattle.rnc_model.specs.loading.Places.{Gathered, is_overridden};
ghost use Rattle.rng_overrides.specs.views.Gathered.{without_grammars};
ghost use Rattle.rng_overrides.specs.views.OverridingNames.{has_name};

use crate::gathered::GatheredComponent;
use indexmap::IndexSet;
use rng_model::OutOfMemory;
use std::alloc::Global;

/// The names of the overriding components, and whether one of them is a start.
#[derive(Drop)]
pub struct OverridingNames<'a> {
    defines: IndexSet<&'a str>,
    has_start: bool,
}

impl<'a> OverridingNames<'a> {
    /// Gathers the names of these components.
    pub fn of_all<G: Drop>(
        alloc: Global,
        overriding: &'a [GatheredComponent<G>],
    ) -> Result<Self, OutOfMemory>
        ensures { IfOk result (λ names. (g : Gathered) → has_name names g.component.name ≡ is_overridden (map without_grammars overriding.now) g) }
    {
        let mut names = OverridingNames {
            defines: IndexSet::new(alloc),
            has_start: false,
        };
        for component in overriding {
            names.add(&component.component.name)?;
        }
        Ok(names)
    }

    /// Adds the name of a component, or a start if there is no name.
    fn add(&mut self, name: &'a Option<String>) -> Result<(), OutOfMemory>
        ensures { OnOk result ((y : Option (List ℕ)) → has_name self.new y ≡ (has_name self.old y || same_component_name (option_map (λ n. string_bytes n) name.now) y)) }
    {
        match name {
            Some(name) => {
                self.defines.insert(name.as_str())?;
                Ok(())
            }
            None => {
                self.has_start = true;
                Ok(())
            }
        }
    }

    /// Whether one of the components has this name, or is a start if there is no name.
    pub fn has(&self, name: &Option<String>) -> bool
        ensures { result ≡ has_name self.now (option_map (λ n. string_bytes n) name.now) }
    {
        match name {
            Some(name) => self.defines.contains(name.as_str()),
            None => self.has_start,
        }
    }
}
