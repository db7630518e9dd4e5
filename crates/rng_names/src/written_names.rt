// What is written in name classes.
ghost use Rattle.std.specs.Prelude.{◌≡◌, ◌≤◌, ℕ, IfOk, OnOk, Option, Some, map, slice_get};
ghost use Rattle.std.specs.Map.{lookup};
ghost use Rattle.std.specs.Str.{bytes_eq};
ghost use Rattle.rng_model.specs.names.Names as names;
ghost use Rattle.rng_model.specs.names.NameViews.{class_of, name_of, namespace_bytes};
ghost use Rattle.rng_names.specs.views.GrammarClasses.{seen_class};
ghost use Rattle.rng_names.specs.plain.Regions.{AddsPart, AreSorted, HasBegun, sorted_in};
ghost use Rattle.rng_names.specs.plain.WrittenNames.{Grows, Knows, written_in};

use crate::names_by_region::NamesByRegion;
use crate::texts::{copy_of, note, number_of};
use indexmap::IndexMap;
use rng_model::{Name, NameClass, Namespace, OutOfMemory};
use std::alloc::Global;

/// The names that are written in classes, and the namespaces.
#[derive(Drop)]
pub(crate) struct WrittenNames {
    /// The names, after a first one that is given.
    pub(crate) names: NamesByRegion,
    /// For each namespace the number of bytes in its longest local name, 0 if none is written.
    pub(crate) longest: IndexMap<Namespace, usize>,
}

impl WrittenNames {
    /// Creates a value with the first name and without any class.
    pub(crate) fn new(alloc: Global, first: Name) -> Result<Self, OutOfMemory>
        ensures first { IfOk result (λ all. slice_get (written_in all).names 0 ≡ Some (name_of first)) }
        ensures begun { IfOk result (λ all. HasBegun (sorted_in all.names) 0) }
    {
        Ok(WrittenNames {
            names: NamesByRegion::new(alloc, first)?,
            longest: IndexMap::new(alloc),
        })
    }

    /// Adds what is written in these classes.
    pub(crate) fn add_classes(
        &mut self,
        alloc: Global,
        classes: &[Option<&NameClass>],
    ) -> Result<(), OutOfMemory>
        ensures grows { OnOk result (Grows (written_in self.old) (written_in self.new)) }
        ensures knows { OnOk result ((k : ℕ) (c : names.NameClass) → slice_get (map seen_class classes.now) k ≡ Some (Some c) → Knows (written_in self.new) c) }
        ensures sorts { OnOk result (HasBegun (sorted_in self.old.names) 0 → AreSorted (sorted_in self.old.names) (sorted_in self.new.names) (map seen_class classes.now)) }
    {
        'classes: for class in classes {
            let Some(class) = class else {
                continue;
            };
            let region = self.names.begin(class)?;
            self.add_class(alloc, class, region)?;
        }
        Ok(())
    }

    /// Adds what is written in a class, which is a part of this region.
    fn add_class(
        &mut self,
        alloc: Global,
        class: &NameClass,
        region: usize,
    ) -> Result<(), OutOfMemory>
        ensures grows { OnOk result (Grows (written_in self.old) (written_in self.new)) }
        ensures knows { OnOk result (Knows (written_in self.new) (class_of class.now)) }
        ensures adds { OnOk result (HasBegun (sorted_in self.old.names) region
            → AddsPart region (class_of class.now) (sorted_in self.old.names) (sorted_in self.new.names)) }
    {
        match class {
            NameClass::Any => Ok(()),
            NameClass::AnyExcept(except) => {
                let region = self.names.begin(except)?;
                self.add_class(alloc, except, region)
            }
            NameClass::Ns(ns) => self.add_namespace(ns, 0),
            NameClass::NsExcept(ns, except) => {
                self.add_namespace(ns, 0)?;
                let region = self.names.begin(except)?;
                self.add_class(alloc, except, region)
            }
            NameClass::Name(name) => self.add_name(alloc, name, region),
            NameClass::Choice(members) => {
                'members: for member in members {
                    self.add_class(alloc, member, region)?;
                }
                Ok(())
            }
        }
    }

    /// Adds a name that is written in this region, and its namespace.
    // Neither this nor `add_namespace` is inlined, so that `add_class`, which calls itself as deep as a class nests, has a small
    // frame.
    #[inline(never)]
    fn add_name(&mut self, alloc: Global, name: &Name, region: usize) -> Result<(), OutOfMemory>
        ensures grows { OnOk result (Grows (written_in self.old) (written_in self.new)) }
        ensures knows { OnOk result (Knows (written_in self.new) (names.name_is (name_of name.now))) }
        ensures adds { OnOk result (HasBegun (sorted_in self.old.names) region
            → AddsPart region (names.name_is (name_of name.now)) (sorted_in self.old.names) (sorted_in self.new.names)) }
    {
        self.add_namespace(&name.ns, name.local.len())?;
        let name = copy_of(alloc, name)?;
        self.names.add(name, region)
    }

    /// Adds a namespace in which a local name of this many bytes is written.
    #[inline(never)]
    fn add_namespace(&mut self, ns: &Namespace, bytes: usize) -> Result<(), OutOfMemory>
        ensures grows { OnOk result (Grows (written_in self.old) (written_in self.new)) }
        ensures names { OnOk result (self.new.names ≡ self.old.names) }
        ensures has { OnOk result ((m : ℕ) × (lookup (bytes_eq (namespace_bytes ns.now)) (written_in self.new).longest ≡ Some m) × (bytes ≤ m)) }
    {
        if let Some(most) = number_of(&self.longest, ns) {
            if bytes <= most {
                return Ok(());
            }
        }
        note(&mut self.longest, ns.share()?, bytes)
    }
}
