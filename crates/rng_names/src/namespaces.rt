// The namespaces in which a name class has names.
ghost use Rattle.std.specs.Prelude.{◌≡◌, ◌||◌, ℕ, List, IfOk, OnOk, IsTrue, true, false};
ghost use Rattle.std.specs.Str.{bytes_eq};
ghost use Rattle.rng_model.specs.names.NameViews.{class_of};
ghost use Rattle.rng_names.specs.views.Namespaces.{Covers, has_ns};

use indexmap::IndexSet;
use rng_model::{NameClass, OutOfMemory};
use std::alloc::Global;

/// A set of namespaces that has the namespace of each name of a class.
#[derive(Drop)]
pub(crate) struct Namespaces<'a> {
    /// Whether the set has every namespace.
    any: bool,
    listed: IndexSet<&'a str>,
}

impl<'a> Namespaces<'a> {
    /// Collects the namespaces of a class. Linear in its size without its excepts, apart from hashing.
    pub(crate) fn of_class(alloc: Global, class: &'a NameClass) -> Result<Self, OutOfMemory>
        ensures { IfOk result (λ all. Covers all (class_of class.now)) }
    {
        let mut all = Namespaces {
            any: false,
            listed: IndexSet::new(alloc),
        };
        all.add(class)?;
        Ok(all)
    }

    /// Adds the namespaces of a class.
    fn add(&mut self, class: &'a NameClass) -> Result<(), OutOfMemory>
        ensures kept { OnOk result ((u : List ℕ) → has_ns self.old u ≡ true → has_ns self.new u ≡ true) }
        ensures covers { OnOk result (Covers self.new (class_of class.now)) }
    {
        match class {
            NameClass::Any | NameClass::AnyExcept(_) => {
                self.any = true;
                Ok(())
            }
            NameClass::Ns(ns) | NameClass::NsExcept(ns, _) => self.add_ns(ns.as_str()),
            NameClass::Name(name) => self.add_ns(name.ns.as_str()),
            NameClass::Choice(members) => {
                'members: for member in members {
                    self.add(member)?;
                }
                Ok(())
            }
        }
    }

    /// Adds a namespace.
    fn add_ns(&mut self, ns: &'a str) -> Result<(), OutOfMemory>
        ensures { OnOk result ((u : List ℕ) → has_ns self.new u ≡ (has_ns self.old u || bytes_eq ns.now u)) }
    {
        self.listed.insert(ns)?;
        Ok(())
    }

    /// Returns whether the two sets have no namespace in common. Allocates nothing. The cost is at most one look-up by
    /// hashing for each of the others.
    pub(crate) fn are_apart(&self, others: &Namespaces) -> bool
        ensures { IsTrue result → (u : List ℕ) → has_ns self.now u ≡ true → has_ns others.now u ≡ false }
    {
        if self.any || others.any {
            return false;
        }
        for ns in others.listed.as_slice() {
            if self.listed.contains(*ns) {
                return false;
            }
        }
        true
    }
}
