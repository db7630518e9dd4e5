// Names and namespaces, looked up by hashing.
ghost use Rattle.std.specs.Prelude.{◌≡◌, ◌||◌, ℕ, List, [], Option, OnOk};
ghost use Rattle.rng_names.specs.views.NameSets.{bytes_of, has, same_parts, seen};

use rng_model::OutOfMemory;
use std::alloc::Global;
use std::collections::HashSet;
use std::marker::Model;

/// A name, or all names of a namespace if there is no local name.
#[derive(Clone, Copy, PartialEq, Eq, Hash)]
struct NameOrNs<'a> {
    ns: &'a str,
    local: Option<&'a str>,
}

/// A set of names and of namespaces. Contracts see a list of both, where a namespace has no local name.
#[derive(Drop)]
pub(crate) struct NameSet<'a> {
    all: HashSet<NameOrNs<'a>>,
    /// No local name has more bytes than these.
    longest: usize,
}

impl<'a> Model for NameSet<'a> {
    ghost use Rattle.std.specs.Prelude.{ℕ, List, Option, map};
    ghost use Rattle.rng_names.specs.views.NameSets.{IsMeasured, seen_key};

    ghost Value = { List (List ℕ × Option (List ℕ)) };

    ghost view = { λ s. map seen_key s.all.keys };

    ghost invariant = { λ s. IsMeasured (map seen_key s.all.keys) s.longest };
}

impl<'a> NameSet<'a> {
    /// Returns an empty set.
    pub(crate) fn new(alloc: Global) -> Self
        ensures { result ≡ [] }
    {
        NameSet {
            all: HashSet::new(alloc),
            longest: 0,
        }
    }

    /// Inserts a name, or a namespace if there is no local name. Fails only when out of memory.
    pub(crate) fn insert(&mut self, ns: &'a str, local: Option<&'a str>) -> Result<(), OutOfMemory>
        ensures { OnOk result ((u : List ℕ) (l : Option (List ℕ)) → has self.new u l ≡ (has self.old u l || same_parts ns.now (seen local.entry) u l)) }
    {
        self.longest = self.longest.max(bytes_of(local));
        self.all.insert(NameOrNs { ns, local })?;
        Ok(())
    }

    /// Returns whether the set has the name, or the namespace if there is no local name. A local name longer than all in
    /// the set is not hashed.
    pub(crate) fn contains(&self, ns: &str, local: Option<&str>) -> bool
        ensures { result ≡ has self.now ns.now (seen local.entry) }
    {
        bytes_of(local) <= self.longest && self.all.contains(&NameOrNs { ns, local })
    }
}

/// Returns the number of bytes in a text, or 0 if there is none.
fn bytes_of(text: Option<&str>) -> usize
    ensures { result ≡ bytes_of (seen text.entry) }
{
    match text {
        Some(text) => text.len(),
        None => 0,
    }
}
