// Numbered names, and numbers of namespaces.
ghost use Rattle.std.specs.Prelude.{◌≡◌, ℕ, IfOk, List, OnOk, Option, Some, map, position, string_bytes};
ghost use Rattle.std.specs.Map.{lookup, update};
ghost use Rattle.std.specs.Str.{bytes_eq};
ghost use Rattle.rng_model.specs.names.Names as names;
ghost use Rattle.rng_model.specs.names.NameViews.{name_of, namespace_bytes};
ghost use Rattle.rng_names.specs.plain.Holding.{pair, same_name};
ghost use Rattle.rng_names.specs.plain.Regions.{Puts};
ghost use Rattle.rng_names.specs.plain.WrittenNames.{seen_numbers};

use indexmap::{IndexMap, IndexSet};
use rng_model::{Name, Namespace, OutOfMemory};
use std::alloc::Global;

/// Returns the name with copies of this namespace and this local name.
pub(crate) fn copied(alloc: Global, ns: &str, local: &str) -> Result<Name, OutOfMemory>
    ensures { IfOk result (λ name. name_of name ≡ pair ns.now local.now) }
{
    Ok(Name {
        ns: Namespace::new(alloc, ns)?,
        local: String::from_str(alloc, local)?,
    })
}

/// Returns a copy of a name, which shares its namespace. Fails only when out of memory. Costs a copy of the local name.
pub fn copy_of(alloc: Global, name: &Name) -> Result<Name, OutOfMemory>
    ensures { IfOk result (λ copy. name_of copy ≡ name_of name.now) }
{
    Ok(Name {
        ns: name.ns.share()?,
        local: String::from_str(alloc, name.local.as_str())?,
    })
}

/// Returns the name in this namespace, which it shares, with this local name.
pub(crate) fn name_in(ns: &Namespace, local: String) -> Result<Name, OutOfMemory>
    ensures { IfOk result (λ name. name_of name ≡ pair (namespace_bytes ns.now) (string_bytes local)) }
{
    Ok(Name {
        ns: ns.share()?,
        local,
    })
}

/// Returns the position of a name.
pub(crate) fn place_of(names: &IndexSet<Name>, name: &Name) -> Option<usize>
    ensures { result ≡ position (same_name (name_of name.now)) (map name_of names.now.keys) }
{
    names.get_index_of(name)
}

/// Appends a name, unless it is there. Returns its position.
pub(crate) fn put(all: &mut IndexSet<Name>, name: Name) -> Result<usize, OutOfMemory>
    ensures { IfOk result (Puts (map name_of all.old.keys) (map name_of all.new.keys) (name_of name)) }
{
    let (place, _) = all.insert_full(name)?;
    Ok(place)
}

/// Returns the number of a namespace. Does not read its text, unless one of the same hash has a number.
pub(crate) fn number_of(numbers: &IndexMap<Namespace, usize>, ns: &Namespace) -> Option<usize>
    ensures { result ≡ lookup (bytes_eq (namespace_bytes ns.now)) (seen_numbers numbers.now.entries) }
{
    numbers.get(ns).copied()
}

/// Sets the number of a namespace.
pub(crate) fn note(
    numbers: &mut IndexMap<Namespace, usize>,
    ns: Namespace,
    number: usize,
) -> Result<(), OutOfMemory>
    ensures { OnOk result ((u : List ℕ) → lookup (bytes_eq u) (seen_numbers numbers.new.entries)
        ≡ update bytes_eq (λ v. lookup (bytes_eq v) (seen_numbers numbers.old.entries)) (namespace_bytes ns) (Some number) u) }
{
    numbers.insert(ns, number)?;
    Ok(())
}
