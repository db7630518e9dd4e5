// Putting a value into a map.
ghost use Rattle.std.specs.Prelude.{◌≡◌, OnOk};
ghost use Rattle.indexmap.specs.IndexMap.{insert_entry};

use indexmap::IndexMap;
use rng_model::OutOfMemory;
use std::hash::Hash;

/// Puts a value under this key, and replaces the value that is there.
pub(crate) fn put<K: Eq + Hash + Drop, V: Drop>(
    map: &mut IndexMap<K, V>,
    key: K,
    value: V,
) -> Result<(), OutOfMemory>
    ensures { OnOk result (map.new.entries ≡ insert_entry K.eq map.old.entries key value) }
{
    map.insert(key, value)?;
    Ok(())
}
