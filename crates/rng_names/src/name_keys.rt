// Keys of names.
ghost use Rattle.std.specs.Prelude.{◌≡◌, ◌<◌, IfOk, length};
ghost use Rattle.rng_model.specs.names.NameViews.{name_of};
ghost use Rattle.rng_names.specs.plain.Keys.{KeysServe, key_of, name_at};

use crate::grammar_classes::{attribute_classes, element_classes};
use crate::key_tables::Tables;
use rng_model::{Name, OutOfMemory, SimpleGrammar};
use std::alloc::Global;
use std::marker::Model;

/// A key of names, from 0.
#[derive(Clone, Copy, PartialEq, Eq, PartialOrd, Ord, Hash)]
pub struct NameKey(pub usize);

/// The keys of names for a grammar, and a representative name for each key.
///
/// RELAX NG Specification, section 6.1. No name of a document is kept. Contracts see the representatives in the order of
/// their keys, the names that have places, for each namespace that is written the place of its other names, and the key of
/// each place.
#[derive(Drop)]
pub struct NameKeys {
    tables: Tables,
}

impl Model for NameKeys {
    ghost use Rattle.rng_names.specs.plain.Keys.{Keys};
    ghost use Rattle.rng_names.specs.views.KeyTables.{AreTables, keys_in};

    ghost Value = { Keys };

    ghost view = { λ k. keys_in k.tables };

    ghost invariant = { λ k. AreTables k.tables };
}

impl NameKeys {
    /// Creates the keys for the name classes of a grammar: those of its elements and those of its attributes.
    ///
    /// Fails only when out of memory. Memory is linear in the tables of the grammar and in the texts that are written
    /// in the classes. So is the cost, apart from hashing.
    pub fn of(alloc: Global, grammar: &SimpleGrammar) -> Result<Self, OutOfMemory>
        ensures { IfOk result (KeysServe grammar.now) }
    {
        let elements = element_classes(alloc, grammar)?;
        let attributes = attribute_classes(alloc, grammar)?;
        let tables = Tables::of_classes(alloc, elements.as_slice(), attributes.as_slice())?;
        Ok(NameKeys { tables })
    }

    /// Returns the key of a name. Allocates nothing. The cost is at most two look-ups by hashing.
    pub fn key(&self, name: &Name) -> NameKey
        ensures key { result.0 ≡ key_of self.now (name_of name.now) }
        ensures inside { result.0 < length self.now.names }
    {
        NameKey(self.tables.key(name))
    }

    /// Returns the representative of all names with a key, which has this key itself. Allocates nothing.
    pub fn name(&self, key: NameKey) -> &Name
        requires { key.0 < length self.now.names }
        ensures name { name_of result.now ≡ name_at self.now key.0 }
        ensures own { key_of self.now (name_of result.now) ≡ key.0 }
    {
        self.tables.name(key.0)
    }

    /// Returns the number of keys. Allocates nothing.
    pub fn len(&self) -> usize
        ensures { result ≡ length self.now.names }
    {
        self.tables.shared.leaders.len()
    }
}
