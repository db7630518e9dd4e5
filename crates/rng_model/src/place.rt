// Places of grammars.
ghost use Rattle.std.specs.Prelude.{◌≡◌, [], reverse, IfOk, nat_eq};
ghost use Rattle.std.proofs.Common.{rules};
ghost use Rattle.std.specs.Cmp.{on_equiv, on_per, partial_equiv_from_equiv};
ghost use Rattle.std.specs.Cmp.Lexicographic.{nat_list_eq_equiv, pointwise};
ghost use Rattle.std.specs.Cmp.Rules.{hashing};
ghost use Rattle.std.specs.Hash as fed;
ghost use Rattle.rng_model.specs.plain.PlaceHashes.{place_hash};
ghost use Rattle.rng_model.specs.views.PlaceViews.{numbers_of};
ghost use Rattle.rng_model.specs.views.SchemaView.{place_of};

use crate::fault::OutOfMemory;
use crate::place_numbers::{BASIS, HashedNumbers};
use std::alloc::Global;
use std::hash::{Hash, Hasher};
use std::sync::Arc;

/// The place of a grammar in a schema: the way to it from the main grammar, as the number of the child at each level.
///
/// Copies of a place share its numbers. To hash one does not read them.
///
/// RELAX NG Specification, sections 4.6, 4.7 and 4.18: a grammar may be nested in another, and may be in another file.
#[derive(Drop)]
pub struct Place {
    /// None at the main grammar.
    way: Option<Arc<HashedNumbers>>,
}

impl Place {
    /// Creates the place of the main grammar. Allocates nothing.
    pub fn main() -> Place
        ensures { place_of result ≡ [] }
    {
        Place { way: None }
    }

    /// Creates the place to which these numbers lead, the outermost first. Fails only when out of memory.
    pub fn from_outermost(alloc: Global, numbers: &[usize]) -> Result<Place, OutOfMemory>
        ensures { IfOk result (λ p. place_of p ≡ reverse numbers.now) }
    {
        match Arc::new(alloc, HashedNumbers::of(alloc, numbers)?) {
            Ok(way) => Ok(Place { way: Some(way) }),
            Err(_) => Err(OutOfMemory),
        }
    }

    /// Returns the numbers that lead to the place, the outermost first. Fails only when out of memory.
    pub fn to_numbers(&self, alloc: Global) -> Result<Vec<usize>, OutOfMemory>
        ensures { IfOk result (λ numbers. place_of self.now ≡ reverse numbers.items) }
    {
        match &self.way {
            Some(way) => way.numbers.to_words(alloc),
            None => Ok(Vec::new(alloc)),
        }
    }

    /// Returns the same place, whose numbers are shared. Copies and allocates nothing. Fails only where they are shared
    /// too often to be counted.
    pub fn share(&self) -> Result<Place, OutOfMemory>
        ensures { IfOk result (λ p. place_of p ≡ place_of self.now) }
    {
        match &self.way {
            Some(way) => Ok(Place {
                way: Some(Arc::try_clone(way)?),
            }),
            None => Ok(Place::main()),
        }
    }

    /// Returns the hash of the numbers, which was worked out when the place was created.
    #[tactic(auto, unfolding(crate::specs::plain::PlaceHashes::place_hash))]
    fn hash_of_numbers(&self) -> u64
        ensures { result ≡ place_hash (numbers_of self.now) }
    {
        match &self.way {
            Some(way) => way.hash,
            None => BASIS,
        }
    }
}

impl PartialEq for Place {
    ghost eq = { λ x y. pointwise nat_eq (numbers_of x) (numbers_of y) };

    ghost laws = { on_per numbers_of (partial_equiv_from_equiv nat_list_eq_equiv) };

    fn eq(&self, other: &Self) -> bool {
        match (&self.way, &other.way) {
            (Some(own), Some(others)) => own.hash == others.hash
                && own.numbers.is_same(&others.numbers),
            (None, None) => true,
            (Some(way), None) | (None, Some(way)) => way.numbers.is_empty(),
        }
    }
}

impl Eq for Place {
    ghost laws = { on_equiv numbers_of nat_list_eq_equiv };
}

impl Hash for Place {
    ghost hash_input = { λ p. fed.u64 (place_hash (numbers_of p)) };

    ghost respects_eq = { Prim.search (hashing, rules) };

    fn hash<H: Hasher>(&self, state: &mut H) {
        state.write_u64(self.hash_of_numbers());
    }
}
