// The elements and the attributes of a grammar that may have a name.
ghost use Rattle.std.specs.Prelude.{◌≡◌, ℕ, IfOk, length, true};
ghost use Rattle.rng_names.specs.plain.Keys.{key_of};
ghost use Rattle.rng_model.specs.names.Names as names;
ghost use Rattle.rng_model.specs.names.NameViews.{class_of};
ghost use Rattle.rng_names.specs.plain.Holding.{holds};
ghost use Rattle.rng_deriv_table.specs.plain.Facts.{IsWithin};
ghost use Rattle.rng_deriv_ways.specs.plain.Takers.{AreAllTold, AreAttributesTold, IsTold};

use rng_deriv_table::Span;
use rng_model::{ElementId, NameClass, OutOfMemory, PatternId, Simple, SimpleGrammar};
use rng_names::{NameKey, NameKeys};
use std::alloc::Global;

/// For each key of names, the range of numbers of the elements of a grammar, or of its attributes, that may have a name
/// with the key.
#[derive(Drop)]
pub struct Takers {
    /// Those whose class is one name, by its key. Nothing is known of a key that is not here.
    by_key: Vec<Span>,
    /// Those with another class.
    others: Span,
}

impl Takers {
    /// Collects the elements of a grammar with these keys of names, by their numbers. Fails only when out of memory.
    pub fn of_elements(
        alloc: Global,
        grammar: &SimpleGrammar,
        keys: &NameKeys,
    ) -> Result<Self, OutOfMemory>
        ensures { IfOk result (AreAllTold grammar.now keys.now) }
    {
        let mut takers = Takers::none(alloc, keys)?;
        'elements: for number in 0..usize::MAX {
            let Some((class, _)) = grammar.element(ElementId(number)) else {
                return Ok(takers);
            };
            takers.add(keys, class, number);
        }
        Err(OutOfMemory)
    }

    /// Collects the attributes of a grammar with these keys of names, by their positions. Fails only when out of
    /// memory.
    pub fn of_attributes(
        alloc: Global,
        grammar: &SimpleGrammar,
        keys: &NameKeys,
    ) -> Result<Self, OutOfMemory>
        ensures { IfOk result (AreAttributesTold grammar.now keys.now) }
    {
        let mut takers = Takers::none(alloc, keys)?;
        'patterns: for position in 0..usize::MAX {
            let Some(pattern) = grammar.pattern(PatternId(position)) else {
                return Ok(takers);
            };
            let Simple::Attribute(class, _) = pattern else {
                continue;
            };
            takers.add(keys, class, position);
        }
        Err(OutOfMemory)
    }

    /// Creates a value with an empty range for each of these keys. Fails only when out of memory.
    fn none(alloc: Global, keys: &NameKeys) -> Result<Self, OutOfMemory>
        ensures { IfOk result (λ takers. length takers.by_key.items ≡ length keys.now.names) }
    {
        let mut by_key = Vec::new(alloc);
        'keys: for _ in 0..keys.len() {
            by_key.push(Span::NONE)?;
        }
        Ok(Takers {
            by_key,
            others: Span::NONE,
        })
    }

    /// Adds the element or attribute with this number, which has this class.
    fn add(&mut self, keys: &NameKeys, class: &NameClass, number: usize)
        requires { length self.old.by_key.items ≡ length keys.now.names }
        ensures count { length self.new.by_key.items ≡ length keys.now.names }
        ensures stays { (k n : ℕ) → IsTold self.old k n → IsTold self.new k n }
        ensures told { (q : names.Name) → holds (class_of class.now) q ≡ true → IsTold self.new (key_of keys.now q) number }
    {
        let own = Span::one(number);
        match class {
            NameClass::Name(name) => {
                let key = keys.key(name);
                let wider = self.by_key[key.0].joined(own);
                self.by_key[key.0] = wider;
            }
            _ => self.others = self.others.joined(own),
        }
    }

    /// Returns the range of those that may have a name with this key.
    pub fn of(&self, key: NameKey) -> Span
        ensures { (n : ℕ) → IsTold self.now key.0 n → IsWithin result n }
    {
        match self.by_key.get(key.0) {
            Some(named) => named.joined(self.others),
            None => Span::ALL,
        }
    }
}
