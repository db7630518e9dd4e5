// What the matcher computes from patterns.
ghost use Rattle.std.specs.Prelude.{◌≡◌, ◌↔◌, ◌<◌, ℕ, List, [], All, IfOk, OnOk, length, map, true};
ghost use Rattle.rng_model.specs.matching.Document.{Item};
ghost use Rattle.rng_deriv_laws.specs.plain.Taking.{Takes};
ghost use Rattle.rng_model.specs.simple.Tree.{Simple};
ghost use Rattle.rng_model.specs.documents.EventViews.{attribute_of};
ghost use Rattle.rng_model.specs.names.Names as names;
ghost use Rattle.rng_model.specs.names.NameViews.{name_of};
ghost use Rattle.rng_names.specs.plain.Keys.{key_of};
ghost use Rattle.rng_deriv_laws.specs.plain.Derivatives as tree;
ghost use Rattle.rng_deriv_laws.specs.plain.LevelStates.{IsAfterTag, IsAfterText};
ghost use Rattle.rng_deriv_events.specs.views.Basis.{Basis, reading_by};
ghost use Rattle.rng_deriv_events.specs.views.Numbers.{Adds, AddsStarts, AreRenewed, IsChoiceOf, IsInside, Longer, tree_of};

use crate::lists::Ways;
use rng_deriv_table::PatternNumber;
use rng_model::{Attr, Name, OutOfMemory};
use rng_names::NameKey;
use std::alloc::Global;

/// A way to begin with an element: its body, and the pattern of what may follow the element.
#[derive(Clone, Copy)]
pub struct StartWay {
    pub body: PatternNumber,
    pub rest: PatternNumber,
}

/// The way from the first pattern of a table to itself. It represents no way.
impl Default for StartWay {
    fn default() -> Self {
        StartWay {
            body: PatternNumber(0),
            rest: PatternNumber(0),
        }
    }
}

/// Patterns by number, and what is left of them after an item, for a grammar that obeys the restrictions.
///
/// RELAX NG Specification, sections 6.2 and 7. Arguments are patterns that obey the restrictions, and so are results.
/// After a call runs out of memory, nothing is known of the table.
pub trait Derivatives {
    /// The tables of the grammar, and the keys of names.
    ghost basis: { Self → Basis };

    /// The trees of the patterns, by number.
    ghost trees: { Self → List (Simple ℕ) };

    /// Returns the pattern that the root must match. Fails only if an earlier call ran out of memory.
    fn start(&self) -> Result<PatternNumber, OutOfMemory>
        ensures inside { IfOk result (IsInside (trees self.now)) }
        ensures start { IfOk result (λ n. (ns : List Item) → Takes (reading_by (basis self.now)) (tree_of (trees self.now) n) [] ns
            ↔ Takes (reading_by (basis self.now)) (reading_by (basis self.now)).grammar.start [] ns) };

    /// Returns whether the pattern needs no attribute and no item.
    fn is_nullable(&self, pattern: PatternNumber) -> bool
        requires { IsInside (trees self.now) pattern }
        ensures { result ≡ tree.is_nullable (tree_of (trees self.now) pattern) };

    /// Returns whether the pattern is notAllowed.
    fn is_not_allowed(&self, pattern: PatternNumber) -> bool
        requires { IsInside (trees self.now) pattern }
        ensures { result ≡ tree.is_not_allowed (tree_of (trees self.now) pattern) };

    /// Returns whether the pattern contains a data, a value or a list, outside its attributes. If it has none, each string
    /// leaves the same of it.
    fn tests_strings(&self, pattern: PatternNumber) -> bool
        requires { IsInside (trees self.now) pattern }
        ensures { result ≡ tree.has_data (tree_of (trees self.now) pattern) };

    /// Returns a choice of the members. A choice of none takes nothing. Fails only when out of memory.
    fn choice(
        &mut self,
        alloc: Global,
        members: &[PatternNumber],
    ) -> Result<PatternNumber, OutOfMemory>
        requires { All (IsInside (trees self.old)) members.now }
        ensures basis { OnOk result (basis self.new ≡ basis self.old) }
        ensures choice { IfOk result (Adds (IsChoiceOf (reading_by (basis self.old)) (trees self.old) members.now) (trees self.old) (trees self.new)) };

    /// Returns what is left of the pattern after a string. Fails only when out of memory.
    fn after_text(
        &mut self,
        alloc: Global,
        pattern: PatternNumber,
        text: &str,
    ) -> Result<PatternNumber, OutOfMemory>
        requires { IsInside (trees self.old) pattern }
        ensures basis { OnOk result (basis self.new ≡ basis self.old) }
        ensures after { IfOk result
            (Adds (IsAfterText (reading_by (basis self.old)) text.now (tree_of (trees self.old) pattern)) (trees self.old) (trees self.new)) };

    /// Returns what is left of the body of an element after the attributes of its tag. Fails only when out of memory.
    fn after_tag(
        &mut self,
        alloc: Global,
        body: PatternNumber,
        attrs: &[Attr],
    ) -> Result<PatternNumber, OutOfMemory>
        requires { IsInside (trees self.old) body }
        ensures basis { OnOk result (basis self.new ≡ basis self.old) }
        ensures after { IfOk result
            (Adds (IsAfterTag (reading_by (basis self.old)) (map attribute_of attrs.now) (tree_of (trees self.old) body)) (trees self.old) (trees self.new)) };

    /// Returns the key of a name. What is left of a pattern after a start depends on the key alone. Allocates nothing.
    fn key(&self, name: &Name) -> NameKey
        ensures key { key_of (basis self.now).keys (name_of name.now) ≡ result.0 }
        ensures inside { result.0 < length (basis self.now).keys.names };

    /// Returns whether the name is the representative of the key. Then it has the key. Allocates nothing.
    fn is_key(&self, key: NameKey, name: &Name) -> bool
        ensures { result ≡ true → key_of (basis self.now).keys (name_of name.now) ≡ key.0 };

    /// Returns the ways of the pattern to begin with an element whose name has this key. They are the same for
    /// each such name. Fails only when out of memory.
    fn starts(
        &mut self,
        alloc: Global,
        pattern: PatternNumber,
        key: NameKey,
    ) -> Result<Ways, OutOfMemory>
        requires inside { IsInside (trees self.old) pattern }
        requires key { key.0 < length (basis self.old).keys.names }
        ensures basis { OnOk result (basis self.new ≡ basis self.old) }
        ensures longer { OnOk result (Longer (trees self.old) (trees self.new)) }
        ensures starts { IfOk result (λ ways. (q : names.Name) → key_of (basis self.old).keys q ≡ key.0
            → AddsStarts (reading_by (basis self.old)) q (trees self.old) (trees self.new) (tree_of (trees self.old) pattern) ways.items) };

    /// Returns whether there are so many patterns that the ones that nobody holds should be freed. Allocates nothing.
    ///
    /// The matcher calls this after each event, and renews if the result is true, or if it keeps too much itself. If it
    /// stays true after a renewal, each event renews.
    fn is_crowded(&self) -> bool;

    /// Returns the new numbers of these patterns, in the same order. All other numbers become invalid. If `is_crowded`,
    /// frees all patterns except these and their parts. Fails only when out of memory.
    fn renew(
        &mut self,
        alloc: Global,
        held: &[PatternNumber],
    ) -> Result<Vec<PatternNumber>, OutOfMemory>
        requires { All (IsInside (trees self.old)) held.now }
        ensures basis { OnOk result (basis self.new ≡ basis self.old) }
        ensures kept { IfOk result (λ numbers. AreRenewed (trees self.old) (trees self.new) held.now numbers.items) };
}
