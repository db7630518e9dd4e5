// Where the innermost declaration of each prefix is.
ghost use Rattle.std.specs.Prelude.{◌≡◌, ℕ, List, Option, Some, None, IfOk, OnOk, IsSome, if◌then◌else◌, map, reverse};
ghost use Rattle.std.specs.BTreeMap.{get_by_text};
ghost use Rattle.std.specs.Option.{option_map};
ghost use Rattle.std.specs.Str.{bytes_eq};
ghost use Rattle.pyx.specs.plain.Declarations.{same_prefix};
ghost use Rattle.pyx.specs.views.DeclarationView.{declaration_of, place_in};
ghost use Rattle.pyx.specs.plain.Held.{declarations_held};

use crate::namespaces::written::name_len;
use rng_model::{Namespace, OutOfMemory};
use std::alloc::Global;
use std::collections::BTreeMap;
use std::mem;

/// A declaration, and the place of the one that it hides.
#[derive(Drop)]
pub struct Declaration {
    /// The name of its `A` line as it is written.
    pub name: String,
    /// What it declares.
    pub namespace: Namespace,
    /// A buffer for reuse. Its content means nothing.
    pub buffer: String,
    /// The place of the innermost declaration of the same prefix around it, if there is one.
    pub hidden: Option<usize>,
}

/// For each prefix that is declared, and for the default namespace, the place of its innermost declaration.
///
/// The map is ordered: prefixes that a document chooses cannot make a look-up slow.
#[derive(Drop)]
pub struct Places {
    prefixes: BTreeMap<String, usize>,
    unprefixed: Option<usize>,
}

/// Returns the number of bytes in declarations: their names, and their values with escapes replaced.
#[tactic(auto, unfolding(crate::specs::plain::Held::declarations_held))]
pub fn declarations_len(declarations: &[Declaration]) -> u64
    ensures { result ≡ declarations_held (map declaration_of (reverse declarations.now)) }
{
    match declarations.split_last() {
        Some((last, rest)) => {
            let uri = last.namespace.as_str();
            let own = name_len(last.name.as_str()).saturating_add(uri.len() as u64);
            own.saturating_add(declarations_len(rest))
        }
        None => 0,
    }
}

/// Replaces the place of a prefix if it has one, and returns the one before.
fn replace_place(
    prefixes: &mut BTreeMap<String, usize>,
    prefix: &str,
    place: usize,
) -> Option<usize>
    ensures before { result ≡ get_by_text prefixes.old prefix.now }
    ensures set { IsSome result → (q : List ℕ) → get_by_text prefixes.new q ≡ (if bytes_eq prefix.now q then Some place else get_by_text prefixes.old q) }
    ensures same { result ≡ None → (q : List ℕ) → get_by_text prefixes.new q ≡ get_by_text prefixes.old q }
{
    match prefixes.get_mut(prefix) {
        Some(innermost) => {
            let before = *innermost;
            *innermost = place;
            Some(before)
        }
        None => None,
    }
}

/// Sets the place of a prefix, and returns the one before.
fn set_place(
    prefixes: &mut BTreeMap<String, usize>,
    alloc: Global,
    prefix: &str,
    place: usize,
) -> Result<Option<usize>, OutOfMemory>
    ensures before { IfOk result (λ hidden. hidden ≡ get_by_text prefixes.old prefix.now) }
    ensures set { OnOk result ((q : List ℕ) → get_by_text prefixes.new q ≡ (if bytes_eq prefix.now q then Some place else get_by_text prefixes.old q)) }
{
    if let Some(hidden) = replace_place(prefixes, prefix, place) {
        return Ok(Some(hidden));
    }
    let key = String::from_str(alloc, prefix)?;
    prefixes.insert(key, place)?;
    Ok(None)
}

/// Gives a prefix that has a place the place that is hidden by it, or none.
fn restore_place(prefixes: &mut BTreeMap<String, usize>, prefix: &str, hidden: Option<usize>)
    ensures { IsSome (get_by_text prefixes.old prefix.now) → (q : List ℕ) → get_by_text prefixes.new q ≡ (if bytes_eq prefix.now q then hidden else get_by_text prefixes.old q) }
{
    match hidden {
        Some(place) => {
            let _ = replace_place(prefixes, prefix, place);
        }
        None => {
            let _ = prefixes.remove(prefix);
        }
    }
}

impl Places {
    /// Creates a value without places. Allocates nothing.
    pub fn new(alloc: Global) -> Self
        ensures { (p : Option (List ℕ)) → place_in result p ≡ None }
    {
        Places {
            prefixes: BTreeMap::new(alloc),
            unprefixed: None,
        }
    }

    /// Returns the place of a prefix, or that of the default namespace.
    #[inline(always)]
    pub fn get(&self, prefix: Option<&str>) -> Option<usize>
        ensures { result ≡ place_in self.now (option_map (λ x. x.now) prefix.entry) }
    {
        match prefix {
            Some(prefix) => self.prefixes.get(prefix).copied(),
            None => self.unprefixed,
        }
    }

    /// Sets the place of a prefix, or that of the default namespace, and returns the one before.
    pub fn set(
        &mut self,
        alloc: Global,
        prefix: Option<&str>,
        place: usize,
    ) -> Result<Option<usize>, OutOfMemory>
        ensures before { IfOk result (λ hidden. hidden ≡ place_in self.old (option_map (λ x. x.now) prefix.entry)) }
        ensures set { OnOk result ((p : Option (List ℕ)) → place_in self.new p ≡ (if same_prefix (option_map (λ x. x.now) prefix.entry) p then Some place else place_in self.old p)) }
    {
        match prefix {
            Some(prefix) => set_place(&mut self.prefixes, alloc, prefix, place),
            None => Ok(mem::replace(&mut self.unprefixed, Some(place))),
        }
    }

    /// Gives a prefix that has a place, or the default namespace, the place that is hidden by it, or none.
    pub fn restore(&mut self, prefix: Option<&str>, hidden: Option<usize>)
        ensures { IsSome (place_in self.old (option_map (λ x. x.now) prefix.entry)) → (p : Option (List ℕ)) → place_in self.new p ≡ (if same_prefix (option_map (λ x. x.now) prefix.entry) p then hidden else place_in self.old p) }
    {
        match prefix {
            Some(prefix) => restore_place(&mut self.prefixes, prefix, hidden),
            None => self.unprefixed = hidden,
        }
    }

    /// Removes all places.
    pub fn clear(&mut self)
        ensures { (p : Option (List ℕ)) → place_in self.new p ≡ None }
    {
        self.prefixes.clear();
        self.unprefixed = None;
    }
}
