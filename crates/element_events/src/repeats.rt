// Attributes of a tag with the same name.
ghost use Rattle.std.specs.Prelude.{◌≡◌, ◌↔◌, IfOk, map, true};
ghost use Rattle.rng_model.specs.matching.Document.{Distinct, HasNoName};
ghost use Rattle.element_events.specs.views.Told.{attribute_told, name_told};

use crate::names::{Attribute, ExpandedName};
use indexmap::IndexSet;
use rng_model::OutOfMemory;
use std::alloc::Global;

/// The most names that are compared in pairs.
const PAIRED_LIMIT: usize = 16;

fn is_same(a: ExpandedName<'_>, b: ExpandedName<'_>) -> bool
    ensures { (result ≡ true) ↔ (name_told a.entry ≡ name_told b.entry) }
{
    a.local == b.local && a.namespace == b.namespace
}

/// Returns whether no attribute has this name.
fn is_unnamed(name: ExpandedName<'_>, attributes: &[Attribute<'_>]) -> bool
    ensures { (result ≡ true) ↔ HasNoName (name_told name.entry) (map attribute_told attributes.now) }
{
    'attributes: for attribute in attributes {
        if is_same(attribute.name, name) {
            return false;
        }
    }
    true
}

/// Returns whether no two attributes have the same name. Compares each pair.
fn are_distinct_pairs(attributes: &[Attribute<'_>]) -> bool
    ensures { (result ≡ true) ↔ Distinct (map attribute_told attributes.now) }
{
    'attributes: for (i, attribute) in attributes.iter().enumerate() {
        if !is_unnamed(attribute.name, &attributes[..i]) {
            return false;
        }
    }
    true
}

/// Returns whether no two attributes have the same name. Looks up each name by hashing.
fn are_distinct_by_hash(alloc: Global, attributes: &[Attribute<'_>]) -> Result<bool, OutOfMemory>
    ensures { IfOk result (λ b. (b ≡ true) ↔ Distinct (map attribute_told attributes.now)) }
{
    let mut names = IndexSet::with_capacity(alloc, attributes.len())?;
    'attributes: for attribute in attributes {
        if !names.insert(attribute.name)? {
            return Ok(false);
        }
    }
    Ok(true)
}

/// Returns whether no two attributes have the same name.
///
/// Namespaces in XML 1.0, section 6.3. A few are compared in pairs, and more are looked up by hashing, which takes memory.
pub fn are_distinct(alloc: Global, attributes: &[Attribute<'_>]) -> Result<bool, OutOfMemory>
    ensures { IfOk result (λ b. (b ≡ true) ↔ Distinct (map attribute_told attributes.now)) }
{
    if attributes.len() <= PAIRED_LIMIT {
        return Ok(are_distinct_pairs(attributes));
    }
    are_distinct_by_hash(alloc, attributes)
}
