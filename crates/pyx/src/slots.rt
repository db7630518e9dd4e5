// Attributes with the same name in a tag.
ghost use Rattle.std.specs.Prelude.{◌≡◌, map, false};
ghost use Rattle.rng_model.specs.names.NameViews.{name_of};
ghost use Rattle.rng_model.specs.documents.EventViews.{attribute_of};
ghost use Rattle.pyx.specs.plain.Slots.{AreMet};
ghost use Rattle.pyx.specs.plain.TagReader.{is_named_in, is_named_twice};

use crate::namespaces::{SLOT_COUNT, mark};
use rng_model::{Attr, Name};

/// The most names that are compared in pairs, without slots.
const PAIRED_LIMIT: usize = 8;

/// Returns whether one of these attributes has this name.
#[tactic(auto, unfolding(crate::specs::plain::TagReader::is_named_in))]
fn is_named_in(name: &Name, attrs: &[Attr]) -> bool
    ensures { result ≡ is_named_in (name_of name.now) (map attribute_of attrs.now) }
{
    match attrs {
        [first, rest @ ..] => {
            (first.name.local == name.local && first.name.ns == name.ns) || is_named_in(name, rest)
        }
        [] => false,
    }
}

/// Returns whether two of these attributes have the same name. If none have, the slots of all are set. A name is
/// compared with those after it only if one of them has set its slot.
#[tactic(auto, unfolding(crate::specs::plain::TagReader::is_named_twice))]
fn is_repeated(attrs: &[Attr], slots: &mut [bool; SLOT_COUNT]) -> bool
    ensures twice { result ≡ is_named_twice (map attribute_of attrs.now) }
    ensures met { result ≡ false → AreMet slots.new (map attribute_of attrs.now) }
{
    match attrs {
        [first, rest @ ..] => {
            if is_repeated(rest, slots) {
                return true;
            }
            mark(slots, first.name.local.as_str()) && is_named_in(&first.name, rest)
        }
        [] => false,
    }
}

/// The same with slots. Only this function holds the slots, so a tag with few attributes does not clear them.
#[inline(never)]
fn is_named_twice_by_slots(attrs: &[Attr]) -> bool
    ensures { result ≡ is_named_twice (map attribute_of attrs.now) }
{
    is_repeated(attrs, &mut [false; SLOT_COUNT])
}

/// Returns whether two of these attributes have the same name.
#[tactic(auto, unfolding(crate::specs::plain::TagReader::is_named_twice))]
pub fn is_named_twice(attrs: &[Attr]) -> bool
    ensures { result ≡ is_named_twice (map attribute_of attrs.now) }
{
    if attrs.len() > PAIRED_LIMIT {
        return is_named_twice_by_slots(attrs);
    }
    match attrs {
        [first, rest @ ..] => is_named_in(&first.name, rest) || is_named_twice(rest),
        [] => false,
    }
}
