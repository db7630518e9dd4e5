// Names as they are written, and `A` lines.
ghost use Rattle.std.specs.Prelude.{◌≡◌, false, map};
ghost use Rattle.std.specs.Option.{option_map};
ghost use Rattle.pyx.specs.plain.WrittenNames.{written_of};
ghost use Rattle.pyx.specs.plain.Declarations.{declared_by, is_forbidden, any_forbidden, is_written_in, is_written_twice, same_written};
ghost use Rattle.rng_model.specs.documents.PyxHeld.{name_length};
ghost use Rattle.pyx.specs.plain.NamespacesSlots.{AreAllMet};
ghost use Rattle.pyx.specs.views.WrittenAttributes.{written_attribute, written_bytes};

use crate::namespaces::cuts::cut_at;
use crate::namespaces::slots::{SLOT_COUNT, mark};

/// The namespace of declarations.
pub const XMLNS_URI: &str = "http://www.w3.org/2000/xmlns/";

/// The namespace of the prefix `xml`.
pub const XML_URI: &str = "http://www.w3.org/XML/1998/namespace";

/// The most declarations that are compared in pairs. For more it costs less to clear the slots.
const PAIRED_LIMIT: usize = 24;

/// The content of an `A` line: a name as it is written, and its value with escapes replaced.
#[derive(Drop)]
pub struct WrittenAttribute {
    pub name: String,
    pub value: String,
}

/// Returns whether two names are written in the same way.
#[tactic(auto, using(crate::proofs::Lines::WrittenNames::written_alike))]
pub fn is_same(name: &str, other: &str) -> bool
    ensures { result ≡ same_written (written_of name.now) (written_of other.now) }
{
    name == other
}

/// Returns which prefix a name declares, or that it declares the default namespace. Returns nothing if the name is an
/// attribute's.
///
/// Namespaces in XML 1.0, section 3.
#[tactic(auto, unfolding(crate::specs::plain::WrittenNames::written_of))]
pub fn declared_by(name: &str) -> Option<Option<&str>>
    ensures { option_map (λ p. option_map (λ x. x.now) p) result ≡ declared_by (written_of name.now) }
{
    match cut_at(b':', name) {
        Some((prefix, local)) => {
            if prefix == "xmlns" {
                Some(Some(local))
            } else {
                None
            }
        }
        None => { if name == "xmlns" { Some(None) } else { None } }
    }
}

/// Returns whether a declaration is not allowed.
///
/// Namespaces in XML 1.0, sections 3 and 5.
fn is_forbidden(declaration: &WrittenAttribute) -> bool
    ensures { result ≡ is_forbidden (written_attribute declaration.now) }
{
    let uri = declaration.value.as_str();
    match declared_by(declaration.name.as_str()) {
        Some(Some(prefix)) => {
            uri.is_empty()
                || uri == XMLNS_URI
                || prefix == "xmlns"
                || (if prefix == "xml" {
                    uri != XML_URI
                } else {
                    uri == XML_URI
                })
        }
        Some(None) => uri == XMLNS_URI || uri == XML_URI,
        None => false,
    }
}

/// Returns whether one of these declarations is not allowed.
#[tactic(auto, unfolding(crate::specs::plain::Declarations::any_forbidden))]
pub fn any_forbidden(declarations: &[WrittenAttribute]) -> bool
    ensures { result ≡ any_forbidden (map written_attribute declarations.now) }
{
    match declarations {
        [first, rest @ ..] => is_forbidden(first) || any_forbidden(rest),
        [] => false,
    }
}

/// Returns whether one of these has this name.
#[tactic(auto, unfolding(crate::specs::plain::Declarations::is_written_in))]
fn is_written_in(name: &str, attributes: &[WrittenAttribute]) -> bool
    ensures { result ≡ is_written_in (written_of name.now) (map written_attribute attributes.now) }
{
    match attributes {
        [first, rest @ ..] => is_same(first.name.as_str(), name) || is_written_in(name, rest),
        [] => false,
    }
}

/// Returns whether two of these have the same name. If not, it has set the slots of all. A name is compared with those
/// behind it only if one of them has set its slot.
#[tactic(auto, unfolding(crate::specs::plain::Declarations::is_written_twice))]
fn is_repeated(attributes: &[WrittenAttribute], slots: &mut [bool; SLOT_COUNT]) -> bool
    ensures twice { result ≡ is_written_twice (map written_attribute attributes.now) }
    ensures met { result ≡ false → AreAllMet slots.new (map written_bytes attributes.now) }
{
    match attributes {
        [first, rest @ ..] => {
            if is_repeated(rest, slots) {
                return true;
            }
            let name = first.name.as_str();
            mark(slots, name) && is_written_in(name, rest)
        }
        [] => false,
    }
}

/// Returns whether two of these have the same name. Only this function holds the slots, so few declarations do not clear
/// them.
#[inline(never)]
fn is_written_twice_by_slots(attributes: &[WrittenAttribute]) -> bool
    ensures { result ≡ is_written_twice (map written_attribute attributes.now) }
{
    is_repeated(attributes, &mut [false; SLOT_COUNT])
}

/// Returns whether two of these have the same name.
#[tactic(auto, unfolding(crate::specs::plain::Declarations::is_written_twice))]
pub fn is_written_twice(attributes: &[WrittenAttribute]) -> bool
    ensures { result ≡ is_written_twice (map written_attribute attributes.now) }
{
    if attributes.len() > PAIRED_LIMIT {
        return is_written_twice_by_slots(attributes);
    }
    match attributes {
        [first, rest @ ..] => is_written_in(first.name.as_str(), rest) || is_written_twice(rest),
        [] => false,
    }
}

/// Returns the number of bytes in a name.
#[tactic(auto, using(crate::proofs::Lines::WrittenNames::written_size))]
pub fn name_len(name: &str) -> u64
    ensures { result ≡ name_length (written_of name.now) }
{
    name.len() as u64
}
