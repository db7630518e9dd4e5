// The text of a name class, written part by part.
//
// A list of names nests as deep as it is long (RELAX NG Specification, section 4.12), so no function calls itself.
ghost use Rattle.std.specs.Prelude.{◌≡◌, ◌<◌, ◌+◌, ◌++◌, OnOk, codes, flat_map, map, string_bytes};
ghost use Rattle.rng_model.specs.names.Names as names;
ghost use Rattle.rng_model.specs.names.Names.{some_of};
ghost use Rattle.rng_model.specs.names.NameViews.{class_of, name_of, namespace_bytes};
ghost use Rattle.expected_text.specs.ExpectationText.{in_braces};
ghost use Rattle.expected_text.specs.plain.Parts.{back, class_weight, front, left_text, left_weight, members_weight, part_text, part_weight, text_at};
ghost use Rattle.expected_text.specs.declared.parts.Place.TheVariants as places;

use crate::fields::{write_field, write_uri};
use crate::parts::{Part, Place};
use rng_model::{Name, NameClass, Namespace, OutOfMemory};
use std::alloc::Global;

/// Writes the class at its place, or each member of a choice.
pub(crate) fn write_at(
    alloc: Global,
    place: Place,
    class: &NameClass,
    text: &mut String,
) -> Result<(), OutOfMemory>
    ensures { OnOk result (string_bytes text.new ≡ string_bytes text.old ++ text_at place (class_of class.now)) }
{
    let mut left = Vec::new(alloc);
    left.push(Part::Class(place, class))?;
    'parts: while let Some(part) = left.pop() {
        write_part(part, &mut left, text)?;
    }
    Ok(())
}

/// Writes a part, or the front of it, and puts what is left of it behind what is still to be written.
fn write_part<'a>(
    part: Part<'a>,
    left: &mut Vec<Part<'a>>,
    text: &mut String,
) -> Result<(), OutOfMemory>
    ensures text { OnOk result (string_bytes text.new ++ left_text left.new.items
        ≡ string_bytes text.old ++ (part_text part.entry ++ left_text left.old.items)) }
    ensures less { OnOk result (left_weight left.new.items < left_weight left.old.items + part_weight part.entry) }
{
    match part {
        Part::Class(place, class) => write_class(place, class, left, text),
        Part::Members(place, members) => put_members(place, members, left),
        Part::Words(words) => Ok(text.push_str(words)?),
    }
}

/// Writes a class at its place, and puts what is left of it if it is a choice or has an except.
fn write_class<'a>(
    place: Place,
    class: &'a NameClass,
    left: &mut Vec<Part<'a>>,
    text: &mut String,
) -> Result<(), OutOfMemory>
    ensures text { OnOk result (string_bytes text.new ++ left_text left.new.items
        ≡ string_bytes text.old ++ (text_at place (class_of class.now) ++ left_text left.old.items)) }
    ensures less { OnOk result (left_weight left.new.items < left_weight left.old.items + class_weight class.now) }
{
    match class {
        NameClass::Any => {
            write_every(place, text)?;
            Ok(text.push_str(place.back())?)
        }
        NameClass::AnyExcept(except) => {
            write_every(place, text)?;
            put_except(place, except, left, text)
        }
        NameClass::Ns(ns) => {
            write_namespace(place, ns, text)?;
            Ok(text.push_str(place.back())?)
        }
        NameClass::NsExcept(ns, except) => {
            write_namespace(place, ns, text)?;
            put_except(place, except, left, text)
        }
        NameClass::Name(name) => write_name(place, name, text),
        NameClass::Choice(members) => put_choice(place, members.as_slice(), left, text),
    }
}

/// Writes every name, without what is behind it at its place.
fn write_every(place: Place, text: &mut String) -> Result<(), OutOfMemory>
    ensures { OnOk result (string_bytes text.new ≡ string_bytes text.old ++ (front place ++ codes "*")) }
{
    text.push_str(place.front())?;
    Ok(text.push_str("*")?)
}

/// Writes every name of a namespace, without what is behind it at its place.
fn write_namespace(place: Place, ns: &Namespace, text: &mut String) -> Result<(), OutOfMemory>
    ensures { OnOk result (string_bytes text.new ≡ string_bytes text.old ++ (front place ++ (in_braces (namespace_bytes ns.now) ++ codes "*"))) }
{
    text.push_str(place.front())?;
    write_uri(ns.as_str(), text)?;
    Ok(text.push_str("*")?)
}

/// Writes a name at its place.
fn write_name(place: Place, name: &Name, text: &mut String) -> Result<(), OutOfMemory>
    ensures { OnOk result (string_bytes text.new ≡ string_bytes text.old ++ text_at place (names.name_is (name_of name.now))) }
{
    text.push_str(place.front())?;
    write_uri(name.ns.as_str(), text)?;
    write_field(name.local.as_str(), text)?;
    Ok(text.push_str(place.back())?)
}

/// Begins an except behind a class, and puts what is left of it.
fn put_except<'a>(
    place: Place,
    except: &'a NameClass,
    left: &mut Vec<Part<'a>>,
    text: &mut String,
) -> Result<(), OutOfMemory>
    ensures text { OnOk result (string_bytes text.new ++ left_text left.new.items
        ≡ string_bytes text.old ++ (codes " except ( " ++ (text_at places.Except (class_of except.now) ++ (codes ")" ++ (back place ++ left_text left.old.items))))) }
    ensures less { OnOk result (left_weight left.new.items ≡ left_weight left.old.items + (class_weight except.now + 2)) }
{
    text.push_str(" except ( ")?;
    left.push(Part::Words(place.back()))?;
    left.push(Part::Words(")"))?;
    Ok(left.push(Part::Class(Place::Except, except))?)
}

/// Puts the members of a choice. A choice of none is every name except every name.
fn put_choice<'a>(
    place: Place,
    members: &'a [NameClass],
    left: &mut Vec<Part<'a>>,
    text: &mut String,
) -> Result<(), OutOfMemory>
    ensures text { OnOk result (string_bytes text.new ++ left_text left.new.items
        ≡ string_bytes text.old ++ (text_at place (some_of (map class_of members.now)) ++ left_text left.old.items)) }
    ensures less { OnOk result (left_weight left.new.items < left_weight left.old.items + (members_weight (map class_weight members.now) + 2)) }
{
    if !members.is_empty() {
        return Ok(left.push(Part::Members(place, members))?);
    }
    write_every(place, text)?;
    text.push_str(" except ( * )")?;
    Ok(text.push_str(place.back())?)
}

/// Puts the first of the classes behind the others.
fn put_members<'a>(
    place: Place,
    members: &'a [NameClass],
    left: &mut Vec<Part<'a>>,
) -> Result<(), OutOfMemory>
    ensures text { OnOk result (left_text left.new.items ≡ flat_map (λ c. text_at place (class_of c)) members.now ++ left_text left.old.items) }
    ensures less { OnOk result (left_weight left.new.items < left_weight left.old.items + (members_weight (map class_weight members.now) + 1)) }
{
    let [first, rest @ ..] = members else {
        return Ok(());
    };
    left.push(Part::Members(place, rest))?;
    Ok(left.push(Part::Class(place, first))?)
}
