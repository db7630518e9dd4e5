// The lines of what a tag may have.
ghost use Rattle.std.specs.Prelude.{◌≡◌, ◌++◌, IfOk, OnOk, flat_map, map, string_bytes};
ghost use Rattle.rng_model.specs.names.NameViews.{class_of, name_of};
ghost use Rattle.rng_expected.specs.views.Next.{tag_of};
ghost use Rattle.expected_text.specs.ExpectationText.{attribute_lines, required_line, tag_text};

use crate::class_parts::write_at;
use crate::fields::{write_field, write_uri};
use crate::parts::Place;
use rng_expected::ExpectedTag;
use rng_model::{Name, NameClass, OutOfMemory};
use std::alloc::Global;

/// Returns the text of what the tag of an element may have: lines, each ended by a line feed, of fields with a space
/// between.
///
/// First there is `attribute CLASS` for each class, or for each member if it is a choice, and then `required {URI}local` for
/// each name that the tag must have. Classes, URIs and names are written as in `expected_text`.
///
/// RELAX NG Specification, section 6.2.8. Fails only when out of memory. Time and memory are linear in the text.
pub fn tag_text(alloc: Global, tag: &ExpectedTag<'_>) -> Result<String, OutOfMemory>
    ensures { IfOk result (λ text. string_bytes text ≡ tag_text (tag_of tag.now)) }
{
    let mut text = String::new(alloc);
    write_attributes(alloc, tag.attributes.as_slice(), &mut text)?;
    write_required(tag.required.as_slice(), &mut text)?;
    Ok(text)
}

/// Writes the lines of the attributes.
fn write_attributes(
    alloc: Global,
    attributes: &[&NameClass],
    text: &mut String,
) -> Result<(), OutOfMemory>
    ensures { OnOk result (string_bytes text.new ≡ string_bytes text.old ++ flat_map attribute_lines (map (λ c. class_of c.now) attributes.now)) }
{
    'attributes: for class in attributes {
        write_at(alloc, Place::Attribute, class, text)?;
    }
    Ok(())
}

/// Writes the lines of the names that a tag must have.
fn write_required(names: &[&Name], text: &mut String) -> Result<(), OutOfMemory>
    ensures { OnOk result (string_bytes text.new ≡ string_bytes text.old ++ flat_map required_line (map (λ n. name_of n.now) names.now)) }
{
    'names: for name in names {
        write_name(name, text)?;
    }
    Ok(())
}

/// Writes the line of a name that a tag must have.
fn write_name(name: &Name, text: &mut String) -> Result<(), OutOfMemory>
    ensures { OnOk result (string_bytes text.new ≡ string_bytes text.old ++ required_line (name_of name.now)) }
{
    text.push_str("required ")?;
    write_uri(name.ns.as_str(), text)?;
    write_field(name.local.as_str(), text)?;
    Ok(text.push_str("\n")?)
}
