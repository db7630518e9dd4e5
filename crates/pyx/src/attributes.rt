// The attributes of a tag with their expanded names.
ghost use Rattle.std.specs.Prelude.{◌≡◌, [], map, string_bytes};
ghost use Rattle.rng_model.specs.plain.Answers.{Gives};
ghost use Rattle.rng_model.specs.names.NameViews.{name_of};
ghost use Rattle.rng_model.specs.documents.EventViews.{attribute_of};
ghost use Rattle.pyx.specs.plain.DocumentReader.{declared_in};
ghost use Rattle.pyx.specs.plain.WrittenNames.{written_of};
ghost use Rattle.pyx.specs.plain.TagReader.{attribute_name, expanded};
ghost use Rattle.pyx.specs.views.ElementView.{clause_of, resolved};
ghost use Rattle.pyx.specs.views.WrittenAttributes.{written_attribute};

use crate::fault::LineFault;
use crate::namespaces::{WrittenAttribute, cut_at};
use crate::opened::OpenElements;
use crate::spares::Spares;
use rng_model::{Attr, Name, Namespace};
use std::alloc::Global;

/// Returns the expanded name of an attribute inside the open elements. A prefix that is not declared breaks P11.
#[tactic(auto, unfolding(crate::specs::plain::TagReader::attribute_name, crate::specs::plain::WrittenNames::written_of))]
fn attribute_name(
    alloc: Global,
    elements: &OpenElements,
    spares: &mut Spares,
    name: String,
) -> Result<Name, LineFault>
    ensures { Gives clause_of name_of result (resolved (attribute_name (declared_in elements.now.opened) (written_of (string_bytes name)))) }
{
    match cut_at(b':', name.as_str()) {
        Some((prefix, local)) => match elements.namespace(Some(prefix)) {
            Some(found) => {
                let expanded = Name {
                    ns: spares.namespace(alloc, found)?,
                    local: spares.copy(alloc, local)?,
                };
                spares.keep(name);
                Ok(expanded)
            }
            None => Err(LineFault::Clause(11)),
        },
        None => Ok(Name {
            ns: Namespace::none(),
            local: name,
        }),
    }
}

/// Appends the attributes with their expanded names to an empty list.
#[inline(never)]
fn fill(
    alloc: Global,
    elements: &OpenElements,
    spares: &mut Spares,
    others: &mut Vec<WrittenAttribute>,
    attrs: &mut Vec<Attr>,
) -> Result<(), LineFault>
    requires { attrs.old.items ≡ [] }
    ensures { Gives clause_of (λ _. map attribute_of attrs.new.items) result
        (resolved (expanded (declared_in elements.now.opened) (map written_attribute others.old.items))) }
{
    'others: for attribute in others.drain(..) {
        let name = attribute_name(alloc, elements, spares, attribute.name)?;
        attrs.push(Attr {
            name,
            value: attribute.value,
        })?;
    }
    Ok(())
}

/// Replaces the list of attributes by those of the innermost element, with their expanded names.
#[inline(always)]
pub fn expand_attributes(
    alloc: Global,
    elements: &OpenElements,
    spares: &mut Spares,
    others: &mut Vec<WrittenAttribute>,
    attrs: &mut Vec<Attr>,
) -> Result<(), LineFault>
    ensures { Gives clause_of (λ _. map attribute_of attrs.new.items) result
        (resolved (expanded (declared_in elements.now.opened) (map written_attribute others.old.items))) }
{
    attrs.clear();
    if others.as_slice().is_empty() {
        return Ok(());
    }
    fill(alloc, elements, spares, others, attrs)
}
