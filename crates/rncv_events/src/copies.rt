// Copies of names and attributes that a parser tells.
ghost use Rattle.std.specs.Prelude.{◌≡◌, IfOk, map};
ghost use Rattle.rng_model.specs.documents.EventViews.{attribute_of};
ghost use Rattle.rng_model.specs.names.NameViews.{name_of};
ghost use Rattle.element_events.specs.views.Told.{attribute_told, name_told};

use element_events::{Attribute, ExpandedName};
use rng_model::{Attr, Name, Namespace, OutOfMemory};
use std::alloc::Global;

/// Returns a copy of a name.
pub fn copied_name(alloc: Global, name: ExpandedName<'_>) -> Result<Name, OutOfMemory>
    ensures { IfOk result (λ copy. name_of copy ≡ name_told name.entry) }
{
    let local = String::from_str(alloc, name.local)?;
    let ns = Namespace::new(alloc, name.namespace)?;
    Ok(Name { ns, local })
}

/// Returns a copy of an attribute.
fn copied_attribute(alloc: Global, attribute: &Attribute<'_>) -> Result<Attr, OutOfMemory>
    ensures { IfOk result (λ copy. attribute_of copy ≡ attribute_told attribute.now) }
{
    let name = copied_name(alloc, attribute.name)?;
    let value = String::from_str(alloc, attribute.value)?;
    Ok(Attr { name, value })
}

/// Returns copies of attributes, in their order.
pub fn copied_attributes(
    alloc: Global,
    attributes: &[Attribute<'_>],
) -> Result<Vec<Attr>, OutOfMemory>
    ensures { IfOk result (λ copies. map attribute_of copies.items ≡ map attribute_told attributes.now) }
{
    let mut copies = Vec::new(alloc);
    'attributes: for attribute in attributes {
        copies.push(copied_attribute(alloc, attribute)?)?;
    }
    Ok(copies)
}
