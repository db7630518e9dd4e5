// The attributes that are handed out.
ghost use Rattle.std.specs.Prelude.{◌≡◌, ◌≤◌, length, map, take, OnOk, string_bytes};
ghost use Rattle.rng_model.specs.documents.EventViews.{attribute_of};
ghost use Rattle.element_events.specs.views.Known.{attributes_in};
ghost use Rattle.element_events.specs.views.Told.{attribute_told, name_told};
ghost use Rattle.rng_model.specs.names.NameViews.{name_of};

use crate::good_name::is_same;
use crate::names::{Attribute, ExpandedName};
use crate::namespaces::Namespaces;
use rng_model::{Attr, Name, Namespace, OutOfMemory};
use std::alloc::Global;

/// The most attributes whose buffers are kept, and the most bytes that each text may have.
const COUNT_LIMIT: usize = 64;

const SIZE_LIMIT: usize = 1_024;

/// Attributes in buffers that are used again. A tag that has the names of the one before takes only its values.
#[derive(Drop)]
pub struct Attributes {
    /// The attributes, and behind them others, whose contents mean nothing.
    slots: Vec<Attr>,
    count: usize,
    /// Whether the buffers are too many or too large to be kept.
    is_large: bool,
}

/// Returns the first items, or all if there are fewer.
fn front(slots: &[Attr], count: usize) -> &[Attr]
    ensures { result.now ≡ take count slots.now }
{
    match slots.get(..count) {
        Some(front) => front,
        None => slots,
    }
}

/// Replaces a text by a copy of this one.
fn copy_to(to: &mut String, text: &str) -> Result<(), OutOfMemory>
    ensures { OnOk result (string_bytes to.new ≡ text.now) }
{
    to.clear();
    to.push_str(text)?;
    Ok(())
}

/// Replaces a name by a copy of this one, unless it is the same.
fn copy_name(
    alloc: Global,
    namespaces: &mut Namespaces,
    to: &mut Name,
    name: ExpandedName<'_>,
) -> Result<(), OutOfMemory>
    ensures { OnOk result (name_of to.new ≡ name_told name.entry) }
{
    if !is_same(to.ns.as_str(), name.namespace) {
        to.ns = namespaces.namespace(alloc, name.namespace)?;
    }
    if to.local.as_str() != name.local {
        copy_to(&mut to.local, name.local)?;
    }
    Ok(())
}

/// Replaces an attribute by a copy of this one.
fn copy_attribute(
    alloc: Global,
    namespaces: &mut Namespaces,
    to: &mut Attr,
    attribute: Attribute<'_>,
) -> Result<(), OutOfMemory>
    ensures { OnOk result (attribute_of to.new ≡ attribute_told attribute.entry) }
{
    copy_name(alloc, namespaces, &mut to.name, attribute.name)?;
    copy_to(&mut to.value, attribute.value)
}

/// Adds empty attributes until there are so many.
fn grow(alloc: Global, slots: &mut Vec<Attr>, count: usize) -> Result<(), OutOfMemory>
    ensures { OnOk result (count ≤ length slots.new.items) }
{
    'slots: while slots.len() < count {
        slots.push(Attr {
            name: Name {
                ns: Namespace::none(),
                local: String::new(alloc),
            },
            value: String::new(alloc),
        })?;
    }
    Ok(())
}

/// Replaces the first attributes by copies of these.
fn fill(
    alloc: Global,
    namespaces: &mut Namespaces,
    slots: &mut Vec<Attr>,
    attributes: &[Attribute<'_>],
) -> Result<(), OutOfMemory>
    requires { length attributes.now ≤ length slots.old.items }
    ensures { OnOk result (map attribute_of (take (length attributes.now) slots.new.items) ≡ map attribute_told attributes.now) }
{
    'attributes: for (place, attribute) in attributes.iter().enumerate() {
        copy_attribute(alloc, namespaces, &mut slots[place], *attribute)?;
    }
    Ok(())
}

/// Returns whether these attributes are too many or too large for their buffers to be kept. The limit is a power of two, so
/// the sizes are below it if all of them together are, bit by bit.
fn are_large(attributes: &[Attribute<'_>]) -> bool {
    let mut sizes = 0;
    'attributes: for attribute in attributes {
        let name = attribute.name;
        sizes |= name.namespace.len() | name.local.len() | attribute.value.len();
    }
    attributes.len() > COUNT_LIMIT || sizes >= SIZE_LIMIT
}

impl Attributes {
    /// Creates a value without attributes. Allocates nothing.
    pub fn new(alloc: Global) -> Self {
        Attributes {
            slots: Vec::new(alloc),
            count: 0,
            is_large: false,
        }
    }

    /// Returns the attributes.
    pub fn as_slice(&self) -> &[Attr]
        ensures { map attribute_of result.now ≡ attributes_in self.now }
    {
        front(self.slots.as_slice(), self.count)
    }

    /// Replaces the attributes by copies of these. If their names and values are short, and their namespaces were told
    /// lately, it takes no memory once there are buffers.
    pub fn set(
        &mut self,
        alloc: Global,
        namespaces: &mut Namespaces,
        attributes: &[Attribute<'_>],
    ) -> Result<(), OutOfMemory>
        ensures { OnOk result (attributes_in self.new ≡ map attribute_told attributes.now) }
    {
        if self.is_large {
            self.slots.clear();
        }
        self.count = attributes.len();
        self.is_large = are_large(attributes);
        grow(alloc, &mut self.slots, attributes.len())?;
        fill(alloc, namespaces, &mut self.slots, attributes)
    }
}
