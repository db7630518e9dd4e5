// The tag that is handed out.
ghost use Rattle.std.specs.Prelude.{◌≡◌, map, IfOk, None, OnOk, true};
ghost use Rattle.rng_model.specs.names.NameViews.{name_of};
ghost use Rattle.rng_model.specs.documents.EventViews.{event_kind_of};
ghost use Rattle.rng_model.specs.documents.PyxTrees.{a_start};
ghost use Rattle.rng_model.specs.documents.Telling.{is_good_name};
ghost use Rattle.element_events.specs.views.Known.{attributes_in, tag_name};
ghost use Rattle.element_events.specs.views.Told.{attribute_told, name_told};

use crate::attributes::Attributes;
use crate::characters::is_good_name;
use crate::known::{KnownNames, is_short};
use crate::names::{Attribute, ExpandedName};
use crate::namespaces::Namespaces;
use crate::spares::Spares;
use rng_model::{EventKind, Name, Namespace, OutOfMemory};
use std::alloc::Global;

/// The name and the attributes of the last tag, and names and buffers for the next one.
#[derive(Drop)]
pub struct Tag {
    /// The place of the name among those that are known. If there is none, the name is the tag's own.
    place: Option<usize>,
    own: Name,
    attrs: Attributes,
    spares: Spares,
    namespaces: Namespaces,
    known: KnownNames,
}

impl Tag {
    /// Creates a value without attributes. Allocates nothing.
    pub fn new(alloc: Global) -> Self {
        Tag {
            place: None,
            own: Name {
                ns: Namespace::none(),
                local: String::new(alloc),
            },
            attrs: Attributes::new(alloc),
            spares: Spares::new(alloc),
            namespaces: Namespaces::new(alloc),
            known: KnownNames::new(alloc),
        }
    }

    /// Returns the start of an element that has this tag.
    pub fn start(&self) -> EventKind<'_>
        ensures { event_kind_of result ≡ a_start (tag_name self.now) (attributes_in self.now.attrs) }
    {
        EventKind::Start {
            name: self.known.name_or(self.place, &self.own),
            attrs: self.attrs.as_slice(),
        }
    }

    /// Replaces the name of the element by a copy of this one.
    fn set_own_name(&mut self, alloc: Global, name: ExpandedName<'_>) -> Result<(), OutOfMemory>
        ensures place { self.new.place ≡ None }
        ensures name { OnOk result (name_of self.new.own ≡ name_told name.entry) }
    {
        self.place = None;
        if self.own.ns.as_str() != name.namespace {
            self.own.ns = self.namespaces.namespace(alloc, name.namespace)?;
        }
        self.own.local.clear();
        self.own.local.push_str(name.local)?;
        Ok(())
    }

    /// Returns a copy of a name.
    fn copied(&mut self, alloc: Global, name: ExpandedName<'_>) -> Result<Name, OutOfMemory>
        ensures copy { IfOk result (λ copy. name_of copy ≡ name_told name.entry) }
    {
        Ok(Name {
            ns: self.namespaces.namespace(alloc, name.namespace)?,
            local: self.spares.copy(alloc, name.local)?,
        })
    }

    /// Keeps a copy of a good name for reuse, unless it is too long. The name of the element is lost.
    fn learn(&mut self, alloc: Global, name: ExpandedName<'_>) -> Result<(), OutOfMemory>
        requires { is_good_name (name_told name) ≡ true }
    {
        if !is_short(name) {
            return Ok(());
        }
        let copy = self.copied(alloc, name)?;
        if let Some(replaced) = self.known.keep(name, copy)? {
            self.spares.keep(replaced.local);
        }
        Ok(())
    }

    /// Replaces the name of the element if the name is good, and returns whether it is. A name that was told lately is
    /// neither checked nor copied.
    pub fn set_name(&mut self, alloc: Global, name: ExpandedName<'_>) -> Result<bool, OutOfMemory>
        ensures good { IfOk result (λ good. good ≡ is_good_name (name_told name.entry)) }
        ensures name { IfOk result (λ good. good ≡ true → tag_name self.new ≡ name_told name.entry) }
    {
        if let Some(place) = self.known.find(name) {
            self.place = Some(place);
            return Ok(true);
        }
        if !is_good_name(name) {
            return Ok(false);
        }
        self.learn(alloc, name)?;
        self.set_own_name(alloc, name)?;
        Ok(true)
    }

    /// Replaces the attributes by copies of these. If their names and values are short, and their namespaces were told
    /// lately, it takes no memory once there are buffers.
    pub fn set_attributes(
        &mut self,
        alloc: Global,
        attributes: &[Attribute<'_>],
    ) -> Result<(), OutOfMemory>
        ensures name { tag_name self.new ≡ tag_name self.old }
        ensures attributes { OnOk result (attributes_in self.new.attrs ≡ map attribute_told attributes.now) }
    {
        self.attrs.set(alloc, &mut self.namespaces, attributes)
    }
}
