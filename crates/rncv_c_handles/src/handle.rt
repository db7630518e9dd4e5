// Handles as C has them, and what they hold.
ghost use Rattle.std.specs.Prelude.{◌≡◌, option_map};
ghost use Rattle.std.specs.declared.option.Option.{Option};
ghost use Rattle.std.specs.declared.option.Option.TheVariants.{None, Some};
ghost use Rattle.rncv_c_handles.specs.views.Handles.{handle_owns, held_coded};
ghost use Rattle.rncv_c_handles.specs.declared.handle.Held.{Held};

mod parts;

use parts::Parts;
use rncv_events::EventDocument;
use rncv_validator::{Document, Validator};
use std::alloc::Global;
use std::marker::Model;
use std::mem::replace;
use std::ptr::null_mut;

/// What a handle holds, unless it is empty.
#[derive(Drop)]
pub enum Held {
    /// A schema, with no document begun.
    Schema(Validator),
    /// A document in PYX that is begun.
    Document(Document),
    /// A document of events that is begun.
    Events(EventDocument),
}

/// A handle as C has it: a struct with one pointer, which is null if the handle holds nothing.
#[repr(C)]
pub struct Handle {
    at: *mut u8,
    alloc: Global,
    pub ghost held: { Option Held } by { held_coded },
}

impl Model for Handle {
    ghost also_owns = { λ h. handle_owns h.alloc h.at h.held };
}

// What a handle holds belongs to it alone or is an `Arc` of plain data, so C may pass it to another thread.
unsafe impl Send for Handle {}

impl Handle {
    /// Creates a handle that holds nothing. Allocates nothing.
    pub fn empty(alloc: Global) -> Handle
        ensures { result.held ≡ None }
    {
        Handle {
            at: null_mut(),
            alloc,
        }
    }

    fn of_parts(parts: Parts<Held, Global>) -> Handle
        ensures { result.held ≡ Some parts.value }
    {
        let Parts { ptr, alloc } = parts;
        Handle {
            at: ptr as *mut u8,
            alloc,
        }
    }

    fn into_parts(self) -> Option<Parts<Held, Global>>
        ensures { option_map (λ p. p.value) result ≡ self.held }
    {
        let Handle { at, alloc } = self;
        if at.is_null() {
            return None;
        }
        Some(Parts {
            ptr: at as *mut Held,
            alloc,
        })
    }

    /// Takes out what the handle holds. Then it holds nothing. Allocates nothing.
    pub fn take(&mut self, alloc: Global) -> Option<Box<Held>>
        ensures value { option_map (λ b. b.value) result ≡ self.old.held }
        ensures empty { self.new.held ≡ None }
    {
        let parts = replace(self, Handle::empty(alloc)).into_parts()?;
        Some(parts.into_box())
    }

    /// Puts a value into the handle. What it held is freed. Allocates nothing.
    #[inline(always)]
    pub fn put(&mut self, value: Box<Held>)
        ensures { self.new.held ≡ Some value.value }
    {
        *self = Handle::of_parts(Parts::of(value));
    }
}

impl Drop for Handle {
    fn drop(self) {
        if let Some(parts) = self.into_parts() {
            drop(parts.into_box());
        }
    }
}
