// Buffers that are used again.
ghost use Rattle.std.specs.Prelude.{◌≡◌, [], IfOk, OnOk, string_bytes};
ghost use Rattle.rng_model.specs.names.NameViews.{namespace_bytes};
ghost use Rattle.pyx.specs.views.FoundNamespaces.{found_bytes};

use crate::namespaces::FoundNamespace;
use rng_model::{Attr, Namespace, OutOfMemory};
use std::alloc::Global;

/// The most buffers that are kept, and the most bytes that each may hold.
const COUNT_LIMIT: usize = 256;

const SIZE_LIMIT: usize = 1_024;

/// Buffers of names and values for reuse, and the namespace of the prefix `xml` once it was used. Their contents mean
/// nothing.
#[derive(Drop)]
pub struct Spares {
    texts: Vec<String>,
    xml: Namespace,
}

/// Makes this the namespace that was found. The text of a declared one is shared. Another one is copied, unless it is
/// there already.
pub fn set_namespace(
    alloc: Global,
    namespace: &mut Namespace,
    found: FoundNamespace<'_>,
) -> Result<(), OutOfMemory>
    ensures { OnOk result (namespace_bytes namespace.new ≡ found_bytes found.entry) }
{
    match found {
        FoundNamespace::Declared(declared) => *namespace = declared.share()?,
        FoundNamespace::Beforehand(uri) => {
            if namespace.as_str() != uri {
                *namespace = Namespace::new(alloc, uri)?;
            }
        }
    }
    Ok(())
}

impl Spares {
    /// Creates a value without buffers. Allocates nothing.
    pub fn new(alloc: Global) -> Self {
        Spares {
            texts: Vec::new(alloc),
            xml: Namespace::none(),
        }
    }

    /// Returns an empty text, in a spare buffer if there is one. Allocates nothing.
    #[inline(always)]
    pub fn take(&mut self, alloc: Global) -> String
        ensures { string_bytes result ≡ [] }
    {
        match self.texts.pop() {
            Some(mut text) => {
                text.clear();
                text
            }
            None => String::new(alloc),
        }
    }

    /// Returns a copy of the text, in a spare buffer if there is one.
    #[inline(always)]
    pub fn copy(&mut self, alloc: Global, text: &str) -> Result<String, OutOfMemory>
        ensures { IfOk result (λ s. string_bytes s ≡ text.now) }
    {
        let mut copy = self.take(alloc);
        copy.push_str(text)?;
        Ok(copy)
    }

    /// Returns the namespace that was found for a prefix. Its text is shared.
    pub fn namespace(
        &mut self,
        alloc: Global,
        found: FoundNamespace<'_>,
    ) -> Result<Namespace, OutOfMemory>
        ensures { IfOk result (λ n. namespace_bytes n ≡ found_bytes found.entry) }
    {
        if let FoundNamespace::Declared(declared) = found {
            return Ok(declared.share()?);
        }
        set_namespace(alloc, &mut self.xml, found)?;
        Ok(self.xml.share()?)
    }

    /// Keeps a buffer for reuse, unless it has no capacity, is too large or there are enough.
    pub fn keep(&mut self, text: String) {
        let size = text.capacity();
        if self.texts.len() < COUNT_LIMIT && 0 < size && size <= SIZE_LIMIT {
            let _ = self.texts.push(text);
        }
    }

    /// Removes all attributes and keeps their buffers.
    pub fn keep_all(&mut self, attrs: &mut Vec<Attr>)
        ensures { attrs.new.items ≡ [] }
    {
        'attributes: while let Some(attr) = attrs.pop() {
            let Attr { name, value } = attr;
            self.keep(name.local);
            self.keep(value);
        }
    }
}
