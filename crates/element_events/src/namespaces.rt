// Namespaces that were told lately.
ghost use Rattle.std.specs.Prelude.{◌≡◌, IfOk, IfSome};
ghost use Rattle.rng_model.specs.names.NameViews.{namespace_bytes};

use rng_model::{Namespace, OutOfMemory};
use std::alloc::Global;

/// The most namespaces that are kept, and the most bytes that each may have.
const COUNT_LIMIT: usize = 16;

const SIZE_LIMIT: usize = 1_024;

/// Namespaces for reuse, so that their texts are shared.
#[derive(Drop)]
pub struct Namespaces {
    kept: Vec<Namespace>,
    /// The place of the one that is replaced next.
    next: usize,
}

/// Returns the one of these namespaces that has this text.
fn find<'a>(kept: &'a [Namespace], text: &str) -> Option<&'a Namespace>
    ensures { IfSome result (λ n. namespace_bytes n.now ≡ text.now) }
{
    'kept: for namespace in kept {
        if namespace.as_str() == text {
            return Some(namespace);
        }
    }
    None
}

impl Namespaces {
    /// Creates a value without namespaces. Allocates nothing.
    pub fn new(alloc: Global) -> Self {
        Namespaces {
            kept: Vec::new(alloc),
            next: 0,
        }
    }

    /// Keeps a namespace for reuse, unless its text is too long. It replaces the one that was kept first.
    fn keep(&mut self, namespace: Namespace) {
        if namespace.as_str().len() > SIZE_LIMIT {
            return;
        }
        if self.kept.len() < COUNT_LIMIT {
            let _ = self.kept.push(namespace);
            return;
        }
        let at = self.next % COUNT_LIMIT;
        self.next = at + 1;
        if let Some(oldest) = self.kept.get_mut(at) {
            *oldest = namespace;
        }
    }

    /// Returns the namespace of this text. Allocates only if it is not kept.
    pub fn namespace(&mut self, alloc: Global, text: &str) -> Result<Namespace, OutOfMemory>
        ensures { IfOk result (λ n. namespace_bytes n ≡ text.now) }
    {
        if text.is_empty() {
            return Ok(Namespace::none());
        }
        if let Some(kept) = find(self.kept.as_slice(), text) {
            return Ok(kept.share()?);
        }
        let namespace = Namespace::new(alloc, text)?;
        self.keep(namespace.share()?);
        Ok(namespace)
    }
}
