// Namespaces.
ghost use Rattle.std.specs.Prelude.{◌≡◌, [], IfOk, nat_eq, string_bytes};
ghost use Rattle.std.proofs.Common.{rules};
ghost use Rattle.std.specs.Cmp.{on_equiv, on_per, partial_equiv_from_equiv};
ghost use Rattle.std.specs.Cmp.Lexicographic.{nat_list_eq_equiv, pointwise};
ghost use Rattle.std.specs.Cmp.Rules.{hashing};
ghost use Rattle.std.specs.Hash as fed;
ghost use Rattle.rng_model.specs.names.NameViews.{namespace_bytes};
ghost use Rattle.rng_model.specs.plain.TextHashes.{text_hash};

use crate::hashed_text::HashedText;
use std::alloc::{AllocError, Global};
use std::fmt;
use std::fmt::{Debug, Formatter, Write};
use std::hash::{Hash, Hasher};
use std::sync::Arc;

/// The namespace of names: a uri, or none.
///
/// Names share its text, also across threads. Namespaces compare as their texts. To hash one does not read its text.
///
/// Namespaces in XML 1.0, section 2.1.
pub struct Namespace {
    /// No text if it is empty.
    text: Option<Arc<HashedText>>,
}

impl Drop for Namespace {
    // Not inlined, so that the drop of a name class, which calls itself as deep as the class nests, has a small frame.
    #[inline(never)]
    fn drop(self) {
        let Namespace { text: _text } = self;
    }
}

impl Namespace {
    /// Returns the namespace of names without one, which is empty. Allocates nothing.
    pub fn none() -> Self
        ensures { namespace_bytes result ≡ [] }
    {
        Namespace { text: None }
    }

    /// Creates a namespace of a copy of this text. Fails only when out of memory.
    pub fn new(alloc: Global, text: &str) -> Result<Self, AllocError>
        ensures { IfOk result (λ n. namespace_bytes n ≡ text.now) }
    {
        Namespace::from_string(alloc, String::from_str(alloc, text)?)
    }

    /// Creates a namespace of this text without copying it. Fails only when out of memory.
    pub fn from_string(alloc: Global, text: String) -> Result<Self, AllocError>
        ensures { IfOk result (λ n. namespace_bytes n ≡ string_bytes text) }
    {
        if text.is_empty() {
            return Ok(Namespace::none());
        }
        match Arc::new(alloc, HashedText::of(text)) {
            Ok(text) => Ok(Namespace { text: Some(text) }),
            Err(_) => Err(AllocError),
        }
    }

    /// Returns the text.
    pub fn as_str(&self) -> &str
        ensures value { result.now ≡ namespace_bytes self.now }
    {
        match &self.text {
            Some(text) => text.text.as_str(),
            None => "",
        }
    }

    /// Returns the same namespace, whose text is shared. Copies and allocates nothing. Fails only where the text is
    /// shared too often to be counted.
    pub fn share(&self) -> Result<Self, AllocError>
        ensures { IfOk result (λ n. namespace_bytes n ≡ namespace_bytes self.now) }
    {
        match &self.text {
            Some(text) => {
                let text = Arc::try_clone(text)?;
                Ok(Namespace { text: Some(text) })
            }
            None => Ok(Namespace::none()),
        }
    }

    /// Returns the hash of the text, which was worked out when the namespace was created.
    #[tactic(auto, unfolding(crate::specs::plain::TextHashes::text_hash))]
    fn text_hash(&self) -> u64
        ensures { result ≡ text_hash (namespace_bytes self.now) }
    {
        match &self.text {
            Some(text) => text.hash,
            None => 0,
        }
    }
}

impl PartialEq for Namespace {
    ghost eq = { λ x y. pointwise nat_eq (namespace_bytes x) (namespace_bytes y) };

    ghost laws = { on_per namespace_bytes (partial_equiv_from_equiv nat_list_eq_equiv) };

    fn eq(&self, other: &Self) -> bool {
        self.text_hash() == other.text_hash() && self.as_str() == other.as_str()
    }
}

impl Eq for Namespace {
    ghost laws = { on_equiv namespace_bytes nat_list_eq_equiv };
}

impl Hash for Namespace {
    ghost hash_input = { λ n. fed.u64 (text_hash (namespace_bytes n)) };

    ghost respects_eq = { Prim.search (hashing, rules) };

    fn hash<H: Hasher>(&self, state: &mut H) {
        state.write_u64(self.text_hash());
    }
}

impl Debug for Namespace {
    fn fmt<W: Write>(&self, f: &mut Formatter<W>) -> fmt::Result {
        Debug::fmt(&self.as_str(), f)
    }
}
