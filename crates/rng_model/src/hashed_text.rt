// Texts with their hashes.
ghost use Rattle.std.specs.Prelude.{◌≡◌, string_bytes};
ghost use Rattle.rng_model.specs.plain.TextHashes.{text_hash};

use std::hash::{DefaultHasher, Hash, Hasher};

/// A text and its hash.
#[derive(Drop)]
pub(crate) struct HashedText {
    pub(crate) text: String,
    pub(crate) hash: u64,
    pub ghost hashed: { hash ≡ text_hash (string_bytes text) },
}

/// Returns the hash of a text.
#[tactic(auto, unfolding(crate::specs::plain::TextHashes::text_hash))]
fn hash_of(text: &str) -> u64
    ensures { result ≡ text_hash text.now }
{
    if text.is_empty() {
        return 0;
    }
    let mut hasher = DefaultHasher::new();
    text.hash(&mut hasher);
    hasher.finish()
}

impl HashedText {
    /// Adds the hash to a text.
    pub(crate) fn of(text: String) -> Self
        ensures { result.text ≡ text }
    {
        let hash = hash_of(text.as_str());
        HashedText { text, hash }
    }
}
