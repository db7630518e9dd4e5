// Buffers that are used again.
ghost use Rattle.std.specs.Prelude.{◌≡◌, IfOk, string_bytes};

use rng_model::OutOfMemory;
use std::alloc::Global;

/// The most buffers that are kept, and the most bytes that each may hold.
const COUNT_LIMIT: usize = 256;

const SIZE_LIMIT: usize = 1_024;

/// Buffers of names for reuse. Their contents mean nothing.
#[derive(Drop)]
pub struct Spares {
    texts: Vec<String>,
}

impl Spares {
    /// Creates a value without buffers. Allocates nothing.
    pub fn new(alloc: Global) -> Self {
        Spares {
            texts: Vec::new(alloc),
        }
    }

    /// Returns a copy of the text, in a spare buffer if there is one.
    pub fn copy(&mut self, alloc: Global, text: &str) -> Result<String, OutOfMemory>
        ensures { IfOk result (λ s. string_bytes s ≡ text.now) }
    {
        let mut copy = match self.texts.pop() {
            Some(text) => text,
            None => String::new(alloc),
        };
        copy.clear();
        copy.push_str(text)?;
        Ok(copy)
    }

    /// Keeps a buffer for reuse, unless it has no capacity, is too large or there are enough.
    pub fn keep(&mut self, text: String) {
        let size = text.capacity();
        if self.texts.len() < COUNT_LIMIT && 0 < size && size <= SIZE_LIMIT {
            let _ = self.texts.push(text);
        }
    }
}
