// The elements of a grammar, in the order in which they are first mentioned.
use rng_model::ElementId;
use std::alloc::{AllocError, Global};

/// Elements that are mentioned, each once.
#[derive(Drop)]
pub struct Mentioned {
    elements: Vec<ElementId>,
}

impl Mentioned {
    /// Creates an empty list.
    pub fn new(alloc: Global) -> Self {
        Mentioned {
            elements: Vec::new(alloc),
        }
    }

    /// Returns the number of an element. A new element gets the next number.
    pub fn number(&mut self, element: ElementId) -> Result<usize, AllocError> {
        if let Some(number) = self.elements.iter().position(|known| *known == element) {
            return Ok(number);
        }
        let number = self.elements.len();
        self.elements.push(element)?;
        Ok(number)
    }

    /// Returns the element with a number.
    pub fn get(&self, number: usize) -> Option<ElementId> {
        self.elements.get(number).copied()
    }
}
