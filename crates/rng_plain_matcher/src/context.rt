// What each call of a matcher reads.
use rng_model::SimpleGrammar;
use std::alloc::Global;

/// The allocator, and the grammar by which documents are judged.
#[derive(Clone, Copy)]
pub struct Context<'a> {
    pub alloc: Global,
    pub grammar: &'a SimpleGrammar,
}
