// What stays the same while what is left of patterns is computed.
use rng_deriv_table::PatternNumber;
use rng_model::SimpleGrammar;
use rng_names::NameKeys;
use std::alloc::Global;

/// A grammar, the keys of its names, and the numbers of its patterns, by position.
#[derive(Clone, Copy)]
pub struct Context<'a> {
    pub alloc: Global,
    pub grammar: &'a SimpleGrammar,
    pub keys: &'a NameKeys,
    pub numbers: &'a [PatternNumber],
}
