// What a matcher has learned about the patterns of a grammar.
use rng_deriv_table::{PatternNumber, PatternTable};
use rng_deriv_ways::Known;
use rng_names::NameKeys;

/// What a matcher has learned about the patterns of a grammar, without the grammar.
#[derive(Drop)]
pub struct Learned {
    /// The numbers of the grammar's patterns, by position.
    pub numbers: Vec<PatternNumber>,
    pub keys: NameKeys,
    /// The ways that are known of parts of patterns.
    pub known: Known,
    /// The number of starts that were computed since nothing was known of parts.
    pub starts: usize,
    /// The number of patterns that a table may have before a renewal.
    pub limit: usize,
    pub table: PatternTable,
    /// Whether a call ran out of memory. Then nothing is known of the table.
    pub lost: bool,
}
