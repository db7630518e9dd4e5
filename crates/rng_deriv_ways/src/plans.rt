// What is kept of patterns that leave more than two rests: what the tests of their leaves leave.
use crate::way::Ways;
use rng_deriv_table::PatternNumber;
use rng_names::NameKey;
use smallvec::SmallVec;
use std::collections::HashMap;

/// A pattern that is asked what is left of it after a string, or after an attribute whose name has this key.
#[derive(Clone, Copy, PartialEq, Eq, Hash)]
pub enum Asked {
    Text(PatternNumber),
    Attribute(PatternNumber, NameKey),
}

/// Different leaves of the ways of a pattern.
pub type Leaves = SmallVec<PatternNumber, 2>;

/// For each of some leaves, whether it took what came first.
pub type Tests = SmallVec<bool, 8>;

/// What the tests of leaves say, and the choice of what the ways leave whose leaves took what came first.
#[derive(Drop)]
pub struct Outcome {
    pub taken: Tests,
    pub rest: PatternNumber,
}

/// Ways of a pattern, where those are found by hash whose leaves are values that a text can be equal to.
#[derive(Drop)]
pub struct ValueIndex {
    /// Ways whose leaves take no strings but those with this text, once blanks are collapsed.
    pub by_text: HashMap<String, Ways>,
    /// The other ways. Their leaves have to be tested for each text.
    pub others: Ways,
}

/// The ways of a pattern, their leaves, and the outcomes of the tests of these leaves that have occurred. A plan
/// without leaves keeps no outcome.
#[derive(Drop)]
pub struct Plan {
    pub ways: Ways,
    pub leaves: Leaves,
    pub outcomes: Vec<Outcome>,
    /// The ways by the texts that their leaves take, if there are many leaves that may take a string.
    pub values: Option<Box<ValueIndex>>,
}

/// The plans of patterns that were asked.
pub type Plans = HashMap<Asked, Plan>;
