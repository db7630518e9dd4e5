// Steps from a level to the levels inside an element.
use crate::level_table::level::LevelNumber;
use crate::level_table::link::Links;
use rng_names::NameKey;

/// The place of a step in a table, from 0.
#[derive(Clone, Copy, PartialEq, Eq, Hash)]
pub struct StepNumber(pub usize);

/// The step number 0.
impl Default for StepNumber {
    fn default() -> Self {
        StepNumber(0)
    }
}

/// A start of an element in a level: its bodies, as a level, and the ways out of them into the level around.
#[derive(Drop)]
pub struct Step {
    pub from: LevelNumber,
    /// The key of the element's name.
    pub key: NameKey,
    /// The level of the bodies, before the attributes of the tag.
    pub child: LevelNumber,
    /// The number of alternatives around the element.
    pub around: usize,
    pub links: Links,
}

/// An end of an element: which of the alternatives inside are good, as `bits_of` has it, and the level around the
/// element after it.
#[derive(Clone, Copy)]
pub struct End {
    pub good: u64,
    pub outside: LevelNumber,
}

/// The end with no good alternative and the first level. It represents no end.
impl Default for End {
    fn default() -> Self {
        End {
            good: 0,
            outside: LevelNumber(0),
        }
    }
}
