// Levels.
use rng_deriv_table::PatternNumber;
use smallvec::SmallVec;

/// The place of a level in a table, from 0.
#[derive(Clone, Copy, PartialEq, Eq, Hash)]
pub struct LevelNumber(pub usize);

/// Alternatives: at most two for nearly all elements.
pub type Numbers = SmallVec<PatternNumber, 2>;

/// The alternatives for what remains of an open element, and what is known of them.
#[derive(Drop)]
pub struct Level {
    pub numbers: Numbers,
    /// Which of the alternatives may end an element that has a child element, as `bits_of` has it. `None` means that
    /// there are too many alternatives for it.
    pub good: Option<u64>,
    /// Whether no alternative takes anything.
    pub dead: bool,
    /// Whether some alternative contains a data, a value or a list, so that what is left after a string depends on what
    /// the string says.
    pub tests_strings: bool,
}
