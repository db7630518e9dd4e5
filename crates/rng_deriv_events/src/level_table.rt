// Levels by number: a level is the list of alternatives for what remains of an open element, given by the numbers of
// their patterns.
//
// A `LevelTable` gives each list one number, and keeps beside it what a matcher has found out about it: the steps by
// start tags, the level behind a tag without attributes, the level after a sample string, and the level around an
// element after its end (RELAX NG Specification, section 6.2). It knows nothing of patterns: whether what is kept is
// right is up to the crate that keeps it. What is found has just the list, the level and the key, or the alternatives
// that were asked for, and what was there stays as long as the table.
mod bits;
mod level;
mod level_index;
mod link;
mod step;
mod table;

pub use self::bits::bits_of;
pub use self::level::{Level, LevelNumber, Numbers};
pub use self::link::{Link, Links};
pub use self::step::{End, Step, StepNumber};
pub use self::table::LevelTable;
