// Short lists, which allocate nothing for the lengths that are usual.
use crate::derivatives::StartWay;
use smallvec::SmallVec;

/// The ways to begin with an element: at most one for nearly all patterns.
pub type Ways = SmallVec<StartWay, 1>;

/// Which of the alternatives pass a test.
pub type Tests = SmallVec<bool, 8>;
