// Ways out of elements.
use rng_deriv_table::PatternNumber;
use smallvec::SmallVec;

/// A way out of an element: when the alternative at the place `inner` ends, the one around it at the place `outer`
/// continues with the rest.
#[derive(Clone, Copy)]
pub struct Link {
    pub inner: usize,
    pub outer: usize,
    pub rest: PatternNumber,
}

/// The way out with the first pattern of a table. It represents no way out.
impl Default for Link {
    fn default() -> Self {
        Link {
            inner: 0,
            outer: 0,
            rest: PatternNumber(0),
        }
    }
}

/// The ways out of an element: one for nearly all elements.
pub type Links = SmallVec<Link, 1>;
