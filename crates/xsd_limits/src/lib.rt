//! The bounds that schemas set on the values of ordered types.
//!
//! XML Schema Part 2, Second Edition, sections 4.2.2 and 4.3.7 to 4.3.10. Each call follows
//! `rng_model/specs/xsd/Limits.antt`. Bounds are read once, from the parameters of a datatype; a value is judged without
//! memory.
#![tactic(auto)]

mod bound;
mod facets;
mod limits;

pub use bound::{Bound, BoundedBy, OrderedType};
pub use facets::{NoFacets, OtherFacets};
pub use limits::Limits;
