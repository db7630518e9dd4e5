//! The ways of a numbered pattern to take an attribute, a string or an element first, and what is left of it after a
//! start tag, and after a tag is closed.
//!
//! The patterns of a grammar are in a table that only grows. An item leaves other patterns of this table. What is left
//! takes what may follow the item, by the rules of matching (RELAX NG Specification, section 6.2). This holds for every
//! grammar that obeys the restrictions of section 7.
#![tactic(auto)]

mod alike;
mod by_key;
mod closing;
mod context;
mod datatypes;
mod deep_ways;
mod fewer_ways;
mod filling;
mod idle;
mod known;
mod leaf_ways;
mod leaves;
mod plans;
mod rests;
mod spans;
mod starting;
mod takers;
mod way;
mod ways;

pub use closing::close;
pub use context::Context;
pub use datatypes::Datatypes;
pub use known::{Known, KnownByKey, KnownWays, LastByPattern, LastWays, known_ways, last_ways};
pub use leaf_ways::{attribute_ways, text_ways};
pub use leaves::rest_of_leaf;
pub use plans::{Asked, Leaves, Outcome, Plan, Plans, Tests, ValueIndex};
pub use rests::KnownRests;
pub use starting::{number_at, start};
pub use takers::Takers;
pub use way::{LeafWay, Place, Rests, Ways};
