//! The moments that texts of `dateTime`, `time`, `date`, `gYearMonth`, `gYear`, `gMonthDay`, `gDay` and `gMonth` write.
//!
//! XML Schema Part 2, Second Edition, sections 3.2.7 to 3.2.14, by the definitions in `rng_model/specs/xsd/primitives`. No call
//! allocates memory.
#![tactic(auto)]

mod calendar;
mod dates;
mod fronts;
mod kind;
mod moment;
mod texts;
mod time;
mod zones;

pub use kind::MomentKind;
pub use moment::Moment;
pub use time::Time;
