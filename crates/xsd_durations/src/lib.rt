//! Durations of XML Schema: which one a text writes, which two are the same, and which is less.
//!
//! XML Schema Part 2, Second Edition, section 3.2.6. A duration is read and compared without memory.
#![tactic(auto)]

mod calendar;
mod duration;
mod fronts;
mod order;
mod reading;
mod units;

pub use duration::Duration;
