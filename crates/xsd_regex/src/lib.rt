//! Regular expressions of XML Schema: which texts are expressions, and what they match.
//!
//! XML Schema Part 2, Second Edition, appendix F. The definitions are in
//! `rng_model/specs/regexes`.
#![tactic(auto)]

mod class;
mod class_reader;
mod expression;
mod fault;
mod property;
mod reader;
mod symbol;

pub use class::{CharSet, Class, Leaf, Member};
pub use expression::{Expression, Row, read};
