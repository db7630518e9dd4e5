//! The components that an include adds to its grammar: those of its file that its braces do not override, and then
//! those in its braces (RELAX NG Specification, section 4.7).
#![tactic(auto)]

mod gathered;
mod overriding_names;
mod replacing;

pub use gathered::GatheredComponent;
pub use replacing::replace;
