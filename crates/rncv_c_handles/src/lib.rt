//! Handles of the library for C, and the calls on one that holds a document, in PYX or of events.
//!
//! A handle of C holds nothing, or a schema, or a document in progress. Each call takes out what the handle holds, works on it, and puts back what is
//! left. A call on a handle that does not hold what the call needs returns `Misuse`, and leaves the handle as it was.
#![tactic(auto)]

pub mod documents;
pub mod events;
pub mod expected;
mod handle;
pub mod options;
pub mod reasons;

pub use handle::{Handle, Held};
