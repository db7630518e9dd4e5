//! A matcher that takes the events of a document one by one, over any derivatives of patterns.
//!
//! `Derivatives` is what a matcher computes from patterns, which it knows by number: what is left of a pattern after the
//! attributes of a tag, after a string, and behind the start of an element. `EventMatcher` takes events. Open elements are
//! levels. The matcher keeps alternatives for what remains of the innermost element, and for each element the ways out
//! into the alternatives around it (`rng_deriv_laws`'s `LevelStates`). Lists of alternatives have numbers in a table
//! (`level_table`), where it is kept what tags lead to. `Progress` is what is known of a document (RELAX NG Specification,
//! sections 6.2 and 6.3).
#![tactic(auto)]

mod closing;
mod derivatives;
mod ends;
mod event_matcher;
mod failed_event;
mod held;
mod innermost;
mod input;
mod leaving;
mod left;
mod level_renewal;
mod level_table;
mod levels;
mod links;
mod lists;
mod next_end;
mod numbering;
mod position;
mod progress;
mod state;
mod steps;

pub use derivatives::{Derivatives, StartWay};
pub use event_matcher::EventMatcher;
pub use failed_event::FailedEvent;
pub use innermost::Innermost;
pub use left::Left;
pub use lists::Ways;
pub use progress::Progress;
