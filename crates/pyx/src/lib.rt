//! Reads documents in PYX, in pieces of any sizes, and hands out their events.
#![tactic(auto)]

mod attributes;
mod elements;
mod escapes;
mod fault;
mod known;
mod line;
mod marks;
mod namespaces;
mod opened;
mod pieces;
mod plain;
mod reader;
mod slots;
mod spares;
mod state;

pub use reader::Reader;
pub use rng_model::PyxFault;
