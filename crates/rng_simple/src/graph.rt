// The graph of a schema: its definitions and its elements by number instead of names and places.
//
// `expansion_order` returns an order in which each definition can be expanded once. It fails exactly if some expansion
// loops outside elements, or if what is reached is too deep. Nothing recurses but name classes, and no tree is
// expanded.
mod bodies;
mod building;
mod components;
mod definitions;
mod depth;
mod depth_table;
mod expansion;
mod mentions;
mod order;
mod parts;
mod resolving;
mod whole_patterns;

pub use self::building::schema_graph;
pub use self::expansion::expansion_order;
pub use self::parts::{Graph, GraphBody, GraphElement, GraphRow};
