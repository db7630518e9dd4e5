//! The datatypes of the sets with which a schema is compiled: which texts each allows, and which texts are equal in it.
//!
//! Each datatype follows the table of `rng_model/specs/xsd/Datatypes.antt`, and proves the laws of `rng_types::Datatype`. A
//! text is judged without memory. A search compiles the patterns.
#![tactic(auto)]

mod bound;
mod counts;
mod decimals;
mod durations;
mod fault;
mod floats;
mod integers;
mod kind;
mod known;
mod languages;
mod lengths;
mod limited;
mod limits;
mod lists;
mod moments;
mod names;
mod normalized;
mod number_facets;
mod numerals;
mod octets;
mod plain_type;
mod range;
mod times;
mod uris;
mod words;
mod xsd_type;

pub use bound::Bound;
pub use decimals::{BoundedDecimal, DigitLimits};
pub use durations::{DurationBound, Durations};
pub use fault::TypeFault;
pub use floats::{FloatBound, Floats};
pub use integers::Integer;
pub use kind::takes_values;
pub use known::{KnownDatatype, takes_values_in};
pub use limited::{Limited, OrderedValue, ValueType};
pub use limits::Limits;
pub use lists::{ItemKind, List};
pub use moments::{MomentBound, Moments};
pub use normalized::NormalizedString;
pub use number_facets::NumberFacets;
pub use octets::{OctetKind, Octets};
pub use plain_type::PlainType;
pub use range::Range;
pub use times::{TimeBound, Times};
pub use uris::Uri;
pub use words::{Word, WordKind};
pub use xsd_type::XsdType;
