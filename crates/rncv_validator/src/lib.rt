//! A schema that is compiled once, and judges documents one after the other.
//!
//! `Validator::compile` makes a validator from the files of a schema, or reports the first clause that they break;
//! `Validator::compile_with` does so with a set of datatypes. `Validator::document` begins a document, `Document::feed`
//! takes it piece by piece, and `Document::finish` returns the verdict and the validator, which keeps what it has learned
//! about the schema. `place_of` returns where a file breaks a clause. RELAX NG Specification, sections 4 to 7, and the
//! Compact Syntax specification.
#![tactic(auto)]

mod compiling;
mod document;
mod fault;
mod placing;
mod validator;

pub use document::Document;
pub use fault::DocumentFault;
pub use placing::place_of;
pub use rnc_model::FilePlace;
pub use rncv_model::Verdict;
pub use rng_expected::Expected;
pub use rng_model::{SchemaFault as CompileFault, TypeSet};
pub use validator::Validator;
