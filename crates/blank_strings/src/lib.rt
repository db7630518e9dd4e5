//! Blank strings beside elements change no answer (RELAX NG Specification, section 6.2.7).
//!
//! So a program that reads a document need not tell of such strings. The crate has no code. `blank_string_laws` promises
//! the theorems of `specs/Laws`:
//!
//! - A document without such strings (`specs/LeftOut`) is well-formed, and is valid exactly if it was valid with them: by
//!   a simple grammar (`StaysValid`), and by a schema as it is written (`StaysValidBySchema`).
//! - Calls that tell a document (`rncv_events`), without the texts of such strings (`specs/LeftOutCalls`), tell the document
//!   without these strings (`StaysTold`). An answer about them, or a place from which they are invalid, is right for
//!   all calls (`StaysAnswered`, `StaysHopeless`). It need not be the answer that all calls would get: an invalid document
//!   has more than one right place.
//!
//! In `proofs/`: `Derivatives` (after each element the derivatives of both documents are the same), `Events` (what the
//! calls tell), `Trees` (the document that is left), `Fronts` (what is before a call), `Examples` (small cases).
#![tactic(auto)]

ghost use Rattle.blank_strings.specs.Laws.{StaysAnswered, StaysHopeless, StaysTold, StaysValid, StaysValidBySchema, StaysWellFormed};

/// Does nothing: its contract is the laws.
///
/// A document without some blank strings that are beside elements stays well-formed, and valid or invalid, by a simple grammar
/// and by a schema as it is written. Calls without the texts of such strings tell the document without them, and what is
/// right about these calls is right about all. RELAX NG Specification, sections 6.2.7 and 6.3.
pub fn blank_string_laws()
    ensures formed { StaysWellFormed }
    ensures valid { StaysValid }
    ensures schema { StaysValidBySchema }
    ensures told { StaysTold }
    ensures hopeless { StaysHopeless }
    ensures answered { StaysAnswered }
{}
