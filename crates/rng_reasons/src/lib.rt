//! Why a start or an end tag leaves nothing.
//!
//! `start_reason` and `end_reason` take the alternatives for what remains, as numbered patterns. They tell whether the name of
//! the tag is at fault, an attribute, the text before the tag, or that something is missing. `tag_fault` takes the bodies of
//! the elements that the name of a tag may begin, and its attributes in their order. It tells the first attribute that
//! nothing takes which is left by those before it, and whether only its value is at fault. `tag_options` tells what may come
//! after some attributes of a tag, as in place of the one at fault. The answers are stated by the rules of matching (RELAX NG
//! Specification, sections 6.2.7 and 6.2.8), for patterns that obey section 7.
#![tactic(auto)]

ghost use Rattle.rng_reasons.specs.AllowedPatterns.{AllowedTakeSome, BareTakeNoAttribute};

mod named_attributes;
mod options;
mod reasons;
mod reduced_patterns;
mod tag_faults;

pub use options::{TagBeginning, TagOptions, tag_options};
pub use reasons::{LeftHere, Reason, StartTag, end_reason, start_reason};
pub use reduced_patterns::reduced_pattern_law;
pub use tag_faults::{TagFault, tag_fault};

/// States what it means that something is left (RELAX NG Specification, sections 4.20 and 6.2). The function does nothing:
/// its contract is the laws. A pattern in which notAllowed occurs nowhere takes some attributes with some items, unless one
/// of its elements, attributes, lists, data or values takes nothing. A pattern without attributes takes none.
pub fn left_pattern_laws()
    ensures some { AllowedTakeSome }
    ensures bare { BareTakeNoAttribute }
{}
