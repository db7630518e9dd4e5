//! What may come next in a document, by what is left of its innermost open element.
//!
//! `expected` returns the name classes of the elements that may start, whether a text may come, and the values and the
//! datatypes of which it may be. It is right for what is left of the pattern, by the rules of matching (RELAX NG
//! Specification, section 6.2): an element pattern counts where it stands, whether or not its body can be matched.
//! `expected_tag` returns the attributes that the tag of such an element may have, and the names that it must have;
//! `expected_bodies` returns the bodies of the elements that it may begin. `tag_of_bodies` returns the same as `expected_tag` for
//! patterns that are left of such bodies, and `attribute_contents` the contents of the attributes that may have a name.
//! `expectation_laws` says that no continuation is valid after a start that is not expected, after one whose tag lacks an
//! attribute that it must have or has one that it may not have, or after an end where no alternative may end.
#![tactic(auto)]

ghost use Rattle.rng_expected.specs.Laws.{EarlyEndIsInvalid, LackingTagIsInvalid, OtherAttributeIsInvalid, OtherStartIsInvalid};

mod collecting;
mod contents;
mod expecting;
mod leaves;
mod needs;
mod next;
mod tags;

pub use contents::attribute_contents;
pub use expecting::expected;
pub use next::Expected;
pub use tags::{ExpectedTag, expected_bodies, expected_tag, tag_of_bodies};

/// States what cannot come (RELAX NG Specification, sections 6.2 and 6.3). The function does nothing: its contract is the
/// laws. No continuation is valid after a start whose name is in no class with which an alternative may begin, and after
/// the end of an element of which no alternative may end. By what the tag of a start may have and must have (sections
/// 6.2.7 and 6.2.8), none is valid after a start without an attribute that the tag must have, and after one with an
/// attribute whose name is in no class that the tag may have.
pub fn expectation_laws()
    ensures starts { OtherStartIsInvalid }
    ensures lacking { LackingTagIsInvalid }
    ensures attributes { OtherAttributeIsInvalid }
    ensures ends { EarlyEndIsInvalid }
{}
