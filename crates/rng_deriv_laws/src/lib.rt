//! Matching by derivatives equals the rules of matching (RELAX NG Specification, section 6.2), over pure values.
//!
//! The laws hold for every grammar that breaks none of the restrictions S18 to S27, and for every document that is a
//! well-formed tree, whatever it is read from. A matcher that takes the document's events one by one accepts them
//! exactly if the document is valid by the one definition of matching. Once the matcher's state is `never`, no document
//! that begins with the events so far is valid. No code of this crate runs: a matcher over tables, memos and sets of
//! alternatives cites its definitions and lemmas.
//!
//! Order of reading, in `specs/`:
//!
//! - `Reading`: a grammar with tests for texts.
//! - `Taking`: the rules for the trees of the simple syntax, and when two patterns take the same.
//! - `Restricted`: section 7, kind by kind.
//! - `Blanks`: blank strings among children.
//! - `Derivatives`: what is left after a string, an attribute, a start tag.
//! - `Ways`: when lists of ways to begin are those of a pattern.
//! - `States`: patterns inside open elements.
//! - `Events`: the matcher as a fold.
//! - `Laws`: the theorems.
//! - `Outcomes`: the outcome of a document, and its line.
//! - `Meanings`: the same for any matcher whose events change what it matches as the rules require.
//! - `LevelStates`: open elements as levels of alternatives with their ways out, and what each event must do to them.
//! - `LevelEvents`: a matcher of level states, with its theorems.
//!
//! In `proofs/`: `TakesAndMatches` (the link to the one definition), `SamePatterns` (choices as sets, groups and
//! interleaves in another nesting), `ItemWays` and `AttributeWays` (a law for each kind of pattern), `KeptRestrictions`
//! (what derivatives keep), `Texts`, `Attributes`, `Starts`, `DropBlanks`, `PutBlanks`, `States`, `Levels`, `Document`,
//! `Events`, `InvalidAt`, `Restricted`, `PyxDocuments`, `Laws`. `SameWays`, `Meanings` and `StateMeanings` are for
//! matchers that keep patterns, ways and states in other forms. `OpenElements` counts open elements. `LevelStates` and
//! `LevelEvents` are for matchers that keep levels. `Examples` has documents for which wrong bodies give wrong results.
#![tactic(auto)]

ghost use Rattle.rng_deriv_laws.specs.plain.Laws.{AcceptsValidDocuments, NeverIsInvalid, UnknownNameIsNever, InvalidIsNever};
ghost use Rattle.rng_deriv_laws.specs.plain.LevelEvents.{LevelsAnswer, NoLevelsAreInvalid, NoEndIsInvalid, UnknownNameLeavesNone};

/// States the laws of matching by derivatives (RELAX NG Specification, sections 6.2, 6.3 and 7). The function does
/// nothing: its contract is the laws.
///
/// The matcher accepts the events of a document exactly if the document is valid. Once its state is `never`, no
/// document that begins with the events so far is valid. The state is `never` after a start whose name is in the class
/// of no element, and after the events of an invalid document.
///
/// A matcher of levels is one whose events obey the rules of `LevelEvents`. After the events of a document, it has a
/// nullable alternative exactly if the document is valid. If all alternatives are notAllowed, or if none is nullable at
/// the end of a document, no document that begins with the events so far is valid. A start whose name is in the class
/// of no element leaves no alternative.
pub fn matching_laws()
    ensures accepted { AcceptsValidDocuments }
    ensures never { NeverIsInvalid }
    ensures unknown { UnknownNameIsNever }
    ensures invalid { InvalidIsNever }
    ensures levels { LevelsAnswer }
    ensures no_levels { NoLevelsAreInvalid }
    ensures no_end { NoEndIsInvalid }
    ensures unknown_level { UnknownNameLeavesNone }
{}
