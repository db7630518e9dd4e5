// Documents that are judged piece by piece.
ghost use Rattle.std.specs.Prelude.{◌≡◌, ◌⊎◌, ◌+◌, ◌^◌, ◌<◌, ◌++◌, ℕ, List, IfErr, IfOk, IfSome, OnErr, OnOk, Some, None, Err, length, true};
ghost use Rattle.std.specs.Bool.{OnTrue};
ghost use Rattle.rng_model.specs.schema.Schema.{Schema};
ghost use Rattle.rncv_model.specs.answers.Verdict.{IsUnknownIn, IsMalformedVerdict};
ghost use Rattle.rncv_model.specs.answers.VerdictWith.{IsVerdictOn, IsVerdictOnWith};
ghost use Rattle.rng_model.specs.matching.SchemaMatching.{IsValidBySchema};
ghost use Rattle.rng_model.specs.xsd.SchemasWith.{IsValidBySchemaWith};
ghost use Rattle.rng_model.specs.declared.type_set.TypeSet.{TypeSet};
ghost use Rattle.rncv_model.specs.declared.verdict.Verdict.{Verdict};
ghost use Rattle.rncv_validator.specs.views.Validators.{Judges, JudgesWith};
ghost use Rattle.rncv_validator.specs.views.Documents.{HaveEnded, IsFaultOfFed, IsHopelessFrom, KnowsStarts, UnlessMemory};
ghost use Rattle.rncv_validator.specs.views.FedDocuments.{HasBeenFed, IsFaultOfReader};
ghost use Rattle.rncv_validator.specs.views.Documents.{failed_since, told_by};
ghost use Rattle.rncv_validator.specs.views.FedDocuments.{verdict_by};
ghost use Rattle.pyx.specs.views.Calls.{Extends};
ghost use Rattle.rng_model.specs.documents.EventViews.{Hands};
ghost use Rattle.rng_deriv_events.specs.views.Positions.{KeepsTag, StaysInMode};
ghost use Rattle.rng_deriv.specs.views.Followers.{IsReason, MayFollow, TellsNone};
ghost use Rattle.rng_deriv.specs.views.Matchers.{HasGoneOn, trees_in};
ghost use Rattle.rng_expected.specs.views.Next.{next_of};
ghost use Rattle.rng_model.specs.matching.GrammarMatching.{reading_of};

use crate::fault::DocumentFault;
use crate::validator::Validator;
use pyx::Reader;
use rncv_model::Verdict;
use rng_deriv::{Matcher, MatcherState, Outcome};
use rng_expected::Expected;
use rng_model::{OutOfMemory, PyxFault, SimpleGrammar};
use rng_reasons::Reason;
use std::alloc::Global;
use std::marker::Model;
use std::sync::Arc;

/// A document has fewer bytes than this number.
const TOO_MANY_BYTES: u64 = 1 << 63;

/// A document that is judged piece by piece by the schema of a validator.
///
/// It keeps only a tag, a text, the open elements, and what the matcher keeps: for who asked for reasons (`want_reasons`) also
/// the start tag after which nothing is left.
#[derive(Drop)]
pub struct Document {
    pub(crate) alloc: Global,
    pub(crate) grammar: Arc<SimpleGrammar>,
    pub(crate) reader: Reader,
    /// What the matcher keeps. It is `None` while the matcher works, and after it ran out of memory.
    pub(crate) state: Option<MatcherState>,
    /// The error that every call of `feed` returns.
    pub(crate) fault: Option<DocumentFault>,
}

impl Model for Document {
    ghost use Rattle.std.specs.Prelude.{IfSome};
    ghost use Rattle.rng_model.specs.simple.Table.{grammar_of};
    ghost use Rattle.rng_model.specs.restrictions.RestrictionFaults.{BreaksNone};
    ghost use Rattle.rng_deriv.specs.views.Matchers.{IsStateBy};
    ghost use Rattle.rncv_validator.specs.views.FedDocuments.{HasNotRunOut, IsKeptFault, Judging, matching_of};
    ghost use Rattle.rng_model.specs.contracts.name.NameClass as classes;
    ghost use Rattle.std.specs.Coded.{codes};

    ghost Value = { Judging };

    ghost coded = { Prim.hlevel (codes, classes.the_row.coded) };

    ghost view = { λ d. record { grammar = d.grammar.value; reader = d.reader; matching = matching_of d.grammar.value d.state; fault = d.fault } };

    ghost invariant = { λ d. (BreaksNone (grammar_of d.grammar.value)) × (IfSome d.state (IsStateBy d.grammar.value)) × (IsKeptFault d.reader d.state d.fault) × (IfSome d.state (HasNotRunOut d.grammar.value)) };
}

impl Document {
    /// Takes the next piece of the document, of any length.
    ///
    /// Fails with `Malformed` and the broken clause of the least line, and of the least number there, whatever bytes
    /// follow. Fails with `Memory` when out of memory, and if the document would have 2^63 bytes or more. After an
    /// error, every call of `feed` returns the same error. One pass over the piece.
    ///
    /// XML 1.0, sections 2.2 and 3.1; Namespaces in XML 1.0, sections 3 to 6; RELAX NG Specification, section 6.
    pub fn feed(&mut self, piece: &[u8]) -> Result<(), DocumentFault>
        ensures grammar { self.new.grammar ≡ self.old.grammar }
        ensures fed { UnlessMemory result ((bytes : List ℕ) → HasBeenFed self.old bytes → HasBeenFed self.new (bytes ++ piece.now)) }
        ensures fault { IfErr result (λ f. (self.new.fault ≡ Some f) × IsFaultOfFed self.new f) }
        ensures working { OnOk result (self.new.fault ≡ None) }
        ensures sticky { IfSome self.old.fault (λ f. (result ≡ Err f) × (self.new ≡ self.old)) }
        ensures since { IfSome (failed_since self.old) (λ line. UnlessMemory result (failed_since self.new ≡ Some line)) }
        ensures mode { UnlessMemory result (StaysInMode self.old.matching.progress self.new.matching.progress) }
    {
        if let Some(fault) = self.fault {
            return Err(fault);
        }
        let Some(state) = self.state.take() else {
            unreachable!();
        };
        let mut matcher = Matcher::resume(self.alloc, &self.grammar, state);
        match read_piece(&mut self.reader, piece, &mut matcher) {
            Ok(()) => {
                put_back(&mut self.state, matcher.into_state());
                Ok(())
            }
            Err(DocumentFault::Malformed { clause, line }) => {
                put_back(&mut self.state, matcher.into_state());
                let fault = DocumentFault::Malformed { clause, line };
                self.fault = Some(fault);
                Err(fault)
            }
            Err(DocumentFault::Memory) => {
                drop(matcher);
                self.fault = Some(DocumentFault::Memory);
                Err(DocumentFault::Memory)
            }
        }
    }

    /// Returns the line after which no continuation is valid, counted from 1, once it is known. It is one of the lines
    /// fed so far, and no document with the same lines up to it is valid. `finish` then returns `Invalid` with this
    /// line, or `Malformed`.
    ///
    /// The line is known once the pattern that is left matches nothing. A start tag with a name that no element of the
    /// schema's simple form may have makes it known at the end of the line after the tag, unless there was a fault.
    /// Allocates nothing. RELAX NG Specification, sections 6.2 and 6.3.
    pub fn invalid_since(&self) -> Option<u64>
        ensures value { result ≡ failed_since self.now }
        ensures hopeless { IfSome result (λ line. (s : Schema) (bytes : List ℕ) → Judges self.now.grammar s → HasBeenFed self.now bytes
            → IsHopelessFrom (IsValidBySchema s) bytes line) }
        ensures hopeless_with { IfSome result (λ line. (types : TypeSet) (s : Schema) (bytes : List ℕ) → JudgesWith types self.now.grammar s
            → HasBeenFed self.now bytes → IsHopelessFrom (IsValidBySchemaWith types s) bytes line) }
        ensures known { result ≡ None → self.now.fault ≡ None → (types : TypeSet) (s : Schema) (bytes : List ℕ) (n : ℕ)
            → JudgesWith types self.now.grammar s → HasBeenFed self.now bytes → HaveEnded bytes n → KnowsStarts (IsUnknownIn s) bytes n }
    {
        self.state.as_ref()?.failed_at()
    }

    /// Returns what may come next in the innermost open element, or what could have come before the event after which no
    /// continuation is valid, if `invalid_since` returns one.
    ///
    /// It is stated on what is left of the pattern (`Expected`): an element or a datatype counts where its pattern stands.
    /// After a text it is what may come behind that text; a blank text counts as nothing (section 6.2.7). Fails
    /// only when this call, or an earlier one, is out of memory. Time and memory are linear in the number of patterns that
    /// the matcher keeps. RELAX NG Specification, sections 6.2 and 6.2.7.
    pub fn expected(&self) -> Result<Expected<'_>, OutOfMemory>
        ensures { IfOk result (λ e. (bytes : List ℕ) (fed : HasBeenFed self.now bytes)
            → MayFollow (reading_of self.now.grammar) self.now.matching (next_of e) fed.events) }
    {
        let Some(state) = &self.state else {
            return Err(OutOfMemory);
        };
        let Some(expected) = state.expected(self.alloc, &self.grammar)? else {
            unreachable!();
        };
        Ok(expected)
    }

    /// From now on keeps the start tag after which nothing is left, until the document ends, so that `reason` can tell why: its
    /// name, and its attributes with their values. If `invalid_since` returns a line already, nothing is kept of the event.
    ///
    /// What was fed stays. Allocates nothing.
    pub fn want_reasons(&mut self)
        ensures grammar { self.new.grammar ≡ self.old.grammar }
        ensures fed { (bytes : List ℕ) → HasBeenFed self.old bytes → HasBeenFed self.new bytes }
        ensures fault { self.new.fault ≡ self.old.fault }
        ensures since { failed_since self.new ≡ failed_since self.old }
        ensures wanted { failed_since self.old ≡ None → KeepsTag true self.new.matching.progress }
    {
        let Some(mut state) = self.state.take() else {
            return;
        };
        state.want_reasons();
        put_back(&mut self.state, state);
    }

    /// Returns why no continuation is valid after the event at the line of `invalid_since`, or `None` exactly if `invalid_since`
    /// returns none, or if nothing is kept of the event: of a start, unless `want_reasons` was called before.
    ///
    /// It is stated on what was left of the pattern before that event (`Reason`), as `expected` is. It is `NothingMatches` if by
    /// the patterns the event leaves something, but no document with it is valid. What was fed stays. Fails only when out of
    /// memory, in this call or in an earlier one; then each later call fails. Costs a copy of the tag, and what
    /// `MatcherState::reason` costs. RELAX NG Specification, sections 6.2.7 and 6.2.8.
    pub fn reason(&mut self) -> Result<Option<Reason>, OutOfMemory>
        ensures grammar { self.new.grammar ≡ self.old.grammar }
        ensures fed { (bytes : List ℕ) → HasBeenFed self.old bytes → HasBeenFed self.new bytes }
        ensures same { OnOk result ((self.new.fault ≡ self.old.fault) × (self.new.matching.progress ≡ self.old.matching.progress)) }
        ensures reason { IfOk result (λ reason. (bytes : List ℕ) (fed : HasBeenFed self.old bytes)
            → IsReason (reading_of self.old.grammar) self.old.matching.progress (trees_in self.new.matching) reason fed.events) }
        ensures none { IfOk result (TellsNone self.old.matching.progress) }
        ensures failed { OnErr result (self.new.fault ≡ Some DocumentFault.Memory) }
    {
        let Some(mut state) = self.state.take() else {
            return Err(OutOfMemory);
        };
        let Ok(reason) = state.reason(self.alloc, &self.grammar) else {
            self.fault = Some(DocumentFault::Memory);
            return Err(OutOfMemory);
        };
        put_back(&mut self.state, state);
        Ok(reason)
    }

    /// Ends the document, and returns the verdict on it, and the validator for the next document.
    ///
    /// The verdict is `Malformed` with the first fault if the bytes that were fed are no document. Otherwise it is
    /// `Valid` exactly if the document matches the schema by the rules of section 6 of the RELAX NG Specification,
    /// applied to the files as they are written, with the set of datatypes that the schema was compiled with. Otherwise
    /// it is `Invalid` with a line. No document that begins with the lines up to this line is valid. No start that is
    /// reported before this line has a name that no element of the schema's simple form may have. The verdict is an error
    /// only if this call, or an earlier call for the document, ran out of memory. Costs what the events of the last tag
    /// or text cost. The validator keeps nothing of an event after which no continuation was valid.
    pub fn finish(self) -> (Validator, Result<Verdict, OutOfMemory>)
        ensures grammar { result.0 ≡ self.grammar }
        ensures verdict { IfOk result.1 (λ v. (s : Schema) (bytes : List ℕ) → Judges self.grammar s → HasBeenFed self bytes → IsVerdictOn s bytes v) }
        ensures verdict_with { IfOk result.1 (λ v. (types : TypeSet) (s : Schema) (bytes : List ℕ) → JudgesWith types self.grammar s
            → HasBeenFed self bytes → IsVerdictOnWith types s bytes v) }
        ensures sticky { IfSome self.fault (λ f. result.1 ≡ told_by f) }
        ensures since { IfSome (failed_since self) (λ line. IfOk result.1 (λ v. IsMalformedVerdict v ⊎ (v ≡ Verdict.Invalid line))) }
    {
        let Document {
            alloc,
            grammar,
            reader,
            state,
            fault,
        } = self;
        let Some(state) = state else {
            return (Validator::of_parts(grammar, None), Err(OutOfMemory));
        };
        if let Some(fault) = fault {
            drop(reader);
            return (Validator::of_parts(grammar, Some(state)), told(fault));
        }
        let mut matcher = Matcher::resume(alloc, &grammar, state);
        let ended = reader.finish(&mut matcher);
        if let Ok(verdict) = verdict(ended, matcher.outcome()) {
            let state = Some(matcher.into_state());
            return (Validator::of_parts(grammar, state), Ok(verdict));
        }
        drop(matcher);
        (Validator::of_parts(grammar, None), Err(OutOfMemory))
    }
}

/// Puts a state back into its place.
fn put_back(place: &mut Option<MatcherState>, state: MatcherState)
    ensures { place.new ≡ Some state }
{
    *place = Some(state);
}

/// Reads the next piece, and passes its events to the matcher.
fn read_piece(
    reader: &mut Reader,
    piece: &[u8],
    matcher: &mut Matcher<'_>,
) -> Result<(), DocumentFault>
    ensures extends { UnlessMemory result (Extends (Hands HasGoneOn matcher.old matcher.new) reader.old reader.new piece.now) }
    ensures fault { IfErr result (IsFaultOfReader reader.new) }
    ensures working { OnOk result (reader.new.fault ≡ None) }
{
    if !has_room(reader, piece) {
        return Err(DocumentFault::Memory);
    }
    match reader.feed(piece, matcher) {
        Ok(()) => Ok(()),
        Err(PyxFault::At { clause, line }) => Err(DocumentFault::Malformed { clause, line }),
        Err(PyxFault::Memory) => Err(DocumentFault::Memory),
    }
}

/// Returns whether the document has fewer than 2^63 bytes with this piece.
fn has_room(reader: &Reader, piece: &[u8]) -> bool
    ensures { OnTrue result (reader.now.fed + length piece.now < 2 ^ 63) }
{
    (piece.len() as u64) < TOO_MANY_BYTES.saturating_sub(reader.fed())
}

/// Returns the verdict that reports a fault.
fn told(fault: DocumentFault) -> Result<Verdict, OutOfMemory>
    ensures { result ≡ told_by fault }
{
    match fault {
        DocumentFault::Malformed { clause, line } => Ok(Verdict::Malformed { clause, line }),
        DocumentFault::Memory => Err(OutOfMemory),
    }
}

/// Returns the verdict on a document, given how reading ended and the outcome of the matcher.
fn verdict(
    ended: Result<(), PyxFault>,
    outcome: Result<Outcome, OutOfMemory>,
) -> Result<Verdict, OutOfMemory>
    ensures { result ≡ verdict_by ended outcome }
{
    match ended {
        Ok(()) => match outcome? {
            Outcome::Valid => Ok(Verdict::Valid),
            Outcome::Invalid(line) => Ok(Verdict::Invalid(line)),
        },
        Err(PyxFault::At { clause, line }) => Ok(Verdict::Malformed { clause, line }),
        Err(PyxFault::Memory) => Err(OutOfMemory),
    }
}
