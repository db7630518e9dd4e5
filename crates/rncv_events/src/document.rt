// Documents that are told by calls.
ghost use Rattle.std.specs.Prelude.{◌≡◌, ◌⊎◌, [], ◌∷◌, ◌++◌, ℕ, List, IfErr, IfOk, IfSome, IsErrOf, OnErr, OnOk, Some, None, Err, false, length, map, true, unwrap_or};
ghost use Rattle.std.specs.Option.{option_map};
ghost use Rattle.rng_model.specs.schema.Schema.{Schema};
ghost use Rattle.rng_model.specs.xsd.SchemasWith.{IsValidBySchemaWith};
ghost use Rattle.rng_model.specs.declared.type_set.TypeSet.{TypeSet};
ghost use Rattle.rng_model.specs.documents.PyxTrees.{Event, a_string, an_end};
ghost use Rattle.rng_model.specs.documents.Telling.{IsGood};
ghost use Rattle.rncv_model.specs.answers.Verdict.{IsUnknownIn};
ghost use Rattle.rng_model.specs.matching.GrammarMatching.{reading_of};
ghost use Rattle.rng_expected.specs.views.Next.{next_of, tag_of};
ghost use Rattle.rng_reasons.specs.views.Options.{options_of};
ghost use Rattle.rng_deriv_events.specs.views.Inputs.{tests_strings};
ghost use Rattle.rng_deriv_events.specs.views.Positions.{KeepsTag, StaysInMode};
ghost use Rattle.rng_deriv.specs.views.Followers.{HasEndReason, HasStartReason, HasTagOptions, IsReason, MayFollow, MayHave, MayReplace, TellsNone};
ghost use Rattle.rng_deriv.specs.views.Matchers.{Knows, trees_in};
ghost use Rattle.rng_deriv_events.specs.views.NextEnds.{TellsEnd};
ghost use Rattle.rncv_events.specs.views.Ending.{IsWhyNoEnd};
ghost use Rattle.rncv_validator.specs.views.Validators.{JudgesWith};
ghost use Rattle.element_events.specs.views.Told.{UnlessOutOfMemory, attribute_told, call, name_told, start_told};
ghost use Rattle.rncv_events.specs.Answers.{AreHopelessFrom, IsAnswerOn, IsResult, HaveKnownStarts};
ghost use Rattle.rncv_events.specs.views.Documents.{IsStuck, failed_since};
ghost use Rattle.rncv_events.specs.views.Told.{HasTaken, StillKnows, answer_by};

use crate::copies::{copied_attributes, copied_name};
use crate::settling::settle;
use crate::telling::{tell_end, tell_start, tell_text};
use element_events::{Attribute, ElementEvents, EventFault, ExpandedName};
use rncv_validator::Validator;
use rng_deriv::{Matcher, MatcherState};
use rng_expected::{Expected, ExpectedTag};
use rng_model::{OutOfMemory, Outcome, SimpleGrammar};
use rng_reasons::{Reason, StartTag, TagOptions};
use std::alloc::Global;
use std::marker::Model;
use std::sync::Arc;

/// A document that is told by calls, and judged by the schema of a validator.
///
/// There is no limit but memory on how deep elements nest, how many attributes a tag has and how long a text is. It
/// keeps the names and values of a tag, up to 255 names, a text that is tested, the number of open elements, and what the
/// matcher keeps.
#[derive(Drop)]
pub struct EventDocument {
    alloc: Global,
    grammar: Arc<SimpleGrammar>,
    calls: ElementEvents,
    /// What the matcher keeps. It is `None` while the matcher works, and after it ran out of memory.
    state: Option<MatcherState>,
    /// The error that every call returns.
    fault: Option<EventFault>,
}

impl Model for EventDocument {
    ghost use Rattle.std.specs.Prelude.{IfSome};
    ghost use Rattle.rng_model.specs.simple.Table.{grammar_of};
    ghost use Rattle.rng_model.specs.restrictions.RestrictionFaults.{BreaksNone};
    ghost use Rattle.rng_deriv.specs.views.Matchers.{IsStateBy};
    ghost use Rattle.rncv_validator.specs.views.FedDocuments.{HasNotRunOut, matching_of};
    ghost use Rattle.rncv_events.specs.views.Leading.{HasPassedRightly, HoldsRightly};
    ghost use Rattle.rncv_events.specs.views.Told.{IsKeptFault, Judging};
    ghost use Rattle.rng_model.specs.contracts.name.NameClass as classes;
    ghost use Rattle.std.specs.Coded.{codes};

    ghost Value = { Judging };

    ghost coded = { Prim.hlevel (codes, classes.the_row.coded) };

    ghost view = { λ d. record { grammar = d.grammar.value; calls = d.calls; matching = matching_of d.grammar.value d.state; fault = d.fault } };

    ghost invariant = { λ d. (BreaksNone (grammar_of d.grammar.value)) × (IfSome d.state (IsStateBy d.grammar.value)) × (IsKeptFault d.calls d.state d.fault) × (IfSome d.state (HasNotRunOut d.grammar.value)) × (HasPassedRightly d.calls.passed d.state d.fault) × (HoldsRightly d.calls.state.text d.state d.fault) };
}

impl EventDocument {
    /// Begins a document by the schema of a validator, which `finish` returns.
    ///
    /// Allocates memory for the first document, in proportion to the schema. If this fails, each call returns
    /// `EventFault::Memory`. The first document costs a look-up by hashing for each pattern of the schema, the next ones
    /// cost nothing. It keeps no start after which nothing is left, unless `want_reasons` is called. RELAX NG Specification,
    /// section 6.
    pub fn new(alloc: Global, validator: Validator) -> Self
        ensures grammar { result.grammar ≡ validator }
        ensures begun { HasTaken result [] }
        ensures mode { KeepsTag false result.matching.progress }
        ensures fault { IfSome result.fault (λ f. f ≡ EventFault.Memory) }
    {
        let (grammar, state) = validator.into_parts(alloc);
        let fault = match state {
            Some(_) => None,
            None => Some(EventFault::Memory),
        };
        EventDocument {
            alloc,
            grammar,
            calls: ElementEvents::new(alloc),
            state,
            fault,
        }
    }

    /// Takes the start of an element, with a place that the caller chooses.
    ///
    /// Fails with `EventFault::NotWellFormed` exactly if no document begins with the calls so far, and with
    /// `EventFault::Memory` when out of memory. After an error every call returns the same error. Costs what
    /// `ElementEvents::start` costs, and what the matcher does. RELAX NG Specification, sections 2 and 6.2.
    pub fn start(
        &mut self,
        place: u64,
        name: ExpandedName<'_>,
        attributes: &[Attribute<'_>],
    ) -> Result<(), EventFault>
        ensures grammar { self.new.grammar ≡ self.old.grammar }
        ensures taken { UnlessOutOfMemory result ((calls : List Event) → HasTaken self.old calls
            → HasTaken self.new (calls ++ call place (start_told name.entry attributes.now) ∷ [])) }
        ensures answer { (calls : List Event) → HasTaken self.old calls → IsResult result (calls ++ call place (start_told name.entry attributes.now) ∷ []) }
        ensures fault { IfErr result (λ f. self.new.fault ≡ Some f) }
        ensures working { OnOk result (self.new.fault ≡ None) }
        ensures sticky { IfSome self.old.fault (λ f. (result ≡ Err f) × (self.new ≡ self.old)) }
        ensures since { IfSome (failed_since self.old) (λ at. UnlessOutOfMemory result (failed_since self.new ≡ Some at)) }
        ensures mode { UnlessOutOfMemory result (StaysInMode self.old.matching.progress self.new.matching.progress) }
    {
        if let Some(fault) = self.fault {
            return Err(fault);
        }
        let Some(state) = self.state.take() else {
            unreachable!();
        };
        let mut matcher = Matcher::resume(self.alloc, &self.grammar, state);
        let answer = tell_start(&mut self.calls, &mut matcher, place, name, attributes);
        settle(answer, matcher, &mut self.state, &mut self.fault)
    }

    /// Takes a text. It may be empty, and may be a part of a string: texts that follow each other are one string. The
    /// string has the place of the start or the end that follows it.
    ///
    /// Fails as `start` does. Costs one pass over the text. It is copied into a buffer if an alternative that is left tests
    /// what a string says, as a datatype does. Otherwise nothing of it is kept but whether the string is blank, as where
    /// the schema has `text` or only elements. RELAX NG Specification, section 2.
    pub fn text(&mut self, text: &str) -> Result<(), EventFault>
        ensures grammar { self.new.grammar ≡ self.old.grammar }
        ensures taken { (place : ℕ) → UnlessOutOfMemory result ((calls : List Event) → HasTaken self.old calls
            → HasTaken self.new (calls ++ call place (a_string text.now) ∷ [])) }
        ensures answer { (place : ℕ) (calls : List Event) → HasTaken self.old calls → IsResult result (calls ++ call place (a_string text.now) ∷ []) }
        ensures fault { IfErr result (λ f. self.new.fault ≡ Some f) }
        ensures working { OnOk result (self.new.fault ≡ None) }
        ensures sticky { IfSome self.old.fault (λ f. (result ≡ Err f) × (self.new ≡ self.old)) }
        ensures since { failed_since self.new ≡ failed_since self.old }
        ensures mode { StaysInMode self.old.matching.progress self.new.matching.progress }
    {
        if let Some(fault) = self.fault {
            return Err(fault);
        }
        let Some(state) = &self.state else {
            unreachable!();
        };
        let tests_strings = state.tests_strings();
        match tell_text(&mut self.calls, tests_strings, text) {
            Ok(()) => Ok(()),
            Err(fault) => {
                self.fault = Some(fault);
                Err(fault)
            }
        }
    }

    /// Takes the end of the innermost element, with a place that the caller chooses.
    ///
    /// Fails as `start` does. Costs what the matcher does. RELAX NG Specification, sections 2 and 6.2.
    pub fn end(&mut self, place: u64) -> Result<(), EventFault>
        ensures grammar { self.new.grammar ≡ self.old.grammar }
        ensures taken { UnlessOutOfMemory result ((calls : List Event) → HasTaken self.old calls → HasTaken self.new (calls ++ call place an_end ∷ [])) }
        ensures answer { (calls : List Event) → HasTaken self.old calls → IsResult result (calls ++ call place an_end ∷ []) }
        ensures fault { IfErr result (λ f. self.new.fault ≡ Some f) }
        ensures working { OnOk result (self.new.fault ≡ None) }
        ensures sticky { IfSome self.old.fault (λ f. (result ≡ Err f) × (self.new ≡ self.old)) }
        ensures since { IfSome (failed_since self.old) (λ at. UnlessOutOfMemory result (failed_since self.new ≡ Some at)) }
        ensures mode { UnlessOutOfMemory result (StaysInMode self.old.matching.progress self.new.matching.progress) }
    {
        if let Some(fault) = self.fault {
            return Err(fault);
        }
        let Some(state) = self.state.take() else {
            unreachable!();
        };
        let mut matcher = Matcher::resume(self.alloc, &self.grammar, state);
        let answer = tell_end(&mut self.calls, &mut matcher, place);
        settle(answer, matcher, &mut self.state, &mut self.fault)
    }

    /// Refuses a call that the caller cannot make: `EventFault::NotWellFormed` if no document has it, as one whose bytes are
    /// no text, or `EventFault::Memory`.
    ///
    /// Returns the error of every later call, also of `finish`. It is this one, unless a call has failed before. Allocates
    /// nothing.
    pub fn refuse(&mut self, fault: EventFault) -> EventFault
        ensures grammar { self.new.grammar ≡ self.old.grammar }
        ensures fault { result ≡ unwrap_or self.old.fault fault }
        ensures kept { self.new.fault ≡ Some result }
        ensures sticky { IfSome self.old.fault (λ _. self.new ≡ self.old) }
        ensures stuck { IfSome self.old.fault (IsStuck self.old) }
        ensures taken { result ≡ EventFault.NotWellFormed → (calls : List Event) (c : Event) → ¬ (IsGood c.kind)
            → HasTaken self.old calls → HasTaken self.new (calls ++ c ∷ []) }
        ensures since { failed_since self.new ≡ failed_since self.old }
        ensures mode { StaysInMode self.old.matching.progress self.new.matching.progress }
    {
        if let Some(fault) = self.fault {
            return fault;
        }
        let fault = self.calls.refuse(fault);
        self.fault = Some(fault);
        fault
    }

    /// Returns the error that every call returns, if there is one. Allocates nothing.
    pub fn fault(&self) -> Option<EventFault>
        ensures { result ≡ self.now.fault }
    {
        self.fault
    }

    /// Returns the place of the call after which no continuation is valid, once it is known. No document that begins with
    /// the calls up to that one is valid. `finish` then returns `Invalid` with this place, or an error.
    ///
    /// It is known once the pattern that is left matches nothing. A start with a name that no element of the schema's
    /// simple form may have makes it known. Allocates nothing. RELAX NG Specification, sections 6.2 and 6.3.
    pub fn invalid_since(&self) -> Option<u64>
        ensures value { result ≡ failed_since self.now }
        ensures hopeless { IfSome result (λ place. self.now.fault ≡ None → (types : TypeSet) (s : Schema) (calls : List Event) → JudgesWith types self.now.grammar s
            → HasTaken self.now calls → AreHopelessFrom (IsValidBySchemaWith types s) (IsUnknownIn s) calls place) }
        ensures known { result ≡ None → self.now.fault ≡ None → (types : TypeSet) (s : Schema) (calls : List Event) → JudgesWith types self.now.grammar s
            → HasTaken self.now calls → HaveKnownStarts (IsUnknownIn s) calls }
    {
        self.state.as_ref()?.failed_at()
    }

    /// Returns what may come next in the innermost open element, or what could have come before the event after which no
    /// continuation is valid, if `invalid_since` returns one.
    ///
    /// It is stated on what is left of the pattern (`Expected`): an element or a datatype counts where its pattern stands.
    /// A text counts once a start or an end has come behind it: before that it is what may come in its place. Behind it, a
    /// blank text counts as nothing (section 6.2.7). Fails only when this call, or an earlier one, is out of memory. Time and
    /// memory are linear in the number of patterns that the matcher keeps. RELAX NG Specification, sections 6.2 and 6.2.7.
    pub fn expected(&self) -> Result<Expected<'_>, OutOfMemory>
        ensures { IfOk result (λ e. (calls : List Event) (taken : HasTaken self.now calls)
            → MayFollow (reading_of self.now.grammar) self.now.matching (next_of e) taken.events) }
    {
        let Some(state) = &self.state else {
            return Err(OutOfMemory);
        };
        let Some(expected) = state.expected(self.alloc, &self.grammar)? else {
            unreachable!();
        };
        Ok(expected)
    }

    /// Returns what the tag of a start of this name may have next, or could have had before the event after which no
    /// continuation is valid, if `invalid_since` returns one.
    ///
    /// It is stated on what is left of the pattern, as `expected` is (`ExpectedTag`). Fails only when this call, or an
    /// earlier one, is out of memory. Memory is linear in the number of patterns that the matcher keeps, and so is the time
    /// for each name that is the only one of a class. RELAX NG Specification, sections 6.2.7 and 6.2.8.
    pub fn expected_tag(&self, name: ExpandedName<'_>) -> Result<ExpectedTag<'_>, OutOfMemory>
        ensures { IfOk result (λ tag. (calls : List Event) (taken : HasTaken self.now calls)
            → MayHave (reading_of self.now.grammar) self.now.matching (name_told name.entry) (tag_of tag) taken.events) }
    {
        let Some(state) = &self.state else {
            return Err(OutOfMemory);
        };
        let name = copied_name(self.alloc, name)?;
        let Some(tag) = state.expected_tag(self.alloc, &self.grammar, &name)? else {
            unreachable!();
        };
        Ok(tag)
    }

    /// Returns what could have come in place of the string before the event after which no continuation is valid, if
    /// `invalid_since` returns one. Otherwise, or if there is none or it is blank, it is what `expected` returns.
    ///
    /// Fails and costs as `expected` does. RELAX NG Specification, sections 6.2 and 6.2.7.
    pub fn expected_in_place(&self) -> Result<Expected<'_>, OutOfMemory>
        ensures { IfOk result (λ e. (calls : List Event) (taken : HasTaken self.now calls)
            → MayReplace (reading_of self.now.grammar) self.now.matching (next_of e) taken.events) }
    {
        let Some(state) = &self.state else {
            return Err(OutOfMemory);
        };
        let Some(expected) = state.expected_in_place(self.alloc, &self.grammar)? else {
            unreachable!();
        };
        Ok(expected)
    }

    /// Returns why a start of this name with these attributes leaves nothing of what may come next, or `None` if it leaves
    /// something. If `invalid_since` returns a place, it is about what could have come before that event: if the event is this
    /// start, it is why no continuation is valid.
    ///
    /// It is stated on what is left of the pattern (`Reason`), as `expected` is. The calls that were taken stay. Fails only when
    /// out of memory, in this call or in an earlier one. Then what is kept is unchanged, or each later call fails. Costs a
    /// copy of the name and the attributes, and what `MatcherState::start_reason` costs. RELAX NG Specification, sections
    /// 6.2.7 and 6.2.8.
    #[tactic(auto, using(crate::proofs::SettledCalls::still_taken))]
    pub fn start_reason(
        &mut self,
        name: ExpandedName<'_>,
        attributes: &[Attribute<'_>],
    ) -> Result<Option<Reason>, OutOfMemory>
        ensures grammar { self.new.grammar ≡ self.old.grammar }
        ensures calls { self.new.calls ≡ self.old.calls }
        ensures taken { (calls : List Event) → HasTaken self.old calls → HasTaken self.new calls }
        ensures mode { StaysInMode self.old.matching.progress self.new.matching.progress }
        ensures same { OnOk result ((self.new.fault ≡ self.old.fault) × (self.new.matching.progress ≡ self.old.matching.progress)) }
        ensures reason { IfOk result (λ reason. (calls : List Event) (taken : HasTaken self.old calls)
            → HasStartReason (reading_of self.old.grammar) self.old.matching.progress (trees_in self.new.matching)
            (name_told name.entry) (map attribute_told attributes.now) reason taken.events) }
        ensures failed { OnErr result ((self.new ≡ self.old) ⊎ (self.new.fault ≡ Some EventFault.Memory)) }
    {
        let name = copied_name(self.alloc, name)?;
        let attrs = copied_attributes(self.alloc, attributes)?;
        let Some(mut state) = self.state.take() else {
            return Err(OutOfMemory);
        };
        let tag = StartTag {
            name: &name,
            attrs: attrs.as_slice(),
        };
        let Ok(reason) = state.start_reason(self.alloc, &self.grammar, &tag) else {
            self.fault = Some(EventFault::Memory);
            return Err(OutOfMemory);
        };
        self.state = Some(state);
        Ok(reason)
    }

    /// Returns the grammar of the schema by which the document is judged. It is shared. Fails only when out of memory.
    pub fn grammar(&self) -> Result<Arc<SimpleGrammar>, OutOfMemory>
        ensures { IfOk result (λ grammar. grammar.value ≡ self.now.grammar) }
    {
        match Arc::try_clone(&self.grammar) {
            Ok(grammar) => Ok(grammar),
            Err(_) => Err(OutOfMemory),
        }
    }

    /// Returns what a start of this name may have after these attributes, or `None` if nothing is left after them, and what the
    /// value of an attribute with the other name may be there. The grammar is that of the document. If `invalid_since` returns
    /// a place, it is about what could have come before that event: if the event is this start, and an attribute is at fault,
    /// the attributes before it tell what could have been in its place.
    ///
    /// It is stated on what is left of the pattern (`TagOptions`), as `expected_tag` is. The calls that were taken stay. Fails
    /// only when out of memory, in this call or in an earlier one. Then what is kept is unchanged, or each later call fails.
    /// Costs a copy of the names and the attributes, and what `MatcherState::tag_options` costs. RELAX NG Specification,
    /// sections 6.2.7 and 6.2.8.
    #[tactic(auto, using(crate::proofs::SettledCalls::still_taken))]
    pub fn tag_options<'g>(
        &mut self,
        grammar: &'g SimpleGrammar,
        name: ExpandedName<'_>,
        attributes: &[Attribute<'_>],
        named: ExpandedName<'_>,
    ) -> Result<Option<TagOptions<'g>>, OutOfMemory>
        requires { grammar.now ≡ self.old.grammar }
        ensures grammar { self.new.grammar ≡ self.old.grammar }
        ensures calls { self.new.calls ≡ self.old.calls }
        ensures taken { (calls : List Event) → HasTaken self.old calls → HasTaken self.new calls }
        ensures mode { StaysInMode self.old.matching.progress self.new.matching.progress }
        ensures same { OnOk result ((self.new.fault ≡ self.old.fault) × (self.new.matching.progress ≡ self.old.matching.progress)) }
        ensures options { IfOk result (λ o. (calls : List Event) (taken : HasTaken self.old calls)
            → HasTagOptions (reading_of self.old.grammar) self.old.matching.progress (trees_in self.new.matching)
            (name_told name.entry) (map attribute_told attributes.now) (name_told named.entry) (option_map options_of o) taken.events) }
        ensures failed { OnErr result ((self.new ≡ self.old) ⊎ (self.new.fault ≡ Some EventFault.Memory)) }
    {
        let name = copied_name(self.alloc, name)?;
        let attrs = copied_attributes(self.alloc, attributes)?;
        let named = copied_name(self.alloc, named)?;
        let Some(mut state) = self.state.take() else {
            return Err(OutOfMemory);
        };
        let tag = StartTag {
            name: &name,
            attrs: attrs.as_slice(),
        };
        let Ok(options) = state.tag_options(self.alloc, grammar, &tag, &named) else {
            self.fault = Some(EventFault::Memory);
            return Err(OutOfMemory);
        };
        self.state = Some(state);
        Ok(options)
    }

    /// Returns why an end leaves nothing of what may come next, or `None` exactly if it leaves something. If `invalid_since`
    /// returns a place, it is about what could have come before that event: if the event is an end, it is why no continuation
    /// is valid.
    ///
    /// It is stated on what is left of the pattern (`Reason`), as `expected` is: the end is one in place of a text that has come
    /// since the last start or end. The calls that were taken stay. Fails only when out of memory, in this call or in an
    /// earlier one; then later calls may fail too. Costs what `Matcher::may_end` and `MatcherState::end_reason` cost. RELAX NG
    /// Specification, section 6.2.7.
    #[tactic(auto, using(crate::proofs::SettledCalls::still_taken))]
    pub fn end_reason(&mut self) -> Result<Option<Reason>, OutOfMemory>
        ensures grammar { self.new.grammar ≡ self.old.grammar }
        ensures calls { self.new.calls ≡ self.old.calls }
        ensures taken { (calls : List Event) → HasTaken self.old calls → HasTaken self.new calls }
        ensures mode { StaysInMode self.old.matching.progress self.new.matching.progress }
        ensures same { OnOk result (self.new.fault ≡ self.old.fault) }
        ensures reason { IfOk result (λ reason. (calls : List Event) (taken : HasTaken self.old calls)
            → IsWhyNoEnd (reading_of self.old.grammar) self.old.matching.progress self.new.matching reason taken.events) }
        ensures failed { OnErr result ((self.new.fault ≡ self.old.fault) ⊎ (self.new.fault ≡ Some EventFault.Memory)) }
    {
        if self.may_end()? {
            return Ok(None);
        }
        let reason = self.reason_of_end()?;
        Ok(Some(reason))
    }

    /// From now on keeps the start after which nothing is left, until the document ends, so that `reason` can tell why: its
    /// name, and its attributes with their values. If `invalid_since` returns a place already, nothing is kept of that call.
    /// Whoever has the start at hand can ask `start_reason` instead.
    ///
    /// The calls that were taken stay. Allocates nothing.
    pub fn want_reasons(&mut self)
        ensures grammar { self.new.grammar ≡ self.old.grammar }
        ensures taken { (calls : List Event) → HasTaken self.old calls → HasTaken self.new calls }
        ensures fault { self.new.fault ≡ self.old.fault }
        ensures since { failed_since self.new ≡ failed_since self.old }
        ensures wanted { failed_since self.old ≡ None → KeepsTag true self.new.matching.progress }
    {
        let Some(mut state) = self.state.take() else {
            return;
        };
        state.want_reasons();
        self.state = Some(state);
    }

    /// Returns why no continuation is valid after the call of `invalid_since`, or `None` exactly if `invalid_since` returns none,
    /// or if nothing is kept of the call: of a start, unless `want_reasons` was called before.
    ///
    /// It is what `start_reason` or `end_reason` returns for that start or end, or `NothingMatches` where they find none: by the
    /// patterns it leaves something, but no document with it is valid. The calls that were taken stay. Fails only when out of
    /// memory, in this call or in an earlier one; then each later call fails. Costs a copy of the tag, and what
    /// `MatcherState::reason` costs. RELAX NG Specification, sections 6.2.7 and 6.2.8.
    #[tactic(auto, using(crate::proofs::SettledCalls::still_taken))]
    pub fn reason(&mut self) -> Result<Option<Reason>, OutOfMemory>
        ensures grammar { self.new.grammar ≡ self.old.grammar }
        ensures calls { self.new.calls ≡ self.old.calls }
        ensures taken { (calls : List Event) → HasTaken self.old calls → HasTaken self.new calls }
        ensures mode { StaysInMode self.old.matching.progress self.new.matching.progress }
        ensures same { OnOk result ((self.new.fault ≡ self.old.fault) × (self.new.matching.progress ≡ self.old.matching.progress)) }
        ensures reason { IfOk result (λ reason. (calls : List Event) (taken : HasTaken self.old calls)
            → IsReason (reading_of self.old.grammar) self.old.matching.progress (trees_in self.new.matching) reason taken.events) }
        ensures none { IfOk result (TellsNone self.old.matching.progress) }
        ensures failed { OnErr result (self.new.fault ≡ Some EventFault.Memory) }
    {
        let Some(mut state) = self.state.take() else {
            return Err(OutOfMemory);
        };
        let Ok(reason) = state.reason(self.alloc, &self.grammar) else {
            self.fault = Some(EventFault::Memory);
            return Err(OutOfMemory);
        };
        self.state = Some(state);
        Ok(reason)
    }

    /// Returns whether an end may come next, or could have come before the event after which no continuation is valid.
    fn may_end(&mut self) -> Result<bool, OutOfMemory>
        ensures knows { StillKnows self.old self.new }
        ensures mode { StaysInMode self.old.matching.progress self.new.matching.progress }
        ensures same { OnOk result (self.new.fault ≡ self.old.fault) }
        ensures tells { IfOk result (λ told. (calls : List Event) (taken : HasTaken self.old calls)
            → TellsEnd (reading_of self.old.grammar) self.old.matching.progress told taken.events) }
        ensures failed { OnErr result (self.new.fault ≡ Some EventFault.Memory) }
    {
        let Some(state) = self.state.take() else {
            return Err(OutOfMemory);
        };
        let mut matcher = Matcher::resume(self.alloc, &self.grammar, state);
        let Ok(told) = matcher.may_end() else {
            self.fault = Some(EventFault::Memory);
            return Err(OutOfMemory);
        };
        self.state = Some(matcher.into_state());
        Ok(told)
    }

    /// Returns why an end leaves nothing, where it may not come.
    fn reason_of_end(&self) -> Result<Reason, OutOfMemory>
        ensures { IfOk result (λ reason. (es : List Event) → Knows self.now.matching es
            → HasEndReason (reading_of self.now.grammar) self.now.matching reason es) }
    {
        let Some(state) = &self.state else {
            return Err(OutOfMemory);
        };
        let reason = state.end_reason(self.alloc, &self.grammar)?;
        Ok(reason)
    }

    /// Returns how many bytes are held of the text behind the last start or end, which grows with the document. None are held
    /// where no alternative that is left tests what a string says. Allocates nothing.
    pub fn held(&self) -> usize
        ensures value { result ≡ length self.now.calls.state.text }
        ensures nothing { self.now.fault ≡ None → tests_strings self.now.matching.progress ≡ false → result ≡ 0 }
    {
        self.calls.held()
    }

    /// Ends the document, and returns whether it is valid, and the validator for the next document.
    ///
    /// Fails with `EventFault::NotWellFormed` exactly if the calls tell no document. Otherwise the outcome is `Valid`
    /// exactly if their document matches the schema by the rules of section 6 of the RELAX NG Specification, applied to
    /// the files as they are written, with the set of datatypes that the schema was compiled with. Otherwise it is
    /// `Invalid` with the place of a start or an end. No document that begins with the calls up to that one is valid. No
    /// start before it has a name that no element of the schema's simple form may have. Fails with `EventFault::Memory`
    /// only if an earlier call did. The validator keeps nothing of an event after which no continuation was valid. Allocates
    /// nothing. Costs a test of each alternative.
    pub fn finish(self) -> (Validator, Result<Outcome, EventFault>)
        ensures grammar { result.0 ≡ self.grammar }
        ensures answer { (types : TypeSet) (s : Schema) (calls : List Event) → JudgesWith types self.grammar s → HasTaken self calls
            → IsAnswerOn (IsValidBySchemaWith types s) (IsUnknownIn s) calls result.1 }
        ensures memory { IsErrOf result.1 EventFault.Memory → self.fault ≡ Some EventFault.Memory }
        ensures sticky { IfSome self.fault (λ f. result.1 ≡ Err f) }
        ensures since { IfSome (failed_since self) (λ place. IfOk result.1 (λ o. o ≡ Outcome.Invalid place)) }
    {
        let EventDocument {
            alloc,
            grammar,
            calls,
            state,
            fault,
        } = self;
        let Some(state) = state else {
            return (Validator::of_parts(grammar, None), Err(EventFault::Memory));
        };
        if let Some(fault) = fault {
            return (Validator::of_parts(grammar, Some(state)), Err(fault));
        }
        let matcher = Matcher::resume(alloc, &grammar, state);
        let answer = answer_at_end(calls.finish(), matcher.outcome());
        let state = Some(matcher.into_state());
        (Validator::of_parts(grammar, state), answer)
    }
}

/// Returns the answer at the end of a document, given how the calls ended and the outcome of the matcher.
fn answer_at_end(
    ended: Result<(), EventFault>,
    outcome: Result<Outcome, OutOfMemory>,
) -> Result<Outcome, EventFault>
    ensures { result ≡ answer_by ended outcome }
{
    match (ended, outcome) {
        (Ok(()), Ok(outcome)) => Ok(outcome),
        (Ok(()), Err(_)) => Err(EventFault::Memory),
        (Err(fault), _) => Err(fault),
    }
}
