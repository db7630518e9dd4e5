// The matcher of a grammar.
ghost use Rattle.std.specs.Prelude.{◌≡◌, ℕ, List, [], ◌∷◌, ◌++◌, IfOk, IsErr, OnErr, OnOk, false};
ghost use Rattle.rng_model.specs.simple.Table.{grammar_of};
ghost use Rattle.rng_model.specs.restrictions.RestrictionFaults.{BreaksNone};
ghost use Rattle.rng_model.specs.documents.EventViews.{event_of, Hands};
ghost use Rattle.rng_model.specs.documents.ElementTrees.{IsElementTree};
ghost use Rattle.rng_model.specs.documents.PyxTrees as trees;
ghost use Rattle.rng_model.specs.documents.PyxTrees.{Placed, events_of};
ghost use Rattle.rng_model.specs.matching.GrammarMatching.{reading_of};
ghost use Rattle.rng_model.specs.matching.Outcomes.{IsOutcome};
ghost use Rattle.rng_model.specs.datatypes.Texts.{is_blank};
ghost use Rattle.rng_deriv_events.specs.views.Inputs.{event_at, tests_strings};
ghost use Rattle.rng_deriv_events.specs.views.NextEnds.{TellsEnd};
ghost use Rattle.rng_deriv_events.specs.views.Positions.{KeepsTag};
ghost use Rattle.rng_deriv.specs.views.Matchers.{HasFailedAt, HasGoneOn, HasRunOut, IsStateBy, Knows, judges_by, matching_in};
ghost use Rattle.rng_model.specs.declared.outcome.Outcome.{Outcome};

use crate::grammar_derivatives::GrammarDerivatives;
use crate::matcher_state::MatcherState;
use rng_deriv_events::EventMatcher;
use rng_model::{Event, Events, OutOfMemory, Outcome, SimpleGrammar};
use rng_reasons::reduced_pattern_law;
use std::alloc::Global;
use std::marker::Model;

/// A matcher. It takes the events of a document one by one, and reports whether the document is valid by a grammar.
///
/// RELAX NG Specification, sections 6.2, 6.3 and 7. Of a document it keeps numbers of patterns alone: the alternatives
/// for what remains of the innermost open element, and for each open element the ways out of it. No name, text or
/// attribute value is copied, but for the start tag after which nothing is left, and only for who asked for reasons
/// (`MatcherState::want_reasons`). What it learns about the grammar depends on keys of names and on outcomes of tests.
/// After a call runs out of memory, each call fails with that error.
#[derive(Drop)]
pub struct Matcher<'a> {
    matcher: EventMatcher<GrammarDerivatives<'a>>,
}

impl<'a> Model for Matcher<'a> {
    ghost use Rattle.rng_deriv.specs.views.Matchers.{Matching, matching_of};

    ghost Value = { Matching };

    ghost use Rattle.rng_model.specs.contracts.name.NameClass as classes;
    ghost use Rattle.std.specs.Coded.{codes};

    ghost coded = { Prim.hlevel (codes, classes.the_row.coded) };

    ghost view = { λ m. matching_of m.matcher };
}

impl<'a> Matcher<'a> {
    /// Creates a matcher of documents by a grammar that obeys the restrictions. It has had no event yet.
    ///
    /// RELAX NG Specification, sections 6.2 and 7. Fails only when out of memory. Costs some look-ups by hashing for
    /// each pattern of the grammar, and sorting its choices.
    pub fn new(alloc: Global, grammar: &'a SimpleGrammar) -> Result<Self, OutOfMemory>
        requires { BreaksNone (grammar_of grammar.now) }
        ensures grammar { IfOk result (λ m. m.grammar ≡ grammar.now) }
        ensures reading { IfOk result (λ m. judges_by m ≡ reading_of grammar.now) }
        ensures knows { IfOk result (λ m. Knows m []) }
        ensures mode { IfOk result (λ m. KeepsTag false m.progress) }
        ensures kept { IfOk result (λ m. ¬ (HasRunOut m)) }
    {
        let derivatives = GrammarDerivatives::new(alloc, grammar)?;
        let matcher = EventMatcher::new(alloc, derivatives)?;
        Ok(Matcher { matcher })
    }

    /// Returns a matcher by the same grammar that has had no event yet, and that keeps what this one has learned about
    /// the grammar. A start or a text that is known costs only some look-ups by hashing. RELAX NG Specification,
    /// section 6.2. Fails only when this call, or an earlier one, is out of memory.
    pub fn begin_anew(self) -> Result<Self, OutOfMemory>
        ensures grammar { IfOk result (λ m. m.grammar ≡ self.entry.grammar) }
        ensures knows { IfOk result (λ m. Knows m []) }
        ensures mode { IfOk result (λ m. KeepsTag false m.progress) }
        ensures kept { IfOk result (λ m. ¬ (HasRunOut m)) }
    {
        let matcher = self.matcher.begin_anew()?;
        Ok(Matcher { matcher })
    }

    /// Returns the matcher that had this state, by the same grammar. Allocates nothing.
    pub fn resume(alloc: Global, grammar: &'a SimpleGrammar, state: MatcherState) -> Self
        requires { IsStateBy grammar.now state }
        ensures { result ≡ matching_in grammar.now state }
    {
        let MatcherState { learned, progress } = state;
        let derivatives = GrammarDerivatives { grammar, learned };
        let matcher = EventMatcher::of_parts(alloc, derivatives, progress);
        Matcher { matcher }
    }

    /// Returns what the matcher keeps, without the grammar. Allocates nothing.
    pub fn into_state(self) -> MatcherState
        ensures state { IsStateBy self.entry.grammar result }
        ensures same { matching_in self.entry.grammar result ≡ self.entry }
    {
        let (derivatives, progress) = self.matcher.into_parts();
        let GrammarDerivatives { learned, .. } = derivatives;
        reduced_pattern_law(&learned.table);
        MatcherState { learned, progress }
    }

    /// Takes a string of which only this is known: whether it is blank. No alternative that is left tests what a string
    /// says (`MatcherState::tests_strings`), so each such string leads to the same.
    ///
    /// RELAX NG Specification, sections 6.2 and 6.2.7. Fails only when out of memory. Costs a few comparisons, once a string
    /// has come where the same alternatives were left.
    pub fn take_any_text(&mut self, line: u64, blank: bool) -> Result<(), OutOfMemory>
        requires { tests_strings self.old.progress ≡ false }
        ensures stands { OnOk result ((text : List ℕ) → is_blank text ≡ blank
            → Hands HasGoneOn self.old self.new (event_at line (trees.a_string text) ∷ [])) }
        ensures knows { OnOk result ((text : List ℕ) (es : List trees.Event) → is_blank text ≡ blank → Knows self.old es
            → Knows self.new (es ++ record { line = line; kind = trees.a_string text } ∷ [])) }
        ensures grammar { OnOk result (judges_by self.new ≡ judges_by self.old) }
        ensures failed { OnOk result ((at : ℕ) → HasFailedAt self.old at → HasFailedAt self.new at) }
        ensures kept { OnOk result (¬ (HasRunOut self.new)) }
        ensures lost { OnErr result (HasRunOut self.new) }
    {
        self.matcher.take_any_text(line, blank)
    }

    /// Returns whether the end tag of the innermost open element may come next, or could have come before the event after
    /// which no continuation is valid. What is known stays so.
    ///
    /// It may come where an element is open and some alternative for what remains of it may end: behind the string that has
    /// come since the last tag, if there is a child element, otherwise with that string alone. RELAX NG Specification,
    /// sections 6.2 and 6.2.7. Fails only when out of memory. Costs a test of each alternative; if an element has nothing,
    /// also what an empty text costs.
    pub fn may_end(&mut self) -> Result<bool, OutOfMemory>
        ensures ends { IfOk result (λ told. (es : List trees.Event) → Knows self.old es → TellsEnd (judges_by self.old) self.old.progress told es) }
        ensures same { OnOk result (HasGoneOn self.old self.new []) }
        ensures knows { OnOk result ((es : List trees.Event) → Knows self.old es → Knows self.new es) }
        ensures grammar { OnOk result (judges_by self.new ≡ judges_by self.old) }
        ensures failed { OnOk result ((line : ℕ) → HasFailedAt self.old line → HasFailedAt self.new line) }
        ensures kept { OnOk result (¬ (HasRunOut self.new)) }
        ensures tests { OnOk result (tests_strings self.new.progress ≡ tests_strings self.old.progress) }
        ensures lost { OnErr result (HasRunOut self.new) }
        ensures again { HasRunOut self.old → IsErr result }
    {
        self.matcher.may_end()
    }

    /// Returns the outcome of the document with the events that were taken: `Valid` exactly if the document is valid by
    /// the grammar, otherwise `Invalid` with the line of one of its events, counted from 1.
    ///
    /// No continuation after the event of that line is valid, and each start before it has a name that the grammar has.
    /// The line need not be the first one of this kind. RELAX NG Specification, section 6.3. Fails exactly if a call of
    /// `event` ran out of memory. Allocates nothing. Costs a test of each alternative.
    pub fn outcome(&self) -> Result<Outcome, OutOfMemory>
        ensures outcome { IfOk result (λ o. (d : Placed) → IsElementTree d → Knows self.now (events_of d)
            → IsOutcome (judges_by self.now) d o) }
        ensures failed { (line : ℕ) → HasFailedAt self.now line → IfOk result (λ o. o ≡ Outcome.Invalid line) }
        ensures lost { OnErr result (HasRunOut self.now) }
        ensures again { HasRunOut self.now → IsErr result }
    {
        self.matcher.outcome()
    }

    /// Returns the `outcome` of a matcher that has taken all events, and frees the matcher. Fails and costs as `outcome`
    /// does.
    ///
    /// RELAX NG Specification, section 6.3.
    pub fn finish(self) -> Result<Outcome, OutOfMemory>
        ensures outcome { IfOk result (λ o. (d : Placed) → IsElementTree d → Knows self.entry (events_of d)
            → IsOutcome (judges_by self.entry) d o) }
        ensures failed { (line : ℕ) → HasFailedAt self.entry line → IfOk result (λ o. o ≡ Outcome.Invalid line) }
        ensures lost { OnErr result (HasRunOut self.entry) }
        ensures again { HasRunOut self.entry → IsErr result }
    {
        self.outcome()
    }
}

impl Events for Matcher<'_> {
    ghost stands = { HasGoneOn };

    /// Takes the next event.
    ///
    /// RELAX NG Specification, section 6.2. Fails only when out of memory. After that, each call fails with that error.
    /// A start costs a few comparisons or a look-up by hashing if one with a name of its key has been met where the same
    /// alternatives were left. Otherwise it costs a walk through the parts of each alternative. Each attribute and each
    /// text costs some look-ups by hashing, or such a walk, for each alternative. An end costs a few comparisons if one
    /// of this kind has been met, otherwise a choice for each way out of the element. If there are many patterns, or if
    /// much is kept, what no open element holds is freed, in one pass over all.
    fn event(&mut self, event: Event<'_>) -> Result<(), OutOfMemory>
        ensures stands { OnOk result (Hands HasGoneOn self.old self.new (event_of event.entry ∷ [])) }
        ensures knows { OnOk result ((es : List trees.Event) → Knows self.old es → Knows self.new (es ++ event_of event.entry ∷ [])) }
        ensures grammar { OnOk result (judges_by self.new ≡ judges_by self.old) }
        ensures failed { OnOk result ((line : ℕ) → HasFailedAt self.old line → HasFailedAt self.new line) }
        ensures kept { OnOk result (¬ (HasRunOut self.new)) }
        ensures lost { OnErr result (HasRunOut self.new) }
        ensures again { HasRunOut self.old → IsErr result }
    {
        self.matcher.take(event)
    }
}
