// The matcher of a grammar.
ghost use Rattle.std.specs.Prelude.{◌≡◌, ℕ, List, [], ◌∷◌, ◌++◌, IfOk, OnErr, OnOk};
ghost use Rattle.rng_model.specs.simple.Table.{grammar_of};
ghost use Rattle.rng_model.specs.restrictions.RestrictionFaults.{BreaksNone};
ghost use Rattle.rng_model.specs.documents.EventViews.{event_of};
ghost use Rattle.rng_model.specs.documents.ElementTrees.{IsElementTree};
ghost use Rattle.rng_model.specs.documents.PyxTrees as trees;
ghost use Rattle.rng_model.specs.documents.PyxTrees.{Placed, events_of};
ghost use Rattle.rng_model.specs.matching.GrammarMatching.{reading_of};
ghost use Rattle.rng_model.specs.matching.Outcomes.{IsOutcome};
ghost use Rattle.rng_plain_matcher.specs.views.Matchers.{HasGoneOn, Knows, after_event, grammar_in, matching_of};

use crate::context::Context;
use crate::position::{Position, first_position, step};
use crate::state::{accepts, is_never};
use rng_model::{Event, Events, OutOfMemory, Outcome, SimpleGrammar};
use std::alloc::Global;

/// A matcher over owned trees of patterns. It takes the events of a document one by one, and reports whether the document
/// is valid by a grammar.
///
/// RELAX NG Specification, sections 6.2 and 6.3. It keeps what remains of the document: for each open element the
/// patterns that remain in it. What it keeps may double with each event.
#[derive(Drop)]
pub struct PlainMatcher<'a> {
    context: Context<'a>,
    position: Position<'a>,
    /// The line of the last event, or of the event after which no continuation was valid.
    line: u64,
    /// Whether no continuation is valid.
    has_failed: bool,
}

impl<'a> PlainMatcher<'a> {
    /// Creates a matcher of a document by a grammar that obeys the restrictions. It has had no event yet.
    ///
    /// RELAX NG Specification, section 7. Fails only when out of memory. Costs a copy of the start as a tree.
    pub fn new(alloc: Global, grammar: &'a SimpleGrammar) -> Result<Self, OutOfMemory>
        requires { BreaksNone (grammar_of grammar.now) }
        ensures grammar { IfOk result (λ m. grammar_in m ≡ grammar.now) }
        ensures knows { IfOk result (λ m. Knows (matching_of m) []) }
    {
        let context = Context { alloc, grammar };
        let position = first_position(&context)?;
        Ok(PlainMatcher {
            context,
            position,
            line: 0,
            has_failed: false,
        })
    }

    /// Takes the next event.
    fn take(&mut self, event: Event<'_>) -> Result<(), OutOfMemory>
        ensures after { OnOk result (matching_of self.new ≡ after_event (matching_of self.old) (event_of event.entry)) }
        ensures same { OnErr result (self.new ≡ self.old) }
    {
        let position = step(&self.context, &self.position, event.kind)?;
        if self.has_failed {
            self.position = position;
            return Ok(());
        }
        self.line = event.line;
        self.has_failed = is_never(&position.state);
        self.position = position;
        Ok(())
    }

    /// Returns the outcome of the document with the events that were taken: `Valid` exactly if the document is valid by
    /// the grammar, otherwise `Invalid` with the line of the first event after which nothing is left, counted from 1.
    ///
    /// No continuation after that event is valid, and each start before it has a name that the grammar has. RELAX NG
    /// Specification, section 6.3. Allocates nothing.
    pub fn outcome(&self) -> Outcome
        ensures { (d : Placed) → IsElementTree d → Knows (matching_of self.now) (events_of d)
            → IsOutcome (reading_of (grammar_in self.now)) d result }
    {
        if accepts(&self.position.state) {
            Outcome::Valid
        } else {
            Outcome::Invalid(self.line)
        }
    }
}

impl Events for PlainMatcher<'_> {
    ghost stands = { HasGoneOn };

    /// Takes the next event.
    ///
    /// RELAX NG Specification, section 6.2. Fails only when out of memory, and then changes nothing.
    fn event(&mut self, event: Event<'_>) -> Result<(), OutOfMemory>
        ensures stands { OnOk result ((first : PlainMatcher) (events : List trees.Event) → HasGoneOn first self.old events
            → HasGoneOn first self.new (events ++ event_of event.entry ∷ [])) }
        ensures grammar { OnOk result (grammar_in self.new ≡ grammar_in self.old) }
        ensures knows { OnOk result ((events : List trees.Event) → Knows (matching_of self.old) events
            → Knows (matching_of self.new) (events ++ event_of event.entry ∷ [])) }
        ensures same { OnErr result (self.new ≡ self.old) }
    {
        self.take(event)?;
        Ok(())
    }
}
