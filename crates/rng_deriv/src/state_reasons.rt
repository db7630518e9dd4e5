// Why no continuation of a document is valid.
ghost use Rattle.std.specs.Prelude.{◌≡◌, ◌↔◌, ◌⊎◌, IfOk, IfSome, IsErr, List, None, OnErr, OnOk, true};
ghost use Rattle.rng_model.specs.documents.PyxTrees as trees;
ghost use Rattle.rng_model.specs.matching.GrammarMatching.{reading_of};
ghost use Rattle.rng_model.specs.simple.Table.{Table};
ghost use Rattle.rng_deriv_events.specs.views.FailedEvents.{is_told};
ghost use Rattle.rng_deriv_events.specs.views.Inputs.{tests_strings};
ghost use Rattle.rng_deriv_events.specs.views.Positions.{IsLost, KeepsTag, failed_line, tells_reason};
ghost use Rattle.rng_deriv.specs.views.Followers.{IsReason, TellsNone};
ghost use Rattle.rng_deriv.specs.views.KeptEvents.{KeepsFailed};
ghost use Rattle.rng_deriv.specs.views.Matchers.{HasRunOut, IsStateBy, Knows, matching_in, trees_in};

use crate::matcher_state::MatcherState;
use rng_deriv_events::{FailedEvent, Progress};
use rng_model::{OutOfMemory, SimpleGrammar};
use rng_reasons::{Reason, StartTag};
use std::alloc::Global;

/// Returns a copy of what is kept of the event after which no continuation is valid, and whether the end tag could have come in its place.
/// Fails only when out of memory, in this call or in an earlier one.
fn failed_event(
    alloc: Global,
    progress: &Progress,
) -> Result<Option<(FailedEvent, bool)>, OutOfMemory>
    ensures event { IfOk result (λ o. IfSome o (λ e. KeepsFailed e.0 e.1 progress.now)) }
    ensures told { IfOk result (λ o. IfSome o (λ e. is_told e.0 ≡ tells_reason progress.now)) }
    ensures none { IfOk result (λ o. (o ≡ None) ↔ (failed_line progress.now ≡ None)) }
    ensures kept { OnOk result (¬ (IsLost progress.now)) }
{
    match progress {
        Progress::Failed { left, .. } => {
            let event = left.event.copied(alloc)?;
            Ok(Some((event, left.may_end)))
        }
        Progress::Going { .. } => Ok(None),
        Progress::Lost => Err(OutOfMemory),
    }
}

impl MatcherState {
    /// From now on keeps the start tag after which nothing is left, so that `reason` can tell why: its name, and its
    /// attributes with their values, until `forget`. If no continuation is valid already, nothing is kept of the event.
    ///
    /// What is known of the document stays. Allocates nothing.
    pub fn want_reasons(&mut self)
        ensures state { (t : Table) → IsStateBy t self.old → IsStateBy t self.new }
        ensures knows { (t : Table) (es : List trees.Event) → Knows (matching_in t self.old) es → Knows (matching_in t self.new) es }
        ensures wanted { failed_line self.old.progress ≡ None → KeepsTag true self.new.progress }
        ensures failed { failed_line self.new.progress ≡ failed_line self.old.progress }
        ensures tests { tests_strings self.new.progress ≡ tests_strings self.old.progress }
        ensures lost { IsLost self.new.progress → IsLost self.old.progress }
    {
        self.progress.keep_tag();
    }

    /// Drops what is kept of the event after which no continuation is valid, if there is one. Then nothing is known of the
    /// document. What was learned about the grammar stays. Allocates nothing.
    pub fn forget(&mut self)
        ensures state { (t : Table) → IsStateBy t self.old → IsStateBy t self.new }
        ensures gone { failed_line self.new.progress ≡ None }
    {
        self.progress.forget_failure();
    }

    /// Returns why no continuation is valid after the event of `failed_at`, or `None` exactly if no such event is known, or if
    /// nothing is kept of it: of a start, unless `want_reasons` was called before.
    ///
    /// It is what `start_reason` or `end_reason` returns for the event, by what could have come before it. It is
    /// `NothingMatches` where they find none: by the patterns the event leaves something, but no document with it is valid.
    /// What is known of the document stays, in a table that may have grown. RELAX NG Specification, sections 6.2.7 and
    /// 6.2.8. Fails only when out of memory, in this call or in an earlier one. Then what is kept is unchanged, or each later
    /// call fails. Costs a copy of the tag, and what `start_reason` and `end_reason` cost.
    pub fn reason(
        &mut self,
        alloc: Global,
        grammar: &SimpleGrammar,
    ) -> Result<Option<Reason>, OutOfMemory>
        requires { IsStateBy grammar.now self.old }
        ensures state { IsStateBy grammar.now self.new }
        ensures knows { OnOk result ((es : List trees.Event) → Knows (matching_in grammar.now self.old) es
            → Knows (matching_in grammar.now self.new) es) }
        ensures same { OnOk result (self.new.progress ≡ self.old.progress) }
        ensures reason { IfOk result (λ reason. (es : List trees.Event) → Knows (matching_in grammar.now self.old) es
            → IsReason (reading_of grammar.now) self.old.progress (trees_in (matching_in grammar.now self.new)) reason es) }
        ensures none { IfOk result (TellsNone self.old.progress) }
        ensures failed { OnErr result ((self.new ≡ self.old) ⊎ HasRunOut (matching_in grammar.now self.new)) }
        ensures again { HasRunOut (matching_in grammar.now self.old) → IsErr result }
    {
        let Some((event, may_end)) = failed_event(alloc, &self.progress)? else {
            return Ok(None);
        };
        match event {
            FailedEvent::Start { name, attrs } => {
                let tag = StartTag {
                    name: &name,
                    attrs: attrs.as_slice(),
                };
                let reason = self.start_reason(alloc, grammar, &tag)?;
                Ok(Some(reason.unwrap_or(Reason::NothingMatches)))
            }
            FailedEvent::UnkeptStart => Ok(None),
            FailedEvent::Text => Ok(Some(Reason::NothingMatches)),
            FailedEvent::End => {
                if may_end {
                    return Ok(Some(Reason::NothingMatches));
                }
                let reason = self.end_reason(alloc, grammar)?;
                Ok(Some(reason))
            }
        }
    }
}
