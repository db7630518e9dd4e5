// Calls that are told to the matcher. A string is passed over where no alternative that is left tests what it says. Then
// the matcher is told of it once the next start or end gives it a place.
ghost use Rattle.std.specs.Prelude.{◌≡◌, ℕ, List, [], Err, IfErr, IfSome, IsErrOf, None, OnOk, Some, false, true};
ghost use Rattle.rng_model.specs.documents.EventViews.{Hands};
ghost use Rattle.rng_model.specs.documents.PyxTrees.{Event, a_string, an_end};
ghost use Rattle.rng_model.specs.documents.Telling.{BeginToTell, string_at};
ghost use Rattle.rng_deriv_events.specs.views.Inputs.{tests_strings};
ghost use Rattle.rng_deriv.specs.views.Matchers.{HasGoneOn};
ghost use Rattle.element_events.specs.views.Kept.{Adds, IsPassed, Stands};
ghost use Rattle.element_events.specs.views.Told.{UnlessOutOfMemory, call, start_told};
ghost use Rattle.rncv_events.specs.views.Leading.{LeadsOn, MayPass};

use element_events::{Attribute, ElementEvents, EventFault, ExpandedName};
use rng_deriv::Matcher;
use rng_model::OutOfMemory;

/// Takes a text. It is kept if an alternative that is left tests what a string says, and passed over otherwise.
#[inline(always)]
pub fn tell_text(
    calls: &mut ElementEvents,
    tests_strings: bool,
    text: &str,
) -> Result<(), EventFault>
    ensures stands { (place : ℕ) → UnlessOutOfMemory result (Adds calls.old calls.new (call place (a_string text.now))) }
    ensures kept { tests_strings ≡ true → calls.old.passed ≡ None → calls.new.passed ≡ None }
    ensures held { OnOk result (tests_strings ≡ false → calls.old.state.text ≡ [] → calls.new.state.text ≡ []) }
    ensures begins { OnOk result ((told sent : List Event) → Stands calls.new told sent → BeginToTell told sent) }
    ensures fault { IfErr result (λ f. calls.new.fault ≡ Some f) }
    ensures working { OnOk result (calls.new.fault ≡ None) }
{
    if tests_strings {
        calls.text(text)
    } else {
        calls.pass_text(text)
    }
}

/// Tells the matcher of the string that was passed over, if one was, with this place.
fn tell_passed(
    calls: &ElementEvents,
    matcher: &mut Matcher<'_>,
    place: u64,
) -> Result<(), OutOfMemory>
    requires { MayPass calls.now.passed matcher.old.progress }
    ensures { OnOk result ((text : List ℕ) → IsPassed calls.now.passed text → Hands HasGoneOn matcher.old matcher.new (string_at place text)) }
{
    match calls.passed() {
        Some(blank) => matcher.take_any_text(place, blank),
        None => Ok(()),
    }
}

/// Takes the start of an element, and tells the matcher of it.
pub fn tell_start(
    calls: &mut ElementEvents,
    matcher: &mut Matcher<'_>,
    place: u64,
    name: ExpandedName<'_>,
    attributes: &[Attribute<'_>],
) -> Result<(), EventFault>
    requires { MayPass calls.old.passed matcher.old.progress }
    ensures leads { UnlessOutOfMemory result (LeadsOn matcher.old matcher.new calls.old calls.new (call place (start_told name.entry attributes.now))) }
    ensures begins { OnOk result ((told sent : List Event) → Stands calls.new told sent → BeginToTell told sent) }
    ensures fault { IsErrOf result EventFault.NotWellFormed → calls.new.fault ≡ Some EventFault.NotWellFormed }
    ensures working { OnOk result (calls.new.fault ≡ None) }
    ensures passed { OnOk result (calls.new.passed ≡ None) }
    ensures held { OnOk result (calls.new.state.text ≡ []) }
{
    tell_passed(calls, matcher, place)?;
    calls.start(place, name, attributes, matcher)
}

/// Takes the end of the innermost element, and tells the matcher of it.
pub fn tell_end(
    calls: &mut ElementEvents,
    matcher: &mut Matcher<'_>,
    place: u64,
) -> Result<(), EventFault>
    requires { MayPass calls.old.passed matcher.old.progress }
    ensures leads { UnlessOutOfMemory result (LeadsOn matcher.old matcher.new calls.old calls.new (call place an_end)) }
    ensures begins { OnOk result ((told sent : List Event) → Stands calls.new told sent → BeginToTell told sent) }
    ensures fault { IsErrOf result EventFault.NotWellFormed → calls.new.fault ≡ Some EventFault.NotWellFormed }
    ensures working { OnOk result (calls.new.fault ≡ None) }
    ensures passed { OnOk result (calls.new.passed ≡ None) }
    ensures held { OnOk result (calls.new.state.text ≡ []) }
{
    tell_passed(calls, matcher, place)?;
    calls.end(place, matcher)
}
