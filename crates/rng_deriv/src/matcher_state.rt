// What a matcher keeps, without its grammar.
ghost use Rattle.std.specs.Prelude.{◌≡◌, ◌↔◌, List, IfOk, IfSome, IsErr, None, OnErr, OnOk, map};
ghost use Rattle.std.specs.Option.{option_map};
ghost use Rattle.rng_model.specs.simple.Table.{Table, grammar_of};
ghost use Rattle.rng_model.specs.documents.EventViews.{attribute_of};
ghost use Rattle.rng_model.specs.documents.PyxTrees as trees;
ghost use Rattle.rng_model.specs.matching.GrammarMatching.{reading_of};
ghost use Rattle.rng_model.specs.names.NameViews.{name_of};
ghost use Rattle.rng_expected.specs.Expectations.{IsExpected};
ghost use Rattle.rng_expected.specs.views.Next.{next_of, tag_of};
ghost use Rattle.rng_reasons.specs.views.Options.{options_of};
ghost use Rattle.rng_deriv_events.specs.views.Inputs.{tests_strings};
ghost use Rattle.rng_deriv_events.specs.views.Positions.{failed_line};
ghost use Rattle.rng_deriv.specs.views.Alternatives.{alternatives_at, left_here, numbers_at, unless_lost};
ghost use Rattle.rng_deriv.specs.views.Followers.{HasEndReason, HasStartReason, HasTagOptions, HaveLeft, MayFollow, MayHave, MayReplace};
ghost use Rattle.rng_deriv.specs.views.Matchers.{HasFailedAt, HasRunOut, IsStateBy, Knows, matching_in, trees_in};

use crate::learned::Learned;
use rng_deriv_events::{Innermost, Progress};
use rng_deriv_table::PatternNumber;
use rng_deriv_ways::Context;
use rng_expected::{Expected, ExpectedTag, expected, expected_tag};
use rng_model::{Name, OutOfMemory, SimpleGrammar};
use rng_reasons::{
    LeftHere, Reason, StartTag, TagBeginning, TagOptions, end_reason, reduced_pattern_law,
    start_reason, tag_options,
};
use std::alloc::Global;
use std::mem;

/// What a matcher keeps of a document, and what it has learned about a grammar, without the grammar.
///
/// `Matcher::into_state` returns it, and `Matcher::resume` makes a matcher from it and the grammar. So a document can
/// be kept between two of its pieces in a structure that cannot borrow the grammar, such as one that is passed to C.
#[derive(Drop)]
pub struct MatcherState {
    pub(crate) learned: Box<Learned>,
    pub(crate) progress: Progress,
}

/// Returns the alternatives, or none after a call ran out of memory, since then nothing is known of the table.
fn unless_lost(lost: bool, alternatives: &[PatternNumber]) -> &[PatternNumber]
    ensures { result.now ≡ unless_lost lost alternatives.now }
{
    if lost {
        return &[];
    }
    alternatives
}

/// Returns the alternatives behind the string since the last tag, or in its place.
fn numbers_at<'a>(in_place: bool, left: Innermost<'a>) -> &'a [PatternNumber]
    ensures { result.now ≡ numbers_at in_place left.entry }
{
    if in_place {
        return left.in_place;
    }
    left.alternatives
}

/// Returns the same alternatives as `rng_reasons` takes them.
fn left_here<'a>(left: Innermost<'a>) -> LeftHere<'a>
    ensures { result ≡ left_here left.entry }
{
    LeftHere {
        behind: left.alternatives,
        in_place: left.in_place,
        has_text: left.has_text,
    }
}

impl MatcherState {
    /// Returns the line of the event after which no continuation is valid, counted from 1, once it is known.
    ///
    /// No document that begins with the events up to that one is valid. Then `Matcher::finish` returns this line.
    /// Allocates nothing.
    pub fn failed_at(&self) -> Option<u64>
        ensures value { result ≡ failed_line self.now.progress }
        ensures failed { IfSome result (λ line. (grammar : Table) → HasFailedAt (matching_in grammar self.now) line) }
    {
        match self.progress {
            Progress::Failed { line, .. } => Some(line),
            Progress::Going { .. } | Progress::Lost => None,
        }
    }

    /// Returns whether an alternative that is left contains a data, a value or a list, so that it tests what a string says.
    /// Otherwise it only matters whether a string is blank (`Matcher::take_any_text`). False once no continuation is
    /// valid. True after a call that ran out of memory. Allocates nothing. RELAX NG Specification, section 6.2.
    pub fn tests_strings(&self) -> bool
        ensures { result ≡ tests_strings self.now.progress }
    {
        self.progress.tests_strings()
    }

    /// Returns what may come next in the innermost open element, or what could have come before the event after which no
    /// continuation is valid. Returns `None` exactly if a call ran out of memory.
    ///
    /// It is stated on what is left of the pattern (`Expected`). After a string it is what may come behind that string; a
    /// blank string counts as nothing. RELAX NG Specification, sections 6.2 and 6.2.7. Fails only when out of memory. Time
    /// and memory are linear in the number of patterns of the table.
    pub fn expected<'g>(
        &self,
        alloc: Global,
        grammar: &'g SimpleGrammar,
    ) -> Result<Option<Expected<'g>>, OutOfMemory>
        requires { IsStateBy grammar.now self.now }
        ensures expected { IfOk result (λ o. IfSome o (λ e. (es : List trees.Event) → Knows (matching_in grammar.now self.now) es
            → MayFollow (reading_of grammar.now) (matching_in grammar.now self.now) (next_of e) es)) }
        ensures none { IfOk result (λ o. (o ≡ None) ↔ HasRunOut (matching_in grammar.now self.now)) }
    {
        self.expected_at(alloc, grammar, false)
    }

    /// Returns what may come in place of the string since the last tag, or could have come in place of the one before the
    /// event after which no continuation is valid. If there is none, or it is blank, it is what `expected` returns.
    ///
    /// Returns `None`, fails and costs as `expected` does. RELAX NG Specification, sections 6.2 and 6.2.7.
    pub fn expected_in_place<'g>(
        &self,
        alloc: Global,
        grammar: &'g SimpleGrammar,
    ) -> Result<Option<Expected<'g>>, OutOfMemory>
        requires { IsStateBy grammar.now self.now }
        ensures expected { IfOk result (λ o. IfSome o (λ e. (es : List trees.Event) → Knows (matching_in grammar.now self.now) es
            → MayReplace (reading_of grammar.now) (matching_in grammar.now self.now) (next_of e) es)) }
        ensures none { IfOk result (λ o. (o ≡ None) ↔ HasRunOut (matching_in grammar.now self.now)) }
    {
        self.expected_at(alloc, grammar, true)
    }

    /// Returns what may come behind the string since the last tag, or in its place.
    fn expected_at<'g>(
        &self,
        alloc: Global,
        grammar: &'g SimpleGrammar,
        in_place: bool,
    ) -> Result<Option<Expected<'g>>, OutOfMemory>
        requires { IsStateBy grammar.now self.now }
        ensures expected { IfOk result (λ o. IfSome o (λ e. (es : List trees.Event) → Knows (matching_in grammar.now self.now) es
            → HaveLeft (reading_of grammar.now) (trees_in (matching_in grammar.now self.now))
            (λ left. IsExpected (grammar_of grammar.now) (alternatives_at in_place left) (next_of e)) self.now.progress es)) }
        ensures none { IfOk result (λ o. (o ≡ None) ↔ HasRunOut (matching_in grammar.now self.now)) }
    {
        let Some(left) = self.progress.innermost() else {
            return Ok(None);
        };
        let learned = &*self.learned;
        let alternatives = unless_lost(learned.lost, numbers_at(in_place, left));
        let expected = expected(alloc, grammar, &learned.table, alternatives)?;
        Ok(Some(expected))
    }

    /// Returns what the tag of a start of this name may have next, or could have had before the event after which no
    /// continuation is valid. Returns `None` exactly if a call ran out of memory.
    ///
    /// It is stated on what is left of the pattern (`expected_tag`). After a string it is what may come behind that string;
    /// a blank string counts as nothing. RELAX NG Specification, sections 6.2.7 and 6.2.8. Fails only when out of memory.
    /// Costs what `expected_tag` costs.
    pub fn expected_tag<'g>(
        &'g self,
        alloc: Global,
        grammar: &'g SimpleGrammar,
        name: &Name,
    ) -> Result<Option<ExpectedTag<'g>>, OutOfMemory>
        requires { IsStateBy grammar.now self.now }
        ensures tag { IfOk result (λ o. IfSome o (λ tag. (es : List trees.Event) → Knows (matching_in grammar.now self.now) es
            → MayHave (reading_of grammar.now) (matching_in grammar.now self.now) (name_of name.now) (tag_of tag) es)) }
        ensures none { IfOk result (λ o. (o ≡ None) ↔ HasRunOut (matching_in grammar.now self.now)) }
    {
        let Some(left) = self.progress.innermost() else {
            return Ok(None);
        };
        let learned = &*self.learned;
        if learned.lost {
            return Ok(Some(ExpectedTag::nothing(alloc)));
        }
        let context = Context {
            alloc,
            grammar,
            keys: &learned.keys,
            numbers: learned.numbers.as_slice(),
        };
        let tag = expected_tag(&context, &learned.table, left.alternatives, name)?;
        Ok(Some(tag))
    }

    /// Returns why a start tag leaves nothing of what may come next, or of what could have come before the event after which
    /// no continuation is valid. Returns `None` if it leaves something.
    ///
    /// It is stated on what is left of the pattern (`Reason`). What is known of the document stays, in a table that may have
    /// grown. RELAX NG Specification, sections 6.2.7 and 6.2.8. Fails only when out of memory, in this call or in an earlier
    /// one; from then on each call fails. Costs what `start_reason` of `rng_reasons` costs.
    pub fn start_reason(
        &mut self,
        alloc: Global,
        grammar: &SimpleGrammar,
        tag: &StartTag<'_>,
    ) -> Result<Option<Reason>, OutOfMemory>
        requires { IsStateBy grammar.now self.old }
        ensures state { IsStateBy grammar.now self.new }
        ensures knows { OnOk result ((es : List trees.Event) → Knows (matching_in grammar.now self.old) es
            → Knows (matching_in grammar.now self.new) es) }
        ensures same { OnOk result (self.new.progress ≡ self.old.progress) }
        ensures reason { IfOk result (λ reason. (es : List trees.Event) → Knows (matching_in grammar.now self.old) es
            → HasStartReason (reading_of grammar.now) self.old.progress (trees_in (matching_in grammar.now self.new))
            (name_of tag.now.name.now) (map attribute_of tag.now.attrs.now) reason es) }
        ensures lost { OnErr result (HasRunOut (matching_in grammar.now self.new)) }
        ensures again { HasRunOut (matching_in grammar.now self.old) → IsErr result }
    {
        let progress = mem::replace(&mut self.progress, Progress::Lost);
        let Some(left) = progress.innermost() else {
            return Err(OutOfMemory);
        };
        let learned = &mut *self.learned;
        if learned.lost {
            return Err(OutOfMemory);
        }
        let context = Context {
            alloc,
            grammar,
            keys: &learned.keys,
            numbers: learned.numbers.as_slice(),
        };
        let left = left_here(left);
        learned.lost = true;
        let reason = start_reason(&context, &mut learned.table, &mut learned.known, &left, tag)?;
        reduced_pattern_law(&learned.table);
        learned.lost = false;
        self.progress = progress;
        Ok(reason)
    }

    /// Returns what a start tag may have after these attributes, by what may come next or could have come before the event
    /// after which no continuation is valid; and what the value of an attribute of the given name may be there. Returns `None`
    /// if nothing is left after the attributes.
    ///
    /// It is stated on what is left of the pattern (`TagOptions`). What is known of the document stays, in a table that may have
    /// grown. RELAX NG Specification, sections 6.2.7 and 6.2.8. Fails only when out of memory, in this call or in an earlier
    /// one; from then on each call fails. Costs what `tag_options` of `rng_reasons` costs.
    pub fn tag_options<'g>(
        &mut self,
        alloc: Global,
        grammar: &'g SimpleGrammar,
        tag: &StartTag<'_>,
        named: &Name,
    ) -> Result<Option<TagOptions<'g>>, OutOfMemory>
        requires { IsStateBy grammar.now self.old }
        ensures state { IsStateBy grammar.now self.new }
        ensures knows { OnOk result ((es : List trees.Event) → Knows (matching_in grammar.now self.old) es
            → Knows (matching_in grammar.now self.new) es) }
        ensures same { OnOk result (self.new.progress ≡ self.old.progress) }
        ensures options { IfOk result (λ o. (es : List trees.Event) → Knows (matching_in grammar.now self.old) es
            → HasTagOptions (reading_of grammar.now) self.old.progress (trees_in (matching_in grammar.now self.new))
            (name_of tag.now.name.now) (map attribute_of tag.now.attrs.now) (name_of named.now) (option_map options_of o) es) }
        ensures lost { OnErr result (HasRunOut (matching_in grammar.now self.new)) }
        ensures again { HasRunOut (matching_in grammar.now self.old) → IsErr result }
    {
        let progress = mem::replace(&mut self.progress, Progress::Lost);
        let Some(left) = progress.innermost() else {
            return Err(OutOfMemory);
        };
        let learned = &mut *self.learned;
        if learned.lost {
            return Err(OutOfMemory);
        }
        let context = Context {
            alloc,
            grammar,
            keys: &learned.keys,
            numbers: learned.numbers.as_slice(),
        };
        let begun = TagBeginning {
            alternatives: left.alternatives,
            name: tag.name,
            attrs: tag.attrs,
            named,
        };
        learned.lost = true;
        let options = tag_options(
            &context,
            grammar,
            &mut learned.table,
            &mut learned.known,
            &begun,
        )?;
        reduced_pattern_law(&learned.table);
        learned.lost = false;
        self.progress = progress;
        Ok(options)
    }

    /// Returns why an end tag leaves nothing, where it may not come: what `start_reason` does of a start tag.
    ///
    /// RELAX NG Specification, section 6.2.7. Fails only when out of memory, in this call or in an earlier one. Costs what
    /// `end_reason` of `rng_reasons` costs.
    pub fn end_reason(&self, alloc: Global, grammar: &SimpleGrammar) -> Result<Reason, OutOfMemory>
        requires { IsStateBy grammar.now self.now }
        ensures { IfOk result (λ reason. (es : List trees.Event) → Knows (matching_in grammar.now self.now) es
            → HasEndReason (reading_of grammar.now) (matching_in grammar.now self.now) reason es) }
    {
        let Some(left) = self.progress.innermost() else {
            return Err(OutOfMemory);
        };
        let learned = &*self.learned;
        if learned.lost {
            return Err(OutOfMemory);
        }
        let context = Context {
            alloc,
            grammar,
            keys: &learned.keys,
            numbers: learned.numbers.as_slice(),
        };
        let left = left_here(left);
        let reason = end_reason(&context, &learned.table, &left)?;
        Ok(reason)
    }
}
