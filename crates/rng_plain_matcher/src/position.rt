// Where a matcher is in a document.
ghost use Rattle.std.specs.Prelude.{◌≡◌, IfOk};
ghost use Rattle.rng_model.specs.documents.EventViews.{event_kind_of};
ghost use Rattle.rng_model.specs.documents.PyxTrees as trees;
ghost use Rattle.rng_model.specs.matching.GrammarMatching.{reading_of};
ghost use Rattle.rng_model.specs.simple.Table.{grammar_of};
ghost use Rattle.rng_deriv_laws.specs.plain.Events.{new, settled, step};
ghost use Rattle.rng_plain_matcher.specs.views.States.{position_of, state_of};

use crate::context::Context;
use crate::datatypes::is_blank;
use crate::grammar_trees::tree_at;
use crate::state::{State, after_of, copy_state, end_tag, end_text, start_tag, string};
use rng_model::{EventKind, OutOfMemory};

/// What remains, whether the innermost open element has a child element already, and the string since the last tag,
/// which is empty if there is none.
#[derive(Drop)]
pub struct Position<'a> {
    pub state: State<'a>,
    pub has_begun: bool,
    pub held: String,
}

/// Returns where a matcher is before the first event. Fails only when out of memory.
pub fn first_position<'a>(context: &Context<'a>) -> Result<Position<'a>, OutOfMemory>
    ensures { IfOk result (λ first. position_of first ≡ new (grammar_of context.now.grammar.now).start) }
{
    let start = tree_at(context, context.grammar.start())?;
    let state = after_of(context, start, State::Finished)?;
    Ok(Position {
        state,
        has_begun: false,
        held: String::new(context.alloc),
    })
}

/// Returns the state after the string that is held, with an element beside it.
fn settled<'a>(context: &Context<'a>, position: &Position<'a>) -> Result<State<'a>, OutOfMemory>
    ensures { IfOk result (λ state. state_of state ≡ settled (reading_of context.now.grammar.now) (position_of position.now)) }
{
    let held = position.held.as_str();
    if is_blank(held) {
        let state = copy_state(context, &position.state)?;
        return Ok(state);
    }
    let state = string(context, &position.state, held)?;
    Ok(state)
}

/// Returns the state after the end of the innermost open element.
fn ended<'a>(context: &Context<'a>, position: &Position<'a>) -> Result<State<'a>, OutOfMemory>
    ensures { IfOk result (λ state. state_of state ≡ (step (reading_of context.now.grammar.now) (position_of position.now) trees.an_end).state) }
{
    if !position.has_begun {
        let state = end_text(context, &position.state, position.held.as_str())?;
        return Ok(state);
    }
    let before = settled(context, position)?;
    let state = end_tag(context, &before)?;
    Ok(state)
}

/// Returns where a matcher is after an event. Fails only when out of memory.
///
/// RELAX NG Specification, section 6.2.7: a string is held until the next event shows whether it is an only child.
pub fn step<'a>(
    context: &Context<'a>,
    position: &Position<'a>,
    kind: EventKind<'_>,
) -> Result<Position<'a>, OutOfMemory>
    ensures { IfOk result (λ next. position_of next ≡ step (reading_of context.now.grammar.now) (position_of position.now) (event_kind_of kind.entry)) }
{
    match kind {
        EventKind::Start { name, attrs } => {
            let state = settled(context, position)?;
            Ok(Position {
                state: start_tag(context, &state, name, attrs)?,
                has_begun: false,
                held: String::new(context.alloc),
            })
        }
        EventKind::Text(text) => {
            let state = copy_state(context, &position.state)?;
            Ok(Position {
                state,
                has_begun: position.has_begun,
                held: String::from_str(context.alloc, text)?,
            })
        }
        EventKind::End => Ok(Position {
            state: ended(context, position)?,
            has_begun: true,
            held: String::new(context.alloc),
        }),
    }
}
