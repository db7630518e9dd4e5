// Texts that a data takes, with its except.
ghost use Rattle.std.specs.Prelude.{◌≡◌, IfOk};
ghost use Rattle.rng_model.specs.matching.GrammarMatching.{reading_of};
ghost use Rattle.rng_deriv_laws.specs.plain.Derivatives.{is_excepted, takes_text};
ghost use Rattle.rng_deriv_laws.specs.plain.Derivatives as laws;
ghost use Rattle.rng_plain_matcher.specs.views.Trees.{tree_of};

use crate::context::Context;
use crate::datatypes::{allows, equals};
use crate::tree::{Connector, Tree};
use rng_model::OutOfMemory;

/// Returns whether the except of a data has a text. Fails only when out of memory.
///
/// RELAX NG Specification, section 6.2.8.
fn is_excepted(context: &Context, except: &Tree, text: &str) -> Result<bool, OutOfMemory>
    ensures { IfOk result (λ has. has ≡ is_excepted (reading_of context.now.grammar.now) (tree_of except.now) text.now) }
{
    match except {
        Tree::Data(datatype) => allows(context, datatype, text),
        Tree::DataExcept(datatype, inner) => {
            let allowed = allows(context, datatype, text)?;
            let excepted = is_excepted(context, inner, text)?;
            Ok(allowed && !excepted)
        }
        Tree::Value(value) => equals(context, value, text),
        Tree::Joined(Connector::Choice, first, second) => {
            let by_first = is_excepted(context, first, text)?;
            let by_second = is_excepted(context, second, text)?;
            Ok(by_first || by_second)
        }
        Tree::NotAllowed
        | Tree::Empty
        | Tree::Text
        | Tree::Element(_)
        | Tree::Attribute(_, _)
        | Tree::List(_)
        | Tree::OneOrMore(_)
        | Tree::Joined(Connector::Group | Connector::Interleave, _, _) => Ok(false),
    }
}

/// Returns whether a leaf takes a text that is not in a list: a text, a data or a value (RELAX NG Specification,
/// sections 6.2.4, 6.2.8 and 6.2.9). Fails only when out of memory.
pub fn takes_piece(context: &Context, leaf: &Tree, text: &str) -> Result<bool, OutOfMemory>
    ensures { IfOk result (λ takes. takes ≡ takes_text (reading_of context.now.grammar.now) (laws.no_list (reading_of context.now.grammar.now)) text.now (tree_of leaf.now)) }
{
    match leaf {
        Tree::Text => Ok(true),
        Tree::Data(datatype) => allows(context, datatype, text),
        Tree::DataExcept(datatype, except) => {
            let allowed = allows(context, datatype, text)?;
            let excepted = is_excepted(context, except, text)?;
            Ok(allowed && !excepted)
        }
        Tree::Value(value) => equals(context, value, text),
        Tree::NotAllowed
        | Tree::Empty
        | Tree::Element(_)
        | Tree::Attribute(_, _)
        | Tree::List(_)
        | Tree::OneOrMore(_)
        | Tree::Joined(_, _, _) => Ok(false),
    }
}
