// The patterns of a grammar as trees.
ghost use Rattle.std.specs.Prelude.{◌≡◌, IfOk};
ghost use Rattle.rng_model.specs.simple.Table.{tree_at};
ghost use Rattle.rng_plain_matcher.specs.views.Trees.{tree_of};

use crate::context::Context;
use crate::tree::{Connector, Tree};
use rng_model::{OutOfMemory, PatternId, Simple};

/// Returns the pattern at a position of the grammar, as a tree: notAllowed past the end of the table.
///
/// Fails only when out of memory. The cost is the size of the tree.
#[cycle(trees)]
pub fn tree_at<'a>(context: &Context<'a>, position: PatternId) -> Result<Tree<'a>, OutOfMemory>
    ensures { IfOk result (λ tree. tree_of tree ≡ tree_at context.now.grammar.now.patterns position) }
{
    let Some(pattern) = context.grammar.pattern(position) else {
        return Ok(Tree::NotAllowed);
    };
    match pattern {
        Simple::NotAllowed => Ok(Tree::NotAllowed),
        Simple::Empty => Ok(Tree::Empty),
        Simple::Text => Ok(Tree::Text),
        Simple::Element(element) => Ok(Tree::Element(*element)),
        Simple::Attribute(class, body) => Ok(Tree::Attribute(class, boxed(context, *body)?)),
        Simple::List(body) => Ok(Tree::List(boxed(context, *body)?)),
        Simple::Data(datatype) => Ok(Tree::Data(datatype)),
        Simple::DataExcept(datatype, except) => {
            Ok(Tree::DataExcept(datatype, boxed(context, *except)?))
        }
        Simple::Value(value) => Ok(Tree::Value(value)),
        Simple::OneOrMore(body) => Ok(Tree::OneOrMore(boxed(context, *body)?)),
        Simple::Group(first, second) => {
            let first = boxed(context, *first)?;
            Ok(Tree::Joined(Connector::Group, first, boxed(context, *second)?))
        }
        Simple::Interleave(first, second) => {
            let first = boxed(context, *first)?;
            Ok(Tree::Joined(Connector::Interleave, first, boxed(context, *second)?))
        }
        Simple::Choice(first, second) => {
            let first = boxed(context, *first)?;
            Ok(Tree::Joined(Connector::Choice, first, boxed(context, *second)?))
        }
    }
}

/// Returns the pattern at a position of the grammar, as a tree in a box.
#[cycle(trees)]
fn boxed<'a>(context: &Context<'a>, position: PatternId) -> Result<Box<Tree<'a>>, OutOfMemory>
    ensures { IfOk result (λ tree. tree_of tree.value ≡ tree_at context.now.grammar.now.patterns position) }
{
    let tree = tree_at(context, position)?;
    Ok(Box::new(context.alloc, tree)?)
}
