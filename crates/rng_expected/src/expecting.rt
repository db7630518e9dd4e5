// What may come next.
ghost use Rattle.std.specs.Prelude.{◌<◌, All, IfOk, length, map};
ghost use Rattle.rng_model.specs.simple.Table.{grammar_of};
ghost use Rattle.rng_deriv_table.specs.views.Trees.{tree_of};
ghost use Rattle.rng_expected.specs.Expectations.{IsExpected};
ghost use Rattle.rng_expected.specs.views.Next.{next_of};

use crate::collecting::collected;
use crate::leaves::{Standing, leaves};
use crate::next::Expected;
use rng_deriv_table::{PatternNumber, PatternTable};
use rng_model::{OutOfMemory, SimpleGrammar};
use std::alloc::Global;

/// Returns what may come next, by the alternatives for what remains of the innermost open element.
///
/// RELAX NG Specification, section 6.2. It is stated on what is left of the pattern: an element or a datatype counts where
/// its pattern stands, whether or not something can match it. Fails only when out of memory. Each pattern that is left is
/// visited at most once. Time and memory are linear in the number of patterns of the table.
pub fn expected<'a>(
    alloc: Global,
    grammar: &'a SimpleGrammar,
    table: &PatternTable,
    alternatives: &[PatternNumber],
) -> Result<Expected<'a>, OutOfMemory>
    requires { All (λ n. n.0 < length table.now) alternatives.now }
    ensures { IfOk result (λ e. IsExpected (grammar_of grammar.now) (map (λ n. tree_of grammar.now table.now n.0) alternatives.now) (next_of e)) }
{
    let found = leaves(alloc, table, Standing::First, alternatives)?;
    let expected = collected(alloc, grammar, table, found.as_slice())?;
    Ok(expected)
}
