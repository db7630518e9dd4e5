// Where notAllowed occurs in the patterns of a table.
ghost use Rattle.std.specs.Prelude.{ℕ, ◌<◌, length};
ghost use Rattle.rng_model.specs.simple.Table.{Table};
ghost use Rattle.rng_deriv_table.specs.views.Trees.{tree_of};
ghost use Rattle.rng_reasons.specs.AllowedPatterns.{IsReduced};

use rng_deriv_table::{PatternNumber, PatternTable};

/// States that the rules about notAllowed (RELAX NG Specification, section 4.20) have been applied to the patterns of a table:
/// it is the whole of a pattern, or occurs nowhere in it. The function does nothing: its contract is the law.
pub fn reduced_pattern_law(table: &PatternTable)
    ensures { (t : Table) (number : ℕ) → number < length table.now → IsReduced (tree_of t table.now number) }
{
    if table.len() == 0 {
        return;
    }
    // A call of a reader of the table proves it.
    let _pattern = table.pattern(PatternNumber(0));
}
