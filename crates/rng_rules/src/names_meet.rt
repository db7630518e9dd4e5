// Names that must not meet: those of attributes in groups and interleaves, and those of elements in interleaves.
ghost use Rattle.std.specs.Prelude.{◌≡◌, ℕ, option_copied, IfOk, IsTrue};
ghost use Rattle.rng_model.specs.restrictions.Restrictions.{BreaksAttributeNames, BreaksElementNames, ClassIn, IsPart};
ghost use Rattle.rng_model.specs.simple.Table.{grammar_of};
ghost use Rattle.rng_model.specs.simple.Tree as tree;
ghost use Rattle.rng_rules.specs.views.NamesMeetRows.{class_at, sides_at};
ghost use Rattle.rng_rules.specs.views.NamesMeetSearch.{Breaks};

use crate::names_meet_groups::name_groups;
use crate::names_meet_labels::labels;
use crate::names_meet_search::{groups_meet, others_meet};
use crate::names_meet_sides::Rows;
use rng_model::{NameClass, OutOfMemory, Simple, SimpleGrammar};
use std::alloc::Global;

/// Returns whether two attributes on the two sides of a group or an interleave have a name in common. The group or
/// interleave is in the start or in the body of a listed element.
///
/// RELAX NG Specification, section 7.3. Fails only when out of memory. Names are looked up by hashing. A class that is
/// not a name is compared with each other class. An attribute outside every group and interleave adds no further cost.
/// For a name of a single pattern, the cost is linear in the patterns above the first of them that occurs twice. In a
/// tree it is nothing. For a name of several patterns, and for a class that is not a name, the cost is linear in the
/// patterns above them. In a tree these are at most their number times the depth.
pub(crate) fn attribute_names_meet(
    alloc: Global,
    grammar: &SimpleGrammar,
) -> Result<bool, OutOfMemory>
    ensures only { IfOk result (λ yes. IsTrue yes → (p : tree.Simple ℕ) × IsPart (grammar_of grammar.now) p × BreaksAttributeNames p) }
    ensures all { IfOk result (λ yes. (p : tree.Simple ℕ) → IsPart (grammar_of grammar.now) p → BreaksAttributeNames p → IsTrue yes) }
{
    names_meet(alloc, grammar, NamesOf::Attributes)
}

/// Returns whether refs on the two sides of an interleave lead to elements that have a name in common. The interleave
/// is in the start or in the body of a listed element.
///
/// RELAX NG Specification, section 7.4. Fails only when out of memory. The cost is that of `attribute_names_meet`.
pub(crate) fn element_names_meet(
    alloc: Global,
    grammar: &SimpleGrammar,
) -> Result<bool, OutOfMemory>
    ensures only { IfOk result (λ yes. IsTrue yes → (p : tree.Simple ℕ) × IsPart (grammar_of grammar.now) p
        × BreaksElementNames (ClassIn (grammar_of grammar.now)) p) }
    ensures all { IfOk result (λ yes. (p : tree.Simple ℕ) → IsPart (grammar_of grammar.now) p
        → BreaksElementNames (ClassIn (grammar_of grammar.now)) p → IsTrue yes) }
{
    names_meet(alloc, grammar, NamesOf::Elements)
}

/// Returns whether names meet that must not.
fn names_meet(alloc: Global, grammar: &SimpleGrammar, of: NamesOf) -> Result<bool, OutOfMemory>
    ensures only { IfOk result (λ yes. IsTrue yes → (p : tree.Simple ℕ) × IsPart (grammar_of grammar.now) p × Breaks of (grammar_of grammar.now) p) }
    ensures all { IfOk result (λ yes. (p : tree.Simple ℕ) → IsPart (grammar_of grammar.now) p → Breaks of (grammar_of grammar.now) p → IsTrue yes) }
{
    let rows = Rows::new(alloc, grammar, of)?;
    let labels = labels(alloc, &rows)?;
    let groups = name_groups(alloc, labels.as_slice())?;
    if groups_meet(alloc, &rows, groups.rows.as_slice())? {
        return Ok(true);
    }
    others_meet(alloc, &rows, labels.as_slice())
}

/// Whose names are checked.
#[derive(Clone, Copy)]
pub(crate) enum NamesOf {
    /// Those of attributes, in groups and interleaves (RELAX NG Specification, section 7.3).
    Attributes,
    /// Those of elements, in interleaves (RELAX NG Specification, section 7.4).
    Elements,
}

impl NamesOf {
    /// Returns the name class that a pattern itself has.
    pub(crate) fn class<'a>(
        self,
        grammar: &'a SimpleGrammar,
        pattern: &'a Simple,
    ) -> Option<&'a NameClass>
        ensures { option_copied result ≡ class_at self grammar.now.elements pattern.now }
    {
        match (self, pattern) {
            (NamesOf::Attributes, Simple::Attribute(class, _)) => Some(&**class),
            (NamesOf::Elements, Simple::Element(element)) => match grammar.element(*element) {
                Some((class, _)) => Some(class),
                None => None,
            },
            _ => None,
        }
    }

    /// Returns the two rows of a pattern between which names must not meet.
    pub(crate) fn sides(self, pattern: &Simple) -> Option<(usize, usize)>
        ensures { result ≡ sides_at self pattern.now }
    {
        match (self, pattern) {
            (NamesOf::Attributes, Simple::Group(a, b)) => Some((a.0, b.0)),
            (_, Simple::Interleave(a, b)) => Some((a.0, b.0)),
            _ => None,
        }
    }
}
