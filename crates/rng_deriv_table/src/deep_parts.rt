// Parts of deep patterns, from the innermost ones outwards.
ghost use Rattle.std.specs.Prelude.{◌<◌, All, OnOk, length};
ghost use Rattle.rng_deriv_table.specs.plain.DeepParts.{AreStepsInside};

use crate::pattern::{Pattern, PatternNumber};
use crate::pattern_table::PatternTable;
use rng_model::OutOfMemory;

/// The greatest depth of a pattern that is gone through by recursion.
const MOST_LEVELS: u16 = 24;

/// What is to be done for a part of a deep pattern.
#[derive(Clone, Copy)]
pub enum Step {
    /// Its own parts come first.
    Parts(PatternNumber),
    /// Its deep parts are done.
    Whole(PatternNumber),
}

impl PatternTable {
    /// Returns whether a pattern is so deep that its parts are gone through from the innermost ones outwards, and not by
    /// recursion. Allocates nothing.
    pub fn is_deep(&self, number: PatternNumber) -> bool
        requires { number.0 < length self.now }
    {
        self.facts(number).depth > MOST_LEVELS
    }

    /// Adds steps for the deep parts of a pattern. Fails only when out of memory. The cost is a look at each part.
    pub fn add_deep_parts(
        &self,
        number: PatternNumber,
        steps: &mut Vec<Step>,
    ) -> Result<(), OutOfMemory>
        requires { number.0 < length self.now }
        ensures { OnOk result (AreStepsInside self.now steps.old.items → AreStepsInside self.now steps.new.items) }
    {
        match self.pattern(number) {
            Pattern::Choice(members) => self.add_deep(members.as_slice(), steps),
            Pattern::Group(first, second) | Pattern::Interleave(first, second) => {
                self.add_deep(&[*first, *second], steps)
            }
            Pattern::OneOrMore(body) => self.add_deep(&[*body], steps),
            _ => Ok(()),
        }
    }

    /// Adds steps for those of some patterns that are deep. Fails only when out of memory.
    pub fn add_deep(
        &self,
        numbers: &[PatternNumber],
        steps: &mut Vec<Step>,
    ) -> Result<(), OutOfMemory>
        requires { All (λ n. n.0 < length self.now) numbers.now }
        ensures { OnOk result (AreStepsInside self.now steps.old.items → AreStepsInside self.now steps.new.items) }
    {
        'numbers: for number in numbers {
            if self.is_deep(*number) {
                steps.push(Step::Parts(*number))?;
            }
        }
        Ok(())
    }
}
