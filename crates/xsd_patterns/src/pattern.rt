// One expression, ready to be matched.
ghost use Rattle.std.specs.Prelude.{◌≡◌, IfErr, IfOk, MatchOption, None};
ghost use Rattle.rng_model.specs.regexes.Patterns.{pattern_of};
ghost use Rattle.xsd_automaton.specs.views.WhiteSpace.{treated};
ghost use Rattle.xsd_patterns.specs.Facet.{IsTaken, is_matched};
ghost use Rattle.xsd_patterns.specs.views.Faults.{IsPatternFault};

use crate::fault::PatternFault;
use rng_model::OutOfMemory;
use std::alloc::Global;
use std::marker::Model;
use xsd_automaton::{Automaton, WhiteSpace};
use xsd_positions::positions;
use xsd_regex::read;

/// A regular expression of XML Schema, ready to be matched.
#[derive(Drop)]
pub struct Pattern {
    expression: String,
    automaton: Automaton,
}

impl Model for Pattern {
    ghost use Rattle.std.specs.Prelude.{ℕ, List, string_bytes};
    ghost use Rattle.xsd_positions.specs.views.Positions.{positions_of};
    ghost use Rattle.xsd_patterns.specs.views.Patterns.{IsPattern};

    ghost Value = { List ℕ };

    ghost view = { λ p. string_bytes p.expression };

    ghost invariant = { λ p. IsPattern (string_bytes p.expression) p.automaton.first (positions_of p.automaton) };
}

impl Pattern {
    /// Makes an expression ready to be matched, if the text is one, and its size with its counts written out is at most 4,096.
    ///
    /// XML Schema Part 2, Second Edition, appendix F. Linear in the length of the text and in that size, with a bound on what is
    /// spent on a table for texts of ASCII.
    ///
    /// # Errors
    ///
    /// Returns `NoExpression` if the text is none, `TooLarge` if it is one of a greater size, and `Memory` if memory is out, and
    /// in no other case.
    pub fn compile(alloc: Global, text: &str) -> Result<Pattern, PatternFault>
        ensures taken { IfOk result (λ p. (p ≡ text.now) × IsTaken p) }
        ensures fault { IfErr result (IsPatternFault text.now) }
    {
        let Some(expression) = read(alloc, text)? else {
            return Err(PatternFault::NoExpression);
        };
        let Some(positions) = positions(alloc, expression)? else {
            return Err(PatternFault::TooLarge);
        };
        let automaton = Automaton::new(alloc, positions)?;
        let expression = String::from_str(alloc, text)?;
        Ok(Pattern {
            expression,
            automaton,
        })
    }

    // the same, or `None` if the text is no expression, or one that is too large
    pub(crate) fn find(alloc: Global, text: &str) -> Result<Option<Pattern>, OutOfMemory>
        ensures { IfOk result (λ o. MatchOption o (pattern_of text.now ≡ None) (λ p. (p ≡ text.now) × IsTaken p)) }
    {
        match Pattern::compile(alloc, text) {
            Ok(pattern) => Ok(Some(pattern)),
            Err(PatternFault::NoExpression) => Ok(None),
            Err(PatternFault::TooLarge) => Ok(None),
            Err(PatternFault::Memory) => Err(OutOfMemory),
        }
    }

    /// Returns whether the expression matches the text as a whole once its white space is treated.
    ///
    /// XML Schema Part 2, Second Edition, section 4.3.6 and appendix F. Allocates nothing: the treated text is not built. A text of
    /// ASCII mostly costs one look-up for each character, and another text one pass over the positions of the expression for each
    /// character.
    pub fn matches(&self, white_space: WhiteSpace, text: &str) -> bool
        ensures { result ≡ is_matched self.now (treated white_space text.now) }
    {
        self.automaton.accepts_treated(white_space, text)
    }
}
