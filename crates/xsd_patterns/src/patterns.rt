// The patterns of a datatype.
ghost use Rattle.std.specs.Prelude.{◌≡◌, IfOk, map};
ghost use Rattle.rng_model.specs.datatypes.DatatypeViews.{parameter_of};
ghost use Rattle.xsd_patterns.specs.Facet.{all_match, expressions_of};
ghost use Rattle.xsd_automaton.specs.views.WhiteSpace.{treated};
ghost use Rattle.xsd_patterns.specs.views.Compiled.{AreCompiled};

use crate::parameters::is_pattern;
use crate::pattern::Pattern;
use rng_model::OutOfMemory;
use std::alloc::Global;
use xsd_automaton::WhiteSpace;

/// The patterns of a datatype, each of which restricts it, and how the white space of a text is treated before it is matched.
///
/// XML Schema Part 2, Second Edition, sections 4.3.4 and 4.3.6.
#[derive(Drop)]
pub struct Patterns {
    pub white_space: WhiteSpace,
    pub expressions: Vec<Pattern>,
}

impl Patterns {
    /// Makes the values of all parameters of the name `pattern` ready to be matched. Returns `None` if one is no expression, or
    /// one that is too large: if its size with its counts written out is above 4,096.
    ///
    /// XML Schema Part 2, Second Edition, section 4.3.4 and appendix F. The cost is that of `Pattern::compile` for each, and one
    /// pass over the parameters.
    ///
    /// # Errors
    ///
    /// Returns `OutOfMemory` if memory is out, and in no other case.
    pub fn compile(
        alloc: Global,
        white_space: WhiteSpace,
        params: &[(String, String)],
    ) -> Result<Option<Patterns>, OutOfMemory>
        ensures { IfOk result (AreCompiled white_space (map parameter_of params.now)) }
    {
        let mut expressions = Vec::new(alloc);
        for param in params {
            if is_pattern(param) {
                let Some(pattern) = Pattern::find(alloc, param.1.as_str())? else {
                    return Ok(None);
                };
                expressions.push(pattern)?;
            }
        }
        Ok(Some(Patterns {
            white_space,
            expressions,
        }))
    }

    /// Returns whether each of the expressions matches the text as a whole once its white space is treated.
    ///
    /// XML Schema Part 2, Second Edition, sections 4.3.4 and 4.3.6. Allocates nothing. The cost is that of `Pattern::matches` for
    /// each.
    pub fn match_all(&self, text: &str) -> bool
        ensures { result ≡ all_match (expressions_of self.now.expressions.items) (treated self.now.white_space) text.now }
    {
        self.expressions
            .iter()
            .all(|expression| expression.matches(self.white_space, text))
    }
}
