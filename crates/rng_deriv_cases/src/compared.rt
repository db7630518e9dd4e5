// Outcomes by the matcher over owned trees.
ghost use Rattle.rng_model.specs.restrictions.RestrictionFaults.{BreaksNone};
ghost use Rattle.rng_model.specs.simple.Table.{grammar_of};

use crate::watched::read;
use rng_deriv::Outcome;
use rng_model::{PyxFault, SimpleGrammar};
use rng_plain_matcher::PlainMatcher;
use std::alloc::Global;
use std::io;

/// Returns the outcome of a document by the matcher over owned trees.
///
/// The error is `OutOfMemory`, or `InvalidData` if the bytes are no document.
pub fn outcome_by_trees(
    alloc: Global,
    grammar: &SimpleGrammar,
    document: &[u8],
) -> io::Result<Outcome>
    requires { BreaksNone (grammar_of grammar.now) }
{
    let Ok(mut matcher) = PlainMatcher::new(alloc, grammar) else {
        return Err(io::Error::from(io::ErrorKind::OutOfMemory));
    };
    match read(alloc, document, &mut matcher) {
        Ok(()) => Ok(matcher.outcome()),
        Err(PyxFault::Memory) => Err(io::Error::from(io::ErrorKind::OutOfMemory)),
        Err(PyxFault::At { .. }) => Err(io::Error::from(io::ErrorKind::InvalidData)),
    }
}
