// The check of the restrictions.
ghost use Rattle.std.specs.Prelude.{MatchOption, IfErr, IfOk, OnOk};
ghost use Rattle.rng_model.specs.restrictions.RestrictionFaults.{BreaksNone, IsLeastRestriction, IsRestrictionFault};
ghost use Rattle.rng_model.specs.simple.Table.{grammar_of};

use crate::broken::broken_in;
use crate::names_meet::{attribute_names_meet, element_names_meet};
use rng_model::{OutOfMemory, SchemaFault, SimpleGrammar};
use std::alloc::Global;

/// Checks that a simple grammar keeps the restrictions of RELAX NG Specification, section 7: clauses S18 to S27.
///
/// It checks the start and the body of each listed element, whether or not a ref leads to it, and nothing else in the
/// tables. An error is the least clause that is broken, or out of memory. For S24 and S26 names are looked up by
/// hashing, and each class that is not a name is compared with each other class. For the other clauses the cost is
/// linear in the table.
pub fn restrict(alloc: Global, grammar: &SimpleGrammar) -> Result<(), SchemaFault>
    ensures kept { OnOk result (BreaksNone (grammar_of grammar.now)) }
    ensures broken { IfErr result (IsRestrictionFault (grammar_of grammar.now)) }
{
    match first_broken(alloc, grammar)? {
        Some(clause) => Err(SchemaFault::Clause(clause)),
        None => Ok(()),
    }
}

/// Returns the least clause that is broken.
fn first_broken(alloc: Global, grammar: &SimpleGrammar) -> Result<Option<u8>, OutOfMemory>
    ensures { IfOk result (λ found. MatchOption found (BreaksNone (grammar_of grammar.now)) (IsLeastRestriction (grammar_of grammar.now))) }
{
    let broken = broken_in(alloc, grammar)?;
    if let Some(clause) = broken.first_before_names() {
        return Ok(Some(clause));
    }
    if attribute_names_meet(alloc, grammar)? {
        return Ok(Some(24));
    }
    if broken.wildcard {
        return Ok(Some(25));
    }
    if element_names_meet(alloc, grammar)? {
        return Ok(Some(26));
    }
    if broken.text {
        return Ok(Some(27));
    }
    Ok(None)
}
