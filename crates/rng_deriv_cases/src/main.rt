//! Compares what the matcher returns for the rows of four files.
//!
//! A row of `cases.txt` has a schema and a document, possibly in pieces, each followed by how often it is repeated. The
//! answer is the outcome. A matcher that begins anew must return the same, and so must the matcher over owned trees: any
//! other outcome is printed after it. The rows of `xml_schema.txt` are the same for schemas that are compiled with the set
//! `XmlSchema` of datatypes. A row of `documents.txt` is a document. The answer has a letter for each schema of
//! `schemas.txt`: V for valid, I for invalid, and X if the two matchers differ. These schemas, the documents and the
//! letters come from a second program, `dev/rows/all_splits`. The rows of `generated.txt` come from
//! `dev/search/fuzz/matcher_rows.py`: a schema, a document and the verdict. Both matchers must have that verdict, and the
//! same outcome.
#![tactic(auto)]

mod compared;
mod watched;

ghost use Rattle.std.specs.Prelude.{All, IfOk, IfSome};
ghost use Rattle.rng_model.specs.restrictions.RestrictionFaults.{BreaksNone};
ghost use Rattle.rng_model.specs.simple.Table.{grammar_of};

use case_rows::{Answer, Comparison, Row, compare_rows, rows};
use compared::outcome_by_trees;
use rng_deriv::{Matcher, Outcome};
use rng_load::load;
use rng_model::{SchemaFault, SimpleGrammar, TypeSet};
use rng_rules::restrict;
use rng_simple::simplify_with;
use std::alloc::Global;
use std::io;
use std::rt::Files;
use watched::taken;

fn main(rt: HostRuntime) -> io::Result<()> {
    compare_rows(
        &rt,
        "cases.txt",
        |to, row| print_case(to, TypeSet::Profile, row),
    )?;
    compare_rows(
        &rt,
        "xml_schema.txt",
        |to, row| print_case(to, TypeSet::XmlSchema, row),
    )?;
    compare_documents(&rt)?;
    compare_rows(&rt, "generated.txt", |to, row| print_verdict(to, row))
}

/// Compares the letters of each document of `documents.txt`.
fn compare_documents(rt: &(impl Files + Print + AllocGlobal)) -> io::Result<()> {
    let grammars = grammars_of(rt.alloc(), rows(rt, "schemas.txt")?.as_slice())?;
    let mut documents = Comparison::of("documents.txt");
    for row in documents.rows(rt)? {
        let answer = Answer::new(rt.alloc());
        let ended = print_letters(&answer, grammars.as_slice(), &row);
        documents.compare(rt, &row, answer, ended)?;
    }
    documents.finish(rt)
}

/// Prints the verdict on a document, and the outcomes of both matchers if these differ. Or prints that the schema is
/// refused.
fn print_verdict(rt: &(impl Print + AllocGlobal), row: &Row) -> io::Result<()> {
    let Some(grammar) = accepted(rt.alloc(), TypeSet::Profile, row.bytes(0)?)? else {
        return println!(rt; "refused");
    };
    let document = row.bytes(1)?;
    let outcome = judged(rt.alloc(), &grammar, document, false)?;
    let by_trees = outcome_by_trees(rt.alloc(), &grammar, document)?;
    println!(rt; "{}", verdict_of(outcome))?;
    if outcome != by_trees {
        print_outcome(rt, outcome)?;
        print_outcome(rt, by_trees)?;
    }
    Ok(())
}

/// Returns the word for a verdict.
fn verdict_of(outcome: Outcome) -> &'static str {
    match outcome {
        Outcome::Valid => "valid",
        Outcome::Invalid(_) => "invalid",
    }
}

/// Prints the outcome of a row: `valid`, or `invalid line N`.
fn print_case(rt: &(impl Print + AllocGlobal), types: TypeSet, row: &Row) -> io::Result<()> {
    let grammar = grammar_of_schema(rt.alloc(), types, row.bytes(0)?)?;
    let document = joined(rt.alloc(), row)?;
    let outcome = judged(rt.alloc(), &grammar, document.as_slice(), false)?;
    print_outcome(rt, outcome)?;
    let again = judged(rt.alloc(), &grammar, document.as_slice(), true)?;
    if again != outcome {
        print!(rt; "anew: ")?;
        print_outcome(rt, again)?;
    }
    let by_trees = outcome_by_trees(rt.alloc(), &grammar, document.as_slice())?;
    if by_trees != outcome {
        print!(rt; "by trees: ")?;
        print_outcome(rt, by_trees)?;
    }
    Ok(())
}

/// Prints an outcome.
fn print_outcome(rt: &impl Print, outcome: Outcome) -> io::Result<()> {
    match outcome {
        Outcome::Valid => println!(rt; "valid"),
        Outcome::Invalid(line) => println!(rt; "invalid line {line}"),
    }
}

/// Returns the pieces from the second field on, each repeated as often as the next field says.
fn joined(alloc: Global, row: &Row) -> io::Result<Vec<u8>> {
    let mut all = Vec::new(alloc);
    for field in (1..row.field_count()).step_by(2) {
        let times = match row.text(field.wrapping_add(1)) {
            Ok(number) => number.parse::<u32>().unwrap_or(1),
            Err(_) => 1,
        };
        for _ in 0..times {
            all.extend_from_slice(row.bytes(field)?)?;
        }
    }
    Ok(all)
}

/// Returns the simple grammar of a schema of one file, by a set of datatypes. The error is `InvalidData` if the schema
/// breaks a clause.
fn grammar_of_schema(alloc: Global, types: TypeSet, schema: &[u8]) -> io::Result<SimpleGrammar>
    ensures { IfOk result (λ g. BreaksNone (grammar_of g)) }
{
    match accepted(alloc, types, schema)? {
        Some(grammar) => Ok(grammar),
        None => Err(io::Error::from(io::ErrorKind::InvalidData)),
    }
}

/// Returns the simple grammar of a schema of one file, by a set of datatypes, or `None` if the schema breaks a clause.
fn accepted(alloc: Global, types: TypeSet, schema: &[u8]) -> io::Result<Option<SimpleGrammar>>
    ensures { IfOk result (λ found. IfSome found (λ g. BreaksNone (grammar_of g))) }
{
    let name = String::from_str(alloc, "s.rnc")?;
    let bytes = Vec::from_slice(alloc, schema)?;
    match compiled(alloc, types, &[(name, bytes)]) {
        Ok(grammar) => Ok(Some(grammar)),
        Err(SchemaFault::Memory) => Err(io::Error::from(io::ErrorKind::OutOfMemory)),
        Err(_) => Ok(None),
    }
}

/// Returns the simple grammar of files that break no clause.
fn compiled(
    alloc: Global,
    types: TypeSet,
    files: &[(String, Vec<u8>)],
) -> Result<SimpleGrammar, SchemaFault>
    ensures { IfOk result (λ g. BreaksNone (grammar_of g)) }
{
    let schema = load(alloc, files, "s.rnc")?;
    let grammar = simplify_with(alloc, types, &schema)?;
    restrict(alloc, &grammar)?;
    Ok(grammar)
}

/// Returns the simple grammars of schemas.
fn grammars_of(alloc: Global, schemas: &[Row]) -> io::Result<Vec<SimpleGrammar>>
    ensures { IfOk result (λ gs. All (λ g. BreaksNone (grammar_of g)) gs.items) }
{
    let mut grammars = Vec::new(alloc);
    'schemas: for schema in schemas {
        let grammar = grammar_of_schema(alloc, TypeSet::Profile, schema.bytes(0)?)?;
        grammars.push(grammar)?;
    }
    Ok(grammars)
}

/// Returns the outcome of a document, for a new matcher or for one that begins anew after it judged the document.
fn judged(
    alloc: Global,
    grammar: &SimpleGrammar,
    document: &[u8],
    anew: bool,
) -> io::Result<Outcome>
    requires { BreaksNone (grammar_of grammar.now) }
{
    let Ok(matcher) = Matcher::new(alloc, grammar) else {
        return Err(io::Error::from(io::ErrorKind::OutOfMemory));
    };
    let matcher = taken(alloc, matcher, document, anew)?;
    if !anew {
        return ended(matcher);
    }
    let Ok(matcher) = matcher.begin_anew() else {
        return Err(io::Error::from(io::ErrorKind::OutOfMemory));
    };
    ended(taken(alloc, matcher, document, anew)?)
}

/// Returns the outcome of a matcher that has taken all events.
fn ended(matcher: Matcher<'_>) -> io::Result<Outcome> {
    match matcher.finish() {
        Ok(outcome) => Ok(outcome),
        Err(_) => Err(io::Error::from(io::ErrorKind::OutOfMemory)),
    }
}

/// Prints a letter for each grammar.
fn print_letters(to: &Answer, grammars: &[SimpleGrammar], document: &Row) -> io::Result<()>
    requires { All (λ g. BreaksNone (grammar_of g)) grammars.now }
{
    let letters = letters_of(to.alloc(), grammars, document.bytes(0)?)?;
    println!(to; "{letters}")
}

/// Returns a letter for each grammar.
fn letters_of(alloc: Global, grammars: &[SimpleGrammar], document: &[u8]) -> io::Result<String>
    requires { All (λ g. BreaksNone (grammar_of g)) grammars.now }
{
    let mut letters = String::new(alloc);
    'grammars: for grammar in grammars {
        let outcome = judged(alloc, grammar, document, false)?;
        let by_trees = outcome_by_trees(alloc, grammar, document)?;
        letters.push(letter(outcome, by_trees))?;
    }
    Ok(letters)
}

/// Returns the letter of an outcome, if the matcher over owned trees has the same.
fn letter(outcome: Outcome, by_trees: Outcome) -> char {
    if outcome != by_trees {
        return 'X';
    }
    match outcome {
        Outcome::Valid => 'V',
        Outcome::Invalid(_) => 'I',
    }
}
