// Compiled schemas.
ghost use Rattle.std.specs.Prelude.{◌≡◌, ◌<◌, [], false, length, IfErr, IfOk, IfSome, Some};
ghost use Rattle.rng_model.specs.schema.Schema.{Schema};
ghost use Rattle.rng_model.specs.simple.Table.{grammar_of};
ghost use Rattle.rng_model.specs.restrictions.RestrictionFaults.{BreaksNone};
ghost use Rattle.rnc_model.specs.loading.SchemaFile.{named_files};
ghost use Rattle.rncv_model.specs.answers.VerdictWith.{IsRefusal, IsRefusalWith};
ghost use Rattle.rncv_model.specs.answers.Run.{main_name};
ghost use Rattle.rncv_model.specs.printed.SchemaText.{IsPrintedForm};
ghost use Rattle.rncv_validator.specs.views.Validators.{IsOneFor, IsOneForWith, JudgesWith};
ghost use Rattle.rncv_validator.specs.views.FedDocuments.{HasBeenFed, IsFresh};
ghost use Rattle.rncv_validator.specs.declared.fault.DocumentFault.{DocumentFault};
ghost use Rattle.rng_deriv_events.specs.views.Positions.{KeepsTag};
ghost use Rattle.rng_deriv.specs.views.Matchers.{HasRunOut, IsStateBy};

use crate::compiling::good_grammar;
use crate::document::Document;
use crate::fault::DocumentFault;
use pyx::Reader;
use rnc_print::printed_text;
use rng_deriv::{Matcher, MatcherState};
use rng_load::load;
use rng_model::{OutOfMemory, SchemaFault, SimpleGrammar, TypeSet};
use std::alloc::Global;
use std::marker::Model;
use std::sync::Arc;

/// A compiled schema, with what its matcher has learned from the documents that it has judged.
///
/// What a validator keeps from one document to the next makes the next one cheaper and changes no verdict. It has no
/// name, text or attribute value of a document, and nothing of an event after which no continuation was valid. Its size
/// is bounded as for one document.
#[derive(Drop)]
pub struct Validator {
    pub(crate) grammar: Arc<SimpleGrammar>,
    pub(crate) state: Option<MatcherState>,
}

impl Model for Validator {
    ghost use Rattle.std.specs.Prelude.{IfSome};
    ghost use Rattle.rng_model.specs.simple.Table.{Table, grammar_of};
    ghost use Rattle.rng_model.specs.restrictions.RestrictionFaults.{BreaksNone};
    ghost use Rattle.rng_deriv.specs.views.Matchers.{IsStateBy};
    ghost use Rattle.rncv_validator.specs.views.FedDocuments.{KeepsNoEvent};
    ghost use Rattle.rng_model.specs.contracts.name.NameClass as classes;
    ghost use Rattle.std.specs.Coded.{codes};

    ghost Value = { Table };

    ghost coded = { Prim.hlevel (codes, classes.the_row.coded) };

    ghost view = { λ v. v.grammar.value };

    ghost invariant = { λ v. (BreaksNone (grammar_of v.grammar.value)) × (IfSome v.state (IsStateBy v.grammar.value)) × (IfSome v.state KeepsNoEvent) };
}

impl Validator {
    /// Compiles the schema of these files, the first of which is the main one, with the datatypes of the profile. It is
    /// `compile_with` of the set `Profile`.
    ///
    /// Returns `Ok` exactly if the files are a schema that breaks no clause, unless out of memory. Fails with `File` if
    /// a file breaks a clause from 1 to 8 by itself: with the first such file in load order, and the first clause that
    /// it breaks. Otherwise fails with `Clause` and the first clause that the files break together, 9 before 10.
    /// Otherwise fails with `Clause` and the least clause that their schema breaks, 11 to 27. Fails with `Memory` when
    /// out of memory, which says nothing about the files. Requires at least one file. Costs what `load`, `simplify` and
    /// `restrict` cost.
    ///
    /// RELAX NG Specification, sections 4, 5 and 7; the limits are of the profile (docs/use/LANGUAGE.md).
    pub fn compile(alloc: Global, files: &[(String, Vec<u8>)]) -> Result<Validator, SchemaFault>
        requires { 0 < length files.now }
        ensures compiled { IfOk result (λ v. IsOneFor (named_files files.now) (main_name files.now) v) }
        ensures refused { IfErr result (IsRefusal (named_files files.now) (main_name files.now)) }
    {
        Validator::compile_with(alloc, TypeSet::Profile, files)
    }

    /// Compiles the schema of these files, the first of which is the main one, with this set of datatypes. Its documents
    /// are judged with the same set.
    ///
    /// Returns `Ok` and fails as `compile` does; only clause 12 depends on the set. It is broken if a datatype is not one
    /// of the set, or does not take its parameters, or if a text is no value of its datatype (RELAX NG Specification,
    /// section 4.16). Requires at least one file. Costs what `load`, `simplify_with` and `restrict` cost.
    pub fn compile_with(
        alloc: Global,
        types: TypeSet,
        files: &[(String, Vec<u8>)],
    ) -> Result<Validator, SchemaFault>
        requires { 0 < length files.now }
        ensures compiled { IfOk result (λ v. IsOneForWith types (named_files files.now) (main_name files.now) v) }
        ensures refused { IfErr result (IsRefusalWith types (named_files files.now) (main_name files.now)) }
    {
        let schema = load(alloc, files, first_name(files))?;
        let grammar = good_grammar(alloc, types, schema)?;
        match Arc::new(alloc, grammar) {
            Ok(grammar) => Ok(Validator {
                grammar,
                state: None,
            }),
            Err(_) => Err(SchemaFault::Memory),
        }
    }

    /// Begins a document. The document takes the validator, and returns it when it is finished. It keeps no start tag after
    /// which nothing is left, unless `Document::want_reasons` is called.
    ///
    /// Allocates memory for the first document, in proportion to the schema. If this fails, each call of `feed` and
    /// `finish` returns that error. The first document costs a look-up by hashing for each pattern of the schema, the
    /// next ones cost nothing.
    pub fn document(self, alloc: Global) -> Document
        ensures grammar { result.grammar ≡ self }
        ensures begun { HasBeenFed result [] }
        ensures mode { KeepsTag false result.matching.progress }
        ensures fault { IfSome result.fault (λ f. f ≡ DocumentFault.Memory) }
        ensures kept { HasRunOut result.matching → result.fault ≡ Some DocumentFault.Memory }
    {
        let Validator { grammar, state } = self;
        let state = fresh_state(alloc, &grammar, state);
        let fault = match state {
            Some(_) => None,
            None => Some(DocumentFault::Memory),
        };
        Document {
            alloc,
            grammar,
            reader: Reader::new(alloc),
            state,
            fault,
        }
    }

    /// Returns the grammar, and the state of a matcher by it that has had no event yet, for a caller that hands the events
    /// of a document to a matcher itself. The state is `None` when out of memory.
    ///
    /// RELAX NG Specification, sections 5 and 7. Allocates and costs as `document` does.
    pub fn into_parts(self, alloc: Global) -> (Arc<SimpleGrammar>, Option<MatcherState>)
        ensures grammar { result.0.value ≡ self }
        ensures restricted { BreaksNone (grammar_of result.0.value) }
        ensures fresh { IfSome result.1 (IsFresh result.0.value) }
    {
        let Validator { grammar, state } = self;
        let state = fresh_state(alloc, &grammar, state);
        (grammar, state)
    }

    /// Returns the validator of a grammar that `into_parts` returned, with the state of a matcher by it, which may have
    /// had events, or with `None`. What the state keeps of an event after which no continuation is valid is dropped.
    ///
    /// RELAX NG Specification, sections 5 and 7. Allocates nothing.
    pub fn of_parts(grammar: Arc<SimpleGrammar>, state: Option<MatcherState>) -> Validator
        requires restricted { BreaksNone (grammar_of grammar.value) }
        requires state { IfSome state (IsStateBy grammar.value) }
        ensures { result ≡ grammar.value }
    {
        let Some(mut state) = state else {
            return Validator {
                grammar,
                state: None,
            };
        };
        state.forget();
        let state = Some(state);
        Validator { grammar, state }
    }

    /// Returns another validator for the same schema, for example for another thread. The schema is shared, and what
    /// the matcher has learned is not. Fails only when out of memory.
    pub fn share(&self) -> Result<Validator, OutOfMemory>
        ensures { IfOk result (λ v. v ≡ self.now) }
    {
        match Arc::try_clone(&self.grammar) {
            Ok(grammar) => Ok(Validator {
                grammar,
                state: None,
            }),
            Err(_) => Err(OutOfMemory),
        }
    }

    /// Returns the printed simple form of the schema (`printed_text` of `rnc_print`). Fails only when out of memory.
    ///
    /// RELAX NG Specification, section 5.
    pub fn simple_text(&self, alloc: Global) -> Result<Vec<u8>, OutOfMemory>
        ensures { IfOk result (λ text. (types : TypeSet) (s : Schema) → JudgesWith types self.now s → IsPrintedForm s text.items) }
    {
        printed_text(alloc, &self.grammar)
    }
}

/// Returns the name of the first file.
fn first_name(files: &[(String, Vec<u8>)]) -> &str
    requires { 0 < length files.now }
    ensures { result.now ≡ main_name files.now }
{
    match files {
        [(name, _), ..] => name.as_str(),
        [] => unreachable!(),
    }
}

/// Returns the state of a matcher that has had no event yet and keeps no start, with what an earlier one has learned, if there was one.
/// Returns `None` when out of memory.
fn fresh_state(
    alloc: Global,
    grammar: &SimpleGrammar,
    earlier: Option<MatcherState>,
) -> Option<MatcherState>
    requires restricted { BreaksNone (grammar_of grammar.now) }
    requires earlier { IfSome earlier (IsStateBy grammar.now) }
    ensures { IfSome result (IsFresh grammar.now) }
{
    if let Some(state) = earlier {
        if let Ok(matcher) = Matcher::resume(alloc, grammar, state).begin_anew() {
            return Some(matcher.into_state());
        }
    }
    match Matcher::new(alloc, grammar) {
        Ok(matcher) => Some(matcher.into_state()),
        Err(_) => None,
    }
}
