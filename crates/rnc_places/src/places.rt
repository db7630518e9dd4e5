// The tree of a file, or the place at which it breaks a clause.
ghost use Rattle.std.specs.Prelude.{◌≡◌, ℕ, List, IfErr, IfOk, IfSome, IsSome};
ghost use Rattle.rnc_grammar.specs.views.ParsingFaults.{IsFaultOf};
ghost use Rattle.rnc_grammar.specs.views.View.{file_of};
ghost use Rattle.rnc_model.specs.characters.Decoding.{byte_length, IsDecoded};
ghost use Rattle.rnc_model.specs.declared.character.Character.{Character};
ghost use Rattle.rnc_model.specs.loading.DatatypePlaces.{BreaksDatatypeAt, BreaksDatatypesAt, HasBrokenDatatype};
ghost use Rattle.rnc_model.specs.loading.FaultPlaces.{BreaksClauseAt, IsPlaceOfToken};
ghost use Rattle.rnc_model.specs.loading.FileVerdicts.{ContentHasOnlyVerdict, has_tree};
ghost use Rattle.rnc_model.specs.loading.SchemaFile.{BreaksFileClause};
ghost use Rattle.rnc_model.specs.tokens.Cut.{HasTokens, lexemes};
ghost use Rattle.rnc_model.specs.tokens.CutTokens.{tokens_of};
ghost use Rattle.rnc_places.specs.views.Mentions.{IsFaultOfFile};
ghost use Rattle.rnc_places.specs.views.Told.{IsNumberOf};

use crate::datatypes::broken_number;
use crate::declarations::unruly_number;
use crate::fault::FileFault;
use crate::nesting::too_deep_number;
use rnc_grammar::{FileTree, ParseFault, parse};
use rnc_model::{FilePlace, Token};
use rnc_text::{TextFault, place_at, place_of_decoded, read_text, tokens};
use rng_model::{OutOfMemory, TypeSet};
use std::alloc::Global;

/// Returns the place at which a schema file breaks this clause, or `None` if it does not break it by itself.
///
/// A file by itself breaks at most one of the clauses 3 to 8. The place is
///
/// - for 3, the first byte that is not UTF-8;
/// - for 4, the first character that XML does not allow, or the first bad escape;
/// - for 5, the first place at which neither a blank, a comment nor a token begins;
/// - for 6, the first token such that no sentence begins with the tokens up to and including it, or the end of the file
///   if there is none;
/// - for 7, the first bracket that is one too many;
/// - for 8, the first declaration that breaks a rule, or otherwise the first prefix that is not declared.
///
/// Fails only when out of memory. Takes the time and the memory that it takes to read the file.
///
/// RELAX NG Compact Syntax, "Lexical structure", "Syntax" and "Declarations".
pub fn place_of(alloc: Global, file: &[u8], clause: u8) -> Result<Option<FilePlace>, OutOfMemory>
    // A place that is returned is a place of the clause.
    ensures place { IfOk result (λ found. IfSome found (BreaksClauseAt file.now clause)) }
    // If the file breaks the clause, a place is returned.
    ensures found { BreaksFileClause file.now clause → IfOk result IsSome }
{
    let fault = match tree_of(alloc, file) {
        Ok(tree) => {
            drop(tree);
            return Ok(None);
        }
        Err(cause) => cause,
    };
    match fault {
        FileFault::Broken {
            clause: broken,
            place,
        } if broken == clause => Ok(Some(place)),
        FileFault::Broken { .. } => Ok(None),
        FileFault::Memory => Err(OutOfMemory),
    }
}

/// Returns the place of the first datatype in a schema file that breaks clause 12 with this set of datatypes, or `None`
/// if the file has none.
///
/// A datatype breaks the clause if the set does not have it with its parameters. A value breaks it if its datatype takes
/// no values or does not allow this one. A value without a written datatype is a `token`, and never breaks it. The place is
/// that of the name of the datatype (`xsd:integer`, `string`). All datatypes of the file count, also in components that
/// are overridden or that nothing refers to. Other files do not.
///
/// Returns `None` for a file that breaks a clause from 3 to 8 by itself (`place_of`).
///
/// Fails only when out of memory. Takes the time and the memory that it takes to read the file, and a few passes over the
/// parameters and values of its datatypes.
///
/// RELAX NG Specification, section 4.16.
pub fn datatype_place_of(
    alloc: Global,
    types: TypeSet,
    file: &[u8],
) -> Result<Option<FilePlace>, OutOfMemory>
    // A place that is returned is that of the first such datatype.
    ensures place { IfOk result (λ found. IfSome found (BreaksDatatypeAt types file.now)) }
    // If the file has such a datatype, a place is returned.
    ensures found { HasBrokenDatatype types file.now → IfOk result IsSome }
{
    let text = match read_text(alloc, file) {
        Ok(text) => text,
        Err(TextFault::At { .. }) => return Ok(None),
        Err(TextFault::Memory) => return Err(OutOfMemory),
    };
    let tokens = match tokens(alloc, &text) {
        Ok(tokens) => tokens,
        Err(TextFault::At { .. }) => return Ok(None),
        Err(TextFault::Memory) => return Err(OutOfMemory),
    };
    let end = text.as_str().len();
    place_of_datatype(alloc, types, file, end, tokens.as_slice())
}

/// The same for a file with these tokens, whose decoded text has `end` bytes.
fn place_of_datatype(
    alloc: Global,
    types: TypeSet,
    file: &[u8],
    end: usize,
    tokens: &[Token<'_>],
) -> Result<Option<FilePlace>, OutOfMemory>
    ensures place { (cs : List Character) → IsDecoded file.now cs → HasTokens cs (tokens_of tokens.now) → byte_length cs ≡ end
        → IfOk result (λ found. IfSome found (BreaksDatatypeAt types file.now)) }
    ensures found { (number : ℕ) → BreaksDatatypesAt types (lexemes (tokens_of tokens.now)) number → IfOk result IsSome }
{
    match parse(alloc, tokens) {
        Ok(tree) => drop(tree),
        Err(ParseFault::At { .. }) => return Ok(None),
        Err(ParseFault::Clause(_)) => return Ok(None),
        Err(ParseFault::Memory) => return Err(OutOfMemory),
    }
    match broken_number(alloc, types, tokens)? {
        Some(number) => Ok(Some(place_of_token(file, end, tokens, number))),
        None => Ok(None),
    }
}

/// Reads the tree of a file.
pub fn tree_of(alloc: Global, file: &[u8]) -> Result<FileTree, FileFault>
    ensures tree { IfOk result (λ t. ContentHasOnlyVerdict file.now (has_tree (file_of t))) }
    ensures fault { IfErr result (IsFaultOfFile file.now) }
{
    let text = match read_text(alloc, file) {
        Ok(text) => text,
        Err(TextFault::At { clause, offset }) => {
            let place = place_at(file, offset);
            return Err(FileFault::Broken { clause, place });
        }
        Err(TextFault::Memory) => return Err(FileFault::Memory),
    };
    let tokens = match tokens(alloc, &text) {
        Ok(tokens) => tokens,
        Err(TextFault::At { clause, offset }) => {
            let place = place_of_decoded(file, offset as usize);
            return Err(FileFault::Broken { clause, place });
        }
        Err(TextFault::Memory) => return Err(FileFault::Memory),
    };
    let fault = match parse(alloc, tokens.as_slice()) {
        Ok(tree) => return Ok(tree),
        Err(fault) => fault,
    };
    let (clause, number) = numbered(alloc, tokens.as_slice(), fault)?;
    let end = text.as_str().len();
    let place = place_of_token(file, end, tokens.as_slice(), number);
    Err(FileFault::Broken { clause, place })
}

/// The clause of a fault of tokens, and the number of the token at which they break it.
fn numbered(
    alloc: Global,
    tokens: &[Token<'_>],
    fault: ParseFault,
) -> Result<(u8, usize), OutOfMemory>
    ensures { IsFaultOf (lexemes (tokens_of tokens.now)) fault → IfOk result (IsNumberOf (lexemes (tokens_of tokens.now)) fault) }
{
    match fault {
        ParseFault::At { clause, number } => Ok((clause, number as usize)),
        ParseFault::Clause(7) => Ok((7, too_deep_number(tokens))),
        ParseFault::Clause(clause) => Ok((clause, unruly_number(alloc, tokens)?)),
        ParseFault::Memory => Err(OutOfMemory),
    }
}

/// The place of the token with this number, in a file whose decoded text has `end` bytes. A number after the last token
/// refers to the end of the file.
fn place_of_token(file: &[u8], end: usize, tokens: &[Token<'_>], number: usize) -> FilePlace
    ensures { (cs : List Character) → IsDecoded file.now cs → HasTokens cs (tokens_of tokens.now) → byte_length cs ≡ end
        → IsPlaceOfToken file.now (tokens_of tokens.now) number result }
{
    match tokens.get(number.saturating_sub(1)) {
        Some(token) => place_of_decoded(file, token.start),
        None => place_of_decoded(file, end),
    }
}
