// Finding the first datatype that breaks the clause on datatypes.
ghost use Rattle.std.specs.Prelude.{◌≡◌, ◌≤◌, ◌+◌, ℕ, List, [], IfOk, IfSome, length, map, option_map, string_bytes};
ghost use Rattle.rng_model.specs.datatypes.DatatypeViews as datatypes;
ghost use Rattle.rnc_grammar.specs.views.Resolved.{scope_view};
ghost use Rattle.rnc_model.specs.declarations.Declarations.{nothing_declared};
ghost use Rattle.rnc_model.specs.loading.SchemaFile.{IsFileTree};
ghost use Rattle.rnc_model.specs.declarations.FileTree.{FileTree};
ghost use Rattle.rnc_model.specs.tokens.Cut.{lexeme_at, lexemes};
ghost use Rattle.rnc_model.specs.tokens.CutTokens.{tokens_of};
ghost use Rattle.rnc_places.specs.declared.prefixes.Part.TheVariants as parts;
ghost use Rattle.rnc_places.specs.plain.BrokenDatatypes as broken;
ghost use Rattle.rnc_places.specs.plain.DatatypeNumbers as plain;
ghost use Rattle.rnc_places.specs.views.DatatypeUses.{use_of};
ghost use Rattle.rnc_places.specs.views.Told.{IsBrokenNumber};
ghost use Rattle.rnc_syntax.specs.plain.Reading.{lexemes_in};
ghost use Rattle.rnc_syntax.specs.views.SyntaxView as syntax;

use crate::datatype_uses::{DatatypeUse, uses_in};
use crate::declarations::{behind_declaration, onward};
use crate::prefixes::{Part, depth_after, find_first, part_at};
use rnc_grammar::{Scope, ScopeFault};
use rnc_model::{Keyword, Sign, Token, TokenKind};
use rnc_syntax::{DatatypeName, Declaration, File, Literal, Parameter, SyntaxFault, read_syntax};
use rng_model::{OutOfMemory, TypeSet};
use rng_types::Datatype as _;
use std::alloc::Global;
use xsd_types::{KnownDatatype, takes_values_in};

// ---- one datatype

/// The text of a literal.
fn literal_text(alloc: Global, literal: &Literal<'_>) -> Result<String, OutOfMemory>
    ensures { IfOk result (λ text. string_bytes text ≡ syntax.text_of literal.now) }
{
    let mut text = String::new(alloc);
    for segment in literal.segments.iter() {
        text.push_str(segment)?;
    }
    Ok(text)
}

/// The names and the texts of parameters.
fn texts_of(
    alloc: Global,
    parameters: &[Parameter<'_>],
) -> Result<Vec<(String, String)>, OutOfMemory>
    ensures { IfOk result (λ texts. map datatypes.parameter_of texts.items ≡ map syntax.parameter_of parameters.now) }
{
    let mut texts = Vec::new(alloc);
    for parameter in parameters {
        let name = String::from_str(alloc, parameter.name)?;
        let value = literal_text(alloc, &parameter.value)?;
        texts.push((name, value))?;
    }
    Ok(texts)
}

/// The uri of a datatype's library. It is empty if the prefix is not declared.
fn library_of(
    alloc: Global,
    scope: &Scope<'_>,
    type_name: DatatypeName<'_>,
) -> Result<String, OutOfMemory>
    ensures { IfOk result (λ library. string_bytes library ≡ broken.library_of (scope_view scope.now) (syntax.type_of type_name.entry)) }
{
    match type_name {
        DatatypeName::String | DatatypeName::Token => Ok(String::new(alloc)),
        DatatypeName::Prefixed { prefix, .. } => match scope.library(alloc, prefix) {
            Ok(library) => Ok(library),
            Err(ScopeFault::Broken) => Ok(String::new(alloc)),
            Err(ScopeFault::Memory) => Err(OutOfMemory),
        },
    }
}

/// The name of a datatype in its library.
fn local_of<'a>(type_name: DatatypeName<'a>) -> &'a str
    ensures { result.now ≡ broken.local_of (syntax.type_of type_name.entry) }
{
    match type_name {
        DatatypeName::String => "string",
        DatatypeName::Token => "token",
        DatatypeName::Prefixed { local, .. } => local,
    }
}

/// Whether the datatype is unknown with these parameters.
fn is_unknown(
    alloc: Global,
    types: TypeSet,
    scope: &Scope<'_>,
    type_name: DatatypeName<'_>,
    parameters: &[Parameter<'_>],
) -> Result<bool, OutOfMemory>
    ensures { IfOk result (λ is. is ≡ broken.is_unknown types (broken.datatype_in (scope_view scope.now) (syntax.type_of type_name.entry) (map syntax.parameter_of parameters.now))) }
{
    let library = library_of(alloc, scope, type_name)?;
    let texts = texts_of(alloc, parameters)?;
    let found = KnownDatatype::find(alloc, types, library.as_str(), local_of(type_name), &texts)?;
    Ok(found.is_none())
}

/// Whether the datatype is unknown, takes no values or does not allow this one.
fn is_refused(
    alloc: Global,
    types: TypeSet,
    scope: &Scope<'_>,
    type_name: DatatypeName<'_>,
    literal: &Literal<'_>,
) -> Result<bool, OutOfMemory>
    ensures { IfOk result (λ is. is ≡ broken.is_refused types (broken.datatype_in (scope_view scope.now) (syntax.type_of type_name.entry) []) (syntax.text_of literal.now)) }
{
    let library = library_of(alloc, scope, type_name)?;
    let text = literal_text(alloc, literal)?;
    let name = local_of(type_name);
    if !takes_values_in(types, library.as_str(), name) {
        return Ok(true);
    }
    match KnownDatatype::find(alloc, types, library.as_str(), name, &[])? {
        Some(datatype) => Ok(!datatype.allows(text.as_str())),
        None => Ok(true),
    }
}

/// Whether a use breaks the clause.
fn is_broken(
    alloc: Global,
    types: TypeSet,
    scope: &Scope<'_>,
    used: DatatypeUse<'_, '_>,
) -> Result<bool, OutOfMemory>
    ensures { IfOk result (λ is. is ≡ broken.is_broken types (scope_view scope.now) (use_of used.entry)) }
{
    match used {
        DatatypeUse::Data(type_name, parameters) => {
            is_unknown(alloc, types, scope, type_name, parameters)
        }
        DatatypeUse::Value(type_name, literal) => is_refused(
            alloc, types, scope, type_name, literal,
        ),
    }
}

/// How many uses come before the first one that breaks the clause.
fn find_broken(
    alloc: Global,
    types: TypeSet,
    scope: &Scope<'_>,
    uses: &[DatatypeUse<'_, '_>],
) -> Result<Option<usize>, OutOfMemory>
    ensures { IfOk result (λ found. found ≡ broken.first_of_all (broken.is_broken types (scope_view scope.now)) (map use_of uses.now)) }
{
    for (index, used) in uses.iter().enumerate() {
        let is_broken = is_broken(alloc, types, scope, *used)?;
        if is_broken {
            return Ok(Some(index));
        }
    }
    Ok(None)
}

// ---- the tokens of names

/// Whether the tokens begin with one that does not close a brace.
fn begins_parameter(tokens: &[Token<'_>]) -> bool
    ensures { (total : ℕ) → result ≡ plain.begins_parameter (lexemes_in total tokens.now) }
{
    match tokens {
        [first, ..] => match first.kind {
            TokenKind::Sign(Sign::CloseBrace) => false,
            _ => true,
        },
        [] => false,
    }
}

/// Whether the tokens begin with a parameter in braces.
fn opens_parameters(tokens: &[Token<'_>]) -> bool
    ensures { (total : ℕ) → result ≡ plain.opens_parameters (lexemes_in total tokens.now) }
{
    match tokens {
        [first, rest @ ..] => match first.kind {
            TokenKind::Sign(Sign::OpenBrace) => begins_parameter(rest),
            _ => false,
        },
        [] => false,
    }
}

/// Whether a token of this kind in a body, with these tokens after it, is the name of a datatype that may break the clause.
fn names_datatype(kind: TokenKind, after: &[Token<'_>]) -> bool
    ensures { (total number : ℕ) (text : List ℕ) → result ≡ plain.names_datatype (lexeme_at kind text number) (lexemes_in total after.now) }
{
    match kind {
        TokenKind::CName => true,
        TokenKind::Keyword(Keyword::String | Keyword::Token) => opens_parameters(after),
        _ => false,
    }
}

/// The same for a token in this part, inside so many annotations.
fn is_name_at(depth: usize, part: Part, kind: TokenKind, after: &[Token<'_>]) -> bool
    ensures { (total number : ℕ) (text : List ℕ) → result ≡ plain.is_name_at depth part (lexeme_at kind text number) (lexemes_in total after.now) }
{
    match depth {
        0 => match part {
            Part::Body => names_datatype(kind, after),
            _ => false,
        },
        _ => false,
    }
}

/// How many names come before the one that is asked for, after a token.
fn left_after(left: usize, is_name: bool) -> usize
    ensures { result ≡ plain.left_after left is_name }
{
    if is_name {
        left.saturating_sub(1)
    } else {
        left
    }
}

/// Whether a token is a name, and the last that is asked for.
fn is_last(left: usize, is_name: bool) -> bool
    ensures { result ≡ plain.is_last left is_name }
{
    is_name && left == 0
}

/// The number, from 1, of the name that so many others come before, or the number of tokens plus one if there is none.
fn name_number(tokens: &[Token<'_>], count: usize) -> usize
    ensures number { (total : ℕ) → result ≡ plain.name_number count (plain.names 0 parts.Body (lexemes_in total tokens.now)) }
    ensures within { result ≤ length tokens.now + 1 }
{
    let mut depth = 0usize;
    let mut part = Part::Body;
    let mut left = count;
    let mut rest = tokens;
    'tokens: while let Some((token, after)) = find_first(rest) {
        let is_name = is_name_at(depth, part, token.kind, after);
        if is_last(left, is_name) {
            return tokens.len() - rest.len() + 1;
        }
        left = left_after(left, is_name);
        part = part_at(depth, part, token.kind);
        depth = depth_after(depth, token.kind);
        rest = onward(after);
    }
    tokens.len() + 1
}

// ---- a file

/// What these declarations declare, and the tokens after them, unless one cannot be applied.
fn applied<'t, 'a>(
    alloc: Global,
    declarations: &[Declaration<'a>],
    tokens: &'t [Token<'a>],
) -> Result<Option<(Scope<'a>, &'t [Token<'a>])>, OutOfMemory>
    ensures is { (total : ℕ) → IfOk result (λ found. option_map (λ x. (scope_view x.0, lexemes_in total x.1.now)) found ≡ broken.applied nothing_declared (map syntax.declaration_of declarations.now) (lexemes_in total tokens.now)) }
    ensures within { IfOk result (λ found. IfSome found (λ x. length x.1.now ≤ length tokens.now)) }
{
    let mut scope = Scope::new(alloc);
    let mut rest = tokens;
    for declaration in declarations {
        match scope.declare(alloc, declaration) {
            Ok(()) => rest = behind_declaration(rest),
            Err(ScopeFault::Broken) => return Ok(None),
            Err(ScopeFault::Memory) => return Err(OutOfMemory),
        }
    }
    Ok(Some((scope, rest)))
}

/// The number, from 1, of the name of the first datatype in this file that breaks the clause.
fn number_in(
    alloc: Global,
    types: TypeSet,
    file: &File<'_>,
    tokens: &[Token<'_>],
) -> Result<Option<usize>, OutOfMemory>
    ensures { IfOk result (λ found. found ≡ broken.broken_number types (syntax.file_of file.now) (lexemes_in (length tokens.now) tokens.now)) }
{
    let Some((scope, rest)) = applied(alloc, &file.declarations, tokens)? else {
        return Ok(None);
    };
    let uses = uses_in(alloc, &file.body)?;
    match find_broken(alloc, types, &scope, &uses)? {
        Some(count) => Ok(Some(tokens.len() - rest.len() + name_number(rest, count))),
        None => Ok(None),
    }
}

/// The number, from 1, of the name of the first datatype that breaks the clause, in a file that breaks none before it.
pub fn broken_number(
    alloc: Global,
    types: TypeSet,
    tokens: &[Token<'_>],
) -> Result<Option<usize>, OutOfMemory>
    ensures { (t : FileTree) → IsFileTree (lexemes (tokens_of tokens.now)) t → IfOk result (IsBrokenNumber types (lexemes (tokens_of tokens.now))) }
{
    match read_syntax(alloc, tokens) {
        Ok(file) => number_in(alloc, types, &file, tokens),
        Err(SyntaxFault::Memory) => Err(OutOfMemory),
        Err(_) => Ok(None),
    }
}
