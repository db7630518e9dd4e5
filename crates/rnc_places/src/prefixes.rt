// Finding the prefix that is not declared.
ghost use Rattle.std.specs.Prelude.{◌≡◌, ◌≤◌, ◌<◌, ◌^◌, ◌-◌, ◌+◌, ℕ, List, IfOk, IfSome, is_none, length, option_map};
ghost use Rattle.rnc_grammar.specs.views.Resolved.{scope_view};
ghost use Rattle.rnc_model.specs.declarations.Declarations.{library_in, namespace_in};
ghost use Rattle.rnc_model.specs.tokens.Cut as lexeme;
ghost use Rattle.rnc_model.specs.tokens.Cut.{lexeme_at};
ghost use Rattle.rnc_places.specs.plain.FaultNumbers as plain;
ghost use Rattle.rnc_places.specs.plain.FaultNumbers.{is_unknown, marks, unknown_number};
ghost use Rattle.rnc_places.specs.declared.prefixes.Part.TheVariants as parts;
ghost use Rattle.rnc_places.specs.views.Prefixes.{prefix_view};
ghost use Rattle.rnc_syntax.specs.plain.Reading.{lexemes_in};

use crate::declarations::onward;
use rnc_grammar::{Scope, ScopeFault};
use rnc_model::{Keyword, Sign, Token, TokenKind};
use rng_model::OutOfMemory;
use std::alloc::Global;

/// Where a token of a body is, outside an annotation.
#[derive(Clone, Copy)]
pub enum Part {
    Body,
    /// The name class of an element or an attribute.
    Class,
    /// After `inherit`.
    Inherit,
    /// After `inherit =`.
    Prefix,
}

/// A prefix that a token has.
#[derive(Clone, Copy)]
pub enum Prefix<'a> {
    Namespace(&'a str),
    Datatypes(&'a str),
}

/// The part of a name before its colon.
fn prefix_in(name: &str) -> &str
    ensures { result.now ≡ lexeme.prefix_in name.now }
{
    match name.split_once(':') {
        Some((prefix, _)) => prefix,
        None => name,
    }
}

/// The prefix of a token outside an annotation.
fn prefix_of<'a>(part: Part, token: &Token<'a>) -> Option<Prefix<'a>>
    ensures { (number : ℕ) → option_map prefix_view result ≡ plain.prefix_of part (lexeme_at token.now.kind token.now.text.now number) }
{
    match part {
        Part::Body => match token.kind {
            TokenKind::CName => Some(Prefix::Datatypes(prefix_in(token.text))),
            _ => None,
        },
        Part::Class => match token.kind {
            TokenKind::CName | TokenKind::NsName => Some(Prefix::Namespace(prefix_in(token.text))),
            _ => None,
        },
        Part::Inherit => None,
        Part::Prefix => match token.kind {
            TokenKind::Identifier | TokenKind::QuotedIdentifier | TokenKind::Keyword(_) => {
                Some(Prefix::Namespace(token.text))
            }
            _ => None,
        },
    }
}

/// Where the token after one of this kind is, outside an annotation.
fn part_after(part: Part, kind: TokenKind) -> Part
    ensures { (text : List ℕ) (number : ℕ) → result ≡ plain.part_after part (lexeme_at kind text number) }
{
    match part {
        Part::Body => match kind {
            TokenKind::Keyword(Keyword::Element | Keyword::Attribute) => Part::Class,
            TokenKind::Keyword(Keyword::Inherit) => Part::Inherit,
            _ => Part::Body,
        },
        Part::Class => match kind {
            TokenKind::Sign(Sign::OpenBrace | Sign::Equal) => Part::Body,
            _ => Part::Class,
        },
        Part::Inherit => match kind {
            TokenKind::Sign(Sign::Equal) => Part::Prefix,
            _ => Part::Body,
        },
        Part::Prefix => Part::Body,
    }
}

/// The number of open annotations after a token of this kind.
pub fn depth_after(depth: usize, kind: TokenKind) -> usize
    requires { depth < 2 ^ 64 - 1 }
    ensures { (text : List ℕ) (number : ℕ) → result ≡ plain.depth_after depth (lexeme_at kind text number) }
{
    match kind {
        TokenKind::Sign(Sign::OpenBracket) => depth + 1,
        TokenKind::Sign(Sign::CloseBracket) => depth.saturating_sub(1),
        _ => depth,
    }
}

/// Whether a namespace prefix is not declared.
fn lacks_namespace(alloc: Global, scope: &Scope<'_>, prefix: &str) -> Result<bool, OutOfMemory>
    ensures { IfOk result (λ lacks. lacks ≡ is_none (namespace_in (scope_view scope.now) prefix.now)) }
{
    match scope.namespace(alloc, prefix) {
        Ok(_) => Ok(false),
        Err(ScopeFault::Broken) => Ok(true),
        Err(ScopeFault::Memory) => Err(OutOfMemory),
    }
}

/// Whether a datatype prefix is not declared.
fn lacks_library(alloc: Global, scope: &Scope<'_>, prefix: &str) -> Result<bool, OutOfMemory>
    ensures { IfOk result (λ lacks. lacks ≡ is_none (library_in (scope_view scope.now) prefix.now)) }
{
    match scope.library(alloc, prefix) {
        Ok(_) => Ok(false),
        Err(ScopeFault::Broken) => Ok(true),
        Err(ScopeFault::Memory) => Err(OutOfMemory),
    }
}

/// Whether there is a prefix, and it is not declared.
fn is_undeclared(
    alloc: Global,
    scope: &Scope<'_>,
    prefix: Option<Prefix<'_>>,
) -> Result<bool, OutOfMemory>
    ensures { IfOk result (λ is. is ≡ is_unknown (scope_view scope.now) (option_map prefix_view prefix.entry)) }
{
    match prefix {
        Some(Prefix::Namespace(prefix)) => lacks_namespace(alloc, scope, prefix),
        Some(Prefix::Datatypes(prefix)) => lacks_library(alloc, scope, prefix),
        None => Ok(false),
    }
}

/// The prefix of a token inside so many annotations: nothing in an annotation has one.
fn prefix_at<'a>(depth: usize, part: Part, token: &Token<'a>) -> Option<Prefix<'a>>
    ensures { (number : ℕ) → option_map prefix_view result ≡ plain.prefix_at depth part (lexeme_at token.now.kind token.now.text.now number) }
{
    match depth {
        0 => prefix_of(part, token),
        _ => None,
    }
}

/// Where the token after one of this kind is, inside so many annotations.
pub fn part_at(depth: usize, part: Part, kind: TokenKind) -> Part
    ensures { (text : List ℕ) (number : ℕ) → result ≡ plain.part_at depth part (lexeme_at kind text number) }
{
    match depth {
        0 => part_after(part, kind),
        _ => part,
    }
}

/// Whether a token inside so many annotations has a prefix that is not declared.
fn is_fault(
    alloc: Global,
    scope: &Scope<'_>,
    depth: usize,
    part: Part,
    token: &Token<'_>,
) -> Result<bool, OutOfMemory>
    ensures { (number : ℕ) → IfOk result (λ is. is ≡ is_unknown (scope_view scope.now) (plain.prefix_at depth part (lexeme_at token.now.kind token.now.text.now number))) }
{
    is_undeclared(alloc, scope, prefix_at(depth, part, token))
}

/// The first token, and the tokens after it.
pub fn find_first<'t, 'a>(tokens: &'t [Token<'a>]) -> Option<(Token<'a>, &'t [Token<'a>])>
    ensures reads { (total : ℕ) → option_map (λ x. (lexeme_at x.0.kind x.0.text.now (total - length x.1.now), lexemes_in total x.1.now)) result ≡ plain.first_of (lexemes_in total tokens.now) }
    ensures shorter { IfSome result (λ x. length x.1.now + 1 ≡ length tokens.now) }
{
    match tokens {
        [first, rest @ ..] => Some((*first, rest)),
        [] => None,
    }
}

/// The number, from 1, of the first token of a body that has a prefix that is not declared, or the number of tokens
/// plus one if there is none.
pub fn undeclared_number(
    alloc: Global,
    scope: &Scope<'_>,
    tokens: &[Token<'_>],
) -> Result<usize, OutOfMemory>
    ensures number { (total : ℕ) → IfOk result (λ number. number ≡ unknown_number (scope_view scope.now) (marks 0 parts.Body (lexemes_in total tokens.now))) }
    ensures within { IfOk result (λ number. number ≤ length tokens.now + 1) }
{
    let mut depth = 0usize;
    let mut part = Part::Body;
    let mut rest = tokens;
    'tokens: while let Some((token, after)) = find_first(rest) {
        let is_fault = is_fault(alloc, scope, depth, part, &token)?;
        if is_fault {
            return Ok(tokens.len() - rest.len() + 1);
        }
        part = part_at(depth, part, token.kind);
        depth = depth_after(depth, token.kind);
        rest = onward(after);
    }
    Ok(tokens.len() + 1)
}
