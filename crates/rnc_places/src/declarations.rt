// Finding the declaration that breaks a rule.
ghost use Rattle.std.specs.Prelude.{◌≡◌, ◌≤◌, ◌<◌, ℕ, IfOk, IfSome, length, map, option_map};
ghost use Rattle.rnc_model.specs.declarations.Declarations.{nothing_declared};
ghost use Rattle.rnc_model.specs.loading.FaultPlaces.{BreaksDeclarationsAt};
ghost use Rattle.rnc_model.specs.loading.SchemaFile.{BreaksDeclarations};
ghost use Rattle.rnc_model.specs.tokens.CutTokens.{tokens_of};
ghost use Rattle.rnc_model.specs.tokens.Cut.{lexemes};
ghost use Rattle.rnc_places.specs.plain.FaultNumbers as plain;
ghost use Rattle.rnc_syntax.specs.plain.Reading.{lexemes_in};
ghost use Rattle.rnc_syntax.specs.views.SyntaxView.{declaration_of};

use crate::prefixes::undeclared_number;
use rnc_grammar::{Scope, ScopeFault};
use rnc_model::{Sign, Token, TokenKind};
use rnc_syntax::{Declaration, SyntaxFault, read_syntax};
use rng_model::OutOfMemory;
use std::alloc::Global;

/// Returns the same tokens. A loop that continues with tokens out of a result takes them through this call. So the
/// check knows how long they live.
pub fn onward<'t, 'a>(tokens: &'t [Token<'a>]) -> &'t [Token<'a>]
    ensures { result.now ≡ tokens.now }
{
    tokens
}

/// The tokens after the first one.
fn behind_first<'t, 'a>(tokens: &'t [Token<'a>]) -> &'t [Token<'a>]
    ensures is { (total : ℕ) → lexemes_in total result.now ≡ plain.behind_first (lexemes_in total tokens.now) }
    ensures within { length result.now ≤ length tokens.now }
{
    match tokens {
        [_, rest @ ..] => rest,
        [] => tokens,
    }
}

/// The tokens after the first one, if it is not `=`.
fn find_behind_other<'t, 'a>(tokens: &'t [Token<'a>]) -> Option<&'t [Token<'a>]>
    ensures is { (total : ℕ) → option_map (λ x. lexemes_in total x.now) result ≡ plain.other_front (lexemes_in total tokens.now) }
    ensures shorter { IfSome result (λ x. length x.now < length tokens.now) }
{
    match tokens {
        [first, rest @ ..] => match first.kind {
            TokenKind::Sign(Sign::Equal) => None,
            _ => Some(rest),
        },
        [] => None,
    }
}

/// The tokens after the first one, if it is `~`.
fn find_behind_tilde<'t, 'a>(tokens: &'t [Token<'a>]) -> Option<&'t [Token<'a>]>
    ensures is { (total : ℕ) → option_map (λ x. lexemes_in total x.now) result ≡ plain.tilde_front (lexemes_in total tokens.now) }
    ensures shorter { IfSome result (λ x. length x.now < length tokens.now) }
{
    match tokens {
        [first, rest @ ..] => match first.kind {
            TokenKind::Sign(Sign::Tilde) => Some(rest),
            _ => None,
        },
        [] => None,
    }
}

/// The tokens after the first `=`.
fn behind_equal<'t, 'a>(tokens: &'t [Token<'a>]) -> &'t [Token<'a>]
    ensures is { (total : ℕ) → lexemes_in total result.now ≡ plain.behind_equal (lexemes_in total tokens.now) }
    ensures within { length result.now ≤ length tokens.now }
{
    let mut rest = tokens;
    'tokens: while let Some(after) = find_behind_other(rest) {
        rest = onward(after);
    }
    behind_first(rest)
}

/// The tokens after the value of a declaration: `inherit`, or a literal, which is segments with `~` between them.
fn behind_value<'t, 'a>(tokens: &'t [Token<'a>]) -> &'t [Token<'a>]
    ensures is { (total : ℕ) → lexemes_in total result.now ≡ plain.behind_value (lexemes_in total tokens.now) }
    ensures within { length result.now ≤ length tokens.now }
{
    let mut rest = behind_first(tokens);
    'segments: while let Some(after) = find_behind_tilde(rest) {
        rest = onward(behind_first(after));
    }
    rest
}

/// The tokens after the declaration that begins here.
pub fn behind_declaration<'t, 'a>(tokens: &'t [Token<'a>]) -> &'t [Token<'a>]
    ensures is { (total : ℕ) → lexemes_in total result.now ≡ plain.behind_declaration (lexemes_in total tokens.now) }
    ensures within { length result.now ≤ length tokens.now }
{
    behind_value(behind_equal(tokens))
}

/// The number, from 1, of the first token of the first of these declarations that cannot be applied, or otherwise of
/// the first token with a prefix that is not declared. The tokens begin with the declarations.
fn fault_number(
    alloc: Global,
    declarations: &[Declaration<'_>],
    tokens: &[Token<'_>],
) -> Result<usize, OutOfMemory>
    ensures { IfOk result (λ number. number ≡ plain.fault_number (length tokens.now) nothing_declared (map declaration_of declarations.now) (lexemes_in (length tokens.now) tokens.now)) }
{
    let mut scope = Scope::new(alloc);
    let mut rest = tokens;
    for declaration in declarations {
        match scope.declare(alloc, declaration) {
            Ok(()) => rest = behind_declaration(rest),
            Err(ScopeFault::Broken) => return Ok(tokens.len() - rest.len() + 1),
            Err(ScopeFault::Memory) => return Err(OutOfMemory),
        }
    }
    let number = undeclared_number(alloc, &scope, rest)?;
    Ok(tokens.len() - rest.len() + number)
}

/// The number, from 1, of the first token of the first declaration that breaks a rule, or otherwise of the first token
/// with a prefix that is not declared. It is 0 if the tokens have no syntax tree.
pub fn unruly_number(alloc: Global, tokens: &[Token<'_>]) -> Result<usize, OutOfMemory>
    ensures { BreaksDeclarations (lexemes (tokens_of tokens.now)) → IfOk result (BreaksDeclarationsAt (lexemes (tokens_of tokens.now))) }
{
    match read_syntax(alloc, tokens) {
        Ok(file) => fault_number(alloc, &file.declarations, tokens),
        Err(SyntaxFault::Memory) => Err(OutOfMemory),
        Err(_) => Ok(0),
    }
}
