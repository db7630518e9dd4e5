// Finding the bracket that is one too many.
ghost use Rattle.std.specs.Prelude.{◌≡◌, []};
ghost use Rattle.rnc_model.specs.grammar.Sentence.{BreaksNesting, is_closing, is_opening};
ghost use Rattle.rnc_model.specs.loading.FaultPlaces.{IsTooDeepAt};
ghost use Rattle.rnc_model.specs.tokens.CutTokens.{tokens_of};
ghost use Rattle.rnc_model.specs.tokens.Cut.{lexeme_at, lexemes};

use rnc_model::{Sign, Token, TokenKind};

/// The largest number of brackets that may be open at once.
const NESTING_LIMIT: usize = 128;

/// Whether a token of this kind opens a bracket.
fn opens(kind: TokenKind) -> bool
    ensures { result ≡ is_opening (lexeme_at kind [] 0) }
{
    match kind {
        TokenKind::Sign(Sign::OpenBrace | Sign::OpenParenthesis) => true,
        _ => false,
    }
}

/// Whether a token of this kind closes a bracket.
fn closes(kind: TokenKind) -> bool
    ensures { result ≡ is_closing (lexeme_at kind [] 0) }
{
    match kind {
        TokenKind::Sign(Sign::CloseBrace | Sign::CloseParenthesis) => true,
        _ => false,
    }
}

/// The number, from 1, of the first token up to which the opening brackets exceed the closing ones by more than the
/// limit, or 0 if there is none.
pub fn too_deep_number(tokens: &[Token<'_>]) -> usize
    ensures { BreaksNesting (lexemes (tokens_of tokens.now)) → IsTooDeepAt (lexemes (tokens_of tokens.now)) result }
{
    let mut opened = 0usize;
    let mut closed = 0usize;
    for (index, token) in tokens.iter().enumerate() {
        opened += usize::from(opens(token.kind));
        closed += usize::from(closes(token.kind));
        if opened.saturating_sub(closed) > NESTING_LIMIT {
            return index + 1;
        }
    }
    0
}
