// How deep brackets nest.
ghost use Rattle.std.specs.Prelude.{◌≡◌, [], MatchBool};
ghost use Rattle.rnc_model.specs.tokens.Cut.{lexeme_at, lexemes};
ghost use Rattle.rnc_model.specs.grammar.Sentence.{BreaksNesting, NestsWithin, is_closing, is_opening, nesting_limit};
ghost use Rattle.rnc_model.specs.tokens.CutTokens.{tokens_of};

use rnc_text::{Sign, Token, TokenKind};

/// The largest number of brackets that may be open at once.
pub const NESTING_LIMIT: u8 = 128;

/// Whether a token of this kind opens a bracket, and whether it closes one.
fn bracket(kind: TokenKind) -> (bool, bool)
    ensures { result ≡ (is_opening (lexeme_at kind [] 0), is_closing (lexeme_at kind [] 0)) }
{
    match kind {
        TokenKind::Sign(Sign::OpenBrace | Sign::OpenParenthesis) => (true, false),
        TokenKind::Sign(Sign::CloseBrace | Sign::CloseParenthesis) => (false, true),
        _ => (false, false),
    }
}

/// Whether at each token the opening brackets up to it exceed the closing ones by at most the limit.
pub fn nests_within_limit(tokens: &[Token<'_>]) -> bool
    ensures { MatchBool result (NestsWithin nesting_limit (lexemes (tokens_of tokens.now))) (BreaksNesting (lexemes (tokens_of tokens.now))) }
{
    let mut opened = 0usize;
    let mut closed = 0usize;
    for token in tokens {
        let (opens, closes) = bracket(token.kind);
        opened += usize::from(opens);
        closed += usize::from(closes);
        if opened.saturating_sub(closed) > usize::from(NESTING_LIMIT) {
            return false;
        }
    }
    true
}
