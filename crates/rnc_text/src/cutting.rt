// From characters to tokens.
ghost use Rattle.std.specs.Prelude.{◌≡◌, ℕ, List, [], IfOk, IfErr};
ghost use Rattle.rnc_model.specs.tokens.Tokens.{Piece};
ghost use Rattle.rnc_model.specs.tokens.Cut as cut;
ghost use Rattle.rnc_model.specs.tokens.Cut.{Cuts, HasTokens, BreaksTokensAt};
ghost use Rattle.rnc_model.specs.tokens.CutTokens.{AreInOrder, tokens_of};
ghost use Rattle.rnc_text.specs.views.Answers.{IfBroken, GivesOk, GivesFault};

use crate::cursor::Cursor;
use crate::fault::TextFault;
use crate::scanning::{Part, piece};
use crate::text::Text;
use rnc_model::Token;
use std::alloc::Global;

/// Cuts a text into tokens. Each piece is the longest that begins at its offset.
fn cut(alloc: Global, text: &Text) -> Result<Vec<Token<'_>>, TextFault>
    ensures found { IfOk result (λ v. HasTokens text.now (tokens_of v.items)) }
    ensures fault { IfErr result (IfBroken (λ clause offset. (clause ≡ 5) × BreaksTokensAt text.now offset)) }
{
    let mut tokens = Vec::new(alloc);
    let mut cursor = Cursor::new(text);
    'pieces: while !cursor.is_at_end() {
        let Some((part, after)) = piece(cursor) else {
            return Err(TextFault::At {
                clause: 5,
                offset: cursor.offset() as u64,
            });
        };
        if let Part::Token(kind, says) = part {
            tokens.push(Token {
                kind,
                text: says,
                start: cursor.offset(),
                end: after.offset(),
            })?;
        }
        cursor = after;
    }
    Ok(tokens)
}

/// Returns the tokens of a text, in order.
///
/// Each token is the longest piece at its offset. Blanks and comments give no token.
///
/// Fails with clause 5 if neither a blank, a comment nor a token begins at some offset. The offset of the fault is the
/// first such offset of the decoded text, in bytes. Fails with `Memory` only when out of memory. Takes linear time.
/// RELAX NG Compact Syntax, "Lexical structure".
pub fn tokens(alloc: Global, text: &Text) -> Result<Vec<Token<'_>>, TextFault>
    // The result is the tokens of a cut of the whole text.
    ensures found { IfOk result (λ v. HasTokens text.now (tokens_of v.items)) }
    // The spans are in order and do not overlap.
    ensures order { IfOk result (λ v. AreInOrder 0 (tokens_of v.items)) }
    // If a cut of the text has these tokens, the call returns them, unless it is out of memory.
    ensures only { (ts : List cut.Token) → HasTokens text.now ts → GivesOk (λ v. tokens_of v.items) result ts }
    // The cut is unique.
    ensures one { (pieces others : List Piece) → Cuts text.now pieces [] → Cuts text.now others [] → pieces ≡ others }
    // A fault reports a clause that is broken at its offset.
    ensures fault { IfErr result (IfBroken (λ clause offset. (clause ≡ 5) × BreaksTokensAt text.now offset)) }
    // If the clause is broken, the call reports it with its offset, unless it is out of memory.
    ensures broken { (offset : ℕ) → BreaksTokensAt text.now offset → GivesFault result 5 offset }
{
    cut(alloc, text)
}
