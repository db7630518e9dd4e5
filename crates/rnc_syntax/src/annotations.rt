// Reading annotations, which are not in the tree.
ghost use Rattle.std.specs.Prelude.{◌≡◌, ◌<◌, option_map, length, IfSome};
ghost use Rattle.rnc_syntax.specs.plain.Reading.{lexemes_in};
ghost use Rattle.rng_model.specs.plain.Answers.{Gives};
ghost use Rattle.rnc_syntax.specs.views.Fault.{stop_of};
ghost use Rattle.rnc_syntax.specs.plain.Productions.{annotation_at, annotation_end, role_front};

use crate::fault::ReadFault;
use crate::reading::{Reader, onward};
use rnc_text::{Sign, Token, TokenKind};

/// The role of a token in an annotation.
///
/// RELAX NG Compact Syntax, "Annotations".
pub enum Role {
    /// `[` opens an annotation inside it.
    Opens,
    /// `]` closes it, or the last one that is open inside it.
    Closes,
    /// Content: any token without another role.
    Content,
    /// A brace or a parenthesis, which is not allowed in an annotation.
    Foreign,
}

impl Reader {
    /// The role of the first token in an annotation, and the tokens after it.
    fn find_role<'t, 'a>(self, tokens: &'t [Token<'a>]) -> Option<(Role, &'t [Token<'a>])>
        ensures reads { option_map (λ x. (x.0, lexemes_in self.count x.1.now)) result ≡ role_front (lexemes_in self.count tokens.now) }
        ensures shorter { IfSome result (λ x. length x.1.now < length tokens.now) }
    {
        match tokens {
            [first, rest @ ..] => match first.kind {
                TokenKind::Sign(Sign::OpenBracket) => Some((Role::Opens, rest)),
                TokenKind::Sign(Sign::CloseBracket) => Some((Role::Closes, rest)),
                TokenKind::Sign(Sign::OpenBrace) => Some((Role::Foreign, rest)),
                TokenKind::Sign(Sign::CloseBrace) => Some((Role::Foreign, rest)),
                TokenKind::Sign(Sign::OpenParenthesis) => Some((Role::Foreign, rest)),
                TokenKind::Sign(Sign::CloseParenthesis) => Some((Role::Foreign, rest)),
                _ => Some((Role::Content, rest)),
            },
            [] => None,
        }
    }

    /// Reads an annotation whose `[` has been read. Returns the tokens after it.
    pub fn annotation_end<'t, 'a>(
        self,
        tokens: &'t [Token<'a>],
    ) -> Result<&'t [Token<'a>], ReadFault>
        ensures { Gives stop_of (λ x. (tt, lexemes_in self.count x.now)) result (annotation_end 0 (lexemes_in self.count tokens.now)) }
    {
        let mut open = 0usize;
        let mut rest = tokens;
        while let Some((role, after)) = self.find_role(rest) {
            match role {
                Role::Opens => open += 1,
                Role::Closes if open == 0 => return Ok(after),
                Role::Closes => open -= 1,
                Role::Content => {}
                Role::Foreign => return Err(self.unexpected(rest)),
            }
            rest = onward(after);
        }
        Err(self.unexpected(rest))
    }

    /// Reads an annotation, if there is one. Returns the tokens after it.
    #[tactic(auto, unfolding(crate::specs::plain::Productions::annotation_at))]
    pub fn annotation<'t, 'a>(self, tokens: &'t [Token<'a>]) -> Result<&'t [Token<'a>], ReadFault>
        ensures { Gives stop_of (λ x. (tt, lexemes_in self.count x.now)) result (annotation_at (lexemes_in self.count tokens.now)) }
    {
        match self.find_after(Sign::OpenBracket, tokens) {
            None => Ok(tokens),
            Some(rest) => self.annotation_end(rest),
        }
    }
}
