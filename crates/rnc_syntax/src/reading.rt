// Reading tokens from left to right.
ghost use Rattle.std.specs.Prelude.{◌≡◌, [], ◌∷◌, Ok, option_map, length};
ghost use Rattle.rnc_model.specs.tokens.Cut.{local_in, prefix_in};
ghost use Rattle.rnc_syntax.specs.plain.Reading.{lexemes_in};
ghost use Rattle.rnc_syntax.specs.plain.Combinators.{after, follow, follow_keyword, word_at, identifier_at, segment_at};
ghost use Rattle.rng_model.specs.plain.Answers.{Gives};
ghost use Rattle.rnc_syntax.specs.views.Fault.{stop_of};
ghost use Rattle.rnc_syntax.specs.declared.fault.Stop.TheVariants.{Unexpected};
ghost use Rattle.rnc_syntax.specs.declared.fault.ReadFault.TheVariants as read_faults;

use crate::fault::{ReadFault, Stop};
use rnc_text::{Keyword, Sign, Token, TokenKind};
use std::alloc::Global;

/// Returns the same tokens. A loop that continues with tokens out of a result takes them through this call. So the
/// check knows how long they live.
pub fn onward<'t, 'a>(tokens: &'t [Token<'a>]) -> &'t [Token<'a>]
    ensures { result.now ≡ tokens.now }
{
    tokens
}

/// Puts a value in the place of another one.
#[inline(always)]
pub fn put<T: Drop>(place: &mut T, value: T)
    ensures { place.new ≡ value }
{
    *place = value;
}

/// Splits a name at its first colon into prefix and local part.
pub fn split_name(text: &str) -> (&str, &str)
    ensures prefix { result.0.now ≡ prefix_in text.now }
    ensures local { result.1.now ≡ local_in text.now }
{
    match text.split_once(':') {
        Some((prefix, local)) => (prefix, local),
        None => (text, ""),
    }
}

/// A reader of the tokens of a file. `count` is the number of all its tokens.
#[derive(Clone, Copy)]
pub struct Reader {
    pub alloc: Global,
    pub count: usize,
}

impl Reader {
    /// A list of one item.
    pub fn alone<T: Drop>(self, item: T) -> Result<Vec<T>, ReadFault>
        ensures { Gives stop_of (λ all. all.items) result (Ok (item ∷ [])) }
    {
        let mut all = Vec::new(self.alloc);
        all.push(item)?;
        Ok(all)
    }

    /// The fault if no production allows the first of these tokens, or their end.
    #[tactic(auto, using(crate::proofs::Lexemes::length_of_lexemes))]
    pub fn unexpected(self, tokens: &[Token<'_>]) -> ReadFault
        ensures { result ≡ read_faults.Stop (Unexpected (length (lexemes_in self.count tokens.now))) }
    {
        ReadFault::Stop(Stop::Unexpected(tokens.len()))
    }

    /// The tokens after this sign, if it is first.
    pub fn find_after<'t, 'a>(self, sign: Sign, tokens: &'t [Token<'a>]) -> Option<&'t [Token<'a>]>
        ensures { option_map (λ x. lexemes_in self.count x.now) result ≡ follow sign (lexemes_in self.count tokens.now) }
    {
        match tokens {
            [first, rest @ ..] if first.kind == TokenKind::Sign(sign) => Some(rest),
            _ => None,
        }
    }

    /// Skips this sign. Fails if it is not first.
    #[tactic(auto, unfolding(crate::specs::plain::Combinators::after))]
    pub fn skip<'t, 'a>(
        self,
        sign: Sign,
        tokens: &'t [Token<'a>],
    ) -> Result<&'t [Token<'a>], ReadFault>
        ensures { Gives stop_of (λ x. (tt, lexemes_in self.count x.now)) result (after sign (lexemes_in self.count tokens.now)) }
    {
        match self.find_after(sign, tokens) {
            Some(rest) => Ok(rest),
            None => Err(self.unexpected(tokens)),
        }
    }

    /// The tokens after this keyword, if it is first.
    pub fn find_after_keyword<'t, 'a>(
        self,
        keyword: Keyword,
        tokens: &'t [Token<'a>],
    ) -> Option<&'t [Token<'a>]>
        ensures { option_map (λ x. lexemes_in self.count x.now) result ≡ follow_keyword keyword (lexemes_in self.count tokens.now) }
    {
        match tokens {
            [first, rest @ ..] if first.kind == TokenKind::Keyword(keyword) => Some(rest),
            _ => None,
        }
    }

    /// Reads a word, which is an identifier or a keyword, and returns its name.
    #[tactic(auto, unfolding(crate::specs::plain::Combinators::word_at))]
    pub fn word<'t, 'a>(
        self,
        tokens: &'t [Token<'a>],
    ) -> Result<(&'a str, &'t [Token<'a>]), ReadFault>
        ensures { Gives stop_of (λ x. (x.0.now, lexemes_in self.count x.1.now)) result (word_at (lexemes_in self.count tokens.now)) }
    {
        match tokens {
            [first, rest @ ..] => match first.kind {
                TokenKind::Identifier | TokenKind::QuotedIdentifier | TokenKind::Keyword(_) => Ok((
                    first.text, rest,
                )),
                _ => Err(self.unexpected(tokens)),
            },
            [] => Err(self.unexpected(tokens)),
        }
    }

    /// Reads an identifier and returns its name.
    #[tactic(auto, unfolding(crate::specs::plain::Combinators::identifier_at))]
    pub fn identifier<'t, 'a>(
        self,
        tokens: &'t [Token<'a>],
    ) -> Result<(&'a str, &'t [Token<'a>]), ReadFault>
        ensures { Gives stop_of (λ x. (x.0.now, lexemes_in self.count x.1.now)) result (identifier_at (lexemes_in self.count tokens.now)) }
    {
        match tokens {
            [first, rest @ ..] => match first.kind {
                TokenKind::Identifier | TokenKind::QuotedIdentifier => Ok((first.text, rest)),
                _ => Err(self.unexpected(tokens)),
            },
            [] => Err(self.unexpected(tokens)),
        }
    }

    /// Reads a segment and returns its text.
    #[tactic(auto, unfolding(crate::specs::plain::Combinators::segment_at))]
    pub fn segment<'t, 'a>(
        self,
        tokens: &'t [Token<'a>],
    ) -> Result<(&'a str, &'t [Token<'a>]), ReadFault>
        ensures { Gives stop_of (λ x. (x.0.now, lexemes_in self.count x.1.now)) result (segment_at (lexemes_in self.count tokens.now)) }
    {
        match tokens {
            [first, rest @ ..] => match first.kind {
                TokenKind::Segment | TokenKind::TripleSegment => Ok((first.text, rest)),
                _ => Err(self.unexpected(tokens)),
            },
            [] => Err(self.unexpected(tokens)),
        }
    }
}
