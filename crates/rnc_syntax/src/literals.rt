// Reading literals, parameters of datatypes, and mentions.
ghost use Rattle.std.specs.Prelude.{◌≡◌, ℕ, ◌-◌, Some, None, if◌then◌else◌, map, option_map};
ghost use Rattle.rnc_syntax.specs.plain.Reading.{lexemes_in};
ghost use Rattle.rnc_syntax.specs.plain.Combinators.{follow, many, segment_at, with_front};
ghost use Rattle.rng_model.specs.plain.Answers.{Gives};
ghost use Rattle.rnc_syntax.specs.views.Fault.{stop_of};
ghost use Rattle.rnc_syntax.specs.plain.Productions.{annotated_parameter_at, inherit_at, literal_at, mention_at, parameter_at, parameter_front, parameters_at};
ghost use Rattle.rnc_syntax.specs.views.SyntaxView.{mention_of, parameter_of, text_of};
ghost use Rattle.rnc_model.specs.declared.token.Sign.TheVariants.{Tilde};

use crate::fault::ReadFault;
use crate::reading::{Reader, onward};
use crate::syntax_tree::{Literal, Mention, Parameter};
use rnc_text::{Keyword, Sign, Token, TokenKind};

impl Reader {
    /// Reads the segments of a literal: `segment ("~" segment)*`.
    #[tactic(auto, unfolding(crate::specs::plain::Productions::literal_at))]
    pub fn literal<'t, 'a>(
        self,
        tokens: &'t [Token<'a>],
    ) -> Result<(Literal<'a>, &'t [Token<'a>]), ReadFault>
        ensures { Gives stop_of (λ x. (text_of x.0, lexemes_in self.count x.1.now)) result (literal_at (lexemes_in self.count tokens.now)) }
    {
        let (first, rest) = self.segment(tokens)?;
        let mut segments = Vec::new(self.alloc);
        segments.push(first)?;
        let (segments, rest) = self.more_segments(segments, rest)?;
        Ok((Literal { segments }, rest))
    }

    /// Reads the segments that follow, each after a `~`, and appends them.
    fn more_segments<'t, 'a>(
        self,
        mut segments: Vec<&'a str>,
        tokens: &'t [Token<'a>],
    ) -> Result<(Vec<&'a str>, &'t [Token<'a>]), ReadFault>
        ensures { Gives stop_of (λ x. (map (λ s. s.now) x.0.items, lexemes_in self.count x.1.now)) result (with_front (map (λ s. s.now) segments.entry.items) (many (follow Tilde) segment_at (lexemes_in self.count tokens.now))) }
    {
        let mut rest = tokens;
        while let Some(after) = self.find_after(Sign::Tilde, rest) {
            let (next, after) = self.segment(after)?;
            segments.push(next)?;
            rest = onward(after);
        }
        Ok((segments, rest))
    }

    /// Reads a parameter without its annotation, or what `datatypes` declares: `word "=" literal`.
    #[tactic(auto, unfolding(crate::specs::plain::Productions::parameter_at))]
    pub fn parameter<'t, 'a>(
        self,
        tokens: &'t [Token<'a>],
    ) -> Result<(Parameter<'a>, &'t [Token<'a>]), ReadFault>
        ensures { Gives stop_of (λ x. (parameter_of x.0, lexemes_in self.count x.1.now)) result (parameter_at (lexemes_in self.count tokens.now)) }
    {
        let (name, rest) = self.word(tokens)?;
        let rest = self.skip(Sign::Equal, rest)?;
        let (value, rest) = self.literal(rest)?;
        Ok((Parameter { name, value }, rest))
    }

    /// Reads a parameter of a datatype: `[annotation] word "=" literal`.
    #[tactic(auto, unfolding(crate::specs::plain::Productions::annotated_parameter_at))]
    fn annotated_parameter<'t, 'a>(
        self,
        tokens: &'t [Token<'a>],
    ) -> Result<(Parameter<'a>, &'t [Token<'a>]), ReadFault>
        ensures { Gives stop_of (λ x. (parameter_of x.0, lexemes_in self.count x.1.now)) result (annotated_parameter_at (lexemes_in self.count tokens.now)) }
    {
        let rest = self.annotation(tokens)?;
        self.parameter(rest)
    }

    /// Reads the parameters of a datatype in braces, if there are any: `["{" param* "}"]`.
    #[tactic(auto, unfolding(crate::specs::plain::Productions::parameters_at, crate::specs::plain::Productions::in_braces_at))]
    pub fn parameters<'t, 'a>(
        self,
        tokens: &'t [Token<'a>],
    ) -> Result<(Vec<Parameter<'a>>, &'t [Token<'a>]), ReadFault>
        ensures { Gives stop_of (λ x. (map parameter_of x.0.items, lexemes_in self.count x.1.now)) result (parameters_at (lexemes_in self.count tokens.now)) }
    {
        match self.find_after(Sign::OpenBrace, tokens) {
            None => Ok((Vec::new(self.alloc), tokens)),
            Some(rest) => {
                let (parameters, rest) = self.parameter_list(rest)?;
                let rest = self.skip(Sign::CloseBrace, rest)?;
                Ok((parameters, rest))
            }
        }
    }

    /// Reads parameters up to the first token that begins none.
    fn parameter_list<'t, 'a>(
        self,
        tokens: &'t [Token<'a>],
    ) -> Result<(Vec<Parameter<'a>>, &'t [Token<'a>]), ReadFault>
        ensures { Gives stop_of (λ x. (map parameter_of x.0.items, lexemes_in self.count x.1.now)) result (many parameter_front annotated_parameter_at (lexemes_in self.count tokens.now)) }
    {
        let mut parameters = Vec::new(self.alloc);
        let mut rest = tokens;
        while begins_parameter(rest) {
            let (next, after) = self.annotated_parameter(rest)?;
            parameters.push(next)?;
            rest = onward(after);
        }
        Ok((parameters, rest))
    }

    /// Reads the prefix that a mention names: `["inherit" "=" word]`.
    #[tactic(auto, unfolding(crate::specs::plain::Productions::inherit_at, crate::specs::plain::Productions::word_after_equal))]
    pub fn inherit<'t, 'a>(
        self,
        tokens: &'t [Token<'a>],
    ) -> Result<(Option<&'a str>, &'t [Token<'a>]), ReadFault>
        ensures { Gives stop_of (λ x. (option_map (λ p. p.now) x.0, lexemes_in self.count x.1.now)) result (inherit_at (lexemes_in self.count tokens.now)) }
    {
        match self.find_after_keyword(Keyword::Inherit, tokens) {
            None => Ok((None, tokens)),
            Some(rest) => {
                let rest = self.skip(Sign::Equal, rest)?;
                let (prefix, rest) = self.word(rest)?;
                Ok((Some(prefix), rest))
            }
        }
    }

    /// Reads a mention after its keyword, which has this number: `literal [inherit]`.
    #[tactic(auto, unfolding(crate::specs::plain::Productions::mention_at))]
    pub fn mention<'t, 'a>(
        self,
        token: usize,
        tokens: &'t [Token<'a>],
    ) -> Result<(Mention<'a>, &'t [Token<'a>]), ReadFault>
        ensures { Gives stop_of (λ x. (mention_of x.0, lexemes_in self.count x.1.now)) result (mention_at token (lexemes_in self.count tokens.now)) }
    {
        let (href, rest) = self.literal(tokens)?;
        let (inherit, rest) = self.inherit(rest)?;
        Ok((
            Mention {
                href,
                inherit,
                token,
            },
            rest,
        ))
    }
}

/// Whether a parameter or its annotation begins here.
fn begins_parameter(tokens: &[Token<'_>]) -> bool
    ensures { (count : ℕ) → parameter_front (lexemes_in count tokens.now) ≡ (if result then Some (lexemes_in count tokens.now) else None) }
{
    match tokens {
        [first, ..] => match first.kind {
            TokenKind::Identifier | TokenKind::QuotedIdentifier => true,
            TokenKind::Keyword(_) => true,
            TokenKind::Sign(Sign::OpenBracket) => true,
            _ => false,
        },
        [] => false,
    }
}
