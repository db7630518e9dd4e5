// Reading files: declarations, and the body after them.
ghost use Rattle.std.specs.Prelude.{◌≡◌, map};
ghost use Rattle.rnc_syntax.specs.plain.Reading.{lexemes_in};
ghost use Rattle.rng_model.specs.plain.Answers.{Gives};
ghost use Rattle.rnc_syntax.specs.views.Fault.{stop_of};
ghost use Rattle.rnc_syntax.specs.plain.Productions.{begins_declaration as is_declaration_front, begins_method as is_method_front, is_grammar_body};
ghost use Rattle.rnc_syntax.specs.plain.Productions.{annotated_body_with, body_with, declaration_at, declarations_at, default_at, file_with, if_ended, inside_at, prefix_at, uri_at};
ghost use Rattle.rnc_syntax.specs.views.SyntaxView.{body_of, declaration_of, file_of, uri_of};

use crate::atoms::Setting;
use crate::fault::ReadFault;
use crate::reading::{Reader, onward};
use crate::syntax_tree::{Body, Component, Declaration, File, Pattern, Uri};
use rnc_text::{Keyword, Sign, Token, TokenKind};

impl Reader {
    /// Whether a declaration begins here.
    fn begins_declaration(self, tokens: &[Token<'_>]) -> bool
        ensures { result ≡ is_declaration_front (lexemes_in self.count tokens.now) }
    {
        match tokens {
            [first, ..] => match first.kind {
                TokenKind::Keyword(Keyword::Namespace) => true,
                TokenKind::Keyword(Keyword::Default) => true,
                TokenKind::Keyword(Keyword::Datatypes) => true,
                _ => false,
            },
            [] => false,
        }
    }

    /// Whether the first token is a method.
    fn begins_with_method(self, tokens: &[Token<'_>]) -> bool
        ensures { result ≡ is_method_front (lexemes_in self.count tokens.now) }
    {
        match tokens {
            [first, ..] => match first.kind {
                TokenKind::Sign(Sign::Equal) => true,
                TokenKind::Sign(Sign::BarEqual) => true,
                TokenKind::Sign(Sign::AndEqual) => true,
                _ => false,
            },
            [] => false,
        }
    }

    /// Whether the body is a grammar: it begins with a component's keyword, or with an identifier and a method, or it
    /// has no tokens where that is allowed.
    fn begins_grammar(self, may_be_empty: bool, tokens: &[Token<'_>]) -> bool
        ensures { result ≡ is_grammar_body may_be_empty (lexemes_in self.count tokens.now) }
    {
        match tokens {
            [first, rest @ ..] => match first.kind {
                TokenKind::Keyword(Keyword::Start) => true,
                TokenKind::Keyword(Keyword::Div) => true,
                TokenKind::Keyword(Keyword::Include) => true,
                TokenKind::Identifier | TokenKind::QuotedIdentifier => {
                    self.begins_with_method(rest)
                }
                _ => false,
            },
            [] => may_be_empty,
        }
    }

    /// Reads `literal | "inherit"`.
    #[tactic(auto, unfolding(crate::specs::plain::Productions::uri_at))]
    fn uri<'t, 'a>(self, tokens: &'t [Token<'a>]) -> Result<(Uri<'a>, &'t [Token<'a>]), ReadFault>
        ensures { Gives stop_of (λ x. (uri_of x.0, lexemes_in self.count x.1.now)) result (uri_at (lexemes_in self.count tokens.now)) }
    {
        match self.find_after_keyword(Keyword::Inherit, tokens) {
            Some(rest) => Ok((Uri::Inherit, rest)),
            None => {
                let (uri, rest) = self.literal(tokens)?;
                Ok((Uri::Literal(uri), rest))
            }
        }
    }

    /// Reads `word "=" uri`.
    #[tactic(auto, unfolding(crate::specs::plain::Productions::prefix_at))]
    fn prefix<'t, 'a>(
        self,
        tokens: &'t [Token<'a>],
    ) -> Result<(&'a str, Uri<'a>, &'t [Token<'a>]), ReadFault>
        ensures { Gives stop_of (λ x. ((x.0.now, uri_of x.1), lexemes_in self.count x.2.now)) result (prefix_at (lexemes_in self.count tokens.now)) }
    {
        let (prefix, rest) = self.word(tokens)?;
        let rest = self.skip(Sign::Equal, rest)?;
        let (uri, rest) = self.uri(rest)?;
        Ok((prefix, uri, rest))
    }

    /// Reads what follows `default namespace`: `[word] "=" uri`.
    #[tactic(auto, unfolding(crate::specs::plain::Productions::default_at))]
    fn default_namespace<'t, 'a>(
        self,
        tokens: &'t [Token<'a>],
    ) -> Result<(Declaration<'a>, &'t [Token<'a>]), ReadFault>
        ensures { Gives stop_of (λ x. (declaration_of x.0, lexemes_in self.count x.1.now)) result (default_at (lexemes_in self.count tokens.now)) }
    {
        match self.find_after(Sign::Equal, tokens) {
            Some(rest) => {
                let (uri, rest) = self.uri(rest)?;
                Ok((Declaration::Default { prefix: None, uri }, rest))
            }
            None => {
                let (prefix, uri, rest) = self.prefix(tokens)?;
                Ok((
                    Declaration::Default {
                        prefix: Some(prefix),
                        uri,
                    },
                    rest,
                ))
            }
        }
    }

    /// Reads one declaration.
    #[tactic(auto, using(crate::proofs::FirstTokens::declaration_is), unfolding(crate::specs::plain::Combinators::after_keyword))]
    fn declaration<'t, 'a>(
        self,
        tokens: &'t [Token<'a>],
    ) -> Result<(Declaration<'a>, &'t [Token<'a>]), ReadFault>
        ensures { Gives stop_of (λ x. (declaration_of x.0, lexemes_in self.count x.1.now)) result (declaration_at (lexemes_in self.count tokens.now)) }
    {
        if let Some(rest) = self.find_after_keyword(Keyword::Namespace, tokens) {
            let (prefix, uri, rest) = self.prefix(rest)?;
            return Ok((Declaration::Namespace { prefix, uri }, rest));
        }
        if let Some(rest) = self.find_after_keyword(Keyword::Default, tokens) {
            let Some(rest) = self.find_after_keyword(Keyword::Namespace, rest) else {
                return Err(self.unexpected(rest));
            };
            return self.default_namespace(rest);
        }
        if let Some(rest) = self.find_after_keyword(Keyword::Datatypes, tokens) {
            let (declared, rest) = self.parameter(rest)?;
            return Ok((Declaration::Datatypes(declared), rest));
        }
        Err(self.unexpected(tokens))
    }

    /// Reads the declarations at the start of a file.
    #[tactic(auto, unfolding(crate::specs::plain::Productions::declarations_at))]
    fn declarations<'t, 'a>(
        self,
        tokens: &'t [Token<'a>],
    ) -> Result<(Vec<Declaration<'a>>, &'t [Token<'a>]), ReadFault>
        ensures { Gives stop_of (λ x. (map declaration_of x.0.items, lexemes_in self.count x.1.now)) result (declarations_at (lexemes_in self.count tokens.now)) }
    {
        let mut all = Vec::new(self.alloc);
        let mut rest = tokens;
        while self.begins_declaration(rest) {
            let (next, after) = self.declaration(rest)?;
            all.push(next)?;
            rest = onward(after);
        }
        Ok((all, rest))
    }

    /// Reads the body of a file.
    #[tactic(auto, using(crate::proofs::ReadItems::nothing_before), unfolding(crate::specs::plain::Productions::body_with, crate::specs::plain::Productions::bare_body_with))]
    fn body<'t, 'a>(
        self,
        levels: u8,
        tokens: &'t [Token<'a>],
    ) -> Result<(Body<'a>, &'t [Token<'a>]), ReadFault>
        ensures { Gives stop_of (λ x. (body_of x.0, lexemes_in self.count x.1.now)) result (body_with (inside_at levels) (lexemes_in self.count tokens.now)) }
    {
        if let Some(rest) = self.find_after(Sign::OpenBracket, tokens) {
            let rest = self.annotation_end(rest)?;
            return self.annotated_body(levels, rest);
        }
        if self.begins_grammar(true, tokens) {
            let mut components = Vec::new(self.alloc);
            let rest = self.more_components(levels, Setting::Content, tokens, &mut components)?;
            Ok((Body::Grammar(components), rest))
        } else {
            let mut pattern = Pattern::Empty;
            let rest = self.bare_pattern(levels, tokens, &mut pattern)?;
            Ok((Body::Pattern(pattern), rest))
        }
    }

    /// Reads the body of a file after the annotation of its pattern or of its first component.
    #[tactic(auto, unfolding(crate::specs::plain::Productions::annotated_body_with))]
    fn annotated_body<'t, 'a>(
        self,
        levels: u8,
        tokens: &'t [Token<'a>],
    ) -> Result<(Body<'a>, &'t [Token<'a>]), ReadFault>
        ensures { Gives stop_of (λ x. (body_of x.0, lexemes_in self.count x.1.now)) result (annotated_body_with (inside_at levels) (lexemes_in self.count tokens.now)) }
    {
        if self.begins_grammar(false, tokens) {
            let mut first = Component::Div(Vec::new(self.alloc));
            let rest = self.bare_component(levels, Setting::Content, tokens, &mut first)?;
            let mut components = self.alone(first)?;
            let rest = self.more_components(levels, Setting::Content, rest, &mut components)?;
            Ok((Body::Grammar(components), rest))
        } else {
            let mut pattern = Pattern::Empty;
            let rest = self.bare_pattern(levels, tokens, &mut pattern)?;
            Ok((Body::Pattern(pattern), rest))
        }
    }

    /// Returns the value if no token is left, and fails otherwise.
    fn ended<T: Drop>(self, value: T, tokens: &[Token<'_>]) -> Result<T, ReadFault>
        ensures { Gives stop_of (λ v. v) result (if_ended value (lexemes_in self.count tokens.now)) }
    {
        match tokens {
            [] => Ok(value),
            _ => Err(self.unexpected(tokens)),
        }
    }

    /// Reads a whole file in which at most `levels` brackets may be open.
    #[tactic(auto, unfolding(crate::specs::plain::Productions::file_with))]
    pub fn file<'a>(self, levels: u8, tokens: &[Token<'a>]) -> Result<File<'a>, ReadFault>
        ensures { Gives stop_of file_of result (file_with (inside_at levels) (lexemes_in self.count tokens.now)) }
    {
        let (declarations, rest) = self.declarations(tokens)?;
        let (body, rest) = self.body(levels, rest)?;
        self.ended(File { declarations, body }, rest)
    }
}
