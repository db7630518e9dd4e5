// Reading name classes.
ghost use Rattle.std.specs.Prelude.{◌≡◌, map, option_map};
ghost use Rattle.rnc_syntax.specs.plain.Reading.{lexemes_in};
ghost use Rattle.rnc_syntax.specs.plain.Combinators.{follow, many, with_front};
ghost use Rattle.rng_model.specs.plain.Answers.{Gives};
ghost use Rattle.rnc_syntax.specs.views.Fault.{stop_of};
ghost use Rattle.rnc_syntax.specs.plain.Productions.{bare_basic_with, bare_class_with, basic_with, choice_with, class_with, except_front, inside_at};
ghost use Rattle.rnc_syntax.specs.views.SyntaxView.{class_of};
ghost use Rattle.rnc_model.specs.declared.token.Sign.TheVariants.{Bar};

use crate::fault::{ReadFault, Stop};
use crate::reading::{Reader, onward, put, split_name};
use crate::syntax_tree::{NameClass, QualifiedName};
use rnc_text::{Sign, Token, TokenKind};

impl Reader {
    /// `*` or `p:*` and then `-` at the front, and the tokens after them.
    fn find_except<'t, 'a>(
        self,
        tokens: &'t [Token<'a>],
    ) -> Option<(Option<&'a str>, &'t [Token<'a>])>
        ensures { option_map (λ x. (option_map (λ p. p.now) x.0, lexemes_in self.count x.1.now)) result ≡ except_front (lexemes_in self.count tokens.now) }
    {
        match tokens {
            [first, rest @ ..] => match first.kind {
                TokenKind::Sign(Sign::Star) => {
                    let rest = self.find_after(Sign::Minus, rest)?;
                    Some((None, rest))
                }
                TokenKind::NsName => {
                    let rest = self.find_after(Sign::Minus, rest)?;
                    Some((Some(split_name(first.text).0), rest))
                }
                _ => None,
            },
            [] => None,
        }
    }

    /// Reads a name class inside which at most `levels` brackets may be open:
    /// `basic | basic ("|" basic)+ | [annotation] (nsName | "*") "-" basic`.
    #[cycle(classes)]
    #[tactic(auto, unfolding(crate::specs::plain::Productions::class_with))]
    pub fn class<'t, 'a>(
        self,
        levels: u8,
        tokens: &'t [Token<'a>],
        place: &mut NameClass<'a>,
    ) -> Result<&'t [Token<'a>], ReadFault>
        ensures { Gives stop_of (λ x. (class_of place.new, lexemes_in self.count x.now)) result (class_with (inside_at levels).class (lexemes_in self.count tokens.now)) }
    {
        let rest = self.annotation(tokens)?;
        let (class, rest) = self.bare_class(levels, rest)?;
        put(place, class);
        Ok(rest)
    }

    /// Reads a name class after an annotation.
    #[cycle(classes)]
    #[tactic(auto, unfolding(crate::specs::plain::Productions::bare_class_with))]
    fn bare_class<'t, 'a>(
        self,
        levels: u8,
        tokens: &'t [Token<'a>],
    ) -> Result<(NameClass<'a>, &'t [Token<'a>]), ReadFault>
        ensures { Gives stop_of (λ x. (class_of x.0, lexemes_in self.count x.1.now)) result (bare_class_with (inside_at levels).class (lexemes_in self.count tokens.now)) }
    {
        match self.find_except(tokens) {
            Some((prefix, rest)) => {
                let (class, rest) = self.basic(levels, rest)?;
                let class = Box::new(self.alloc, class)?;
                match prefix {
                    None => Ok((NameClass::AnyExcept(class), rest)),
                    Some(prefix) => Ok((NameClass::NsExcept(prefix, class), rest)),
                }
            }
            None => {
                let (class, rest) = self.bare_basic(levels, tokens)?;
                self.choice(levels, class, rest)
            }
        }
    }

    /// Reads the classes that follow the first one, each after a `|`.
    #[cycle(classes)]
    #[tactic(auto, unfolding(crate::specs::plain::Productions::choice_with))]
    fn choice<'t, 'a>(
        self,
        levels: u8,
        first: NameClass<'a>,
        tokens: &'t [Token<'a>],
    ) -> Result<(NameClass<'a>, &'t [Token<'a>]), ReadFault>
        ensures { Gives stop_of (λ x. (class_of x.0, lexemes_in self.count x.1.now)) result (choice_with (basic_with (inside_at levels).class) (class_of first.entry) (lexemes_in self.count tokens.now)) }
    {
        match self.find_after(Sign::Bar, tokens) {
            None => Ok((first, tokens)),
            Some(_) => {
                let all = self.alone(first)?;
                let (all, rest) = self.more_classes(levels, all, tokens)?;
                Ok((NameClass::Choice(all), rest))
            }
        }
    }

    /// Reads the classes that follow, each after a `|`, and appends them.
    #[cycle(classes)]
    fn more_classes<'t, 'a>(
        self,
        levels: u8,
        mut all: Vec<NameClass<'a>>,
        tokens: &'t [Token<'a>],
    ) -> Result<(Vec<NameClass<'a>>, &'t [Token<'a>]), ReadFault>
        ensures { Gives stop_of (λ x. (map class_of x.0.items, lexemes_in self.count x.1.now)) result (with_front (map class_of all.entry.items) (many (follow Bar) (basic_with (inside_at levels).class) (lexemes_in self.count tokens.now))) }
    {
        let mut rest = tokens;
        while let Some(after) = self.find_after(Sign::Bar, rest) {
            let (next, after) = self.basic(levels, after)?;
            all.push(next)?;
            rest = onward(after);
        }
        Ok((all, rest))
    }

    /// Reads `[annotation] ( word | CName | nsName | "*" | "(" class ")" )`.
    #[cycle(classes)]
    #[tactic(auto, unfolding(crate::specs::plain::Productions::basic_with))]
    fn basic<'t, 'a>(
        self,
        levels: u8,
        tokens: &'t [Token<'a>],
    ) -> Result<(NameClass<'a>, &'t [Token<'a>]), ReadFault>
        ensures { Gives stop_of (λ x. (class_of x.0, lexemes_in self.count x.1.now)) result (basic_with (inside_at levels).class (lexemes_in self.count tokens.now)) }
    {
        let rest = self.annotation(tokens)?;
        self.bare_basic(levels, rest)
    }

    /// Reads `word | CName | nsName | "*" | "(" class ")"`.
    #[cycle(classes)]
    #[tactic(auto, unfolding(crate::specs::plain::Productions::bare_basic_with, crate::specs::plain::Productions::class_in_parens))]
    fn bare_basic<'t, 'a>(
        self,
        levels: u8,
        tokens: &'t [Token<'a>],
    ) -> Result<(NameClass<'a>, &'t [Token<'a>]), ReadFault>
        ensures { Gives stop_of (λ x. (class_of x.0, lexemes_in self.count x.1.now)) result (bare_basic_with (inside_at levels).class (lexemes_in self.count tokens.now)) }
    {
        match tokens {
            [first, rest @ ..] => match first.kind {
                TokenKind::Identifier | TokenKind::QuotedIdentifier | TokenKind::Keyword(_) => {
                    let name = QualifiedName {
                        prefix: None,
                        local: first.text,
                    };
                    Ok((NameClass::Name(name), rest))
                }
                TokenKind::CName => {
                    let (prefix, local) = split_name(first.text);
                    let name = QualifiedName {
                        prefix: Some(prefix),
                        local,
                    };
                    Ok((NameClass::Name(name), rest))
                }
                TokenKind::NsName => Ok((NameClass::Ns(split_name(first.text).0), rest)),
                TokenKind::Sign(Sign::Star) => Ok((NameClass::Any, rest)),
                TokenKind::Sign(Sign::OpenParenthesis) => {
                    let (class, rest) = self.inner_class(levels, rest)?;
                    let rest = self.skip(Sign::CloseParenthesis, rest)?;
                    Ok((class, rest))
                }
                _ => Err(self.unexpected(tokens)),
            },
            [] => Err(self.unexpected(tokens)),
        }
    }

    /// Reads a name class one bracket deeper.
    #[cycle(classes)]
    #[tactic(auto, using(crate::proofs::InsideBrackets::class_step, crate::proofs::InsideBrackets::class_too_deep))]
    fn inner_class<'t, 'a>(
        self,
        levels: u8,
        tokens: &'t [Token<'a>],
    ) -> Result<(NameClass<'a>, &'t [Token<'a>]), ReadFault>
        ensures { Gives stop_of (λ x. (class_of x.0, lexemes_in self.count x.1.now)) result ((inside_at levels).class (lexemes_in self.count tokens.now)) }
    {
        if levels == 0 {
            return Err(ReadFault::Stop(Stop::TooDeep));
        }
        let mut class = NameClass::Any;
        let rest = self.class(levels - 1, tokens, &mut class)?;
        Ok((class, rest))
    }
}
