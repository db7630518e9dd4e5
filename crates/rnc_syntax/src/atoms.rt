// Reading the parts of patterns and components that contain no other pattern.
ghost use Rattle.std.specs.Prelude.{◌≡◌, ◌++◌, ◌∷◌, [], IfOk, Ok, OnOk, if◌then◌else◌, map, option_map};
ghost use Rattle.rnc_model.specs.grammar.Syntax as syntax;
ghost use Rattle.rnc_syntax.specs.plain.Reading.{lexemes_in};
ghost use Rattle.rng_model.specs.plain.Answers.{Gives};
ghost use Rattle.rnc_syntax.specs.views.Fault.{stop_of};
ghost use Rattle.rnc_syntax.specs.plain.Productions.{atom_at, begins_component as is_component_front, begins_segment, joined, lone_front, method_at, other_at, repeated as repeated_of, separator_of, type_front, typed_at};
ghost use Rattle.rnc_syntax.specs.plain.Productions.{include_front, opening_front, repetition_front};
ghost use Rattle.rnc_syntax.specs.plain.Productions.{assigned_at};
ghost use Rattle.rnc_syntax.specs.plain.DataParts.{excluding, exclusion_front};
ghost use Rattle.rnc_syntax.specs.plain.Productions.{assigned as assigned_of};
ghost use Rattle.rnc_syntax.specs.views.SyntaxView.{class_of, component_of, pattern_of, setting_of, type_of};

use crate::fault::ReadFault;
use crate::reading::{Reader, put, split_name};
use crate::syntax_tree::{Component, DatatypeName, NameClass, Pattern};
use rnc_text::{Keyword, Sign, Token, TokenKind};
use rng_model::{Method, OutOfMemory};
use std::mem;

/// Where a component is: in a grammar, or in the braces of an include.
#[derive(Clone, Copy)]
pub enum Setting {
    Content,
    Override,
}

/// How a primary begins that contains other patterns.
#[derive(Clone, Copy)]
pub enum Opening {
    Element,
    Attribute,
    List,
    Mixed,
    Grammar,
    Parenthesis,
}

/// How often a pattern may occur, if a sign says so.
#[derive(Clone, Copy)]
pub enum Repetition {
    /// `?`
    Optional,
    /// `*`
    ZeroOrMore,
    /// `+`
    OneOrMore,
}

/// Puts two patterns or more in this place, with this connector between them.
#[inline(never)]
pub fn put_joined<'a>(place: &mut Pattern<'a>, sign: Sign, all: Vec<Pattern<'a>>)
    ensures { pattern_of place.new ≡ joined sign (map pattern_of all.entry.items) }
{
    match sign {
        Sign::Comma => put(place, Pattern::Group(all)),
        Sign::And => put(place, Pattern::Interleave(all)),
        _ => put(place, Pattern::Choice(all)),
    }
}

/// Puts a grammar of these components in this place.
#[inline(never)]
pub fn put_grammar<'a>(place: &mut Pattern<'a>, components: Vec<Component<'a>>)
    ensures { pattern_of place.new ≡ syntax.grammar (syntax.components_of (map component_of components.entry.items)) }
{
    put(place, Pattern::Grammar(components));
}

/// Excludes a pattern from the datatype in this place.
#[inline(never)]
pub fn put_except<'a>(place: &mut Pattern<'a>, except: Box<Pattern<'a>>)
    ensures { pattern_of place.new ≡ excluding (pattern_of place.old) (pattern_of except.entry.value) }
{
    match mem::replace(place, Pattern::Empty) {
        Pattern::Data(type_name, parameters) => {
            put(place, Pattern::DataExcept(type_name, parameters, except));
        }
        other => put(place, other),
    }
}

/// Puts a define of the name in this place, or a start if there is no name.
#[inline(never)]
pub fn put_assigned<'a>(
    place: &mut Component<'a>,
    name: Option<&'a str>,
    method: Method,
    mut body: Box<Pattern<'a>>,
)
    ensures { component_of place.new ≡ assigned_of (option_map (λ n. n.now) name.entry) method (pattern_of body.entry.value) }
{
    let body = mem::replace(&mut *body, Pattern::Empty);
    match name {
        None => put(place, Component::Start(method, body)),
        Some(name) => put(place, Component::Define(name, method, body)),
    }
}

/// Puts an element or an attribute in this place. Takes the name class out of its place.
#[inline(never)]
pub fn put_named<'a>(
    place: &mut Pattern<'a>,
    is_attribute: bool,
    class: &mut NameClass<'a>,
    body: Box<Pattern<'a>>,
)
    ensures { pattern_of place.new ≡ (if is_attribute then syntax.attribute else syntax.element) (class_of class.old) (pattern_of body.entry.value) }
{
    let class = mem::replace(class, NameClass::Any);
    if is_attribute {
        put(place, Pattern::Attribute(class, body));
    } else {
        put(place, Pattern::Element(class, body));
    }
}

/// Appends the pattern in this place, and leaves another one there.
#[inline(never)]
pub fn append_pattern<'a>(
    all: &mut Vec<Pattern<'a>>,
    place: &mut Pattern<'a>,
) -> Result<(), OutOfMemory>
    ensures { OnOk result (map pattern_of all.new.items ≡ map pattern_of all.old.items ++ pattern_of place.old ∷ []) }
{
    all.push(mem::replace(place, Pattern::Empty))?;
    Ok(())
}

impl Reader {
    /// A pattern in whose place another one is read.
    #[inline(never)]
    pub fn no_pattern<'a>(self) -> Result<Box<Pattern<'a>>, OutOfMemory>
        ensures { IfOk result (λ p. pattern_of p.value ≡ syntax.empty) }
    {
        Ok(Box::new(self.alloc, Pattern::Empty)?)
    }

    /// Appends the component in this place, and leaves another one there.
    #[inline(never)]
    pub fn append_component<'a>(
        self,
        all: &mut Vec<Component<'a>>,
        place: &mut Component<'a>,
    ) -> Result<(), OutOfMemory>
        ensures { OnOk result (map component_of all.new.items ≡ map component_of all.old.items ++ component_of place.old ∷ []) }
    {
        let empty = Component::Div(Vec::new(self.alloc));
        all.push(mem::replace(place, empty))?;
        Ok(())
    }

    /// Whether the first token is a segment.
    fn begins_with_segment(self, tokens: &[Token<'_>]) -> bool
        ensures { result ≡ begins_segment (lexemes_in self.count tokens.now) }
    {
        match tokens {
            [first, ..] => match first.kind {
                TokenKind::Segment | TokenKind::TripleSegment => true,
                _ => false,
            },
            [] => false,
        }
    }

    /// Whether a component or its annotation begins here.
    pub fn begins_component(self, setting: Setting, tokens: &[Token<'_>]) -> bool
        ensures { result ≡ is_component_front (setting_of setting) (lexemes_in self.count tokens.now) }
    {
        match tokens {
            [first, ..] => match first.kind {
                TokenKind::Identifier | TokenKind::QuotedIdentifier => true,
                TokenKind::Keyword(Keyword::Start) => true,
                TokenKind::Keyword(Keyword::Div) => true,
                TokenKind::Keyword(Keyword::Include) => match setting {
                    Setting::Content => true,
                    Setting::Override => false,
                },
                TokenKind::Sign(Sign::OpenBracket) => true,
                _ => false,
            },
            [] => false,
        }
    }

    /// The keyword or the parenthesis of a primary that contains other patterns, and the tokens after it.
    pub fn find_opening<'t, 'a>(self, tokens: &'t [Token<'a>]) -> Option<(Opening, &'t [Token<'a>])>
        ensures { option_map (λ x. (x.0, lexemes_in self.count x.1.now)) result ≡ opening_front (lexemes_in self.count tokens.now) }
    {
        match tokens {
            [first, rest @ ..] => match first.kind {
                TokenKind::Keyword(Keyword::Element) => Some((Opening::Element, rest)),
                TokenKind::Keyword(Keyword::Attribute) => Some((Opening::Attribute, rest)),
                TokenKind::Keyword(Keyword::List) => Some((Opening::List, rest)),
                TokenKind::Keyword(Keyword::Mixed) => Some((Opening::Mixed, rest)),
                TokenKind::Keyword(Keyword::Grammar) => Some((Opening::Grammar, rest)),
                TokenKind::Sign(Sign::OpenParenthesis) => Some((Opening::Parenthesis, rest)),
                _ => None,
            },
            [] => None,
        }
    }

    /// Reads the name of a define, or `start` as no name, and then the method.
    #[tactic(auto, unfolding(crate::specs::plain::Productions::assigned_at))]
    pub fn assigned<'t, 'a>(
        self,
        tokens: &'t [Token<'a>],
    ) -> Result<(Option<&'a str>, Method, &'t [Token<'a>]), ReadFault>
        ensures { Gives stop_of (λ x. ((option_map (λ n. n.now) x.0, x.1), lexemes_in self.count x.2.now)) result (assigned_at (lexemes_in self.count tokens.now)) }
    {
        match tokens {
            [first, rest @ ..] => match first.kind {
                TokenKind::Identifier | TokenKind::QuotedIdentifier => {
                    let (method, rest) = self.method(rest)?;
                    Ok((Some(first.text), method, rest))
                }
                TokenKind::Keyword(Keyword::Start) => {
                    let (method, rest) = self.method(rest)?;
                    Ok((None, method, rest))
                }
                _ => Err(self.unexpected(tokens)),
            },
            [] => Err(self.unexpected(tokens)),
        }
    }

    /// The number of `include`, if it is first and allowed here, and the tokens after it.
    pub fn find_include<'t, 'a>(
        self,
        setting: Setting,
        tokens: &'t [Token<'a>],
    ) -> Option<(usize, &'t [Token<'a>])>
        ensures { option_map (λ x. (x.0, lexemes_in self.count x.1.now)) result ≡ include_front (setting_of setting) (lexemes_in self.count tokens.now) }
    {
        match tokens {
            [first, rest @ ..] => match first.kind {
                TokenKind::Keyword(Keyword::Include) => match setting {
                    Setting::Content => Some((self.count.saturating_sub(rest.len()), rest)),
                    Setting::Override => None,
                },
                _ => None,
            },
            [] => None,
        }
    }

    /// The connector that is first, if there is one.
    pub fn separator(self, tokens: &[Token<'_>]) -> Option<Sign>
        ensures { result ≡ separator_of (lexemes_in self.count tokens.now) }
    {
        match tokens {
            [first, ..] => match first.kind {
                TokenKind::Sign(Sign::Comma) => Some(Sign::Comma),
                TokenKind::Sign(Sign::And) => Some(Sign::And),
                TokenKind::Sign(Sign::Bar) => Some(Sign::Bar),
                _ => None,
            },
            [] => None,
        }
    }

    /// The name of a datatype at the front, and the tokens after it.
    fn find_type<'t, 'a>(
        self,
        tokens: &'t [Token<'a>],
    ) -> Option<(DatatypeName<'a>, &'t [Token<'a>])>
        ensures { option_map (λ x. (type_of x.0, lexemes_in self.count x.1.now)) result ≡ type_front (lexemes_in self.count tokens.now) }
    {
        match tokens {
            [first, rest @ ..] => match first.kind {
                TokenKind::CName => {
                    let (prefix, local) = split_name(first.text);
                    Some((DatatypeName::Prefixed { prefix, local }, rest))
                }
                TokenKind::Keyword(Keyword::String) => Some((DatatypeName::String, rest)),
                TokenKind::Keyword(Keyword::Token) => Some((DatatypeName::Token, rest)),
                _ => None,
            },
            [] => None,
        }
    }

    /// The tokens after `-`, if it is the first of `rest` and the pattern before it, which begins at `tokens`, is a
    /// datatype.
    #[inline(never)]
    pub fn find_exclusion<'t, 'a>(
        self,
        tokens: &[Token<'_>],
        rest: &'t [Token<'a>],
    ) -> Option<&'t [Token<'a>]>
        ensures { option_map (λ x. lexemes_in self.count x.now) result ≡ exclusion_front (lexemes_in self.count tokens.now) (lexemes_in self.count rest.now) }
    {
        let (_, after) = self.find_type(tokens)?;
        if self.begins_with_segment(after) {
            return None;
        }
        self.find_after(Sign::Minus, rest)
    }

    /// Reads a value or a datatype after its name: `literal` or `[params]`.
    #[tactic(auto, unfolding(crate::specs::plain::Productions::typed_at))]
    fn typed<'t, 'a>(
        self,
        type_name: DatatypeName<'a>,
        tokens: &'t [Token<'a>],
    ) -> Result<(Pattern<'a>, &'t [Token<'a>]), ReadFault>
        ensures { Gives stop_of (λ x. (pattern_of x.0, lexemes_in self.count x.1.now)) result (typed_at (type_of type_name.entry) (lexemes_in self.count tokens.now)) }
    {
        if self.begins_with_segment(tokens) {
            let (text, rest) = self.literal(tokens)?;
            return Ok((Pattern::Value(type_name, text), rest));
        }
        let (parameters, rest) = self.parameters(tokens)?;
        Ok((Pattern::Data(type_name, parameters), rest))
    }

    /// A pattern that is a single token, and the tokens after it.
    fn find_lone<'t, 'a>(self, tokens: &'t [Token<'a>]) -> Option<(Pattern<'a>, &'t [Token<'a>])>
        ensures { option_map (λ x. (pattern_of x.0, lexemes_in self.count x.1.now)) result ≡ lone_front (lexemes_in self.count tokens.now) }
    {
        match tokens {
            [first, rest @ ..] => match first.kind {
                TokenKind::Keyword(Keyword::Empty) => Some((Pattern::Empty, rest)),
                TokenKind::Keyword(Keyword::Text) => Some((Pattern::Text, rest)),
                TokenKind::Keyword(Keyword::NotAllowed) => Some((Pattern::NotAllowed, rest)),
                TokenKind::Identifier | TokenKind::QuotedIdentifier => {
                    Some((Pattern::Ref(first.text), rest))
                }
                _ => None,
            },
            [] => None,
        }
    }

    /// Reads a primary of more than one token that does not begin with a datatype and contains no other pattern.
    #[tactic(auto, unfolding(crate::specs::plain::Productions::other_at))]
    fn other<'t, 'a>(
        self,
        tokens: &'t [Token<'a>],
    ) -> Result<(Pattern<'a>, &'t [Token<'a>]), ReadFault>
        ensures { Gives stop_of (λ x. (pattern_of x.0, lexemes_in self.count x.1.now)) result (other_at (lexemes_in self.count tokens.now)) }
    {
        match tokens {
            [first, rest @ ..] => match first.kind {
                TokenKind::Keyword(Keyword::Parent) => {
                    let (name, rest) = self.identifier(rest)?;
                    Ok((Pattern::ParentRef(name), rest))
                }
                TokenKind::Keyword(Keyword::External) => {
                    let number = self.count.saturating_sub(rest.len());
                    let (mention, rest) = self.mention(number, rest)?;
                    Ok((Pattern::External(mention), rest))
                }
                TokenKind::Segment | TokenKind::TripleSegment => {
                    let (text, rest) = self.literal(tokens)?;
                    Ok((Pattern::Value(DatatypeName::Token, text), rest))
                }
                _ => Err(self.unexpected(tokens)),
            },
            [] => Err(self.unexpected(tokens)),
        }
    }

    /// Reads a primary that contains no other pattern.
    #[tactic(auto, unfolding(crate::specs::plain::Productions::atom_at))]
    #[inline(never)]
    pub fn atom<'t, 'a>(
        self,
        tokens: &'t [Token<'a>],
        place: &mut Pattern<'a>,
    ) -> Result<&'t [Token<'a>], ReadFault>
        ensures { Gives stop_of (λ x. (pattern_of place.new, lexemes_in self.count x.now)) result (atom_at (lexemes_in self.count tokens.now)) }
    {
        match self.find_type(tokens) {
            Some((type_name, rest)) => {
                let (typed, rest) = self.typed(type_name, rest)?;
                put(place, typed);
                Ok(rest)
            }
            None => match self.find_lone(tokens) {
                Some((lone, rest)) => {
                    put(place, lone);
                    Ok(rest)
                }
                None => {
                    let (other, rest) = self.other(tokens)?;
                    put(place, other);
                    Ok(rest)
                }
            },
        }
    }

    /// Reads how a component is combined with others: `"=" | "|=" | "&="`.
    #[tactic(auto, unfolding(crate::specs::plain::Productions::method_at))]
    pub fn method<'t, 'a>(
        self,
        tokens: &'t [Token<'a>],
    ) -> Result<(Method, &'t [Token<'a>]), ReadFault>
        ensures { Gives stop_of (λ x. (x.0, lexemes_in self.count x.1.now)) result (method_at (lexemes_in self.count tokens.now)) }
    {
        match tokens {
            [first, rest @ ..] => match first.kind {
                TokenKind::Sign(Sign::Equal) => Ok((Method::Plain, rest)),
                TokenKind::Sign(Sign::BarEqual) => Ok((Method::Choice, rest)),
                TokenKind::Sign(Sign::AndEqual) => Ok((Method::Interleave, rest)),
                _ => Err(self.unexpected(tokens)),
            },
            [] => Err(self.unexpected(tokens)),
        }
    }

    /// The sign of repetition at the front, and the tokens after it.
    fn find_repetition<'t, 'a>(
        self,
        tokens: &'t [Token<'a>],
    ) -> Option<(Repetition, &'t [Token<'a>])>
        ensures { option_map (λ x. (x.0, lexemes_in self.count x.1.now)) result ≡ repetition_front (lexemes_in self.count tokens.now) }
    {
        match tokens {
            [first, rest @ ..] => match first.kind {
                TokenKind::Sign(Sign::Question) => Some((Repetition::Optional, rest)),
                TokenKind::Sign(Sign::Star) => Some((Repetition::ZeroOrMore, rest)),
                TokenKind::Sign(Sign::Plus) => Some((Repetition::OneOrMore, rest)),
                _ => None,
            },
            [] => None,
        }
    }

    /// Reads `?`, `*` or `+` after a pattern, if there is one, and returns the repeated pattern.
    #[tactic(auto, using(crate::proofs::FirstTokens::repeated_is))]
    #[inline(never)]
    pub fn repeated<'t, 'a>(
        self,
        tokens: &'t [Token<'a>],
        place: &mut Pattern<'a>,
    ) -> Result<&'t [Token<'a>], ReadFault>
        ensures { Gives stop_of (λ x. (pattern_of place.new, lexemes_in self.count x.now)) result (Ok (repeated_of (pattern_of place.old) (lexemes_in self.count tokens.now))) }
    {
        let Some((repetition, rest)) = self.find_repetition(tokens) else {
            return Ok(tokens);
        };
        let body = Box::new(self.alloc, mem::replace(place, Pattern::Empty))?;
        match repetition {
            Repetition::Optional => {
                put(place, Pattern::Optional(body));
                Ok(rest)
            }
            Repetition::ZeroOrMore => {
                put(place, Pattern::ZeroOrMore(body));
                Ok(rest)
            }
            Repetition::OneOrMore => {
                put(place, Pattern::OneOrMore(body));
                Ok(rest)
            }
        }
    }
}
