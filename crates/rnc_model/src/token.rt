// Tokens of the compact syntax.

/// A word that has its own meaning in the grammar.
///
/// RELAX NG Compact Syntax, "Lexical structure".
#[derive(Clone, Copy, Debug, PartialEq, Eq)]
pub enum Keyword {
    Attribute,
    Default,
    Datatypes,
    Div,
    Element,
    Empty,
    External,
    Grammar,
    Include,
    Inherit,
    List,
    Mixed,
    Namespace,
    NotAllowed,
    Parent,
    Start,
    String,
    Text,
    Token,
}

/// A sign.
#[derive(Clone, Copy, Debug, PartialEq, Eq)]
pub enum Sign {
    /// `=`
    Equal,
    /// `|=`
    BarEqual,
    /// `&=`
    AndEqual,
    /// `,`
    Comma,
    /// `|`
    Bar,
    /// `&`
    And,
    /// `?`
    Question,
    /// `*`
    Star,
    /// `+`
    Plus,
    /// `-`
    Minus,
    /// `{`
    OpenBrace,
    /// `}`
    CloseBrace,
    /// `(`
    OpenParenthesis,
    /// `)`
    CloseParenthesis,
    /// `[`
    OpenBracket,
    /// `]`
    CloseBracket,
    /// `~`
    Tilde,
}

/// The kind of a token.
///
/// RELAX NG Compact Syntax, "Lexical structure".
#[derive(Clone, Copy, Debug, PartialEq, Eq)]
pub enum TokenKind {
    /// An NCName that is not a keyword.
    Identifier,
    /// An NCName that is a keyword.
    Keyword(Keyword),
    /// A backslash and an NCName. The NCName is the name.
    QuotedIdentifier,
    /// Two NCNames with a colon between them.
    CName,
    /// An NCName, a colon and a star.
    NsName,
    /// A text between two quotation marks or two apostrophes.
    Segment,
    /// A text between three quotation marks and three quotation marks, or between three apostrophes and three
    /// apostrophes.
    TripleSegment,
    Sign(Sign),
}

/// A token: its kind, its text, and its position.
///
/// `text` is: for a quoted identifier, its name without the backslash; for a segment, the text between its quotes; for
/// any other token, the whole token. `start` and `end` are the byte offsets in the decoded text where the whole token
/// begins and ends.
#[derive(Clone, Copy)]
pub struct Token<'a> {
    pub kind: TokenKind,
    pub text: &'a str,
    pub start: usize,
    pub end: usize,
}
