// The syntax tree of a schema file as it is written, with prefixes and the segments of its literals.
use rng_model::Method;

/// A name, with its prefix if it is written with one.
///
/// Namespaces in XML 1.0, section 4.
#[derive(Clone, Copy)]
pub struct QualifiedName<'a> {
    pub prefix: Option<&'a str>,
    pub local: &'a str,
}

/// A literal as its segments, without their quotes and without the `~` between them.
///
/// RELAX NG Compact Syntax, "Syntax" (`literal`).
#[derive(Drop)]
pub struct Literal<'a> {
    pub segments: Vec<&'a str>,
}

/// A set of names.
///
/// RELAX NG Compact Syntax, "Syntax" (`nameClass`).
#[derive(Drop)]
pub enum NameClass<'a> {
    /// `*`
    Any,
    /// `* - ..`
    AnyExcept(Box<NameClass<'a>>),
    /// `p:*`, with its prefix.
    Ns(&'a str),
    /// `p:* - ..`
    NsExcept(&'a str, Box<NameClass<'a>>),
    Name(QualifiedName<'a>),
    /// Two classes or more with `|` between them.
    Choice(Vec<NameClass<'a>>),
}

/// The name of a datatype: `string`, `token`, or one with a prefix.
///
/// RELAX NG Compact Syntax, "Syntax" (`datatypeName`).
#[derive(Clone, Copy)]
pub enum DatatypeName<'a> {
    String,
    Token,
    Prefixed { prefix: &'a str, local: &'a str },
}

/// A word and its literal: a parameter of a datatype, or a datatype prefix and its uri.
///
/// RELAX NG Compact Syntax, "Syntax" (`param`).
#[derive(Drop)]
pub struct Parameter<'a> {
    pub name: &'a str,
    pub value: Literal<'a>,
}

/// A mention of another file.
///
/// It has the file name as it is written. It has the prefix of the namespace that the file inherits, if one is named. It
/// has the number, from 1, of the word `include` or `external` among the tokens.
///
/// RELAX NG Compact Syntax, "Syntax" (`include`, `external`).
#[derive(Drop)]
pub struct Mention<'a> {
    pub href: Literal<'a>,
    pub inherit: Option<&'a str>,
    pub token: usize,
}

/// A pattern. Parentheses are not in the tree.
///
/// RELAX NG Compact Syntax, "Syntax" (`pattern`).
#[cycle(syntax_tree)]
#[derive(Drop)]
pub enum Pattern<'a> {
    Element(NameClass<'a>, Box<Pattern<'a>>),
    Attribute(NameClass<'a>, Box<Pattern<'a>>),
    List(Box<Pattern<'a>>),
    Mixed(Box<Pattern<'a>>),
    /// `p?`
    Optional(Box<Pattern<'a>>),
    /// `p*`
    ZeroOrMore(Box<Pattern<'a>>),
    /// `p+`
    OneOrMore(Box<Pattern<'a>>),
    Ref(&'a str),
    ParentRef(&'a str),
    Empty,
    Text,
    NotAllowed,
    /// A literal of a datatype. One without a datatype is a `token`.
    Value(DatatypeName<'a>, Literal<'a>),
    /// A datatype with its parameters, in the order of the file.
    Data(DatatypeName<'a>, Vec<Parameter<'a>>),
    /// A datatype with its parameters, and the pattern that it excludes.
    DataExcept(DatatypeName<'a>, Vec<Parameter<'a>>, Box<Pattern<'a>>),
    External(Mention<'a>),
    Grammar(Vec<Component<'a>>),
    /// Two patterns or more with `,` between them.
    Group(Vec<Pattern<'a>>),
    /// Two patterns or more with `&` between them.
    Interleave(Vec<Pattern<'a>>),
    /// Two patterns or more with `|` between them.
    Choice(Vec<Pattern<'a>>),
}

/// A component of a grammar.
///
/// RELAX NG Compact Syntax, "Syntax" (`grammarContent`, `includeContent`).
#[cycle(syntax_tree)]
#[derive(Drop)]
pub enum Component<'a> {
    Start(Method, Pattern<'a>),
    Define(&'a str, Method, Pattern<'a>),
    Div(Vec<Component<'a>>),
    /// A grammar of another file, and the components in the braces.
    Include(Mention<'a>, Vec<Component<'a>>),
}

/// The uri of a declaration: a literal, or the one that the file inherits.
///
/// RELAX NG Compact Syntax, "Syntax" (`namespaceURILiteral`).
#[derive(Drop)]
pub enum Uri<'a> {
    Inherit,
    Literal(Literal<'a>),
}

/// A declaration.
///
/// RELAX NG Compact Syntax, "Syntax" (`decl`).
#[derive(Drop)]
pub enum Declaration<'a> {
    /// A namespace prefix.
    Namespace {
        prefix: &'a str,
        uri: Uri<'a>,
    },
    /// The default namespace, with a prefix for it if one is written.
    Default {
        prefix: Option<&'a str>,
        uri: Uri<'a>,
    },
    /// A datatype prefix, and the uri of its library.
    Datatypes(Parameter<'a>),
}

/// What follows the declarations: a pattern, or the components of a grammar.
///
/// RELAX NG Compact Syntax, "Syntax" (`topLevel`).
#[derive(Drop)]
pub enum Body<'a> {
    Pattern(Pattern<'a>),
    Grammar(Vec<Component<'a>>),
}

/// A whole file.
///
/// RELAX NG Compact Syntax, "Syntax" (`topLevel`).
#[derive(Drop)]
pub struct File<'a> {
    pub declarations: Vec<Declaration<'a>>,
    pub body: Body<'a>,
}
