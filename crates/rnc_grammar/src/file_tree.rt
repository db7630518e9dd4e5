// The tree of a schema file, with its declarations applied.
ghost use Rattle.std.specs.Prelude.{◌≡◌, is_some, map, option_map};
ghost use Rattle.rnc_model.specs.grammar.Syntax.{components_of};
ghost use Rattle.rnc_model.specs.declarations.FileTree.{grammar_components};
ghost use Rattle.rnc_grammar.specs.views.View.{component_of, file_of};

use rng_model::Method;

/// The namespace of a name.
///
/// It is given, and then empty for a name without one, or it is the namespace that the file inherits from the file that
/// mentions it.
///
/// RELAX NG Compact Syntax, "Syntax" (`namespaceURILiteral`).
#[derive(Debug, Drop)]
pub enum Namespace {
    Inherited,
    Given(rng_model::Namespace),
}

/// A name with its namespace.
///
/// Namespaces in XML 1.0, section 2.1.
#[derive(Debug, Drop)]
pub struct ExpandedName {
    pub namespace: Namespace,
    pub local: String,
}

/// A set of names.
///
/// RELAX NG Specification, section 3 (`nameClass`).
#[derive(Debug, Drop)]
pub enum NameClass {
    /// `*`
    Any,
    /// `* - ..`
    AnyExcept(Box<NameClass>),
    /// `p:*`
    Ns(Namespace),
    /// `p:* - ..`
    NsExcept(Namespace, Box<NameClass>),
    Name(ExpandedName),
    /// Two classes or more with `|` between them.
    Choice(Vec<NameClass>),
}

/// The name of a datatype: the uri of its library, which is empty for the built-in one, and its name there.
///
/// RELAX NG Specification, section 3 (`data`, `value`).
#[derive(Debug, Drop)]
pub struct DatatypeName {
    pub library: String,
    pub name: String,
}

/// A datatype: its name, and its parameters as pairs of name and text, in the order of the file.
///
/// RELAX NG Specification, section 3 (`data`).
#[derive(Debug, Drop)]
pub struct Datatype {
    pub type_name: DatatypeName,
    pub parameters: Vec<(String, String)>,
}

/// A text of a datatype. One without a type is a `token` of the built-in library.
///
/// RELAX NG Specification, section 3 (`value`).
#[derive(Debug, Drop)]
pub struct DatatypeValue {
    pub type_name: DatatypeName,
    pub text: String,
}

/// A mention of another file.
///
/// `href` is the name of that file as it is written. `namespace` is what that file inherits. `token` is the number,
/// from 1, of the word `include` or `external` among the tokens of the file that contains the mention.
#[derive(Debug, Drop)]
pub struct Mention {
    pub href: String,
    pub namespace: Namespace,
    pub token: usize,
}

/// A pattern.
///
/// RELAX NG Specification, section 3 (`pattern`).
#[cycle(file_tree)]
#[derive(Debug, Drop)]
pub enum Pattern {
    Element(Box<NameClass>, Box<Pattern>),
    Attribute(Box<NameClass>, Box<Pattern>),
    List(Box<Pattern>),
    Mixed(Box<Pattern>),
    /// `p?`
    Optional(Box<Pattern>),
    /// `p*`
    ZeroOrMore(Box<Pattern>),
    /// `p+`
    OneOrMore(Box<Pattern>),
    Ref(String),
    ParentRef(String),
    Empty,
    Text,
    NotAllowed,
    Value(Box<DatatypeValue>),
    /// A datatype, and the pattern that it excludes, if there is one.
    Data {
        datatype: Box<Datatype>,
        except: Option<Box<Pattern>>,
    },
    External(Box<Mention>),
    Grammar(Vec<Component>),
    /// Two patterns or more with `,` between them.
    Group(Vec<Pattern>),
    /// Two patterns or more with `&` between them.
    Interleave(Vec<Pattern>),
    /// Two patterns or more with `|` between them.
    Choice(Vec<Pattern>),
}

/// A component of a grammar.
///
/// RELAX NG Specification, section 3 (`grammarContent`, `includeContent`).
#[cycle(file_tree)]
#[derive(Debug, Drop)]
pub enum Component {
    Start(Method, Pattern),
    Define(String, Method, Pattern),
    Div(Vec<Component>),
    /// A grammar of another file, and the components in the braces.
    Include(Box<Mention>, Vec<Component>),
}

/// The content of a schema file: a pattern, or the components of a grammar.
///
/// RELAX NG Compact Syntax, "Syntax" (`topLevel`).
#[derive(Debug, Drop)]
pub enum FileTree {
    Pattern(Pattern),
    Grammar(Vec<Component>),
}

impl FileTree {
    /// Returns the components of the grammar that the file is, or `None` if the file is not a grammar.
    ///
    /// A file whose whole pattern is `grammar { .. }` is also a grammar, with or without parentheses around it.
    /// Allocates nothing.
    ///
    /// RELAX NG Specification, section 4.7.
    #[tactic(auto, using(crate::proofs::NoGrammar::joined_is_none, crate::proofs::NoGrammar::data_is_none))]
    pub fn grammar(&self) -> Option<&[Component]>
        ensures { option_map (λ cs. components_of (map component_of cs.now)) result ≡ grammar_components (file_of self.now) }
    {
        match self {
            FileTree::Grammar(components) => Some(components),
            FileTree::Pattern(pattern) => match pattern {
                Pattern::Grammar(components) => Some(components),
                Pattern::Element(_, _)
                | Pattern::Attribute(_, _)
                | Pattern::List(_)
                | Pattern::Mixed(_)
                | Pattern::Optional(_)
                | Pattern::ZeroOrMore(_)
                | Pattern::OneOrMore(_)
                | Pattern::Ref(_)
                | Pattern::ParentRef(_)
                | Pattern::Empty
                | Pattern::Text
                | Pattern::NotAllowed
                | Pattern::Value(_)
                | Pattern::Data { .. }
                | Pattern::External(_)
                | Pattern::Group(_)
                | Pattern::Interleave(_)
                | Pattern::Choice(_) => None,
            },
        }
    }

    /// Whether the file is a grammar. Allocates nothing.
    pub fn is_grammar(&self) -> bool
        ensures { result ≡ is_some (grammar_components (file_of self.now)) }
    {
        self.grammar().is_some()
    }
}
