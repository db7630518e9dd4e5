// The scope of a file: what its declarations declare.
ghost use Rattle.std.specs.Prelude.{◌≡◌, Some, string_bytes};
ghost use Rattle.rnc_model.specs.declarations.Declarations as declarations;
ghost use Rattle.rnc_grammar.specs.views.Resolved.{Resolves, scope_view};
ghost use Rattle.rnc_syntax.specs.views.SyntaxView as syntax;
ghost use Rattle.rnc_grammar.specs.views.View.{namespace_of};
ghost use Rattle.rnc_grammar.specs.declared.scope.ScopeFault.TheVariants as faults;

use crate::file_tree::Namespace;
use rnc_syntax::{Declaration, Literal, Uri};
use rng_model::OutOfMemory;
use std::alloc::Global;
use std::collections::HashMap;

/// The uri of the prefix `xml`.
const XML_URI: &str = "http://www.w3.org/XML/1998/namespace";

/// The uri of the datatype prefix `xsd`.
const XSD_URI: &str = "http://www.w3.org/2001/XMLSchema-datatypes";

/// Why a declaration cannot be applied, or a prefix has no uri.
#[derive(Clone, Copy)]
pub enum ScopeFault {
    /// A declaration or a prefix breaks a rule.
    Broken,
    /// Out of memory. Says nothing about the declarations.
    Memory,
}

impl<E: Drop> From<E> for ScopeFault
where
    OutOfMemory: From<E>,
{
    ghost from_gives = { λ _ e. e ≡ faults.Memory };

    fn from(_e: E) -> ScopeFault {
        ScopeFault::Memory
    }
}

/// What the declarations declare that have been applied so far.
#[derive(Drop)]
pub struct Scope<'a> {
    default: Option<Namespace>,
    namespaces: HashMap<&'a str, Namespace>,
    datatypes: HashMap<&'a str, String>,
}

/// The text of a literal.
pub fn literal_text(alloc: Global, literal: &Literal<'_>) -> Result<String, ScopeFault>
    ensures { Resolves string_bytes result (Some (syntax.text_of literal.now)) }
{
    let mut text = String::new(alloc);
    for segment in literal.segments.iter() {
        text.push_str(segment)?;
    }
    Ok(text)
}

/// The namespace of a declaration.
fn uri_of(alloc: Global, uri: &Uri<'_>) -> Result<Namespace, ScopeFault>
    ensures { Resolves namespace_of result (Some (declarations.uri_of (syntax.uri_of uri.now))) }
{
    match uri {
        Uri::Inherit => Ok(Namespace::Inherited),
        Uri::Literal(literal) => {
            let uri = literal_text(alloc, literal)?;
            Ok(Namespace::Given(rng_model::Namespace::from_string(alloc, uri)?))
        }
    }
}

/// Whether a namespace prefix may be declared as this namespace: `xml` only as its own uri, and `xmlns` as none.
fn may_stand_for(prefix: &str, namespace: &Namespace) -> bool
    ensures { result ≡ declarations.may_stand_for prefix.now (namespace_of namespace.now) }
{
    match prefix {
        "xml" => match namespace {
            Namespace::Inherited => false,
            Namespace::Given(uri) => uri.as_str() == XML_URI,
        },
        "xmlns" => false,
        _ => true,
    }
}

/// Whether a datatype prefix may be declared as this uri: `xsd` only as its own uri.
fn may_stand_for_types(prefix: &str, uri: &str) -> bool
    ensures { result ≡ declarations.may_stand_for_types prefix.now uri.now }
{
    match prefix {
        "xsd" => uri == XSD_URI,
        _ => true,
    }
}

/// The same namespace, with its uri shared.
fn shared(namespace: &Namespace) -> Result<Namespace, ScopeFault>
    ensures { Resolves namespace_of result (Some (namespace_of namespace.now)) }
{
    match namespace {
        Namespace::Inherited => Ok(Namespace::Inherited),
        Namespace::Given(uri) => Ok(Namespace::Given(uri.share()?)),
    }
}

impl<'a> Scope<'a> {
    /// Creates a scope in which nothing is declared.
    pub fn new(alloc: Global) -> Self
        ensures { scope_view result ≡ declarations.nothing_declared }
    {
        Scope {
            default: None,
            namespaces: HashMap::new(alloc),
            datatypes: HashMap::new(alloc),
        }
    }

    /// Declares a namespace prefix.
    fn declare_prefix(&mut self, prefix: &'a str, namespace: Namespace) -> Result<(), ScopeFault>
        ensures { Resolves (λ _. scope_view self.new) result (declarations.with_prefix prefix.now (namespace_of namespace) (scope_view self.old)) }
    {
        if !may_stand_for(prefix, &namespace) {
            return Err(ScopeFault::Broken);
        }
        if self.namespaces.insert(prefix, namespace)?.is_some() {
            return Err(ScopeFault::Broken);
        }
        Ok(())
    }

    /// Declares the default namespace.
    fn declare_default(&mut self, namespace: Namespace) -> Result<(), ScopeFault>
        ensures { Resolves (λ _. scope_view self.new) result (declarations.with_default (namespace_of namespace) (scope_view self.old)) }
    {
        if self.default.is_some() {
            return Err(ScopeFault::Broken);
        }
        self.default = Some(namespace);
        Ok(())
    }

    /// Declares a datatype prefix.
    fn declare_datatypes(&mut self, prefix: &'a str, uri: String) -> Result<(), ScopeFault>
        ensures { Resolves (λ _. scope_view self.new) result (declarations.with_datatypes prefix.now (string_bytes uri) (scope_view self.old)) }
    {
        if !may_stand_for_types(prefix, uri.as_str()) {
            return Err(ScopeFault::Broken);
        }
        if self.datatypes.insert(prefix, uri)?.is_some() {
            return Err(ScopeFault::Broken);
        }
        Ok(())
    }

    /// Applies a declaration.
    ///
    /// Fails with `Broken` exactly if it breaks a rule, by itself or with those applied before: a prefix or the default
    /// namespace is declared twice, or `xml`, `xmlns` or `xsd` is declared as what it must not represent. Copies the uri.
    ///
    /// RELAX NG Compact Syntax, "Declarations".
    pub fn declare(
        &mut self,
        alloc: Global,
        declaration: &Declaration<'a>,
    ) -> Result<(), ScopeFault>
        ensures { Resolves (λ _. scope_view self.new) result (declarations.declare (scope_view self.old) (syntax.declaration_of declaration.now)) }
    {
        match declaration {
            Declaration::Namespace { prefix, uri } => {
                self.declare_prefix(prefix, uri_of(alloc, uri)?)
            }
            Declaration::Default { prefix: None, uri } => self.declare_default(uri_of(alloc, uri)?),
            Declaration::Default {
                prefix: Some(prefix),
                uri,
            } => {
                self.declare_default(uri_of(alloc, uri)?)?;
                self.declare_prefix(prefix, uri_of(alloc, uri)?)
            }
            Declaration::Datatypes(declared) => {
                self.declare_datatypes(declared.name, literal_text(alloc, &declared.value)?)
            }
        }
    }

    /// The namespace of names without a prefix in elements, and of mentions that name no prefix.
    pub fn default_namespace(&self) -> Result<Namespace, ScopeFault>
        ensures { Resolves namespace_of result (Some (declarations.default_of (scope_view self.now))) }
    {
        match &self.default {
            Some(namespace) => shared(namespace),
            None => Ok(Namespace::Inherited),
        }
    }

    /// The namespace of a prefix. `xml` is predeclared. Fails with `Broken` exactly if the prefix is not declared.
    pub fn namespace(&self, alloc: Global, prefix: &str) -> Result<Namespace, ScopeFault>
        ensures { Resolves namespace_of result (declarations.namespace_in (scope_view self.now) prefix.now) }
    {
        if prefix == "xml" {
            return Ok(Namespace::Given(rng_model::Namespace::new(alloc, XML_URI)?));
        }
        match self.namespaces.get(prefix) {
            Some(namespace) => shared(namespace),
            None => Err(ScopeFault::Broken),
        }
    }

    /// A copy of the uri of a datatype prefix. `xsd` is predeclared. Fails with `Broken` exactly if the prefix is not
    /// declared.
    pub fn library(&self, alloc: Global, prefix: &str) -> Result<String, ScopeFault>
        ensures { Resolves string_bytes result (declarations.library_in (scope_view self.now) prefix.now) }
    {
        if prefix == "xsd" {
            return Ok(String::from_str(alloc, XSD_URI)?);
        }
        match self.datatypes.get(prefix) {
            Some(uri) => Ok(String::from_str(alloc, uri.as_str())?),
            None => Err(ScopeFault::Broken),
        }
    }
}
