// From a syntax tree to the file tree, with declarations applied.
ghost use Rattle.std.specs.Prelude.{◌≡◌, ◌++◌, ◌∷◌, ℕ, List, map, [], OnOk, Some, option_map, string_bytes};
ghost use Rattle.rnc_model.specs.declarations.Declarations as rules;
ghost use Rattle.rnc_model.specs.grammar.Syntax as types;
ghost use Rattle.rnc_model.specs.grammar.Syntax.{applied, components_of};
ghost use Rattle.rnc_grammar.specs.views.Resolved.{Resolves, connector_of, each, joined_in, named_in, named_with, namespace_at, scope_view, wrapped_in, wrapped_with};
ghost use Rattle.rnc_syntax.specs.views.SyntaxView as syntax;
ghost use Rattle.rnc_grammar.specs.views.View as tree;

use crate::file_tree::{
    Component, Datatype, DatatypeName, DatatypeValue, ExpandedName, FileTree, Mention, NameClass,
    Namespace, Pattern,
};
use crate::scope::{Scope, ScopeFault, literal_text};
use rng_model::{Method, OutOfMemory};
use std::alloc::Global;
use std::mem;

/// The namespace of names without a prefix: the default one in elements, and none in attributes.
#[derive(Clone, Copy)]
enum Unprefixed {
    Default,
    None,
}

/// What is around a pattern.
#[derive(Clone, Copy)]
enum Wrapper {
    List,
    Mixed,
    Optional,
    ZeroOrMore,
    OneOrMore,
}

/// What joins the members of a pattern.
#[derive(Clone, Copy)]
enum Connector {
    Group,
    Interleave,
    Choice,
}

/// Puts a value in the place of another one.
#[inline(always)]
fn put<T: Drop>(place: &mut T, value: T)
    ensures { place.new ≡ value }
{
    *place = value;
}

/// Applies the declarations of a file to the parts of its syntax tree.
///
/// Patterns and components are put in a place. What has no pattern in it is resolved by functions that are not inlined.
/// So the frames of the functions that recurse are small.
#[derive(Clone, Copy)]
struct Resolver<'s, 'a> {
    alloc: Global,
    scope: &'s Scope<'a>,
}

impl<'s, 'a> Resolver<'s, 'a> {
    fn unprefixed(self, place: Unprefixed) -> Result<Namespace, ScopeFault>
        ensures { Resolves tree.namespace_of result (Some (namespace_at (scope_view self.entry.scope.now) place)) }
    {
        match place {
            Unprefixed::Default => self.scope.default_namespace(),
            Unprefixed::None => Ok(Namespace::Given(rng_model::Namespace::none())),
        }
    }

    fn name(
        self,
        place: Unprefixed,
        name: &rnc_syntax::QualifiedName<'a>,
    ) -> Result<ExpandedName, ScopeFault>
        ensures { Resolves tree.name_of result (rules.name_in (scope_view self.entry.scope.now) (namespace_at (scope_view self.entry.scope.now) place) (syntax.name_of name.now)) }
    {
        let namespace = match name.prefix {
            None => self.unprefixed(place)?,
            Some(prefix) => self.scope.namespace(self.alloc, prefix)?,
        };
        let local = String::from_str(self.alloc, name.local)?;
        Ok(ExpandedName { namespace, local })
    }

    #[cycle(resolved_classes)]
    fn class(
        self,
        place: Unprefixed,
        class: &rnc_syntax::NameClass<'a>,
    ) -> Result<NameClass, ScopeFault>
        ensures { Resolves tree.class_of result (rules.class_in (scope_view self.entry.scope.now) (namespace_at (scope_view self.entry.scope.now) place) (syntax.class_of class.now)) }
    {
        match class {
            rnc_syntax::NameClass::Any => Ok(NameClass::Any),
            rnc_syntax::NameClass::AnyExcept(except) => {
                let except = self.class(place, except)?;
                Ok(NameClass::AnyExcept(Box::new(self.alloc, except)?))
            }
            rnc_syntax::NameClass::Ns(prefix) => {
                Ok(NameClass::Ns(self.scope.namespace(self.alloc, prefix)?))
            }
            rnc_syntax::NameClass::NsExcept(prefix, except) => {
                let namespace = self.scope.namespace(self.alloc, prefix)?;
                let except = self.class(place, except)?;
                Ok(NameClass::NsExcept(namespace, Box::new(self.alloc, except)?))
            }
            rnc_syntax::NameClass::Name(name) => Ok(NameClass::Name(self.name(place, name)?)),
            rnc_syntax::NameClass::Choice(all) => Ok(NameClass::Choice(self.classes(place, all)?)),
        }
    }

    #[cycle(resolved_classes)]
    fn classes(
        self,
        place: Unprefixed,
        all: &[rnc_syntax::NameClass<'a>],
    ) -> Result<Vec<NameClass>, ScopeFault>
        ensures { Resolves (λ classes. map tree.class_of classes.items) result (each (rules.class_in (scope_view self.entry.scope.now) (namespace_at (scope_view self.entry.scope.now) place)) (map syntax.class_of all.now)) }
    {
        let mut classes = Vec::with_capacity(self.alloc, all.len())?;
        for class in all {
            classes.push(self.class(place, class)?)?;
        }
        Ok(classes)
    }

    fn type_name(self, type_name: &rnc_syntax::DatatypeName<'a>) -> Result<DatatypeName, ScopeFault>
        ensures { Resolves tree.type_of result (rules.type_in (scope_view self.entry.scope.now) (syntax.type_of type_name.now)) }
    {
        match type_name {
            rnc_syntax::DatatypeName::String => self.built_in("string"),
            rnc_syntax::DatatypeName::Token => self.built_in("token"),
            rnc_syntax::DatatypeName::Prefixed { prefix, local } => {
                let library = self.scope.library(self.alloc, prefix)?;
                let name = String::from_str(self.alloc, local)?;
                Ok(DatatypeName { library, name })
            }
        }
    }

    fn built_in(self, name: &str) -> Result<DatatypeName, ScopeFault>
        ensures { Resolves tree.type_of result (Some (record { library = []; name = name.now })) }
    {
        let name = String::from_str(self.alloc, name)?;
        Ok(DatatypeName {
            library: String::new(self.alloc),
            name,
        })
    }

    fn parameters(
        self,
        all: &[rnc_syntax::Parameter<'a>],
    ) -> Result<Vec<(String, String)>, ScopeFault>
        ensures { Resolves (λ parameters. map (λ p. (string_bytes p.0, string_bytes p.1)) parameters.items) result (Some (map syntax.parameter_of all.now)) }
    {
        let mut parameters = Vec::with_capacity(self.alloc, all.len())?;
        for parameter in all {
            let name = String::from_str(self.alloc, parameter.name)?;
            let value = literal_text(self.alloc, &parameter.value)?;
            parameters.push((name, value))?;
        }
        Ok(parameters)
    }

    #[inline(never)]
    fn datatype(
        self,
        type_name: &rnc_syntax::DatatypeName<'a>,
        parameters: &[rnc_syntax::Parameter<'a>],
    ) -> Result<Box<Datatype>, ScopeFault>
        ensures { Resolves {Y = types.DatatypeName applied × List (List ℕ × List ℕ)} (λ d. (tree.type_of d.value.type_name, tree.parameters_of d.value)) result
            (option_map (λ d. (d, map syntax.parameter_of parameters.now)) (rules.type_in (scope_view self.entry.scope.now) (syntax.type_of type_name.now))) }
    {
        let type_name = self.type_name(type_name)?;
        let parameters = self.parameters(parameters)?;
        let datatype = Datatype {
            type_name,
            parameters,
        };
        Ok(Box::new(self.alloc, datatype)?)
    }

    #[inline(never)]
    fn value(
        self,
        type_name: &rnc_syntax::DatatypeName<'a>,
        text: &rnc_syntax::Literal<'a>,
    ) -> Result<Box<DatatypeValue>, ScopeFault>
        ensures { Resolves {Y = types.DatatypeName applied × List ℕ} (λ v. (tree.type_of v.value.type_name, string_bytes v.value.text)) result
            (option_map (λ d. (d, syntax.text_of text.now)) (rules.type_in (scope_view self.entry.scope.now) (syntax.type_of type_name.now))) }
    {
        let type_name = self.type_name(type_name)?;
        let text = literal_text(self.alloc, text)?;
        Ok(Box::new(self.alloc, DatatypeValue { type_name, text })?)
    }

    #[inline(never)]
    fn name_class(
        self,
        place: Unprefixed,
        class: &rnc_syntax::NameClass<'a>,
    ) -> Result<Box<NameClass>, ScopeFault>
        ensures { Resolves (λ c. tree.class_of c.value) result (rules.class_in (scope_view self.entry.scope.now) (namespace_at (scope_view self.entry.scope.now) place) (syntax.class_of class.now)) }
    {
        let class = self.class(place, class)?;
        Ok(Box::new(self.alloc, class)?)
    }

    #[inline(never)]
    fn mention(self, mention: &rnc_syntax::Mention<'a>) -> Result<Box<Mention>, ScopeFault>
        ensures { Resolves (λ m. tree.mention_of m.value) result (rules.mention_in (scope_view self.entry.scope.now) (syntax.mention_of mention.now)) }
    {
        let namespace = match mention.inherit {
            None => self.scope.default_namespace()?,
            Some(prefix) => self.scope.namespace(self.alloc, prefix)?,
        };
        let href = literal_text(self.alloc, &mention.href)?;
        let mention = Mention {
            href,
            namespace,
            token: mention.token,
        };
        Ok(Box::new(self.alloc, mention)?)
    }

    /// Puts a value or text of a datatype in this place.
    #[inline(never)]
    fn put_value(
        self,
        type_name: &rnc_syntax::DatatypeName<'a>,
        text: &rnc_syntax::Literal<'a>,
        place: &mut Pattern,
    ) -> Result<(), ScopeFault>
        ensures { Resolves (λ _. tree.pattern_of place.new) result (rules.pattern_in (scope_view self.entry.scope.now) (types.value (syntax.type_of type_name.now) (syntax.text_of text.now))) }
    {
        put(place, Pattern::Value(self.value(type_name, text)?));
        Ok(())
    }

    /// Puts a datatype in this place.
    #[inline(never)]
    fn put_datatype(
        self,
        type_name: &rnc_syntax::DatatypeName<'a>,
        parameters: &[rnc_syntax::Parameter<'a>],
        place: &mut Pattern,
    ) -> Result<(), ScopeFault>
        ensures { Resolves (λ _. tree.pattern_of place.new) result (rules.pattern_in (scope_view self.entry.scope.now) (types.data_of (syntax.type_of type_name.now) (map syntax.parameter_of parameters.now))) }
    {
        let datatype = self.datatype(type_name, parameters)?;
        put_data(place, datatype, None);
        Ok(())
    }

    /// Puts a reference to the define of this name in this place.
    #[inline(never)]
    fn put_reference(self, name: &str, place: &mut Pattern) -> Result<(), ScopeFault>
        ensures { Resolves (λ _. tree.pattern_of place.new) result (Some (types.ref name.now)) }
    {
        put(place, Pattern::Ref(String::from_str(self.alloc, name)?));
        Ok(())
    }

    /// Puts a reference to the define of this name in the grammar around this one in this place.
    #[inline(never)]
    fn put_parent_reference(self, name: &str, place: &mut Pattern) -> Result<(), ScopeFault>
        ensures { Resolves (λ _. tree.pattern_of place.new) result (Some (types.parent_ref name.now)) }
    {
        put(
            place,
            Pattern::ParentRef(String::from_str(self.alloc, name)?),
        );
        Ok(())
    }

    /// Puts a mention of another file in this place.
    #[inline(never)]
    fn put_external(
        self,
        mention: &rnc_syntax::Mention<'a>,
        place: &mut Pattern,
    ) -> Result<(), ScopeFault>
        ensures { Resolves (λ _. tree.pattern_of place.new) result (rules.pattern_in (scope_view self.entry.scope.now) (types.external (syntax.mention_of mention.now))) }
    {
        put(place, Pattern::External(self.mention(mention)?));
        Ok(())
    }

    /// Puts a define of this name in this place.
    #[inline(never)]
    fn put_define(
        self,
        name: &str,
        method: Method,
        mut body: Box<Pattern>,
        place: &mut Component,
    ) -> Result<(), ScopeFault>
        ensures { Resolves (λ _. tree.component_of place.new) result (Some (types.define name.now method (tree.pattern_of body.value))) }
    {
        let name = String::from_str(self.alloc, name)?;
        let body = mem::replace(&mut *body, Pattern::Empty);
        put(place, Component::Define(name, method, body));
        Ok(())
    }

    /// A pattern in a box of its own.
    #[cycle(resolved)]
    #[inline(always)]
    fn child(self, pattern: &rnc_syntax::Pattern<'a>) -> Result<Box<Pattern>, ScopeFault>
        ensures { Resolves (λ child. tree.pattern_of child.value) result (rules.pattern_in (scope_view self.entry.scope.now) (syntax.pattern_of pattern.now)) }
    {
        let mut child = Box::new(self.alloc, Pattern::Empty)?;
        self.pattern(pattern, &mut child)?;
        Ok(child)
    }

    /// Puts a pattern in this place.
    #[cycle(resolved)]
    fn pattern(
        self,
        pattern: &rnc_syntax::Pattern<'a>,
        place: &mut Pattern,
    ) -> Result<(), ScopeFault>
        ensures { Resolves (λ _. tree.pattern_of place.new) result (rules.pattern_in (scope_view self.entry.scope.now) (syntax.pattern_of pattern.now)) }
    {
        match pattern {
            rnc_syntax::Pattern::Element(class, body) => {
                self.named(Unprefixed::Default, body, class, place)
            }
            rnc_syntax::Pattern::Attribute(class, body) => {
                self.named(Unprefixed::None, body, class, place)
            }
            rnc_syntax::Pattern::List(body) => self.wrapped(Wrapper::List, body, place),
            rnc_syntax::Pattern::Mixed(body) => self.wrapped(Wrapper::Mixed, body, place),
            rnc_syntax::Pattern::Optional(body) => self.wrapped(Wrapper::Optional, body, place),
            rnc_syntax::Pattern::ZeroOrMore(body) => self.wrapped(Wrapper::ZeroOrMore, body, place),
            rnc_syntax::Pattern::OneOrMore(body) => self.wrapped(Wrapper::OneOrMore, body, place),
            rnc_syntax::Pattern::Ref(name) => self.put_reference(name, place),
            rnc_syntax::Pattern::ParentRef(name) => self.put_parent_reference(name, place),
            rnc_syntax::Pattern::Empty => {
                put(place, Pattern::Empty);
                Ok(())
            }
            rnc_syntax::Pattern::Text => {
                put(place, Pattern::Text);
                Ok(())
            }
            rnc_syntax::Pattern::NotAllowed => {
                put(place, Pattern::NotAllowed);
                Ok(())
            }
            rnc_syntax::Pattern::Value(type_name, text) => self.put_value(type_name, text, place),
            rnc_syntax::Pattern::Data(type_name, parameters) => {
                self.put_datatype(type_name, parameters, place)
            }
            rnc_syntax::Pattern::DataExcept(type_name, parameters, except) => {
                self.data_except(type_name, parameters, except, place)
            }
            rnc_syntax::Pattern::External(mention) => self.put_external(mention, place),
            rnc_syntax::Pattern::Grammar(all) => self.grammar(all, place),
            rnc_syntax::Pattern::Group(all) => self.members(Connector::Group, all, place),
            rnc_syntax::Pattern::Interleave(all) => self.members(Connector::Interleave, all, place),
            rnc_syntax::Pattern::Choice(all) => self.members(Connector::Choice, all, place),
        }
    }

    /// Puts an element or an attribute in this place. The body is the first tree, since the recursion goes by its depth.
    #[cycle(resolved)]
    #[inline(never)]
    fn named(
        self,
        unprefixed: Unprefixed,
        body: &rnc_syntax::Pattern<'a>,
        class: &rnc_syntax::NameClass<'a>,
        place: &mut Pattern,
    ) -> Result<(), ScopeFault>
        ensures { Resolves (λ _. tree.pattern_of place.new) result (named_in (scope_view self.entry.scope.now) unprefixed (syntax.class_of class.now) (syntax.pattern_of body.now)) }
    {
        let class = self.name_class(unprefixed, class)?;
        let body = self.child(body)?;
        put_named(place, unprefixed, class, body);
        Ok(())
    }

    /// Puts a pattern in this place, with this around it.
    #[cycle(resolved)]
    #[inline(never)]
    fn wrapped(
        self,
        wrapper: Wrapper,
        body: &rnc_syntax::Pattern<'a>,
        place: &mut Pattern,
    ) -> Result<(), ScopeFault>
        ensures { Resolves (λ _. tree.pattern_of place.new) result (wrapped_in (scope_view self.entry.scope.now) wrapper (syntax.pattern_of body.now)) }
    {
        let body = self.child(body)?;
        put_wrapped(place, wrapper, body);
        Ok(())
    }

    /// Puts a datatype with the pattern that it excludes in this place.
    #[cycle(resolved)]
    #[inline(never)]
    fn data_except(
        self,
        type_name: &rnc_syntax::DatatypeName<'a>,
        parameters: &[rnc_syntax::Parameter<'a>],
        except: &rnc_syntax::Pattern<'a>,
        place: &mut Pattern,
    ) -> Result<(), ScopeFault>
        ensures { Resolves (λ _. tree.pattern_of place.new) result (rules.pattern_in (scope_view self.entry.scope.now) (types.data_except (syntax.type_of type_name.now) (map syntax.parameter_of parameters.now) (syntax.pattern_of except.now))) }
    {
        let datatype = self.datatype(type_name, parameters)?;
        let except = self.child(except)?;
        put_data(place, datatype, Some(except));
        Ok(())
    }

    /// Puts these patterns in this place, joined by a connector.
    #[cycle(resolved)]
    #[inline(never)]
    fn members(
        self,
        connector: Connector,
        all: &[rnc_syntax::Pattern<'a>],
        place: &mut Pattern,
    ) -> Result<(), ScopeFault>
        ensures { Resolves (λ _. tree.pattern_of place.new) result (joined_in (scope_view self.entry.scope.now) connector (map syntax.pattern_of all.now)) }
    {
        let mut patterns = Vec::with_capacity(self.alloc, all.len())?;
        for pattern in all {
            self.pattern(pattern, place)?;
            append_pattern(&mut patterns, place)?;
        }
        put_members(place, connector, patterns);
        Ok(())
    }

    /// Puts a grammar of these components in this place.
    #[cycle(resolved)]
    #[inline(never)]
    fn grammar(
        self,
        all: &[rnc_syntax::Component<'a>],
        place: &mut Pattern,
    ) -> Result<(), ScopeFault>
        ensures { Resolves (λ _. tree.pattern_of place.new) result (rules.pattern_in (scope_view self.entry.scope.now) (types.grammar (types.components_of (map syntax.component_of all.now)))) }
    {
        put(place, Pattern::Grammar(self.components(all)?));
        Ok(())
    }

    /// Puts a component in this place.
    #[cycle(resolved)]
    #[inline(never)]
    fn component(
        self,
        component: &rnc_syntax::Component<'a>,
        place: &mut Component,
    ) -> Result<(), ScopeFault>
        ensures { Resolves (λ _. tree.component_of place.new) result (rules.component_in (scope_view self.entry.scope.now) (syntax.component_of component.now)) }
    {
        match component {
            rnc_syntax::Component::Start(method, body) => {
                let body = self.child(body)?;
                put_start(place, *method, body);
                Ok(())
            }
            rnc_syntax::Component::Define(name, method, body) => {
                let body = self.child(body)?;
                self.put_define(name, *method, body, place)
            }
            rnc_syntax::Component::Div(all) => self.div(all, place),
            rnc_syntax::Component::Include(mention, all) => self.include(mention, all, place),
        }
    }

    /// Puts a div of these components in this place.
    #[cycle(resolved)]
    #[inline(never)]
    fn div(self, all: &[rnc_syntax::Component<'a>], place: &mut Component) -> Result<(), ScopeFault>
        ensures { Resolves (λ _. tree.component_of place.new) result (rules.component_in (scope_view self.entry.scope.now) (types.div (types.components_of (map syntax.component_of all.now)))) }
    {
        put(place, Component::Div(self.components(all)?));
        Ok(())
    }

    /// Puts an include in this place.
    #[cycle(resolved)]
    #[inline(never)]
    fn include(
        self,
        mention: &rnc_syntax::Mention<'a>,
        all: &[rnc_syntax::Component<'a>],
        place: &mut Component,
    ) -> Result<(), ScopeFault>
        ensures { Resolves (λ _. tree.component_of place.new) result (rules.component_in (scope_view self.entry.scope.now) (types.include (syntax.mention_of mention.now) (types.components_of (map syntax.component_of all.now)))) }
    {
        let mention = self.mention(mention)?;
        put(place, Component::Include(mention, self.components(all)?));
        Ok(())
    }

    #[cycle(resolved)]
    fn components(self, all: &[rnc_syntax::Component<'a>]) -> Result<Vec<Component>, ScopeFault>
        ensures { Resolves (λ components. components_of (map tree.component_of components.items)) result (rules.components_in (scope_view self.entry.scope.now) (types.components_of (map syntax.component_of all.now))) }
    {
        let mut components = Vec::with_capacity(self.alloc, all.len())?;
        let mut next = Box::new(self.alloc, Component::Div(Vec::new(self.alloc)))?;
        for component in all {
            self.component(component, &mut next)?;
            self.append_component(&mut components, &mut next)?;
        }
        Ok(components)
    }

    /// Appends the component in this place, and leaves another one there.
    #[inline(never)]
    fn append_component(
        self,
        all: &mut Vec<Component>,
        place: &mut Component,
    ) -> Result<(), OutOfMemory>
        ensures { OnOk result (map tree.component_of all.new.items ≡ map tree.component_of all.old.items ++ tree.component_of place.old ∷ []) }
    {
        let empty = Component::Div(Vec::new(self.alloc));
        all.push(mem::replace(place, empty))?;
        Ok(())
    }

    fn body(self, body: &rnc_syntax::Body<'a>) -> Result<FileTree, ScopeFault>
        ensures { Resolves tree.file_of result (rules.body_in (scope_view self.entry.scope.now) (syntax.body_of body.now)) }
    {
        match body {
            rnc_syntax::Body::Pattern(pattern) => {
                let mut pattern = self.child(pattern)?;
                Ok(FileTree::Pattern(mem::replace(&mut *pattern, Pattern::Empty)))
            }
            rnc_syntax::Body::Grammar(components) => Ok(FileTree::Grammar(self.components(
                components,
            )?)),
        }
    }
}

/// Appends the pattern in this place, and leaves another one there.
#[inline(never)]
fn append_pattern(all: &mut Vec<Pattern>, place: &mut Pattern) -> Result<(), OutOfMemory>
    ensures { OnOk result (map tree.pattern_of all.new.items ≡ map tree.pattern_of all.old.items ++ tree.pattern_of place.old ∷ []) }
{
    all.push(mem::replace(place, Pattern::Empty))?;
    Ok(())
}

/// Puts an element or an attribute in this place.
#[inline(never)]
fn put_named(place: &mut Pattern, unprefixed: Unprefixed, class: Box<NameClass>, body: Box<Pattern>)
    ensures { tree.pattern_of place.new ≡ named_with unprefixed (tree.class_of class.value) (tree.pattern_of body.value) }
{
    match unprefixed {
        Unprefixed::Default => put(place, Pattern::Element(class, body)),
        Unprefixed::None => put(place, Pattern::Attribute(class, body)),
    }
}

/// Puts a pattern in this place, with this around it.
#[inline(never)]
fn put_wrapped(place: &mut Pattern, wrapper: Wrapper, body: Box<Pattern>)
    ensures { tree.pattern_of place.new ≡ wrapped_with wrapper (tree.pattern_of body.value) }
{
    match wrapper {
        Wrapper::List => put(place, Pattern::List(body)),
        Wrapper::Mixed => put(place, Pattern::Mixed(body)),
        Wrapper::Optional => put(place, Pattern::Optional(body)),
        Wrapper::ZeroOrMore => put(place, Pattern::ZeroOrMore(body)),
        Wrapper::OneOrMore => put(place, Pattern::OneOrMore(body)),
    }
}

/// Puts a datatype in this place, with the pattern that it excludes, if there is one.
#[inline(never)]
fn put_data(place: &mut Pattern, datatype: Box<Datatype>, except: Option<Box<Pattern>>)
    ensures { tree.pattern_of place.new ≡ tree.data_of datatype.value (option_map (λ p. tree.pattern_of p.value) except) }
{
    put(place, Pattern::Data { datatype, except });
}

/// Puts two patterns or more in this place, with this connector between them.
#[inline(never)]
fn put_members(place: &mut Pattern, connector: Connector, all: Vec<Pattern>)
    ensures { tree.pattern_of place.new ≡ types.members (connector_of connector) (map tree.pattern_of all.items) }
{
    match connector {
        Connector::Group => put(place, Pattern::Group(all)),
        Connector::Interleave => put(place, Pattern::Interleave(all)),
        Connector::Choice => put(place, Pattern::Choice(all)),
    }
}

/// Puts a start in this place.
#[inline(never)]
fn put_start(place: &mut Component, method: Method, mut body: Box<Pattern>)
    ensures { tree.component_of place.new ≡ types.start method (tree.pattern_of body.value) }
{
    let body = mem::replace(&mut *body, Pattern::Empty);
    put(place, Component::Start(method, body));
}

/// The scope of all declarations of a file.
fn scope_of<'a>(
    alloc: Global,
    declarations: &[rnc_syntax::Declaration<'a>],
) -> Result<Scope<'a>, ScopeFault>
    ensures { Resolves scope_view result (rules.declare_all rules.nothing_declared (map syntax.declaration_of declarations.now)) }
{
    let mut scope = Scope::new(alloc);
    for declaration in declarations {
        scope.declare(alloc, declaration)?;
    }
    Ok(scope)
}

/// The file tree of a syntax tree.
#[tactic(auto, unfolding(rnc_model::specs::declarations::Declarations::file_tree))]
pub fn file_tree(alloc: Global, file: &rnc_syntax::File<'_>) -> Result<FileTree, ScopeFault>
    ensures { Resolves tree.file_of result (rules.file_tree (syntax.file_of file.now)) }
{
    let scope = scope_of(alloc, &file.declarations)?;
    let resolver = Resolver {
        alloc,
        scope: &scope,
    };
    resolver.body(&file.body)
}
