// The datatypes of a schema file that may break the clause on datatypes.
ghost use Rattle.std.specs.Prelude.{◌≡◌, ◌++◌, IfOk, OnOk, map};
ghost use Rattle.rnc_model.specs.grammar.Syntax.{components_of, patterns_of};
ghost use Rattle.rnc_places.specs.plain.DatatypeNumbers as plain;
ghost use Rattle.rnc_places.specs.plain.DatatypeNumbers.{kept_use, uses_of_body, uses_of_component, uses_of_components, uses_of_pattern, uses_of_patterns};
ghost use Rattle.rnc_places.specs.views.DatatypeUses.{use_of};
ghost use Rattle.rnc_syntax.specs.views.SyntaxView as syntax;

use rnc_syntax::{Body, Component, DatatypeName, Literal, Parameter, Pattern};
use rng_model::OutOfMemory;
use std::alloc::Global;

/// The use of a datatype.
#[derive(Clone, Copy)]
pub enum DatatypeUse<'t, 'a> {
    /// With parameters.
    Data(DatatypeName<'a>, &'t [Parameter<'a>]),
    /// For a value.
    Value(DatatypeName<'a>, &'t Literal<'a>),
}

/// Whether the name has a prefix.
fn is_prefixed(type_name: DatatypeName<'_>) -> bool
    ensures { result ≡ plain.is_prefixed (syntax.type_of type_name.entry) }
{
    match type_name {
        DatatypeName::String | DatatypeName::Token => false,
        DatatypeName::Prefixed { .. } => true,
    }
}

/// Whether there is a parameter.
fn has_some(parameters: &[Parameter<'_>]) -> bool
    ensures { result ≡ plain.has_some (map syntax.parameter_of parameters.now) }
{
    match parameters {
        [_, ..] => true,
        [] => false,
    }
}

/// Whether the use may break the clause: all but values of `string` and `token`, and these types without parameters.
fn may_break(used: DatatypeUse<'_, '_>) -> bool
    ensures { result ≡ plain.may_break (use_of used.entry) }
{
    match used {
        DatatypeUse::Data(type_name, parameters) => is_prefixed(type_name) || has_some(parameters),
        DatatypeUse::Value(type_name, _) => is_prefixed(type_name),
    }
}

/// Appends a use that may break the clause.
fn push<'t, 'a>(
    all: &mut Vec<DatatypeUse<'t, 'a>>,
    used: DatatypeUse<'t, 'a>,
) -> Result<(), OutOfMemory>
    ensures { OnOk result (map use_of all.new.items ≡ map use_of all.old.items ++ kept_use (use_of used.entry)) }
{
    if !may_break(used) {
        return Ok(());
    }
    Ok(all.push(used)?)
}

/// Returns those in what follows the declarations, in the order of their tokens.
pub fn uses_in<'t, 'a>(
    alloc: Global,
    body: &'t Body<'a>,
) -> Result<Vec<DatatypeUse<'t, 'a>>, OutOfMemory>
    ensures { IfOk result (λ all. map use_of all.items ≡ uses_of_body (syntax.body_of body.now)) }
{
    let mut all = Vec::new(alloc);
    match body {
        Body::Pattern(pattern) => push_from_pattern(&mut all, pattern)?,
        Body::Grammar(components) => push_from_components(&mut all, components)?,
    }
    Ok(all)
}

/// Appends those in a pattern.
#[cycle(uses)]
fn push_from_pattern<'t, 'a>(
    all: &mut Vec<DatatypeUse<'t, 'a>>,
    pattern: &'t Pattern<'a>,
) -> Result<(), OutOfMemory>
    ensures { OnOk result (map use_of all.new.items ≡ map use_of all.old.items ++ uses_of_pattern (syntax.pattern_of pattern.now)) }
{
    match pattern {
        Pattern::Element(_, body)
        | Pattern::Attribute(_, body)
        | Pattern::List(body)
        | Pattern::Mixed(body)
        | Pattern::Optional(body)
        | Pattern::ZeroOrMore(body)
        | Pattern::OneOrMore(body) => push_from_pattern(all, body),
        Pattern::Ref(_)
        | Pattern::ParentRef(_)
        | Pattern::Empty
        | Pattern::Text
        | Pattern::NotAllowed
        | Pattern::External(_) => Ok(()),
        Pattern::Value(type_name, text) => push(all, DatatypeUse::Value(*type_name, text)),
        Pattern::Data(type_name, parameters) => {
            push(all, DatatypeUse::Data(*type_name, parameters))
        }
        Pattern::DataExcept(type_name, parameters, except) => {
            push(all, DatatypeUse::Data(*type_name, parameters))?;
            push_from_pattern(all, except)
        }
        Pattern::Grammar(components) => push_from_components(all, components),
        Pattern::Group(members) | Pattern::Interleave(members) | Pattern::Choice(members) => {
            push_from_patterns(all, members)
        }
    }
}

/// Appends those in patterns.
#[cycle(uses)]
fn push_from_patterns<'t, 'a>(
    all: &mut Vec<DatatypeUse<'t, 'a>>,
    patterns: &'t [Pattern<'a>],
) -> Result<(), OutOfMemory>
    ensures { OnOk result (map use_of all.new.items ≡ map use_of all.old.items ++ uses_of_patterns (patterns_of (map syntax.pattern_of patterns.now))) }
{
    for pattern in patterns {
        push_from_pattern(all, pattern)?;
    }
    Ok(())
}

/// Appends those in a component.
#[cycle(uses)]
fn push_from_component<'t, 'a>(
    all: &mut Vec<DatatypeUse<'t, 'a>>,
    component: &'t Component<'a>,
) -> Result<(), OutOfMemory>
    ensures { OnOk result (map use_of all.new.items ≡ map use_of all.old.items ++ uses_of_component (syntax.component_of component.now)) }
{
    match component {
        Component::Start(_, body) | Component::Define(_, _, body) => push_from_pattern(all, body),
        Component::Div(components) | Component::Include(_, components) => {
            push_from_components(all, components)
        }
    }
}

/// Appends those in components.
#[cycle(uses)]
fn push_from_components<'t, 'a>(
    all: &mut Vec<DatatypeUse<'t, 'a>>,
    components: &'t [Component<'a>],
) -> Result<(), OutOfMemory>
    ensures { OnOk result (map use_of all.new.items ≡ map use_of all.old.items ++ uses_of_components (components_of (map syntax.component_of components.now))) }
{
    for component in components {
        push_from_component(all, component)?;
    }
    Ok(())
}
