// Names of a file tree, in the namespace that their file inherits.
ghost use Rattle.std.specs.Prelude.{◌≡◌, IfOk, map};
ghost use Rattle.rng_model.specs.names.NameViews.{class_of, name_of, namespace_bytes};
ghost use Rattle.rnc_model.specs.grammar.Syntax.{classes_of};
ghost use Rattle.rnc_grammar.specs.views.View as file;
ghost use Rattle.rnc_model.specs.loading.Places.{class_in, classes_in, name_in, uri_in};

use rnc_grammar::ExpandedName;
use rng_model::{Name, NameClass, Namespace, OutOfMemory};
use std::alloc::Global;

/// The uri of a namespace, in a file that inherits `inherited`. Allocates nothing.
///
/// RELAX NG Specification, sections 4.6, 4.7 and 4.9.
pub(crate) fn namespace_uri<'a>(
    namespace: &'a rnc_grammar::Namespace,
    inherited: &'a Namespace,
) -> &'a Namespace
    ensures { namespace_bytes result.now ≡ uri_in (namespace_bytes inherited.now) (file.namespace_of namespace.now) }
{
    match namespace {
        rnc_grammar::Namespace::Inherited => inherited,
        rnc_grammar::Namespace::Given(uri) => uri,
    }
}

/// The expanded name, in a file that inherits this namespace.
///
/// RELAX NG Specification, section 4.9.
fn expanded_name(
    alloc: Global,
    name: &ExpandedName,
    inherited: &Namespace,
) -> Result<Name, OutOfMemory>
    ensures { IfOk result (λ n. name_of n ≡ name_in (namespace_bytes inherited.now) (file.name_of name.now)) }
{
    let ns = namespace_uri(&name.namespace, inherited).share()?;
    let local = String::from_str(alloc, name.local.as_str())?;
    Ok(Name { ns, local })
}

/// The name class, in a file that inherits this namespace.
///
/// RELAX NG Specification, section 4.9.
#[cycle(name_classes)]
pub(crate) fn name_class(
    alloc: Global,
    class: &rnc_grammar::NameClass,
    inherited: &Namespace,
) -> Result<NameClass, OutOfMemory>
    ensures { IfOk result (λ c. class_of c ≡ class_in (namespace_bytes inherited.now) (file.class_of class.now)) }
{
    match class {
        rnc_grammar::NameClass::Any => Ok(NameClass::Any),
        rnc_grammar::NameClass::AnyExcept(except) => {
            let except = name_class(alloc, except, inherited)?;
            Ok(NameClass::AnyExcept(Box::new(alloc, except)?))
        }
        rnc_grammar::NameClass::Ns(namespace) => {
            Ok(NameClass::Ns(namespace_uri(namespace, inherited).share()?))
        }
        rnc_grammar::NameClass::NsExcept(namespace, except) => {
            let ns = namespace_uri(namespace, inherited).share()?;
            let except = name_class(alloc, except, inherited)?;
            Ok(NameClass::NsExcept(ns, Box::new(alloc, except)?))
        }
        rnc_grammar::NameClass::Name(name) => {
            Ok(NameClass::Name(expanded_name(alloc, name, inherited)?))
        }
        rnc_grammar::NameClass::Choice(all) => {
            Ok(NameClass::Choice(name_classes(alloc, all, inherited)?))
        }
    }
}

/// The name classes of these, in order.
#[cycle(name_classes)]
fn name_classes(
    alloc: Global,
    all: &[rnc_grammar::NameClass],
    inherited: &Namespace,
) -> Result<Vec<NameClass>, OutOfMemory>
    ensures { IfOk result (λ classes. map class_of classes.items ≡ classes_in (namespace_bytes inherited.now) (classes_of (map file.class_of all.now))) }
{
    let mut classes = Vec::with_capacity(alloc, all.len())?;
    for class in all {
        classes.push(name_class(alloc, class, inherited)?)?;
    }
    Ok(classes)
}
