// Name classes.
ghost use Rattle.std.specs.Prelude.{◌≡◌, ◌++◌, ◌||◌, OnOk};
ghost use Rattle.rng_model.specs.names.Names as names;
ghost use Rattle.rng_model.specs.simple.TableRules.{IsPaired};
ghost use Rattle.rng_model.specs.names.NameViews.{class_of, name_of};
ghost use Rattle.rncv_model.specs.printed.Words.{class_text, in_parentheses_if, is_choice, is_except};
ghost use Rattle.rnc_print.specs.views.Prefixes.{namespaces_seen};

use crate::prefixes::Prefixes;
use rng_model::{Name, NameClass, OutOfMemory};
use std::alloc::Global;

/// Writes a name class whose choices all have two members.
///
/// The recursion is as deep as the class.
#[cycle(classes)]
pub(crate) fn write_class(
    alloc: Global,
    prefixes: &Prefixes<'_>,
    class: &NameClass,
    text: &mut Vec<u8>,
) -> Result<(), OutOfMemory>
    requires { IsPaired class.now }
    ensures { OnOk result (text.new.items ≡ text.old.items ++ class_text (namespaces_seen prefixes.now) (class_of class.now)) }
{
    match class {
        NameClass::Any => Ok(text.extend_from_slice(b"*")?),
        NameClass::AnyExcept(except) => {
            text.extend_from_slice(b"* - ")?;
            write_part(alloc, prefixes, except, is_joined(except), text)
        }
        NameClass::Ns(ns) => {
            prefixes.write_prefix(alloc, ns.as_str(), text)?;
            Ok(text.extend_from_slice(b":*")?)
        }
        NameClass::NsExcept(ns, except) => {
            prefixes.write_prefix(alloc, ns.as_str(), text)?;
            text.extend_from_slice(b":* - ")?;
            write_part(alloc, prefixes, except, is_joined(except), text)
        }
        NameClass::Name(name) => write_name(alloc, prefixes, name, text),
        NameClass::Choice(members) => {
            let [left, right] = members.as_slice() else {
                return Ok(());
            };
            write_part(alloc, prefixes, left, is_except(left), text)?;
            text.extend_from_slice(b" | ")?;
            write_part(alloc, prefixes, right, is_joined(right), text)
        }
    }
}

/// Writes a part of a name class, in parentheses if `parted` is true.
#[cycle(classes)]
fn write_part(
    alloc: Global,
    prefixes: &Prefixes<'_>,
    part: &NameClass,
    parted: bool,
    text: &mut Vec<u8>,
) -> Result<(), OutOfMemory>
    requires { IsPaired part.now }
    ensures { OnOk result (text.new.items ≡ text.old.items ++ in_parentheses_if parted (class_text (namespaces_seen prefixes.now) (class_of part.now))) }
{
    if !parted {
        return write_class(alloc, prefixes, part, text);
    }
    text.extend_from_slice(b"(")?;
    write_class(alloc, prefixes, part, text)?;
    Ok(text.extend_from_slice(b")")?)
}

/// Writes a name, after the prefix of its namespace if it has one.
fn write_name(
    alloc: Global,
    prefixes: &Prefixes<'_>,
    name: &Name,
    text: &mut Vec<u8>,
) -> Result<(), OutOfMemory>
    ensures { OnOk result (text.new.items ≡ text.old.items ++ class_text (namespaces_seen prefixes.now) (names.name_is (name_of name.now))) }
{
    if !name.ns.as_str().is_empty() {
        prefixes.write_prefix(alloc, name.ns.as_str(), text)?;
        text.extend_from_slice(b":")?;
    }
    Ok(text.extend_from_slice(name.local.as_bytes())?)
}

/// Returns whether the class is a choice or has an except.
fn is_joined(class: &NameClass) -> bool
    requires { IsPaired class.now }
    ensures { result ≡ (is_choice (class_of class.now) || is_except (class_of class.now)) }
{
    matches!(
        class,
        NameClass::Choice(_) | NameClass::AnyExcept(_) | NameClass::NsExcept(_, _)
    )
}

/// Returns whether the class has an except.
fn is_except(class: &NameClass) -> bool
    requires { IsPaired class.now }
    ensures { result ≡ is_except (class_of class.now) }
{
    matches!(class, NameClass::AnyExcept(_) | NameClass::NsExcept(_, _))
}
