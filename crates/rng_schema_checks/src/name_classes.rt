// Name classes that break a rule.
ghost use Rattle.std.specs.Prelude.{◌≡◌};
ghost use Rattle.rng_model.specs.names.NameViews.{class_of, name_of};
ghost use Rattle.rng_schema_checks.specs.plain.ClassTests.{breaks_except, declaration_test, has_part, is_barred, is_barred_name};
ghost use Rattle.rng_schema_checks.specs.plain.RuleTests.{part_test};

use rng_model::{Name, NameClass};

/// What to search for in a name class.
#[derive(Clone, Copy)]
enum Part {
    /// `*`, with or without an except.
    Any,
    /// `*` or `p:*`, with or without an except.
    AnyOrNamespace,
    /// The name `xmlns` without a namespace, or a name or `p:*` of the namespace of declarations.
    Declaration,
}

impl Part {
    /// Whether the search is for `*`.
    fn is_any(self) -> bool
        ensures { result ≡ (part_test self).any }
    {
        match self {
            Part::Any | Part::AnyOrNamespace => true,
            Part::Declaration => false,
        }
    }

    /// Whether the search is for `p:*` of this namespace.
    fn is_namespace(self, uri: &str) -> bool
        ensures { result ≡ (part_test self).namespace uri.now }
    {
        match self {
            Part::Any => false,
            Part::AnyOrNamespace => true,
            Part::Declaration => is_barred(uri),
        }
    }

    /// Whether the search is for this name.
    fn is_name(self, name: &Name) -> bool
        ensures { result ≡ (part_test self).name (name_of name.now) }
    {
        match self {
            Part::Any | Part::AnyOrNamespace => false,
            Part::Declaration => is_barred_name(name),
        }
    }
}

/// Whether no attribute may be in this namespace.
fn is_barred(uri: &str) -> bool
    ensures { result ≡ is_barred uri.now }
{
    uri == "http://www.w3.org/2000/xmlns"
}

/// Whether no attribute may have this name.
fn is_barred_name(name: &Name) -> bool
    ensures { result ≡ is_barred_name (name_of name.now) }
{
    is_barred(name.ns.as_str()) || (name.ns.as_str() == "" && name.local.as_str() == "xmlns")
}

/// Whether the class of an attribute contains a declaration, including its excepts: the name `xmlns` without a
/// namespace, or a name or `p:*` of `http://www.w3.org/2000/xmlns`. Allocates nothing.
///
/// RELAX NG Specification, section 4.16.
pub fn has_declaration(class: &NameClass) -> bool
    ensures { result ≡ has_part declaration_test (class_of class.now) }
{
    has_part(class, Part::Declaration)
}

/// Whether the class contains an except of `*` with a `*` in it, or an except of `p:*` with a `*` or a `q:*` in it. A
/// choice of no members is `* - *`. Takes linear time, and allocates nothing.
///
/// RELAX NG Specification, section 4.16.
pub fn breaks_except(class: &NameClass) -> bool
    ensures { result ≡ breaks_except (class_of class.now) }
{
    match class {
        NameClass::Any | NameClass::Ns(_) | NameClass::Name(_) => false,
        NameClass::AnyExcept(except) => has_part(except, Part::Any) || breaks_except(except),
        NameClass::NsExcept(_, except) => {
            has_part(except, Part::AnyOrNamespace) || breaks_except(except)
        }
        NameClass::Choice(members) => {
            'members: for member in members {
                if breaks_except(member) {
                    return true;
                }
            }
            members.is_empty()
        }
    }
}

/// Whether the class contains the part, including its excepts. A choice of no members is `* - *`.
fn has_part(class: &NameClass, part: Part) -> bool
    ensures { result ≡ has_part (part_test part) (class_of class.now) }
{
    match class {
        NameClass::Any => part.is_any(),
        NameClass::AnyExcept(except) => part.is_any() || has_part(except, part),
        NameClass::Ns(uri) => part.is_namespace(uri.as_str()),
        NameClass::NsExcept(uri, except) => {
            part.is_namespace(uri.as_str()) || has_part(except, part)
        }
        NameClass::Name(name) => part.is_name(name),
        NameClass::Choice(members) => {
            'members: for member in members {
                if has_part(member, part) {
                    return true;
                }
            }
            members.is_empty() && part.is_any()
        }
    }
}
