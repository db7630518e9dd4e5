// Whether a name class holds a name.
ghost use Rattle.std.specs.Prelude.{◌≡◌};
ghost use Rattle.std.specs.Bool.{Decides};
ghost use Rattle.rng_model.specs.names.Names.{In};
ghost use Rattle.rng_model.specs.names.NameViews.{class_of, name_of};
ghost use Rattle.rng_names.specs.plain.Holding.{holds, pair, same_name};

use rng_model::{Name, NameClass};

/// Returns whether the class holds the name. Allocates nothing.
///
/// RELAX NG Specification, section 6.1: `*` holds every name, `p:*` every name of that namespace, and a name itself. A
/// choice holds the names of its members, and an except the names of its class that are not names of the except. The
/// cost is at most one comparison of the name with each namespace and each name that is written in the class.
pub fn contains(class: &NameClass, name: &Name) -> bool
    ensures { Decides result (In (class_of class.now) (name_of name.now)) }
{
    match class {
        NameClass::Name(only) => is_named(only, name.ns.as_str(), name.local.as_str()),
        _ => holds(class, name.ns.as_str(), name.local.as_str()),
    }
}

/// Returns whether the class holds the name with this namespace and this local name.
pub fn holds(class: &NameClass, ns: &str, local: &str) -> bool
    ensures { result ≡ holds (class_of class.now) (pair ns.now local.now) }
{
    match class {
        NameClass::Any => true,
        NameClass::AnyExcept(except) => !holds(except, ns, local),
        NameClass::Ns(only) => only.as_str() == ns,
        NameClass::NsExcept(only, except) => only.as_str() == ns && !holds(except, ns, local),
        NameClass::Name(only) => is_named(only, ns, local),
        NameClass::Choice(members) => {
            'members: for member in members {
                if holds(member, ns, local) {
                    return true;
                }
            }
            false
        }
    }
}

// whether the name has this namespace and this local name
fn is_named(name: &Name, ns: &str, local: &str) -> bool
    ensures { result ≡ same_name (name_of name.now) (pair ns.now local.now) }
{
    name.local.as_str() == local && is_same_namespace(name.ns.as_str(), ns)
}

/// Returns whether two names are equal. Reads their namespaces only if their local names are equal, since a namespace
/// may be long and many names share it. Allocates nothing.
pub fn is_same_name(one: &Name, other: &Name) -> bool
    ensures { Decides result (name_of one.now ≡ name_of other.now) }
{
    one.local == other.local && is_same_namespace(one.ns.as_str(), other.ns.as_str())
}

// whether two namespaces are equal; most names have none, and then nothing is compared
fn is_same_namespace(one: &str, other: &str) -> bool
    ensures { Decides result (one.now ≡ other.now) }
{
    (one.is_empty() && other.is_empty()) || one == other
}
