// Name classes, printed.
use rng_model::{Name, NameClass};
use std::io;

/// Prints a name class, each namespace except the empty one in braces before a local name, and choices in parentheses.
#[cycle(classes)]
pub fn print_class(rt: &impl Print, class: &NameClass) -> io::Result<()> {
    match class {
        NameClass::Any => print!(rt; "*"),
        NameClass::AnyExcept(except) => {
            print!(rt; "* - ")?;
            print_class(rt, except)
        }
        NameClass::Ns(ns) => print!(rt; "{{{}}}*", ns.as_str()),
        NameClass::NsExcept(ns, except) => {
            print!(rt; "{{{}}}* - ", ns.as_str())?;
            print_class(rt, except)
        }
        NameClass::Name(name) => print_name(rt, name),
        NameClass::Choice(members) => print_members(rt, members),
    }
}

fn print_name(rt: &impl Print, name: &Name) -> io::Result<()> {
    if !name.ns.as_str().is_empty() {
        print!(rt; "{{{}}}", name.ns.as_str())?;
    }
    print!(rt; "{}", name.local)
}

#[cycle(classes)]
fn print_members(rt: &impl Print, members: &[NameClass]) -> io::Result<()> {
    print!(rt; "(")?;
    for (number, member) in members.iter().enumerate() {
        if number > 0 {
            print!(rt; " | ")?;
        }
        print_class(rt, member)?;
    }
    print!(rt; ")")
}
