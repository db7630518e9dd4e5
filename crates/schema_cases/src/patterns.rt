// Patterns of a simple grammar, printed.
use crate::classes::print_class;
use crate::elements::Mentioned;
use rng_model::{Datatype, PatternId, Simple, SimpleGrammar};
use std::io;

/// Prints a pattern as a tree, each pair in parentheses.
#[cycle(patterns)]
pub fn print_pattern(
    rt: &impl Print,
    grammar: &SimpleGrammar,
    mentioned: &mut Mentioned,
    id: PatternId,
) -> io::Result<()> {
    match grammar.pattern(id) {
        None => print!(rt; "no pattern"),
        Some(Simple::NotAllowed) => print!(rt; "notAllowed"),
        Some(Simple::Empty) => print!(rt; "empty"),
        Some(Simple::Text) => print!(rt; "text"),
        Some(Simple::Element(element)) => print!(rt; "e{}", mentioned.number(*element)?),
        Some(Simple::Attribute(class, body)) => {
            print!(rt; "attribute ")?;
            print_class(rt, class)?;
            print_in_braces(rt, grammar, mentioned, *body)
        }
        Some(Simple::List(body)) => {
            print!(rt; "list")?;
            print_in_braces(rt, grammar, mentioned, *body)
        }
        Some(Simple::Data(datatype)) => print_datatype(rt, datatype),
        Some(Simple::DataExcept(datatype, except)) => {
            print_datatype(rt, datatype)?;
            print!(rt; " -")?;
            print_in_braces(rt, grammar, mentioned, *except)
        }
        Some(Simple::Value(value)) => {
            print!(rt; "{{{}}}{} {:?}", value.library, value.name, value.text)
        }
        Some(Simple::OneOrMore(body)) => {
            print_pattern(rt, grammar, mentioned, *body)?;
            print!(rt; "+")
        }
        Some(Simple::Group(a, b)) => print_pair(rt, grammar, mentioned, *a, ", ", *b),
        Some(Simple::Interleave(a, b)) => print_pair(rt, grammar, mentioned, *a, " & ", *b),
        Some(Simple::Choice(a, b)) => print_pair(rt, grammar, mentioned, *a, " | ", *b),
    }
}

/// Prints two patterns in parentheses, with a sign between them.
#[cycle(patterns)]
fn print_pair(
    rt: &impl Print,
    grammar: &SimpleGrammar,
    mentioned: &mut Mentioned,
    a: PatternId,
    sign: &str,
    b: PatternId,
) -> io::Result<()> {
    print!(rt; "(")?;
    print_pattern(rt, grammar, mentioned, a)?;
    print!(rt; "{sign}")?;
    print_pattern(rt, grammar, mentioned, b)?;
    print!(rt; ")")
}

/// Prints a pattern in braces.
#[cycle(patterns)]
fn print_in_braces(
    rt: &impl Print,
    grammar: &SimpleGrammar,
    mentioned: &mut Mentioned,
    id: PatternId,
) -> io::Result<()> {
    print!(rt; " {{ ")?;
    print_pattern(rt, grammar, mentioned, id)?;
    print!(rt; " }}")
}

/// Prints a datatype, its library in braces, and its parameters.
fn print_datatype(rt: &impl Print, datatype: &Datatype) -> io::Result<()> {
    print!(rt; "{{{}}}{}", datatype.library, datatype.name)?;
    for (name, text) in &datatype.parameters {
        print!(rt; " {name}={text:?}")?;
    }
    Ok(())
}
