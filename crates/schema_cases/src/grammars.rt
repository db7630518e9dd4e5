// The grammars of a schema, printed.
use crate::nested::add_nested;
use crate::schema_patterns::{print_pattern, print_place};
use rng_load::Schema;
use rng_model::{Component, Method, Place};
use std::io;

/// The most grammars that are printed of a schema.
const MOST_GRAMMARS: usize = 10_000;

/// Prints the main grammar, and then all nested grammars, each before those that are nested in that one.
pub fn print_grammars(rt: &(impl Print + AllocGlobal), schema: &Schema) -> io::Result<()> {
    let mut left = Vec::new(rt.alloc());
    left.push(schema.main())?;
    for _ in 0..MOST_GRAMMARS {
        let Some(place) = left.pop() else {
            return Ok(());
        };
        print_grammar(rt, schema, place)?;
        let mut nested = nested_in(rt, schema, place)?;
        nested.reverse();
        left.append(&mut nested)?;
    }
    println!(rt; "more grammars")
}

/// Returns the places of the grammars that are nested in the one at a place, in order.
fn nested_in<'a>(
    rt: &impl AllocGlobal,
    schema: &'a Schema,
    place: &Place,
) -> io::Result<Vec<&'a Place>> {
    let mut nested = Vec::new(rt.alloc());
    if let Some(components) = schema.components(place) {
        for component in components {
            add_nested(&component.pattern, &mut nested)?;
        }
    }
    Ok(nested)
}

/// Prints what is at a place.
pub fn print_grammar(
    rt: &(impl Print + AllocGlobal),
    schema: &Schema,
    place: &Place,
) -> io::Result<()> {
    print_place(rt, place)?;
    if let Some(outer) = schema.outer(place) {
        print!(rt; " in ")?;
        print_place(rt, outer)?;
    }
    match schema.components(place) {
        Some(components) => {
            println!(rt; ":")?;
            print_components(rt, components)
        }
        None => println!(rt; " is no grammar"),
    }
}

/// Prints a line for each component.
fn print_components(rt: &(impl Print + AllocGlobal), components: &[Component]) -> io::Result<()> {
    for component in components {
        match &component.name {
            Some(name) => print!(rt; "  {name} {} ", sign_of(component.method))?,
            None => print!(rt; "  start {} ", sign_of(component.method))?,
        }
        print_pattern(rt, &component.pattern)?;
        println!(rt; "")?;
    }
    Ok(())
}

/// Returns the sign of a method.
fn sign_of(method: Method) -> &'static str {
    match method {
        Method::Plain => "=",
        Method::Choice => "|=",
        Method::Interleave => "&=",
    }
}
