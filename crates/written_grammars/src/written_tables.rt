// Grammars from rows.
use crate::grammar_builder::GrammarBuilder;
use rng_model::{
    Datatype, DatatypeValue, ElementId, Name, NameClass, Namespace, PatternId, Simple,
    SimpleGrammar,
};
use std::alloc::{AllocError, Global};

/// Reads the grammar with this many elements and these tables: its patterns and elements, separated by `; `.
///
/// The patterns are `notAllowed`, `empty`, `text`, `data`, `value`, `eN` for a ref to the element N, `@CLASS N`, `list
/// N`, `except N`, `N+`, `N,M`, `N&M` and `N|M`. `attributes K` is K lists of 500 attributes with different names and
/// the pattern 0 each, joined by groups. An element is `CLASS N`, with the body N. `start N` is the start.
pub fn read_grammar(alloc: Global, count: &str, tables: &str) -> Option<SimpleGrammar> {
    let mut builder = GrammarBuilder::new(alloc, number_of(count));
    let mut start = PatternId(0);
    for entry in tables.split("; ") {
        let (word, of) = entry.split_once(' ').unwrap_or((entry, ""));
        let number = number_of(of);
        match word {
            "start" => start = PatternId(number),
            "attributes" => add_attributes(alloc, &mut builder, number),
            _ => add_entry(alloc, &mut builder, word, of, PatternId(number)),
        }
    }
    builder.finish(start)
}

/// Adds a pattern or an element.
fn add_entry(alloc: Global, builder: &mut GrammarBuilder, word: &str, of: &str, body: PatternId) {
    match word {
        "list" => builder.add(Simple::List(body)),
        "except" => add_made(builder, except_of(alloc, body)),
        _ => match (word.strip_prefix('@'), class_of(alloc, word)) {
            (Some(class), _) => add_made(builder, attribute_of(alloc, class, body)),
            (None, Ok(class)) if !of.is_empty() => builder.list(class, body),
            _ => add_made(builder, pattern_of(alloc, word)),
        },
    }
}

/// Adds a pattern, if there was memory for it.
fn add_made(builder: &mut GrammarBuilder, made: Result<Simple, AllocError>) {
    match made {
        Ok(pattern) => builder.add(pattern),
        Err(AllocError) => builder.refuse(),
    }
}

/// Returns an attribute with names of this class.
fn attribute_of(alloc: Global, class: &str, body: PatternId) -> Result<Simple, AllocError> {
    let class = class_of(alloc, class)?;
    Ok(Simple::Attribute(Box::new(alloc, class)?, body))
}

/// Returns a datatype that excepts a pattern.
fn except_of(alloc: Global, body: PatternId) -> Result<Simple, AllocError> {
    Ok(Simple::DataExcept(some_datatype(alloc)?, body))
}

/// Returns a pattern that is one word.
fn pattern_of(alloc: Global, word: &str) -> Result<Simple, AllocError> {
    if let Some((first, second)) = word.split_once(',') {
        return Ok(Simple::Group(place(first), place(second)));
    }
    if let Some((first, second)) = word.split_once('&') {
        return Ok(Simple::Interleave(place(first), place(second)));
    }
    if let Some((first, second)) = word.split_once('|') {
        return Ok(Simple::Choice(place(first), place(second)));
    }
    if let Some(body) = word.strip_suffix('+') {
        return Ok(Simple::OneOrMore(place(body)));
    }
    match word {
        "empty" => Ok(Simple::Empty),
        "text" => Ok(Simple::Text),
        "notAllowed" => Ok(Simple::NotAllowed),
        "data" => Ok(Simple::Data(some_datatype(alloc)?)),
        "value" => some_value(alloc),
        _ => Ok(Simple::Element(ElementId(number_of(word.strip_prefix('e').unwrap_or(""))))),
    }
}

fn place(digits: &str) -> PatternId {
    PatternId(number_of(digits))
}

fn number_of(digits: &str) -> usize {
    digits.parse::<usize>().unwrap_or(0)
}

/// Returns the datatype `token` of the built-in library.
fn some_datatype(alloc: Global) -> Result<Box<Datatype>, AllocError> {
    let datatype = Datatype {
        library: String::new(alloc),
        name: String::from_str(alloc, "token")?,
        parameters: Vec::new(alloc),
    };
    Ok(Box::new(alloc, datatype)?)
}

/// Returns the empty text as a value of that datatype.
fn some_value(alloc: Global) -> Result<Simple, AllocError> {
    let value = DatatypeValue {
        library: String::new(alloc),
        name: String::from_str(alloc, "token")?,
        text: String::new(alloc),
    };
    Ok(Simple::Value(Box::new(alloc, value)?))
}

/// Returns a name class: `*`, `NS:*`, a name, `*-NAME` for every name but one, or `A|B` for two classes.
fn class_of(alloc: Global, written: &str) -> Result<NameClass, AllocError> {
    if let Some((first, second)) = written.split_once('|') {
        let members = vec![in alloc; one_class(alloc, first)?, one_class(alloc, second)?]?;
        return Ok(NameClass::Choice(members));
    }
    one_class(alloc, written)
}

/// Returns a name class that is not a choice.
fn one_class(alloc: Global, written: &str) -> Result<NameClass, AllocError> {
    if let Some(name) = written.strip_prefix("*-") {
        return Ok(NameClass::AnyExcept(Box::new(alloc, named(alloc, name)?)?));
    }
    match written.strip_suffix(":*") {
        Some(ns) => Ok(NameClass::Ns(Namespace::new(alloc, ns)?)),
        None if written == "*" => Ok(NameClass::Any),
        None => named(alloc, written),
    }
}

/// Returns the class of a name without a namespace.
fn named(alloc: Global, local: &str) -> Result<NameClass, AllocError> {
    Ok(NameClass::Name(Name {
        ns: Namespace::none(),
        local: String::from_str(alloc, local)?,
    }))
}

/// Adds lists of attributes, each joined by a group to the pattern before it.
fn add_attributes(alloc: Global, builder: &mut GrammarBuilder, lists: usize) {
    for list in 0..lists {
        let before = builder.last();
        add_list(alloc, builder, list);
        builder.add(Simple::Group(before, builder.last()));
    }
}

/// Adds a list of attributes with different names, joined by groups.
fn add_list(alloc: Global, builder: &mut GrammarBuilder, list: usize) {
    builder.add(Simple::Empty);
    for number in 0..500 {
        let before = builder.last();
        match format!(in alloc; "a{list}x{number}") {
            Ok(name) => add_made(builder, attribute_of(alloc, name.as_str(), PatternId(0))),
            Err(_) => builder.refuse(),
        }
        builder.add(Simple::Group(before, builder.last()));
    }
}
