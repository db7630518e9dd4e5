// Patterns of a schema, printed.
use rng_model::{Datatype, NameClass, Place, SchemaPattern, SchemaRow};
use std::alloc::Global;
use std::io;

/// Prints a place, a `/` before each of its numbers, the outermost first; `/` for the main grammar.
pub fn print_place(rt: &(impl Print + AllocGlobal), place: &Place) -> io::Result<()> {
    let text = place_text(rt.alloc(), place)?;
    print!(rt; "{text}")
}

/// Prints a pattern, members in parentheses.
pub fn print_pattern(rt: &(impl Print + AllocGlobal), pattern: &SchemaPattern) -> io::Result<()> {
    let mut texts = Vec::new(rt.alloc());
    for row in &pattern.rows {
        let start = texts.len().saturating_sub(row.arity());
        let text = row_text(rt.alloc(), row, &texts[start..])?;
        texts.truncate(start);
        texts.push(text)?;
    }
    print!(rt; "{}", first(texts.as_slice()))
}

/// Returns the first text, or that of `notAllowed` if there is none.
fn first(texts: &[String]) -> &str {
    match texts {
        [text, ..] => text.as_str(),
        [] => "notAllowed",
    }
}

/// Returns the text of the pattern of a row, given those of its children.
fn row_text(alloc: Global, row: &SchemaRow, children: &[String]) -> io::Result<String> {
    match row {
        SchemaRow::NotAllowed => text(alloc, "notAllowed"),
        SchemaRow::Empty => text(alloc, "empty"),
        SchemaRow::Text => text(alloc, "text"),
        SchemaRow::Element(class) => {
            let class = class_text(alloc, class)?;
            Ok(format!(in alloc; "element {class} {{ {} }}", first(children))?)
        }
        SchemaRow::Attribute(class) => {
            let class = class_text(alloc, class)?;
            Ok(format!(in alloc; "attribute {class} {{ {} }}", first(children))?)
        }
        SchemaRow::List => text_in_braces(alloc, "list", children),
        SchemaRow::Mixed => text_in_braces(alloc, "mixed", children),
        SchemaRow::External => text_in_braces(alloc, "external", children),
        SchemaRow::Optional => Ok(format!(in alloc; "{}?", first(children))?),
        SchemaRow::ZeroOrMore => Ok(format!(in alloc; "{}*", first(children))?),
        SchemaRow::OneOrMore => Ok(format!(in alloc; "{}+", first(children))?),
        SchemaRow::Group(_) => members_text(alloc, children, ", "),
        SchemaRow::Interleave(_) => members_text(alloc, children, " & "),
        SchemaRow::Choice(_) => members_text(alloc, children, " | "),
        SchemaRow::Data(datatype) => datatype_text(alloc, datatype),
        SchemaRow::DataExcept(datatype) => {
            let datatype = datatype_text(alloc, datatype)?;
            Ok(format!(in alloc; "{datatype} - {{ {} }}", first(children))?)
        }
        SchemaRow::Value(value) => {
            Ok(format!(in alloc; "{{{}}}{} {:?}", value.library, value.name, value.text)?)
        }
        SchemaRow::Ref(name) => Ok(format!(in alloc; "{name}")?),
        SchemaRow::ParentRef(name) => Ok(format!(in alloc; "parent {name}")?),
        SchemaRow::Grammar(place) => {
            Ok(format!(in alloc; "grammar {}", place_text(alloc, place)?)?)
        }
    }
}

/// Returns a word as a text of its own.
fn text(alloc: Global, word: &str) -> io::Result<String> {
    Ok(String::from_str(alloc, word)?)
}

/// Returns a word, and the only child in braces.
fn text_in_braces(alloc: Global, word: &str, children: &[String]) -> io::Result<String> {
    Ok(format!(in alloc; "{word} {{ {} }}", first(children))?)
}

/// Returns the texts of members in parentheses, with this between two of them.
fn members_text(alloc: Global, members: &[String], between: &str) -> io::Result<String> {
    let mut all = String::from_str(alloc, "(")?;
    for (number, member) in members.iter().enumerate() {
        if number > 0 {
            all.push_str(between)?;
        }
        all.push_str(member.as_str())?;
    }
    all.push_str(")")?;
    Ok(all)
}

/// Returns the text of a place, a `/` before each of its numbers; `/` for the main grammar.
fn place_text(alloc: Global, place: &Place) -> io::Result<String> {
    let Ok(numbers) = place.to_numbers(alloc) else {
        return text(alloc, "out of memory");
    };
    if numbers.is_empty() {
        return text(alloc, "/");
    }
    let mut all = String::new(alloc);
    for number in &numbers {
        let number = format!(in alloc; "/{number}")?;
        all.push_str(number.as_str())?;
    }
    Ok(all)
}

/// Returns the text of a datatype, its library in braces, and its parameters.
fn datatype_text(alloc: Global, datatype: &Datatype) -> io::Result<String> {
    let mut all = format!(in alloc; "{{{}}}{}", datatype.library, datatype.name)?;
    for (name, text) in &datatype.parameters {
        let parameter = format!(in alloc; " {name}={text:?}")?;
        all.push_str(parameter.as_str())?;
    }
    Ok(all)
}

/// Returns the text of a name class, each namespace in braces, members in parentheses.
#[cycle(classes)]
fn class_text(alloc: Global, class: &NameClass) -> io::Result<String> {
    match class {
        NameClass::Any => text(alloc, "*"),
        NameClass::AnyExcept(except) => {
            let except = class_text(alloc, except)?;
            Ok(format!(in alloc; "* - {except}")?)
        }
        NameClass::Ns(ns) => Ok(format!(in alloc; "{{{}}}*", ns.as_str())?),
        NameClass::NsExcept(ns, except) => {
            let except = class_text(alloc, except)?;
            Ok(format!(in alloc; "{{{}}}* - {except}", ns.as_str())?)
        }
        NameClass::Name(name) => {
            Ok(format!(in alloc; "{{{}}}{}", name.ns.as_str(), name.local)?)
        }
        NameClass::Choice(members) => choice_text(alloc, members),
    }
}

/// Returns the text of a choice of name classes.
#[cycle(classes)]
fn choice_text(alloc: Global, members: &[NameClass]) -> io::Result<String> {
    let mut texts = Vec::new(alloc);
    for member in members {
        texts.push(class_text(alloc, member)?)?;
    }
    members_text(alloc, texts.as_slice(), " | ")
}
