// Name classes in the words of a row. Each word makes a class, some of them from those before it:
//
//     *      every name
//     -      every name but those of the class before it
//     p:*    every name of the namespace p
//     p:-    every name of the namespace p but those of the class before it
//     p:a    the name a of the namespace p
//     |      the names of the two classes before it
//     none   the choice of no classes
use rng_model::{Name, NameClass, Namespace};
use std::alloc::Global;
use std::io;

/// Returns the name that a word is: its namespace, a colon and its local name.
pub fn name_in(alloc: Global, word: &str) -> io::Result<Name> {
    let Some((ns, local)) = word.split_once(':') else {
        return Err(io::Error::from(io::ErrorKind::InvalidData));
    };
    Ok(Name {
        ns: Namespace::new(alloc, ns)?,
        local: String::from_str(alloc, local)?,
    })
}

/// Returns the class that is written in words.
pub fn class_in(alloc: Global, text: &str) -> io::Result<NameClass> {
    let mut made = Vec::new(alloc);
    for word in text.split(' ') {
        push_class(alloc, word, &mut made)?;
    }
    last(&mut made)
}

/// Adds the class that a word makes from those before it.
fn push_class(alloc: Global, word: &str, made: &mut Vec<NameClass>) -> io::Result<()> {
    let class = class_by(alloc, word, made)?;
    made.push(class)?;
    Ok(())
}

/// Returns the class that a word makes from those before it, which are removed.
fn class_by(alloc: Global, word: &str, made: &mut Vec<NameClass>) -> io::Result<NameClass> {
    match word {
        "*" => Ok(NameClass::Any),
        "none" => Ok(NameClass::Choice(Vec::new(alloc))),
        "-" => Ok(NameClass::AnyExcept(Box::new(alloc, last(made)?)?)),
        "|" => choice(alloc, made),
        _ => in_namespace(alloc, name_in(alloc, word)?, made),
    }
}

/// Removes and returns the last class.
fn last(made: &mut Vec<NameClass>) -> io::Result<NameClass> {
    match made.pop() {
        Some(class) => Ok(class),
        None => Err(io::Error::from(io::ErrorKind::InvalidData)),
    }
}

/// Returns the choice of the last two classes.
fn choice(alloc: Global, made: &mut Vec<NameClass>) -> io::Result<NameClass> {
    let second = last(made)?;
    let first = last(made)?;
    Ok(NameClass::Choice(vec![in alloc; first, second]?))
}

/// Returns the class that a word with a colon makes.
fn in_namespace(alloc: Global, name: Name, made: &mut Vec<NameClass>) -> io::Result<NameClass> {
    match name.local.as_str() {
        "*" => Ok(NameClass::Ns(name.ns)),
        "-" => Ok(NameClass::NsExcept(name.ns, Box::new(alloc, last(made)?)?)),
        _ => Ok(NameClass::Name(name)),
    }
}
