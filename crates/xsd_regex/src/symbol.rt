// What an expression is written with: characters, and escapes (XML Schema Part 2, Second Edition, section F.1.1).
ghost use Rattle.std.specs.Prelude.{◌≡◌, option_map};
ghost use Rattle.std.specs.Str.{chars};
ghost use Rattle.rng_model.specs.regexes.Symbols.{class, short_escape};
ghost use Rattle.rng_model.specs.regexes.plain.Spelling.{first_of, negated_if, escape_symbol, property_symbol, named_symbol, next_symbol};
ghost use Rattle.xsd_regex.specs.views.Symbols.{symbol_of};
ghost use Rattle.xsd_regex.specs.views.Classes.{set_class};

use crate::class::{CharSet, Leaf};
use crate::property::find_property;
use ucd_category::GeneralCategory;

/// A symbol of an expression.
#[derive(Clone, Copy)]
pub(crate) enum Symbol {
    /// A character that is written as itself.
    Char(char),
    /// A character that is written by an escape.
    Escaped(char),
    /// An escape of a class.
    Class(Leaf),
}

/// Splits the first symbol off the text. Returns `None` if the text is empty or begins with no symbol.
///
/// Reads that symbol alone, or up to the end of the text.
pub(crate) fn next_symbol(text: &str) -> Option<(Symbol, &str)>
    ensures { option_map (λ x. (symbol_of x.0, chars x.1.now)) result ≡ next_symbol (chars text.now) }
{
    match split_first(text) {
        Some(('\\', rest)) => escape(rest),
        Some((c, rest)) => Some((Symbol::Char(c), rest)),
        None => None,
    }
}

// the symbol of which the text is what is behind `\`
fn escape(text: &str) -> Option<(Symbol, &str)>
    ensures { option_map (λ x. (symbol_of x.0, chars x.1.now)) result ≡ escape_symbol (chars text.now) }
{
    match split_first(text) {
        Some(('p', rest)) => property(rest, false),
        Some(('P', rest)) => property(rest, true),
        Some((c, rest)) => match short_escape(c) {
            Some(symbol) => Some((symbol, rest)),
            None => None,
        },
        None => None,
    }
}

// the symbol of which the text is what is behind `\p` or `\P`
fn property(text: &str, negated: bool) -> Option<(Symbol, &str)>
    ensures { option_map (λ x. (symbol_of x.0, chars x.1.now)) result ≡ property_symbol negated (chars text.now) }
{
    match split_first(text) {
        Some(('{', rest)) => named_property(rest, negated),
        Some((_, _)) => None,
        None => None,
    }
}

// the symbol of which the text is what is behind `\p{` or `\P{`
fn named_property(text: &str, negated: bool) -> Option<(Symbol, &str)>
    ensures { option_map (λ x. (symbol_of x.0, chars x.1.now)) result ≡ named_symbol negated (chars text.now) }
{
    match text.split_once('}') {
        Some((name, rest)) => match find_property(name) {
            Some(set) => Some((Symbol::Class(Leaf { set, negated }), rest)),
            None => None,
        },
        None => None,
    }
}

// the symbol that `\` and the character write
fn short_escape(c: char) -> Option<Symbol>
    ensures { option_map symbol_of result ≡ short_escape c }
{
    match c {
        'n' => Some(Symbol::Escaped('\n')),
        'r' => Some(Symbol::Escaped('\r')),
        't' => Some(Symbol::Escaped('\t')),
        '\\' | '|' | '.' | '?' | '*' | '+' | '(' | ')' | '{' | '}' | '-' | '[' | ']' | '^' => {
            Some(Symbol::Escaped(c))
        }
        's' => Some(class(CharSet::WhiteSpace, false)),
        'S' => Some(class(CharSet::WhiteSpace, true)),
        'i' => Some(class(CharSet::NameStart, false)),
        'I' => Some(class(CharSet::NameStart, true)),
        'c' => Some(class(CharSet::NameChar, false)),
        'C' => Some(class(CharSet::NameChar, true)),
        'd' => Some(class(CharSet::Category(GeneralCategory::DecimalNumber), false)),
        'D' => Some(class(CharSet::Category(GeneralCategory::DecimalNumber), true)),
        'w' => Some(class(CharSet::WordChars, false)),
        'W' => Some(class(CharSet::WordChars, true)),
        _ => None,
    }
}

// the escape of the set, or of its complement
fn class(set: CharSet, negated: bool) -> Symbol
    ensures { symbol_of result ≡ class (negated_if negated (set_class set)) }
{
    Symbol::Class(Leaf { set, negated })
}

// the first character of the text, and what is behind it
fn split_first(text: &str) -> Option<(char, &str)>
    ensures { option_map (λ x. (x.0, chars x.1.now)) result ≡ first_of (chars text.now) }
{
    let mut all = text.chars();
    let first = all.next()?;
    Some((first, all.as_str()))
}
