// Characters, names without a colon, and the ranges that define them.
ghost use Rattle.std.specs.Prelude.{◌≡◌, ◌&&◌, not};
ghost use Rattle.std.specs.Str.{chars};
ghost use Rattle.rng_model.specs.names.Names.{is_xml_char, is_name_start, is_name_char, is_colon, is_ncname};

/// Returns whether the character may occur in an XML document.
///
/// XML 1.0 Fifth Edition, section 2.2, `Char`. Allocates nothing.
pub fn is_xml_char(c: char) -> bool
    ensures { result ≡ is_xml_char c }
{
    matches!(
        c,
        '\u{9}'..='\u{A}' | '\u{D}' | '\u{20}'..='\u{D7FF}' | '\u{E000}'..='\u{FFFD}' | '\u{10000}'..='\u{10FFFF}'
    )
}

/// Returns whether a name may begin with the character.
///
/// XML 1.0 Fifth Edition, section 2.3, `NameStartChar`. Allocates nothing.
pub fn is_name_start(c: char) -> bool
    ensures { result ≡ is_name_start c }
{
    matches!(
        c,
        ':' | 'A'..='Z' | '_' | 'a'..='z'
            | '\u{00C0}'..='\u{00D6}' | '\u{00D8}'..='\u{00F6}' | '\u{00F8}'..='\u{02FF}'
            | '\u{370}'..='\u{37D}' | '\u{37F}'..='\u{1FFF}' | '\u{200C}'..='\u{200D}'
            | '\u{2070}'..='\u{218F}' | '\u{2C00}'..='\u{2FEF}' | '\u{3001}'..='\u{D7FF}'
            | '\u{F900}'..='\u{FDCF}' | '\u{FDF0}'..='\u{FFFD}' | '\u{10000}'..='\u{EFFFF}'
    )
}

/// Returns whether the character may occur in a name after the first character.
///
/// XML 1.0 Fifth Edition, section 2.3, `NameChar`. Allocates nothing.
pub fn is_name_char(c: char) -> bool
    ensures { result ≡ is_name_char c }
{
    is_name_start(c)
        || matches!(
            c,
            '-' | '.' | '0'..='9' | '\u{B7}' | '\u{300}'..='\u{36F}' | '\u{203F}'..='\u{2040}'
        )
}

/// Returns whether the text is a name without a colon: a `NameStartChar` and then `NameChar`s, none of them `:`.
///
/// Namespaces in XML 1.0, section 3, `NCName`. One pass over the text. Allocates nothing.
pub fn is_ncname(text: &str) -> bool
    ensures { result ≡ is_ncname (chars text.now) }
{
    let mut rest = text.chars();
    match rest.next() {
        Some(first) => is_ncname_start(first) && rest.all(is_ncname_char),
        None => false,
    }
}

// an NCName may begin with the character
fn is_ncname_start(c: char) -> bool
    ensures { result ≡ is_name_start c && not (is_colon c) }
{
    is_name_start(c) && c != ':'
}

// the character may occur in an NCName after the first character
fn is_ncname_char(c: char) -> bool
    ensures { result ≡ is_name_char c && not (is_colon c) }
{
    is_name_char(c) && c != ':'
}
