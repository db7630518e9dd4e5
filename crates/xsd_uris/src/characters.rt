// Bytes of URI references, and escapes.
ghost use Rattle.std.specs.Prelude.{◌≡◌};
ghost use Rattle.std.specs.List.{list_all};
ghost use Rattle.xsd_uris.specs.plain.UriShapes.{is_digit, is_hex, is_letter, is_scheme_char, is_bracket, begin_escape, are_escapes_whole, none};

pub(crate) fn is_digit(byte: u8) -> bool
    ensures { result ≡ is_digit byte }
{
    byte.is_ascii_digit()
}

fn is_hex(byte: u8) -> bool
    ensures { result ≡ is_hex byte }
{
    byte.is_ascii_hexdigit()
}

pub(crate) fn is_letter(byte: u8) -> bool
    ensures { result ≡ is_letter byte }
{
    byte.is_ascii_alphabetic()
}

// whether the byte is one of a scheme
fn is_scheme_char(byte: u8) -> bool
    ensures { result ≡ is_scheme_char byte }
{
    byte.is_ascii_alphanumeric() || matches!(byte, b'+' | b'-' | b'.')
}

pub(crate) fn is_bracket(byte: u8) -> bool
    ensures { result ≡ is_bracket byte }
{
    matches!(byte, b'[' | b']')
}

pub(crate) fn are_digits(bytes: &[u8]) -> bool
    ensures { result ≡ list_all is_digit bytes.now }
{
    bytes.iter().all(|byte| is_digit(*byte))
}

pub(crate) fn are_hex(bytes: &[u8]) -> bool
    ensures { result ≡ list_all is_hex bytes.now }
{
    bytes.iter().all(|byte| is_hex(*byte))
}

pub(crate) fn are_scheme_chars(bytes: &[u8]) -> bool
    ensures { result ≡ list_all is_scheme_char bytes.now }
{
    bytes.iter().all(|byte| is_scheme_char(*byte))
}

// whether there is no bracket
pub(crate) fn is_without_brackets(bytes: &[u8]) -> bool
    ensures { result ≡ none is_bracket bytes.now }
{
    bytes.iter().all(|byte| !is_bracket(*byte))
}

// whether two hexadecimal digits come first
fn begin_escape(bytes: &[u8]) -> bool
    ensures { result ≡ begin_escape bytes.now }
{
    match bytes {
        [first, second, ..] => is_hex(*first) && is_hex(*second),
        _ => false,
    }
}

// whether two hexadecimal digits follow each `%`
pub(crate) fn are_escapes_whole(bytes: &[u8]) -> bool
    ensures { result ≡ are_escapes_whole bytes.now }
{
    let mut rest = bytes;
    'bytes: while let [byte, after @ ..] = rest {
        if *byte == b'%' && !begin_escape(after) {
            return false;
        }
        rest = after;
    }
    true
}
