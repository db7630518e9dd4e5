// URI references: RFC 2396, section 4 and appendix A.
ghost use Rattle.std.specs.Prelude.{◌≡◌, ◌∷◌, ◌||◌, ℕ};
ghost use Rattle.rng_model.specs.datatypes.Texts.{collapse};
ghost use Rattle.rng_model.specs.xsd.Uris.{is_uri};
ghost use Rattle.xsd_uris.specs.plain.UriShapes.{is_rooted, is_path, is_relative, is_scheme, is_behind_scheme, is_absolute, is_fragment, is_reference, has_uri_shape};

use crate::authority::is_bracketed;
use crate::characters::{
    are_escapes_whole, are_scheme_chars, is_bracket, is_letter, is_without_brackets,
};
use crate::splits::{cut_at, is_without};
use crate::trims::past_end;
use rng_types::past_blanks;

// whether the bytes, which begin with `/`, are a path
fn is_rooted(bytes: &[u8]) -> bool
    ensures { result ≡ is_rooted bytes.now }
{
    is_without_brackets(bytes) || is_bracketed(bytes)
}

// whether the bytes are nothing or a path
fn is_path(bytes: &[u8]) -> bool
    ensures { result ≡ is_path bytes.now }
{
    match bytes {
        [] => true,
        [b'/', ..] => is_rooted(bytes),
        _ => {
            let (segment, _) = cut_at(bytes, b'/');
            is_without(segment, b':') && is_without_brackets(bytes)
        }
    }
}

// whether the bytes are a relative reference
fn is_relative(bytes: &[u8]) -> bool
    ensures { result ≡ is_relative bytes.now }
{
    let (path, _) = cut_at(bytes, b'?');
    is_path(path)
}

fn is_scheme(bytes: &[u8]) -> bool
    ensures { result ≡ is_scheme bytes.now }
{
    match bytes {
        [first, rest @ ..] => is_letter(*first) && are_scheme_chars(rest),
        [] => false,
    }
}

// whether the bytes may follow a scheme and its `:`
fn is_absolute_rest(bytes: &[u8]) -> bool
    ensures { (c : ℕ) → result ≡ is_behind_scheme (c ∷ bytes.now) }
{
    match bytes {
        [b'/', ..] => {
            let (path, _) = cut_at(bytes, b'?');
            is_rooted(path)
        }
        [first, ..] => !is_bracket(*first),
        [] => false,
    }
}

// whether the bytes are a `:` and what may follow it
fn is_behind_scheme(bytes: &[u8]) -> bool
    ensures { result ≡ is_behind_scheme bytes.now }
{
    match bytes.split_first() {
        Some((_, rest)) => is_absolute_rest(rest),
        None => false,
    }
}

// whether the bytes are an absolute reference
fn is_absolute(bytes: &[u8]) -> bool
    ensures { result ≡ is_absolute bytes.now }
{
    let (scheme, behind) = cut_at(bytes, b':');
    is_scheme(scheme) && is_behind_scheme(behind)
}

// whether the bytes are nothing, or `#` and no other behind it
fn is_fragment(bytes: &[u8]) -> bool
    ensures { result ≡ is_fragment bytes.now }
{
    match bytes {
        [_, fragment @ ..] => is_without(fragment, b'#'),
        [] => true,
    }
}

// whether the bytes are a reference without a fragment
fn is_without_fragment(bytes: &[u8]) -> bool
    ensures { result ≡ (is_relative bytes.now || is_absolute bytes.now) }
{
    is_absolute(bytes) || is_relative(bytes)
}

// whether the bytes are a reference, escapes apart
fn is_reference(bytes: &[u8]) -> bool
    ensures { result ≡ is_reference bytes.now }
{
    let (reference, fragment) = cut_at(bytes, b'#');
    is_without_fragment(reference) && is_fragment(fragment)
}

// whether the bytes are a URI reference
fn has_uri_shape(bytes: &[u8]) -> bool
    ensures { result ≡ has_uri_shape bytes.now }
{
    are_escapes_whole(bytes) && is_reference(bytes)
}

/// Returns whether the text is a URI reference once its white space is collapsed and it is escaped. A few passes over the text.
/// Allocates nothing.
///
/// XML Schema Part 2, section 3.2.17; RFC 2396, appendix A, as RFC 2732 amends it; XLink 1.0, section 5.4.
pub fn is_uri(text: &str) -> bool
    ensures { result ≡ is_uri (collapse text.now) }
{
    has_uri_shape(past_end(past_blanks(text.as_bytes())))
}
