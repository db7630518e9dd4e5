// IPv6 addresses: RFC 2373, section 2.2 and appendix B.
ghost use Rattle.std.specs.Prelude.{◌≡◌, ◌||◌, ◌&&◌};
ghost use Rattle.xsd_uris.specs.plain.UriShapes.{is_group, is_number, is_dotted, is_sequence, is_hex_sequence, is_colon_and_dotted, is_address, is_nothing};

use crate::characters::{are_digits, are_hex};
use crate::splits::{split_double, split_once};

// whether the bytes are one to four hexadecimal digits
fn is_group(bytes: &[u8]) -> bool
    ensures { result ≡ is_group bytes.now }
{
    are_hex(bytes) && (1 <= bytes.len() && bytes.len() <= 4)
}

// whether the bytes are one to three digits
fn is_number(bytes: &[u8]) -> bool
    ensures { result ≡ is_number bytes.now }
{
    are_digits(bytes) && (1 <= bytes.len() && bytes.len() <= 3)
}

// whether both are numbers
fn are_numbers(a: &[u8], b: &[u8]) -> bool
    ensures { result ≡ (is_number a.now && is_number b.now) }
{
    is_number(a) && is_number(b)
}

// whether the bytes are four numbers with dots between
fn is_dotted(bytes: &[u8]) -> bool
    ensures { result ≡ is_dotted bytes.now }
{
    let Some((first, rest)) = split_once(bytes, b'.') else {
        return false;
    };
    let Some((second, rest)) = split_once(rest, b'.') else {
        return false;
    };
    let Some((third, fourth)) = split_once(rest, b'.') else {
        return false;
    };
    are_numbers(first, second) && are_numbers(third, fourth)
}

// whether the bytes are groups with colons between, of which the last may be four numbers
#[tactic(auto, using(crate::proofs::CutAddresses::sequence_one))]
fn is_sequence(bytes: &[u8]) -> bool
    ensures { result ≡ is_sequence bytes.now }
{
    let mut rest = bytes;
    'groups: while let Some((group, after)) = split_once(rest, b':') {
        if !is_group(group) {
            return false;
        }
        rest = after;
    }
    is_group(rest) || is_dotted(rest)
}

// whether the bytes are groups with colons between
fn is_hex_sequence(bytes: &[u8]) -> bool
    ensures { result ≡ is_hex_sequence bytes.now }
{
    let mut rest = bytes;
    'groups: while let Some((group, after)) = split_once(rest, b':') {
        if !is_group(group) {
            return false;
        }
        rest = after;
    }
    is_group(rest)
}

// whether the bytes are a colon and four numbers
fn is_colon_and_dotted(bytes: &[u8]) -> bool
    ensures { result ≡ is_colon_and_dotted bytes.now }
{
    match bytes {
        [b':', dotted @ ..] => is_dotted(dotted),
        _ => false,
    }
}

// whether the bytes may come before `::`
fn is_before_double(bytes: &[u8]) -> bool
    ensures { result ≡ (is_nothing bytes.now || is_hex_sequence bytes.now) }
{
    bytes.is_empty() || is_hex_sequence(bytes)
}

// whether the bytes may come behind `::`
fn is_behind_double(bytes: &[u8]) -> bool
    ensures { result ≡ (is_nothing bytes.now || (is_sequence bytes.now || is_colon_and_dotted bytes.now)) }
{
    bytes.is_empty() || is_sequence(bytes) || is_colon_and_dotted(bytes)
}

// whether the bytes are an address
pub(crate) fn is_address(bytes: &[u8]) -> bool
    ensures { result ≡ is_address bytes.now }
{
    match split_double(bytes) {
        Some((front, back)) => is_before_double(front) && is_behind_double(back),
        None => is_sequence(bytes) && !is_dotted(bytes),
    }
}
