// hexBinary: two digits for each octet.
ghost use Rattle.std.specs.Prelude.{◌≡◌, MatchOption};
ghost use Rattle.std.specs.List.{prefix_len};
ghost use Rattle.std.specs.Option.{option_map};
ghost use Rattle.rng_model.specs.datatypes.Texts.{collapse, text as as_text, are_equal};
ghost use Rattle.rng_model.specs.xsd.primitives.Octets.{is_hex_digit, hex_binary_of, hex_length};
ghost use Rattle.xsd_octets.specs.plain.HexDigits.{AreDigitsOf};

use rng_types::{is_blank, past_blanks};

// whether the byte is a digit to base 16, in either case
fn is_hex_digit(byte: u8) -> bool
    ensures { result ≡ is_hex_digit byte }
{
    matches!(byte, b'0'..=b'9' | b'A'..=b'F' | b'a'..=b'f')
}

// how many digits the bytes begin with
fn hex_digits_len(bytes: &[u8]) -> usize
    ensures { result ≡ prefix_len is_hex_digit bytes.now }
{
    bytes.iter().take_while(|byte| is_hex_digit(**byte)).count()
}

// the digits of the text, if it writes octets
fn hex_digits(text: &str) -> Option<&[u8]>
    ensures { MatchOption result (hex_binary_of (collapse text.now) ≡ None) (λ digits. AreDigitsOf text.now digits.now) }
{
    let bytes = past_blanks(text.as_bytes());
    let (digits, after) = bytes.split_at(hex_digits_len(bytes));
    if digits.len() % 2 == 0 && is_blank(after) {
        Some(digits)
    } else {
        None
    }
}

/// Returns how many octets the text writes as a `hexBinary`. Returns `None` if it writes none as such: if it is not pairs of
/// hexadecimal digits, with blanks only before and behind all of them. An empty text writes no octets, which is `Some(0)`. One
/// pass over the text. Allocates nothing.
///
/// XML Schema Part 2, Second Edition, sections 3.2.15 and 4.3.1.
pub fn hex_binary_len(text: &str) -> Option<usize>
    ensures { result ≡ option_map hex_length (hex_binary_of (collapse text.now)) }
{
    match hex_digits(text) {
        Some(digits) => Some(digits.len() / 2),
        None => None,
    }
}

/// Returns whether both texts write octets as a `hexBinary`, and the same ones. One pass over each text, and one over the digits
/// of both. Allocates nothing.
///
/// XML Schema Part 2, Second Edition, section 3.2.15.
pub fn is_same_hex_binary(a: &str, b: &str) -> bool
    ensures { result ≡ are_equal (option_map as_text (hex_binary_of (collapse a.now))) (option_map as_text (hex_binary_of (collapse b.now))) }
{
    match (hex_digits(a), hex_digits(b)) {
        (Some(a), Some(b)) => a.eq_ignore_ascii_case(b),
        _ => false,
    }
}
