// What the front of a collapsed text writes, and the bytes behind it. The bytes may have blanks where the collapsed text has
// one space or none.
ghost use Rattle.std.specs.Prelude.{◌≡◌, ◌==◌, ◌≤◌, ◌<◌, ◌^◌, ◌∷◌, [], ◌&&◌, false, true, length, IfSome, if◌then◌else◌, Some, None};
ghost use Rattle.std.specs.Char.{is_ascii_digit};
ghost use Rattle.std.specs.List.{list_all};
ghost use Rattle.std.specs.Option.{option_map};
ghost use Rattle.std.specs.Str.Parse.{digits_value};
ghost use Rattle.rng_model.specs.datatypes.Texts.{is_blank_byte};
ghost use Rattle.rng_types.specs.plain.Runs.{from_run};
ghost use Rattle.xsd_moments.specs.Runs.{front_of};
ghost use Rattle.rng_model.specs.xsd.primitives.Fronts.{after, two_digits, first_digits, past_digits, fraction_value, fraction_with, fraction_at};
ghost use Rattle.rng_model.specs.xsd.primitives.Calendar.{second};

use rng_types::{digits_len, is_blank};

/// The greatest number of digits of a fraction of a second.
const MOST_FRACTION_DIGITS: usize = 18;

// what is behind the byte that begins the text
pub(crate) fn after(byte: u8, bytes: &[u8]) -> Option<&[u8]>
    requires { is_blank_byte byte ≡ false }
    ensures { option_map (λ rest. from_run rest.now) result ≡ after byte (from_run bytes.now) }
{
    match bytes {
        [first, rest @ ..] if *first == byte => Some(rest),
        _ => None,
    }
}

// whether the text ends here
pub(crate) fn ends(bytes: &[u8]) -> bool
    ensures { result ≡ (length (from_run bytes.now) == 0) }
{
    is_blank(bytes)
}

// a number of two digits, from the least to the greatest
pub(crate) fn two_digits(least: u8, greatest: u8, bytes: &[u8]) -> Option<(u8, &[u8])>
    ensures front { option_map front_of result ≡ two_digits least greatest (from_run bytes.now) }
    ensures range { IfSome result (λ front. (least ≤ front.0) × (front.0 ≤ greatest)) }
{
    match bytes {
        [tens, units, rest @ ..] => {
            let number = two_digit_number(*tens, *units)?;
            if least <= number && number <= greatest {
                Some((number, rest))
            } else {
                None
            }
        }
        _ => None,
    }
}

// the number that the two bytes write, if they are digits
fn two_digit_number(tens: u8, units: u8) -> Option<u8>
    ensures { result ≡ (if is_ascii_digit tens && is_ascii_digit units then Some (digits_value 10 (tens ∷ units ∷ [])) else None) }
{
    if tens.is_ascii_digit() && units.is_ascii_digit() {
        Some((tens - b'0') * 10 + (units - b'0'))
    } else {
        None
    }
}

// the digits that begin the text, and what is behind them
pub(crate) fn split_digits(bytes: &[u8]) -> (&[u8], &[u8])
    ensures digits { result.0.now ≡ first_digits (from_run bytes.now) }
    ensures rest { from_run result.1.now ≡ past_digits (from_run bytes.now) }
    ensures all { list_all is_ascii_digit result.0.now ≡ true }
{
    bytes.split_at(digits_len(bytes))
}

// the number that the digits write
pub(crate) fn number(digits: &[u8]) -> u64
    requires all { list_all is_ascii_digit digits.now ≡ true }
    requires few { length digits.now ≤ 18 }
    ensures value { result ≡ digits_value 10 digits.now }
    ensures bound { result < 10 ^ length digits.now }
{
    let mut value = 0;
    let mut rest = digits;
    'digits: while let [digit, after @ ..] = rest {
        value = value * 10 + u64::from(*digit - b'0');
        rest = after;
    }
    value
}

// a fraction of a second, in units of 10^-18 s: a point and digits, or neither
pub(crate) fn fraction(bytes: &[u8]) -> Option<(u64, &[u8])>
    ensures front { option_map front_of result ≡ fraction_at (from_run bytes.now) }
    ensures bound { IfSome result (λ front. front.0 < second) }
{
    match bytes {
        [b'.', rest @ ..] => fraction_digits(rest),
        _ => Some((0, bytes)),
    }
}

// the digits of a fraction
fn fraction_digits(bytes: &[u8]) -> Option<(u64, &[u8])>
    ensures front { option_map front_of result ≡
        fraction_with (first_digits (from_run bytes.now)) (past_digits (from_run bytes.now)) }
    ensures bound { IfSome result (λ front. front.0 < second) }
{
    let (digits, rest) = split_digits(bytes);
    if digits.is_empty() || digits.len() > MOST_FRACTION_DIGITS {
        return None;
    }
    Some((fraction_units(digits), rest))
}

// the units that the digits of a fraction write
fn fraction_units(digits: &[u8]) -> u64
    requires all { list_all is_ascii_digit digits.now ≡ true }
    requires few { length digits.now ≤ 18 }
    ensures value { result ≡ fraction_value digits.now }
    ensures bound { result < second }
{
    number(digits) * 10_u64.pow((MOST_FRACTION_DIGITS - digits.len()) as u32)
}
