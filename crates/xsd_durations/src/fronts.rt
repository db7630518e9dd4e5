// What the front of a collapsed text writes, and the bytes behind it. The bytes may have blanks where the collapsed text has
// one space or none.
ghost use Rattle.std.specs.Prelude.{◌≡◌, ◌≤◌, false, length, true, if◌then◌else◌, Some, None};
ghost use Rattle.std.specs.Char.{is_ascii_digit};
ghost use Rattle.std.specs.List.{list_all};
ghost use Rattle.std.specs.Option.{option_map};
ghost use Rattle.std.specs.Str.Parse.{digits_value};
ghost use Rattle.rng_model.specs.datatypes.Texts.{is_blank_byte};
ghost use Rattle.rng_types.specs.plain.Runs.{from_run};
ghost use Rattle.rng_model.specs.xsd.primitives.Durations.{is_number};
ghost use Rattle.rng_model.specs.xsd.primitives.Fronts.{after, first_digits, past_digits, fraction_value, fraction_with, fraction_at};
ghost use Rattle.xsd_durations.specs.Views.{seen};

use rng_types::digits_len;

/// The greatest number of digits of a fraction of a second.
const MOST_FRACTION_DIGITS: usize = 18;

/// Each number is below this one, without a fraction.
const NUMBER_LIMIT: u64 = 1_000_000_000_000_000_000;

// what is behind the byte that begins the text
pub(crate) fn after(byte: u8, text: &[u8]) -> Option<&[u8]>
    requires { is_blank_byte byte ≡ false }
    ensures { option_map (λ rest. from_run rest.now) result ≡ after byte (from_run text.now) }
{
    match text {
        [first, rest @ ..] if byte == *first => Some(rest),
        _ => None,
    }
}

// the digits that begin the text, and what is behind them
pub(crate) fn split_digits(text: &[u8]) -> (&[u8], &[u8])
    ensures digits { result.0.now ≡ first_digits (from_run text.now) }
    ensures rest { from_run result.1.now ≡ past_digits (from_run text.now) }
    ensures all { list_all is_ascii_digit result.0.now ≡ true }
{
    text.split_at(digits_len(text))
}

// the number that at most eighteen digits write
pub(crate) fn number(digits: &[u8]) -> u64
    requires all { list_all is_ascii_digit digits.now ≡ true }
    requires few { length digits.now ≤ 18 }
    ensures { result ≡ digits_value 10 digits.now }
{
    let mut number = 0;
    'digits: for digit in digits {
        number = number * 10 + (*digit - b'0') as u64;
    }
    number
}

// the number that the digits write, if there is one and it is below the limit; zeros in front do not count
pub(crate) fn limited_number(digits: &[u8]) -> Option<u64>
    requires { list_all is_ascii_digit digits.now ≡ true }
    ensures { result ≡ (if is_number digits.now then Some (digits_value 10 digits.now) else None) }
{
    if digits.is_empty() {
        return None;
    }
    let mut number = 0;
    'digits: for digit in digits {
        number = number * 10 + (*digit - b'0') as u64;
        if number >= NUMBER_LIMIT {
            return None;
        }
    }
    Some(number)
}

// a point and digits in units of 10 ^ -18, or neither
pub(crate) fn fraction_at(text: &[u8]) -> Option<(u64, &[u8])>
    ensures { option_map seen result ≡ fraction_at (from_run text.now) }
{
    match after(b'.', text) {
        Some(rest) => fraction(rest),
        None => Some((0, text)),
    }
}

// the digits behind a point in units of 10 ^ -18, from one to eighteen of them
fn fraction(text: &[u8]) -> Option<(u64, &[u8])>
    ensures { option_map seen result ≡ fraction_with (first_digits (from_run text.now)) (past_digits (from_run text.now)) }
{
    let (digits, rest) = split_digits(text);
    if digits.is_empty() || digits.len() > MOST_FRACTION_DIGITS {
        return None;
    }
    Some((fraction_value(digits), rest))
}

// the number of units of 10 ^ -18 that these digits behind a point write
fn fraction_value(digits: &[u8]) -> u64
    requires all { list_all is_ascii_digit digits.now ≡ true }
    requires few { length digits.now ≤ 18 }
    ensures { result ≡ fraction_value digits.now }
{
    number(digits) * 10u64.pow((MOST_FRACTION_DIGITS - digits.len()) as u32)
}
