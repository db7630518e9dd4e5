// Integers of any number of digits, as a sign and digits of a text.
ghost use Rattle.std.specs.Prelude.{◌≡◌, ◌==◌, ◌&&◌, not, int_le, int_lt, length, true, false, IfSome, MatchOption};
ghost use Rattle.std.specs.Ordering.{int_cmp, int_eq, nat_cmp};
ghost use Rattle.std.specs.Option.{option_map};
ghost use Rattle.std.specs.Str.Parse.{starts_with_minus, digits_value};
ghost use Rattle.rng_model.specs.datatypes.Facets.{passes};
ghost use Rattle.rng_model.specs.xsd.Numbers.{are_digits, integer_of, written_integer};
ghost use Rattle.rng_model.specs.xsd.Integers.{has_digits};
ghost use Rattle.rng_types.specs.plain.Runs.{from_run};
ghost use Rattle.xsd_types.specs.plain.Digits.{past_zeros, AreSignificant, IsNumeral, value_of};

use rng_types::{digits_len, is_blank, past_blanks, without_sign};
use std::cmp::Ordering;

/// An integer: whether it is negative, and its digits, without zeros in front. Zero has no digits and is not negative.
#[derive(Clone, Copy)]
pub(crate) struct Numeral<'a> {
    pub negative: bool,
    pub digits: &'a [u8],
}

// the integer that the collapsed text writes
pub(crate) fn read_numeral(text: &str) -> Option<Numeral<'_>>
    ensures value { option_map value_of result ≡ written_integer text.now }
    ensures numeral { IfSome result IsNumeral }
{
    numeral_in(past_blanks(text.as_bytes()))
}

// the integer that the collapsed text writes, without the blanks that it begins with
fn numeral_in(bytes: &[u8]) -> Option<Numeral<'_>>
    ensures value { option_map value_of result ≡ integer_of (from_run bytes.now) }
    ensures numeral { IfSome result IsNumeral }
{
    match only_digits(without_sign(bytes)) {
        Some(digits) => Some(signed(is_negative(bytes), past_zeros(digits))),
        None => None,
    }
}

// the digits that the bytes are, but for blanks behind them
fn only_digits(bytes: &[u8]) -> Option<&[u8]>
    ensures { MatchOption result (are_digits (from_run bytes.now) ≡ false)
        (λ digits. (are_digits digits.now ≡ true) × (from_run bytes.now ≡ digits.now)) }
{
    let (digits, after) = bytes.split_at(digits_len(bytes));
    if digits.is_empty() || !is_blank(after) {
        return None;
    }
    Some(digits)
}

// the number of these digits; zero has none, and is not negative
fn signed(minus: bool, digits: &[u8]) -> Numeral<'_>
    ensures sign { result.negative ≡ (minus && not (length result.digits.now == 0)) }
    ensures digits { result.digits.now ≡ digits.now }
{
    Numeral {
        negative: minus && !digits.is_empty(),
        digits,
    }
}

fn is_negative(bytes: &[u8]) -> bool
    ensures { result ≡ starts_with_minus bytes.now }
{
    match bytes {
        [b'-', ..] => true,
        _ => false,
    }
}

// the digits without the zeros in front
fn past_zeros(digits: &[u8]) -> &[u8]
    ensures { result.now ≡ past_zeros digits.now }
{
    let mut rest = digits;
    'zeros: while let [b'0', after @ ..] = rest {
        rest = after;
    }
    rest
}

// how two numbers are ordered
fn compare(a: &Numeral<'_>, b: &Numeral<'_>) -> Ordering
    requires left { IsNumeral a.now }
    requires right { IsNumeral b.now }
    ensures { result ≡ int_cmp (value_of a.now) (value_of b.now) }
{
    match (a.negative, b.negative) {
        (false, false) => compare_digits(a.digits, b.digits),
        (true, true) => compare_digits(b.digits, a.digits),
        (true, false) => Ordering::Less,
        (false, true) => Ordering::Greater,
    }
}

// whether the first number is at most the second one
pub(crate) fn is_at_most(a: &Numeral<'_>, b: &Numeral<'_>) -> bool
    requires left { IsNumeral a.now }
    requires right { IsNumeral b.now }
    ensures { result ≡ int_le (value_of a.now) (value_of b.now) }
{
    !compare(b, a).is_lt()
}

// whether the first number is less than the second one
pub(crate) fn is_below(a: &Numeral<'_>, b: &Numeral<'_>) -> bool
    requires left { IsNumeral a.now }
    requires right { IsNumeral b.now }
    ensures { result ≡ int_lt (value_of a.now) (value_of b.now) }
{
    compare(a, b).is_lt()
}

// whether the two numbers are the same
pub(crate) fn is_same(a: &Numeral<'_>, b: &Numeral<'_>) -> bool
    requires left { IsNumeral a.now }
    requires right { IsNumeral b.now }
    ensures { result ≡ int_eq (value_of a.now) (value_of b.now) }
{
    compare(a, b).is_eq()
}

// how two numbers without a sign are ordered: that of fewer digits is less
fn compare_digits(a: &[u8], b: &[u8]) -> Ordering
    requires left { AreSignificant a.now }
    requires right { AreSignificant b.now }
    ensures { result ≡ nat_cmp (digits_value 10 a.now) (digits_value 10 b.now) }
{
    if a.len() == b.len() {
        a.cmp(b)
    } else {
        a.len().cmp(&b.len())
    }
}

// whether the number has at most so many digits
pub(crate) fn has_digits(n: &Numeral<'_>, total: Option<usize>) -> bool
    requires { IsNumeral n.now }
    ensures { result ≡ passes (has_digits (value_of n.now)) total }
{
    match total {
        Some(total) => n.digits.len() <= total,
        None => true,
    }
}
