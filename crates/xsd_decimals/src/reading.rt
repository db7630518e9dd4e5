// Numbers that texts write.
ghost use Rattle.std.specs.Prelude.{◌≡◌, ◌++◌, ◌∷◌, ◌&&◌, not, [], length, ◌==◌, true, false, IfSome, MatchOption};
ghost use Rattle.std.specs.Char.{is_ascii_digit};
ghost use Rattle.std.specs.List.{list_all};
ghost use Rattle.std.specs.Option.{option_map};
ghost use Rattle.std.specs.Str.Parse.{starts_with_minus};
ghost use Rattle.rng_model.specs.datatypes.Texts.{collapse};
ghost use Rattle.rng_types.specs.plain.Runs.{from_run};
ghost use Rattle.rng_model.specs.xsd.primitives.Decimals.{decimal_of};
ghost use Rattle.xsd_decimals.specs.plain.Numbers.{IsNumber, value_of};
ghost use Rattle.xsd_decimals.specs.plain.Parts.{AreBehind, WritesParts, WritesNone, starts_with_digit};

use crate::digits::{past_zeros, significant, split_digits};
use crate::number::Number;
use rng_types::{is_blank, past_blanks, without_sign};

// the number that the collapsed text writes
pub(crate) fn read_number(text: &str) -> Option<Number<'_>>
    ensures value { option_map value_of result ≡ decimal_of (collapse text.now) }
    ensures number { IfSome result IsNumber }
{
    number_in(past_blanks(text.as_bytes()))
}

// the number that the collapsed text writes, without the blanks that it begins with
fn number_in(bytes: &[u8]) -> Option<Number<'_>>
    ensures value { option_map value_of result ≡ decimal_of (from_run bytes.now) }
    ensures number { IfSome result IsNumber }
{
    match parts(without_sign(bytes)) {
        Some((whole, fraction)) => Some(signed(
            is_negative(bytes),
            past_zeros(whole),
            significant(fraction),
        )),
        None => None,
    }
}

// the number of these digits; zero is not negative
fn signed<'a>(minus: bool, whole: &'a [u8], fraction: &'a [u8]) -> Number<'a>
    ensures sign { result.negative ≡ (minus && not (length (whole.now ++ fraction.now) == 0)) }
    ensures whole { result.whole.now ≡ whole.now }
    ensures fraction { result.fraction.now ≡ fraction.now }
{
    Number {
        negative: minus && !are_empty(whole, fraction),
        whole,
        fraction,
    }
}

fn is_negative(bytes: &[u8]) -> bool
    ensures { result ≡ starts_with_minus bytes.now }
{
    match bytes {
        [b'-', ..] => true,
        _ => false,
    }
}

// the digits before the point and behind it that the bytes are, but for blanks behind them
fn parts(bytes: &[u8]) -> Option<(&[u8], &[u8])>
    ensures { MatchOption result (WritesNone (from_run bytes.now)) (λ p. WritesParts (from_run bytes.now) p.0.now p.1.now) }
{
    let (whole, rest) = split_digits(bytes);
    let (fraction, after) = behind_point(rest);
    if are_empty(whole, fraction) || !is_blank(after) {
        return None;
    }
    Some((whole, fraction))
}

// whether there are no digits
fn are_empty(whole: &[u8], fraction: &[u8]) -> bool
    ensures { result ≡ (length (whole.now ++ fraction.now) == 0) }
{
    whole.is_empty() && fraction.is_empty()
}

// the digits behind a point, if the bytes begin with one, and what is behind them
fn behind_point(bytes: &[u8]) -> (&[u8], &[u8])
    requires { starts_with_digit bytes.now ≡ false }
    ensures parts { AreBehind bytes.now result.0.now result.1.now }
    ensures digits { list_all is_ascii_digit result.0.now ≡ true }
{
    match bytes {
        [b'.', behind @ ..] => split_digits(behind),
        _ => bytes.split_at(0),
    }
}
