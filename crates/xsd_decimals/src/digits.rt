// Digits, and the zeros at their ends.
ghost use Rattle.std.specs.Prelude.{◌≡◌, ◌++◌, true, false};
ghost use Rattle.std.specs.Char.{is_ascii_digit};
ghost use Rattle.std.specs.List.{list_all};
ghost use Rattle.rng_model.specs.xsd.primitives.Decimals.{significant};
ghost use Rattle.xsd_decimals.specs.plain.Numbers.{past_zeros};
ghost use Rattle.xsd_decimals.specs.plain.Parts.{starts_with_digit};

use rng_types::digits_len;

// the digits that the bytes begin with, and what is behind them
pub(crate) fn split_digits(bytes: &[u8]) -> (&[u8], &[u8])
    ensures parts { bytes.now ≡ result.0.now ++ result.1.now }
    ensures digits { list_all is_ascii_digit result.0.now ≡ true }
    ensures behind { starts_with_digit result.1.now ≡ false }
{
    bytes.split_at(digits_len(bytes))
}

// the digits without the zeros in front
pub(crate) fn past_zeros(digits: &[u8]) -> &[u8]
    ensures { result.now ≡ past_zeros digits.now }
{
    let mut rest = digits;
    'zeros: while let [b'0', after @ ..] = rest {
        rest = after;
    }
    rest
}

// the digits without the zeros at their end
pub(crate) fn significant(digits: &[u8]) -> &[u8]
    ensures { result.now ≡ significant digits.now }
{
    let mut rest = digits;
    'zeros: while let Some((last, front)) = rest.split_last() {
        if *last != b'0' {
            return rest;
        }
        rest = front;
    }
    rest
}
