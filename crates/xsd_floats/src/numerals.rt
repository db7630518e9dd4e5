// Numbers as they are written.
ghost use Rattle.std.specs.Prelude.{◌≡◌, is_some};
ghost use Rattle.std.specs.Float.Parse.{parse_float, is_float_text};
ghost use Rattle.std.specs.Str.Parse.{without_leading_sign};
ghost use Rattle.xsd_floats.specs.plain.Numerals.{begins_number};
ghost use Rattle.xsd_floats.specs.views.Values.{format_of};

use crate::kind::FloatKind;
use rng_types::without_sign;

// whether a digit or a point begins the text, behind a sign or with none
pub(crate) fn begins_number(text: &str) -> bool
    ensures { result ≡ begins_number (without_leading_sign text.now) }
{
    matches!(without_sign(text.as_bytes()), [b'0'..=b'9' | b'.', ..])
}

// the number that is nearest to the written one
pub(crate) fn nearest(kind: FloatKind, numeral: &str) -> Option<f64>
    ensures value { result ≡ parse_float (format_of kind) numeral.now }
    ensures some { is_some result ≡ is_float_text numeral.now }
{
    match kind {
        FloatKind::Float => match numeral.parse::<f32>() {
            Ok(number) => Some(f64::from(number)),
            Err(_) => None,
        },
        FloatKind::Double => numeral.parse().ok(),
    }
}
