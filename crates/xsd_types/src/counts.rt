// The numbers that facets write that count.
ghost use Rattle.std.specs.Prelude.{◌≡◌, map};
ghost use Rattle.std.specs.Option.{option_and_then};
ghost use Rattle.rng_model.specs.datatypes.DatatypeViews.{parameter_of};
ghost use Rattle.rng_model.specs.xsd.Numbers.{counted_from, count_from, integer_of};
ghost use Rattle.rng_model.specs.xsd.Facets.{written};

use rng_types::{only_piece, value_named};

// the number that the text writes, if it is at least this one
pub(crate) fn count(text: &str, least: u8) -> Option<usize>
    ensures { result ≡ count_from least text.now }
{
    match only_piece(text) {
        Some(piece) => count_in(piece, least),
        None => None,
    }
}

fn count_in(numeral: &str, least: u8) -> Option<usize>
    ensures { result ≡ option_and_then (counted_from least) (integer_of numeral.now) }
{
    match numeral.parse::<i64>() {
        Ok(n) if n >= i64::from(least) => Some(n.unsigned_abs() as usize),
        _ => None,
    }
}

// the number that the parameter of that name writes
pub(crate) fn count_named(params: &[(String, String)], name: &str, least: u8) -> Option<usize>
    ensures { result ≡ written (count_from least) name.now (map parameter_of params.now) }
{
    match value_named(params, name) {
        Some(value) => count(value, least),
        None => None,
    }
}
