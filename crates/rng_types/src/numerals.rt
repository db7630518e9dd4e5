// Numbers and truth values, and bounds on numbers.
ghost use Rattle.std.specs.Prelude.{◌≡◌, ◌&&◌, ℤ, int_le, is_some, nat_le, nat_lt, true};
ghost use Rattle.std.specs.Char.{is_ascii_digit};
ghost use Rattle.std.specs.List.{list_all, prefix_len};
ghost use Rattle.std.specs.Str.Parse.{without_leading_sign};
ghost use Rattle.rng_model.specs.datatypes.Texts.{collapse};
ghost use Rattle.rng_model.specs.datatypes.Facets.{is_inside, passes, is_decimal, most_digits, truth_of, short_integer_of, length_of};
ghost use Rattle.rng_types.specs.plain.Runs.{from_run};
ghost use Rattle.rng_types.specs.views.View.{bounds_of};

use crate::collapsed::only_piece;
use crate::runs::{is_blank, past_blanks};

/// The most digits that an integer may have.
const MOST_DIGITS: usize = 38;

/// The most digits that a length may have.
const MOST_LENGTH_DIGITS: usize = 9;

/// The least and the greatest integer, if there is one. Both are inclusive.
///
/// XML Schema Part 2, sections 4.3.7 and 4.3.10. A least integer above the greatest one allows nothing.
#[derive(Clone, Copy, Debug)]
pub struct Bounds {
    pub min: Option<i128>,
    pub max: Option<i128>,
}

impl Bounds {
    /// Returns whether the number is within the bounds.
    pub fn allow(&self, n: i128) -> bool
        ensures { result ≡ is_inside (bounds_of self.now) n }
    {
        is_no_less(self.min, n) && is_no_more(self.max, n)
    }

    // whether there is no bound
    pub(crate) fn allow_all(&self) -> bool
        ensures { result ≡ true → (n : ℤ) → is_inside (bounds_of self.now) n ≡ true }
    {
        self.min.is_none() && self.max.is_none()
    }
}

fn is_no_less(min: Option<i128>, n: i128) -> bool
    ensures { result ≡ passes (λ least. int_le least n) min }
{
    match min {
        Some(min) => min <= n,
        None => true,
    }
}

fn is_no_more(max: Option<i128>, n: i128) -> bool
    ensures { result ≡ passes (λ greatest. int_le n greatest) max }
{
    match max {
        Some(max) => n <= max,
        None => true,
    }
}

// the truth value that the collapsed text writes
pub(crate) fn truth(text: &str) -> Option<bool>
    ensures { result ≡ truth_of (collapse text.now) }
{
    match only_piece(text) {
        Some(piece) => truth_in(piece),
        None => None,
    }
}

// the truth value that the text writes
#[tactic(auto, unfolding(rng_model::specs::datatypes::Facets::truth_of))]
fn truth_in(text: &str) -> Option<bool>
    ensures { result ≡ truth_of text.now }
{
    match text {
        "true" | "1" => Some(true),
        "false" | "0" => Some(false),
        _ => None,
    }
}

// the number that the collapsed text writes
pub(crate) fn integer(text: &str) -> Option<i128>
    ensures { result ≡ short_integer_of (collapse text.now) }
{
    match only_piece(text) {
        Some(piece) => integer_in(piece),
        None => None,
    }
}

// the number that the text writes
#[tactic(auto, unfolding(rng_model::specs::datatypes::Facets::short_integer_of))]
fn integer_in(numeral: &str) -> Option<i128>
    ensures { result ≡ short_integer_of numeral.now }
{
    if is_decimal(without_sign(numeral.as_bytes()), MOST_DIGITS) {
        numeral.parse().ok()
    } else {
        None
    }
}

// the length that the text writes
#[tactic(auto, unfolding(rng_model::specs::datatypes::Facets::length_of))]
pub(crate) fn length(numeral: &str) -> Option<usize>
    ensures { result ≡ length_of numeral.now }
{
    if is_decimal(numeral.as_bytes(), MOST_LENGTH_DIGITS) {
        numeral.parse().ok()
    } else {
        None
    }
}

// whether the text collapses to a number
pub(crate) fn is_integer(text: &str) -> bool
    ensures { result ≡ is_some (short_integer_of (collapse text.now)) }
{
    is_numeral(without_sign(past_blanks(text.as_bytes())))
}

// whether the bytes are digits, as many as a number may have, and then blanks
fn is_numeral(bytes: &[u8]) -> bool
    ensures { result ≡ is_decimal most_digits (from_run bytes.now) }
{
    let count = digits_len(bytes);
    let (_, after) = bytes.split_at(count);
    is_digit_count(count) && is_blank(after)
}

// whether a number may have so many digits
fn is_digit_count(count: usize) -> bool
    ensures { result ≡ (nat_lt 0 count && nat_le count most_digits) }
{
    0 < count && count <= MOST_DIGITS
}

/// Returns how many digits the bytes begin with. One pass over these. Allocates nothing.
pub fn digits_len(bytes: &[u8]) -> usize
    ensures { result ≡ prefix_len is_ascii_digit bytes.now }
{
    bytes
        .iter()
        .take_while(|byte| byte.is_ascii_digit())
        .count()
}

/// Returns the numeral without a sign in front. Allocates nothing.
pub fn without_sign(numeral: &[u8]) -> &[u8]
    ensures { result.now ≡ without_leading_sign numeral.now }
{
    match numeral {
        [b'+' | b'-', digits @ ..] => digits,
        digits => digits,
    }
}

fn is_decimal(digits: &[u8], most: usize) -> bool
    ensures { result ≡ is_decimal most digits.now }
{
    !digits.is_empty() && are_digits(digits) && digits.len() <= most
}

/// Returns whether all bytes are digits. One pass over them. Allocates nothing.
pub fn are_digits(bytes: &[u8]) -> bool
    ensures { result ≡ list_all is_ascii_digit bytes.now }
{
    bytes.iter().all(|b| b.is_ascii_digit())
}
