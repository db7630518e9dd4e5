// Years, dates and times of day, each with the bytes behind it.
ghost use Rattle.std.specs.Prelude.{◌≡◌, ◌≤◌, ◌<◌, ◌+◌, ◌*◌, ◌^◌, ◌&&◌, true, length, IfSome, nat_lt, nat_le, if◌then◌else◌, Some, None};
ghost use Rattle.std.specs.Char.{is_ascii_digit};
ghost use Rattle.std.specs.List.{list_all};
ghost use Rattle.std.specs.Option.{option_map};
ghost use Rattle.std.specs.Str.Parse.{digits_value};
ghost use Rattle.rng_types.specs.plain.Runs.{from_run};
ghost use Rattle.rng_model.specs.xsd.primitives.Calendar.{year_numbered, second, minute, hour};
ghost use Rattle.rng_model.specs.xsd.primitives.Calendar.{day as day_length};
ghost use Rattle.rng_model.specs.xsd.primitives.Moments.{are_year_digits, year_with, year_at, hyphen_and, day_at, date_at, clock_at};
ghost use Rattle.xsd_moments.specs.Runs.{front_of};
ghost use Rattle.xsd_moments.specs.Bounds.{last_year, end_of_timeline};

use crate::calendar::{DAY, SECOND, begins, days_in_month};
use crate::fronts::{after, fraction, number, split_digits, two_digits};

/// The greatest number of digits of a year.
const MOST_YEAR_DIGITS: usize = 10;

/// The year 1, counted from so long before our era that no year is negative.
const YEAR_ONE: u64 = 10_000_000_001;

// the year that begins the text
pub(crate) fn year(bytes: &[u8]) -> Option<(u64, &[u8])>
    ensures front { option_map front_of result ≡ year_at (from_run bytes.now) }
    ensures bound { IfSome result (λ front. front.0 ≤ last_year) }
{
    match bytes {
        [b'-', rest @ ..] => year_with(true, rest),
        _ => year_with(false, bytes),
    }
}

// the year whose digits begin the text, behind a minus or not
fn year_with(minus: bool, bytes: &[u8]) -> Option<(u64, &[u8])>
    ensures front { option_map front_of result ≡ year_with minus (from_run bytes.now) }
    ensures bound { IfSome result (λ front. front.0 ≤ last_year) }
{
    let (digits, rest) = split_digits(bytes);
    let number = year_number(digits)?;
    Some((year_numbered(minus, number), rest))
}

// the number that the digits of a year write
fn year_number(digits: &[u8]) -> Option<u64>
    requires { list_all is_ascii_digit digits.now ≡ true }
    ensures value { result ≡ (if are_year_digits digits.now then Some (digits_value 10 digits.now) else None) }
    ensures bound { IfSome result (λ n. n < 10 ^ 10) }
{
    if !have_year_form(digits) {
        return None;
    }
    let number = number(digits);
    if number == 0 { None } else { Some(number) }
}

// whether there are four digits or more, and more than four without a zero in front
fn have_year_form(digits: &[u8]) -> bool
    ensures form { are_year_digits digits.now ≡ (result && nat_lt 0 (digits_value 10 digits.now)) }
    ensures bound { result ≡ true → length digits.now ≤ 10 }
{
    match digits {
        [first, rest @ ..] => has_year_length(digits.len()) && (rest.len() == 3 || *first != b'0'),
        [] => false,
    }
}

fn has_year_length(count: usize) -> bool
    ensures { result ≡ (nat_le 4 count && nat_le count 10) }
{
    4 <= count && count <= MOST_YEAR_DIGITS
}

// the year that is written with this number, with a minus or not
fn year_numbered(minus: bool, number: u64) -> u64
    requires { number < 10 ^ 10 }
    ensures year { result ≡ year_numbered minus number }
    ensures bound { result ≤ last_year }
{
    if minus {
        YEAR_ONE - number
    } else {
        YEAR_ONE - 1 + number
    }
}

// `-` and a number of two digits
pub(crate) fn hyphen_and(greatest: u8, bytes: &[u8]) -> Option<(u8, &[u8])>
    ensures front { option_map front_of result ≡ hyphen_and greatest (from_run bytes.now) }
    ensures range { IfSome result (λ front. (1 ≤ front.0) × (front.0 ≤ greatest)) }
{
    two_digits(1, greatest, after(b'-', bytes)?)
}

// where the day of the month of a year begins, if the month has it
pub(crate) fn day(year: u64, month: u8, bytes: &[u8]) -> Option<(u128, &[u8])>
    requires year { year ≤ last_year }
    requires least { 1 ≤ month }
    requires greatest { month ≤ 12 }
    ensures front { option_map front_of result ≡ day_at year month (from_run bytes.now) }
    ensures bound { IfSome result (λ front. front.0 + day_length < end_of_timeline) }
{
    let (day, rest) = hyphen_and(31, bytes)?;
    if day <= days_in_month(year, month) {
        Some((begins(year, month, day), rest))
    } else {
        None
    }
}

// where the day that begins the text begins
pub(crate) fn date(bytes: &[u8]) -> Option<(u128, &[u8])>
    ensures front { option_map front_of result ≡ date_at (from_run bytes.now) }
    ensures bound { IfSome result (λ front. front.0 + day_length < end_of_timeline) }
{
    let (year, rest) = year(bytes)?;
    let (month, rest) = hyphen_and(12, rest)?;
    day(year, month, rest)
}

// the time of day that begins the text, from where the day begins
pub(crate) fn clock(bytes: &[u8]) -> Option<(u128, &[u8])>
    ensures front { option_map front_of result ≡ clock_at (from_run bytes.now) }
    ensures bound { IfSome result (λ front. front.0 ≤ day_length) }
{
    let (hours, rest) = two_digits(0, 24, bytes)?;
    let (minutes, rest) = two_digits(0, 59, after(b':', rest)?)?;
    let (seconds, rest) = two_digits(0, 59, after(b':', rest)?)?;
    let (fraction, rest) = fraction(rest)?;
    let number = seconds_of(hours, minutes, seconds) * SECOND + u128::from(fraction);
    if number <= DAY {
        Some((number, rest))
    } else {
        None
    }
}

// the seconds that a clock shows
fn seconds_of(hours: u8, minutes: u8, seconds: u8) -> u128
    ensures { result * second ≡ hours * hour + (minutes * minute + seconds * second) }
{
    u128::from(u32::from(hours) * 3600 + u32::from(minutes) * 60 + u32::from(seconds))
}
