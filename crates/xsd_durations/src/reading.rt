// Which duration a text writes.
ghost use Rattle.std.specs.Prelude.{◌≡◌, false, unwrap_or};
ghost use Rattle.std.specs.Option.{option_map};
ghost use Rattle.rng_model.specs.datatypes.Texts.{collapse, is_blank_byte};
ghost use Rattle.rng_types.specs.plain.Runs.{from_run};
ghost use Rattle.rng_model.specs.xsd.primitives.Durations.{number_before, seconds_at, is_zero, duration_of, duration_fields, duration_with, time_fields, time_part};
ghost use Rattle.xsd_durations.specs.Parts.{period};
ghost use Rattle.xsd_durations.specs.Views.{seen, date_of, time_of, duration_view};

use crate::duration::Duration;
use crate::fronts::{after, fraction_at, limited_number, split_digits};
use crate::units::SECOND;
use rng_types::{is_blank, past_blanks};

// the years, months and days of a duration
#[derive(Clone, Copy)]
struct DatePart {
    years: u64,
    months: u64,
    days: u64,
}

// the hours, minutes and seconds of a duration, these in units of 10 ^ -18 s
#[derive(Clone, Copy)]
struct TimePart {
    hours: u64,
    minutes: u64,
    seconds: u128,
}

impl Duration {
    /// Returns the duration that the text writes, with or without blanks around it, or `None` if it writes none.
    ///
    /// XML Schema Part 2, section 3.2.6.1. Each number may have eighteen digits, without zeros in front, and a fraction
    /// of a second eighteen. One pass over the text, and another over each run of digits. Allocates nothing.
    pub fn read(text: &str) -> Option<Duration>
        ensures { option_map duration_view result ≡ duration_of (collapse text.now) }
    {
        signed_fields(past_blanks(text.as_bytes()))
    }
}

// an optional minus, `P`, and the numbers
fn signed_fields(text: &[u8]) -> Option<Duration>
    ensures { option_map duration_view result ≡ duration_of (from_run text.now) }
{
    match after(b'-', text) {
        Some(rest) => period(true, rest),
        None => period(false, text),
    }
}

// `P` and the numbers
fn period(minus: bool, text: &[u8]) -> Option<Duration>
    ensures { option_map duration_view result ≡ period minus (from_run text.now) }
{
    match after(b'P', text) {
        Some(rest) => duration_fields(minus, rest),
        None => None,
    }
}

// years, months and days, and the time of day behind them: one number at least
fn duration_fields(minus: bool, text: &[u8]) -> Option<Duration>
    ensures { option_map duration_view result ≡ duration_fields minus (from_run text.now) }
{
    let (years, rest) = number_before(b'Y', text);
    let (months, rest) = number_before(b'M', rest);
    let (days, rest) = number_before(b'D', rest);
    if is_blank(text) {
        return None;
    }
    let time = time_part(rest)?;
    let date = DatePart {
        years,
        months,
        days,
    };
    Some(duration_with(minus, date, time))
}

// the duration of these numbers; zero is not negative
fn duration_with(minus: bool, date: DatePart, time: TimePart) -> Duration
    ensures { duration_view result ≡ duration_with minus (date_of date) (time_of time) }
{
    Duration {
        negative: minus && !(is_zero_date(date) && is_zero_time(time)),
        years: date.years,
        months: date.months,
        days: date.days,
        hours: time.hours,
        minutes: time.minutes,
        seconds: time.seconds,
    }
}

fn is_zero_date(date: DatePart) -> bool
    ensures { result ≡ is_zero (date_of date) }
{
    date.years == 0 && date.months == 0 && date.days == 0
}

fn is_zero_time(time: TimePart) -> bool
    ensures { result ≡ is_zero (time_of time) }
{
    time.hours == 0 && time.minutes == 0 && time.seconds == 0
}

// `T` and hours, minutes and seconds, or nothing
fn time_part(text: &[u8]) -> Option<TimePart>
    ensures { option_map time_of result ≡ time_part (from_run text.now) }
{
    if is_blank(text) {
        return Some(TimePart {
            hours: 0,
            minutes: 0,
            seconds: 0,
        });
    }
    match after(b'T', text) {
        Some(rest) => time_fields(rest),
        None => None,
    }
}

// hours, minutes and seconds, one of them at least
fn time_fields(text: &[u8]) -> Option<TimePart>
    ensures { option_map time_of result ≡ time_fields (from_run text.now) }
{
    let (hours, rest) = number_before(b'H', text);
    let (minutes, rest) = number_before(b'M', rest);
    let (seconds, rest) = seconds_at(rest);
    if is_blank(text) || !is_blank(rest) {
        return None;
    }
    Some(TimePart {
        hours,
        minutes,
        seconds,
    })
}

// seconds in units of 10 ^ -18 s, with or without a fraction, and `S` behind them, or neither
fn seconds_at(text: &[u8]) -> (u128, &[u8])
    ensures { seen result ≡ seconds_at (from_run text.now) }
{
    match written_seconds(text) {
        Some(seconds) => seconds,
        None => (0, text),
    }
}

// the seconds that the text begins with, if it does
fn written_seconds(text: &[u8]) -> Option<(u128, &[u8])>
    ensures { unwrap_or (option_map seen result) (0, from_run text.now) ≡ seconds_at (from_run text.now) }
{
    let (digits, rest) = split_digits(text);
    let (fraction, rest) = fraction_at(rest)?;
    let rest = after(b'S', rest)?;
    let whole = limited_number(digits)?;
    Some((whole as u128 * SECOND + fraction as u128, rest))
}

// a number and this letter behind it, or neither
fn number_before(letter: u8, text: &[u8]) -> (u64, &[u8])
    requires { is_blank_byte letter ≡ false }
    ensures { seen result ≡ number_before letter (from_run text.now) }
{
    match written_before(letter, text) {
        Some(number) => number,
        None => (0, text),
    }
}

// the number that the text begins with, if it does, and this letter is behind it
fn written_before(letter: u8, text: &[u8]) -> Option<(u64, &[u8])>
    requires { is_blank_byte letter ≡ false }
    ensures { unwrap_or (option_map seen result) (0, from_run text.now) ≡ number_before letter (from_run text.now) }
{
    let (digits, rest) = split_digits(text);
    let rest = after(letter, rest)?;
    let number = limited_number(digits)?;
    Some((number, rest))
}
