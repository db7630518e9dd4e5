// The calendar: where a month begins on the timeline.
ghost use Rattle.std.specs.Prelude.{◌≡◌, ◌<◌, ◌≤◌, ◌+◌, ◌*◌, ◌/◌, ◌^◌};
ghost use Rattle.rng_model.specs.xsd.primitives.Calendar.{second, is_leap, multiples_below, days_before_year, days_in_month, days_of_months};
ghost use Rattle.rng_model.specs.xsd.primitives.Durations.{month_begins};

use crate::units::DAY;

// the seconds before the month that is so many months after the first one of the calendar
pub(crate) fn seconds_before(month: u128) -> u128
    requires { month < 2 ^ 73 }
    ensures value { result * second ≡ month_begins month }
    ensures late { 31536000 * (month / 12) ≤ result }
    ensures early { result < 2 ^ 96 }
{
    let year = month / 12;
    (days_before_year(year) + days_of_months(year, month % 12)) * DAY
}

// the days before the year: 365 for each year, and one more for each leap year
fn days_before_year(year: u128) -> u128
    requires { year < 2 ^ 70 }
    ensures value { result ≡ days_before_year year }
    ensures many { 365 * year ≤ result }
    ensures few { result ≤ 366 * year + 2 }
{
    year * 365 + multiples_below(4, year) + multiples_below(400, year) - multiples_below(100, year)
}

// the multiples of the divisor that are less than the number
fn multiples_below(divisor: u128, number: u128) -> u128
    requires some { 0 < divisor }
    requires few { divisor ≤ 400 }
    requires low { number < 2 ^ 70 }
    ensures { result ≡ multiples_below divisor number }
{
    (number + (divisor - 1)) / divisor
}

// the days of so many months of the year, from its first one on
fn days_of_months(year: u128, months: u128) -> u128
    requires { months ≤ 12 }
    ensures value { result ≡ days_of_months year months }
    ensures few { result ≤ 31 * months }
{
    let mut days = 0;
    'months: for month in 0..months {
        days += days_in_month(year, month + 1);
    }
    days
}

fn days_in_month(year: u128, month: u128) -> u128
    ensures value { result ≡ days_in_month year month }
    ensures few { result ≤ 31 }
{
    match month {
        2 if is_leap(year) => 29,
        2 => 28,
        4 | 6 | 9 | 11 => 30,
        _ => 31,
    }
}

fn is_leap(year: u128) -> bool
    ensures { result ≡ is_leap year }
{
    year % 4 == 0 && (year % 100 != 0 || year % 400 == 0)
}
