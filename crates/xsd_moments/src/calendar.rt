// Years, months and days, and where they begin on the timeline.
ghost use Rattle.std.specs.Prelude.{◌≡◌, ◌+◌, ◌≤◌, ◌<◌};
ghost use Rattle.rng_model.specs.xsd.primitives.Calendar.{is_leap, days_before_year, days_in_month, days_of_months, days_before, begins};
ghost use Rattle.rng_model.specs.xsd.primitives.Calendar.{day as day_length};
ghost use Rattle.xsd_moments.specs.Bounds.{last_year, most_days, end_of_timeline};

/// The units of 10^-18 s in a second.
pub(crate) const SECOND: u128 = 1_000_000_000_000_000_000;

/// The units in a day.
pub(crate) const DAY: u128 = 86_400 * SECOND;

fn is_leap(year: u64) -> bool
    ensures { result ≡ is_leap year }
{
    year % 4 == 0 && (year % 100 != 0 || year % 400 == 0)
}

// the days of the month of the year
pub(crate) fn days_in_month(year: u64, month: u8) -> u8
    ensures { result ≡ days_in_month year month }
{
    match month {
        2 if is_leap(year) => 29,
        2 => 28,
        4 | 6 | 9 | 11 => 30,
        _ => 31,
    }
}

// the days of so many months of the year, from its first one on
fn days_of_months(year: u64, months: u8) -> u64
    requires { months < 12 }
    ensures { result ≡ days_of_months year months }
{
    let leap = u64::from(is_leap(year));
    match months {
        0 => 0,
        1 => 31,
        2 => 59 + leap,
        3 => 90 + leap,
        4 => 120 + leap,
        5 => 151 + leap,
        6 => 181 + leap,
        7 => 212 + leap,
        8 => 243 + leap,
        9 => 273 + leap,
        10 => 304 + leap,
        _ => 334 + leap,
    }
}

// the days before the year: 365 for each year, and one more for each leap year
fn days_before_year(year: u64) -> u64
    requires { year ≤ last_year }
    ensures { result ≡ days_before_year year }
{
    year * 365 + (year + 3) / 4 + (year + 399) / 400 - (year + 99) / 100
}

// the days before the day of the month of the year
fn days_before(year: u64, month: u8, day: u8) -> u64
    requires year { year ≤ last_year }
    requires least { 1 ≤ month }
    requires greatest { month ≤ 12 }
    requires day { 1 ≤ day }
    ensures days { result ≡ days_before year month day }
    ensures bound { result < most_days }
{
    days_before_year(year) + days_of_months(year, month - 1) + u64::from(day - 1)
}

// where the day begins
pub(crate) fn begins(year: u64, month: u8, day: u8) -> u128
    requires year { year ≤ last_year }
    requires least { 1 ≤ month }
    requires greatest { month ≤ 12 }
    requires day { 1 ≤ day }
    ensures number { result ≡ begins year month day }
    ensures bound { result + day_length < end_of_timeline }
{
    u128::from(days_before(year, month, day)) * DAY
}
