// Which durations are the same, and which are less.
ghost use Rattle.std.specs.Prelude.{◌≡◌, ◌<◌, ◌≤◌, ◌+◌, ◌*◌, ◌/◌, ◌%◌, ◌^◌, ◌-◌, ◌==◌, nat_lt};
ghost use Rattle.rng_model.specs.xsd.primitives.Calendar.{second};
ghost use Rattle.rng_model.specs.xsd.primitives.Durations.{same_duration, same_date_part, same_time_part, months_in, time_in, added_to, is_as_long, is_less, durations};
ghost use Rattle.xsd_durations.specs.Views.{duration_view, end_view};

use crate::calendar::seconds_before;
use crate::duration::Duration;
use crate::units::{DAY, HOUR, MINUTE, SECOND};

/// The years before the year 1, from the first one of the calendar on: a multiple of 400.
const YEARS_BEFORE: u128 = 400_000_000_000_000_000_000;

/// The months, among those of the calendar, that begin with 1696-09-01, 1697-02-01, 1903-03-01 and 1903-07-01.
const SEPTEMBER_1696: u128 = (YEARS_BEFORE + 1696) * 12 + 8;

const FEBRUARY_1697: u128 = (YEARS_BEFORE + 1697) * 12 + 1;

const MARCH_1903: u128 = (YEARS_BEFORE + 1903) * 12 + 2;

const JULY_1903: u128 = (YEARS_BEFORE + 1903) * 12 + 6;

/// Where a duration ends: so many whole seconds from the first month of the calendar on, and units of 10 ^ -18 s.
#[derive(Clone, Copy)]
struct End {
    seconds: u128,
    units: u128,
}

impl Duration {
    /// Returns whether the two durations have the same sign and the same six numbers.
    ///
    /// XML Schema Part 2, section 3.2.6. In constant time.
    pub fn equal(&self, other: &Duration) -> bool
        ensures { result ≡ same_duration (duration_view self.now) (duration_view other.now) }
    {
        self.negative == other.negative && self.is_same_date(other) && self.is_same_time(other)
    }

    /// Returns whether this duration is less than the other one: whether it ends earlier, added to each of four months.
    ///
    /// XML Schema Part 2, section 3.2.6.2. The order is partial. In constant time.
    pub fn is_less(&self, other: &Duration) -> bool
        ensures { result ≡ is_less (duration_view self.now) (duration_view other.now) }
    {
        self.ends_before(other, SEPTEMBER_1696)
            && self.ends_before(other, FEBRUARY_1697)
            && self.ends_before(other, MARCH_1903)
            && self.ends_before(other, JULY_1903)
    }

    /// Returns whether this duration is at most the other one: less, or as many months and as many seconds, with the same sign.
    ///
    /// XML Schema Part 2, section 3.2.6.2. In constant time.
    pub fn is_at_most(&self, other: &Duration) -> bool
        ensures { result ≡ durations.is_at_most (duration_view self.now) (duration_view other.now) }
    {
        self.is_as_long(other) || self.is_less(other)
    }

    // whether the two are as many months and as many seconds, with the same sign
    fn is_as_long(&self, other: &Duration) -> bool
        ensures { result ≡ is_as_long (duration_view self.now) (duration_view other.now) }
    {
        self.negative == other.negative
            && self.months_in() == other.months_in()
            && self.takes_as_long(other)
    }

    // whether the days, hours, minutes and seconds are as many seconds
    fn takes_as_long(&self, other: &Duration) -> bool
        ensures { result ≡ (time_in (duration_view self.now) == time_in (duration_view other.now)) }
    {
        self.seconds_in() == other.seconds_in() && self.units_in() == other.units_in()
    }

    fn is_same_date(&self, other: &Duration) -> bool
        ensures { result ≡ same_date_part (duration_view self.now) (duration_view other.now) }
    {
        self.years == other.years && self.months == other.months && self.days == other.days
    }

    fn is_same_time(&self, other: &Duration) -> bool
        ensures { result ≡ same_time_part (duration_view self.now) (duration_view other.now) }
    {
        self.hours == other.hours && self.minutes == other.minutes && self.seconds == other.seconds
    }

    // whether this duration, added to the beginning of the month, ends before the other one
    fn ends_before(&self, other: &Duration, month: u128) -> bool
        requires early { 2 ^ 72 ≤ month }
        requires late { month < 2 ^ 73 - 2 ^ 70 }
        ensures { result ≡ nat_lt (added_to month (duration_view self.now)) (added_to month (duration_view other.now)) }
    {
        self.added_to(month).is_before(&other.added_to(month))
    }

    // where the duration ends that begins with the month
    fn added_to(&self, month: u128) -> End
        requires early { 2 ^ 72 ≤ month }
        requires late { month < 2 ^ 73 - 2 ^ 70 }
        ensures value { end_view result ≡ added_to month (duration_view self.now) }
        ensures fraction { result.units < second }
    {
        if self.negative {
            earlier(
                seconds_before(month - self.months_in()) - self.seconds_in(),
                self.units_in(),
            )
        } else {
            End {
                seconds: seconds_before(month + self.months_in()) + self.seconds_in(),
                units: self.units_in(),
            }
        }
    }

    // the years and months, in months
    fn months_in(&self) -> u128
        ensures value { result ≡ months_in (duration_view self.now) }
        ensures few { result < 13 * 2 ^ 64 }
    {
        self.years as u128 * 12 + self.months as u128
    }

    // the days, hours, minutes and seconds, in whole seconds
    fn seconds_in(&self) -> u128
        ensures value { time_in (duration_view self.now) ≡ result * second + self.now.seconds % second }
        ensures few { result < 2 ^ 82 }
    {
        self.days as u128 * DAY
            + self.hours as u128 * HOUR
            + self.minutes as u128 * MINUTE
            + self.seconds / SECOND
    }

    // the fraction of a second, in units of 10 ^ -18 s
    fn units_in(&self) -> u128
        ensures { result ≡ self.now.seconds % second }
    {
        self.seconds % SECOND
    }
}

// the end that is so many units of 10 ^ -18 s before these seconds
fn earlier(seconds: u128, units: u128) -> End
    requires some { 0 < seconds }
    requires fraction { units < second }
    ensures value { end_view result ≡ seconds * second - units }
    ensures fraction { result.units < second }
{
    if units == 0 {
        End { seconds, units }
    } else {
        End {
            seconds: seconds - 1,
            units: SECOND - units,
        }
    }
}

impl End {
    fn is_before(&self, other: &End) -> bool
        requires first { self.now.units < second }
        requires second { other.now.units < second }
        ensures { result ≡ nat_lt (end_view self.now) (end_view other.now) }
    {
        self.seconds < other.seconds || (self.seconds == other.seconds && self.units < other.units)
    }
}
