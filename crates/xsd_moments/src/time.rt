// Times of day, and which of two comes first.
ghost use Rattle.std.specs.Prelude.{◌≡◌};
ghost use Rattle.std.specs.Option.{option_map};
ghost use Rattle.rng_types.specs.plain.Runs.{from_run};
ghost use Rattle.rng_model.specs.xsd.primitives.Zones.{same_moment, is_before};
ghost use Rattle.rng_model.specs.xsd.primitives.Moments.{each_day, time_of, times};
ghost use Rattle.xsd_moments.specs.Views.{moment_of, time_view};

use crate::calendar::DAY;
use crate::dates::clock;
use crate::moment::Moment;
use crate::zones::with_zone;
use rng_types::past_blanks;

/// A time that recurs every day, as its moment on one arbitrary day, in Coordinated Universal Time if its text has a time zone.
///
/// XML Schema Part 2, Second Edition, section 3.2.8. The order is that of the moments, of which some are on the day before or
/// the day after. Two times are equal if they are the same moment of the day.
#[derive(Clone, Copy, Debug)]
pub struct Time {
    pub(crate) moment: Moment,
}

impl Time {
    /// Returns the time that the text writes, with or without blanks around it, or `None` where it writes none.
    ///
    /// XML Schema Part 2, Second Edition, section 3.2.8. A fraction of a second has 18 digits at most. One pass over the text,
    /// and another over its fraction. Allocates nothing.
    pub fn read(text: &str) -> Option<Time>
        ensures { option_map time_view result ≡ times.value_of text.now }
    {
        read_time(past_blanks(text.as_bytes()))
    }

    /// Returns whether the two are the same moment of the day: both with a time zone or both without one. Constant time.
    pub fn equal(&self, other: &Time) -> bool
        ensures { result ≡ same_moment (each_day (time_view self.now)) (each_day (time_view other.now)) }
    {
        self.each_day().equal(&other.each_day())
    }

    /// Returns whether this time is less than the other one: before it on one day, whichever time zone from +14:00 to -14:00
    /// one of them without a time zone is in. Constant time.
    ///
    /// XML Schema Part 2, Second Edition, sections 3.2.7.4 and 3.2.8.
    pub fn is_less(&self, other: &Time) -> bool
        ensures { result ≡ is_before (time_view self.now) (time_view other.now) }
    {
        self.moment.is_less(&other.moment)
    }

    /// Returns whether this time is at most the other one: equal, or less. Constant time.
    ///
    /// XML Schema Part 2, Second Edition, sections 3.2.7.4 and 3.2.8.
    pub fn is_at_most(&self, other: &Time) -> bool
        ensures { result ≡ times.is_at_most (time_view self.now) (time_view other.now) }
    {
        self.equal(other) || self.is_less(other)
    }

    // the moment of the day, counted from where the day begins
    fn each_day(&self) -> Moment
        ensures { moment_of result ≡ each_day (time_view self.now) }
    {
        Moment {
            zoned: self.moment.zoned,
            at: self.moment.at % DAY,
        }
    }
}

// the time that the collapsed text writes, without the blanks that it begins with
#[tactic(auto, unfolding(rng_model::specs::xsd::primitives::Moments::time_of))]
fn read_time(bytes: &[u8]) -> Option<Time>
    ensures { option_map time_view result ≡ time_of (from_run bytes.now) }
{
    let (time, rest) = clock(bytes)?;
    let moment = with_zone(DAY + time, rest)?;
    Some(Time { moment })
}
