// Moments, and which of two comes first.
ghost use Rattle.std.specs.Prelude.{◌≡◌, ◌||◌};
ghost use Rattle.rng_model.specs.xsd.primitives.Zones.{same_moment, is_before};
ghost use Rattle.xsd_moments.specs.Views.{moment_of};

use crate::calendar::SECOND;

/// A point of the timeline, in Coordinated Universal Time if its text has a time zone. What recurs every year or month is where
/// it begins in the year 2000, or in January 2000.
///
/// XML Schema Part 2, Second Edition, sections 3.2.7 and 3.2.9 to 3.2.14.
#[derive(Clone, Copy, Debug)]
pub struct Moment {
    pub(crate) zoned: bool,
    pub(crate) at: u128,
}

/// The units of 10^-18 s by which a time zone may be ahead of Coordinated Universal Time, or behind it: 14 hours.
const GREATEST_OFFSET: u128 = 14 * 3600 * SECOND;

impl Moment {
    /// Returns whether the two are the same moment: both with a time zone or both without one, and at the same point. Constant
    /// time.
    pub fn equal(&self, other: &Moment) -> bool
        ensures { result ≡ same_moment (moment_of self.now) (moment_of other.now) }
    {
        self.zoned == other.zoned && self.at == other.at
    }

    /// Returns whether this moment is less than the other one: before it, whichever time zone from +14:00 to -14:00 one of them
    /// without a time zone is in. Constant time.
    ///
    /// XML Schema Part 2, Second Edition, section 3.2.7.4.
    pub fn is_less(&self, other: &Moment) -> bool
        ensures { result ≡ is_before (moment_of self.now) (moment_of other.now) }
    {
        if self.zoned == other.zoned {
            self.at < other.at
        } else {
            self.at < other.at.saturating_sub(GREATEST_OFFSET)
        }
    }

    /// Returns whether this moment is at most the other one: the same, or less. Constant time.
    ///
    /// XML Schema Part 2, Second Edition, section 3.2.7.4.
    pub fn is_at_most(&self, other: &Moment) -> bool
        ensures { result ≡ (same_moment (moment_of self.now) (moment_of other.now) || is_before (moment_of self.now) (moment_of other.now)) }
    {
        self.equal(other) || self.is_less(other)
    }
}
