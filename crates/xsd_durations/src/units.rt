// The units of the timeline: 10 ^ -18 s, the smallest fraction of a second that is read.

/// A second in these units.
pub(crate) const SECOND: u128 = 1_000_000_000_000_000_000;

/// The seconds in a minute.
pub(crate) const MINUTE: u128 = 60;

/// The seconds in an hour.
pub(crate) const HOUR: u128 = 60 * MINUTE;

/// The seconds in a day.
pub(crate) const DAY: u128 = 24 * HOUR;
