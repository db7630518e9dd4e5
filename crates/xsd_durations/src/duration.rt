// The value of a duration.

/// A duration: years, months, days, hours, minutes and seconds, all with one sign. Zero that is read has no sign.
///
/// XML Schema Part 2, section 3.2.6. A value has six dimensions: 36 hours are not a day and 12 hours.
#[derive(Clone, Copy, Debug)]
pub struct Duration {
    pub negative: bool,
    pub years: u64,
    pub months: u64,
    pub days: u64,
    pub hours: u64,
    pub minutes: u64,
    /// The seconds in units of 10 ^ -18 s.
    pub seconds: u128,
}
