// The types whose values are moments that do not recur every day.

/// A type of XML Schema whose values are moments, but for `time`.
#[derive(Clone, Copy, Debug, PartialEq, Eq)]
pub enum MomentKind {
    /// `dateTime`, section 3.2.7.
    DateTime,
    /// `date`, section 3.2.9.
    Date,
    /// `gYearMonth`, section 3.2.10.
    YearMonth,
    /// `gYear`, section 3.2.11.
    Year,
    /// `gMonthDay`, section 3.2.12.
    MonthDay,
    /// `gDay`, section 3.2.13.
    Day,
    /// `gMonth`, section 3.2.14.
    Month,
}
