// The moments that collapsed texts write, type by type.
ghost use Rattle.std.specs.Prelude.{◌≡◌};
ghost use Rattle.std.specs.Option.{option_map};
ghost use Rattle.rng_types.specs.plain.Runs.{from_run};
ghost use Rattle.rng_model.specs.xsd.primitives.Moments.{date_time_of, date_of, year_month_of, year_of, month_day_of, day_of, month_of};
ghost use Rattle.xsd_moments.specs.Views.{moment_by, moment_of, ordered_of};

use crate::calendar::begins;
use crate::dates::{clock, date, day, hyphen_and, year};
use crate::fronts::after;
use crate::kind::MomentKind;
use crate::moment::Moment;
use crate::zones::with_zone;
use rng_types::past_blanks;

/// A year that has every day.
const ANY_YEAR: u64 = 10_000_002_000;

impl Moment {
    /// Returns the moment that the text writes in the type, with or without blanks around it, or `None` where it writes none.
    ///
    /// XML Schema Part 2, Second Edition, sections 3.2.7 and 3.2.9 to 3.2.14. A year has 10 digits at most, and a fraction of a second 18.
    /// One pass over the text, and another over each run of digits. Allocates nothing.
    pub fn read(kind: MomentKind, text: &str) -> Option<Moment>
        ensures { option_map moment_of result ≡ (ordered_of kind).value_of text.now }
    {
        read_run(kind, past_blanks(text.as_bytes()))
    }
}

// the moment that the collapsed text writes, without the blanks that it begins with
fn read_run(kind: MomentKind, bytes: &[u8]) -> Option<Moment>
    ensures { option_map moment_of result ≡ moment_by kind (from_run bytes.now) }
{
    match kind {
        MomentKind::DateTime => date_time(bytes),
        MomentKind::Date => whole_day(bytes),
        MomentKind::YearMonth => year_month(bytes),
        MomentKind::Year => whole_year(bytes),
        MomentKind::MonthDay => month_day(bytes),
        MomentKind::Day => day_of_month(bytes),
        MomentKind::Month => month(bytes),
    }
}

#[tactic(auto, unfolding(rng_model::specs::xsd::primitives::Moments::date_time_of))]
fn date_time(bytes: &[u8]) -> Option<Moment>
    ensures { option_map moment_of result ≡ date_time_of (from_run bytes.now) }
{
    let (day, rest) = date(bytes)?;
    let (time, rest) = clock(after(b'T', rest)?)?;
    with_zone(day + time, rest)
}

#[tactic(auto, unfolding(rng_model::specs::xsd::primitives::Moments::date_of))]
fn whole_day(bytes: &[u8]) -> Option<Moment>
    ensures { option_map moment_of result ≡ date_of (from_run bytes.now) }
{
    let (day, rest) = date(bytes)?;
    with_zone(day, rest)
}

#[tactic(auto, unfolding(rng_model::specs::xsd::primitives::Moments::year_month_of))]
fn year_month(bytes: &[u8]) -> Option<Moment>
    ensures { option_map moment_of result ≡ year_month_of (from_run bytes.now) }
{
    let (year, rest) = year(bytes)?;
    let (month, rest) = hyphen_and(12, rest)?;
    with_zone(begins(year, month, 1), rest)
}

#[tactic(auto, unfolding(rng_model::specs::xsd::primitives::Moments::year_of))]
fn whole_year(bytes: &[u8]) -> Option<Moment>
    ensures { option_map moment_of result ≡ year_of (from_run bytes.now) }
{
    let (year, rest) = year(bytes)?;
    with_zone(begins(year, 1, 1), rest)
}

#[tactic(auto, unfolding(rng_model::specs::xsd::primitives::Moments::month_day_of))]
fn month_day(bytes: &[u8]) -> Option<Moment>
    ensures { option_map moment_of result ≡ month_day_of (from_run bytes.now) }
{
    let (month, rest) = hyphen_and(12, after(b'-', bytes)?)?;
    let (day, rest) = day(ANY_YEAR, month, rest)?;
    with_zone(day, rest)
}

#[tactic(auto, unfolding(rng_model::specs::xsd::primitives::Moments::day_of))]
fn day_of_month(bytes: &[u8]) -> Option<Moment>
    ensures { option_map moment_of result ≡ day_of (from_run bytes.now) }
{
    let rest = after(b'-', after(b'-', bytes)?)?;
    let (day, rest) = hyphen_and(31, rest)?;
    with_zone(begins(ANY_YEAR, 1, day), rest)
}

#[tactic(auto, unfolding(rng_model::specs::xsd::primitives::Moments::month_of))]
fn month(bytes: &[u8]) -> Option<Moment>
    ensures { option_map moment_of result ≡ month_of (from_run bytes.now) }
{
    let (month, rest) = hyphen_and(12, after(b'-', bytes)?)?;
    with_zone(begins(ANY_YEAR, month, 1), rest)
}
