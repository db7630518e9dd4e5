// Time zones, and the moments at which their clocks show a time.
ghost use Rattle.std.specs.Prelude.{◌≡◌, ◌<◌, ◌==◌, length, if◌then◌else◌, Some, None};
ghost use Rattle.std.specs.Option.{option_map};
ghost use Rattle.rng_types.specs.plain.Runs.{from_run};
ghost use Rattle.rng_model.specs.xsd.primitives.Zones.{in_zone, offset_of, zone_of, with_zone};
ghost use Rattle.xsd_moments.specs.Bounds.{end_of_timeline};
ghost use Rattle.xsd_moments.specs.Views.{moment_of};
ghost use Rattle.xsd_moments.specs.Views as views;

use crate::calendar::SECOND;
use crate::fronts::{after, ends, two_digits};
use crate::moment::Moment;

/// The units of 10^-18 s in a minute.
const MINUTE: u128 = 60 * SECOND;

/// The greatest offset of a time zone, in minutes.
const GREATEST_OFFSET: u16 = 840;

/// A time zone: none, or the minutes by which its clocks are ahead of Coordinated Universal Time, or behind it.
#[derive(Clone, Copy)]
enum Zone {
    Unknown,
    Ahead(u16),
    Behind(u16),
}

// hours and minutes, 14:00 at most, to the end of the text
fn offset(bytes: &[u8]) -> Option<u16>
    ensures { result ≡ offset_of (from_run bytes.now) }
{
    let (hours, rest) = two_digits(0, 14, bytes)?;
    let (minutes, rest) = two_digits(0, 59, after(b':', rest)?)?;
    let offset = u16::from(hours) * 60 + u16::from(minutes);
    if offset <= GREATEST_OFFSET && ends(rest) {
        Some(offset)
    } else {
        None
    }
}

// nothing, `Z`, or an offset with its sign
fn read_zone(bytes: &[u8]) -> Option<Zone>
    ensures { option_map views.zone_of result ≡ zone_of (from_run bytes.now) }
{
    match bytes {
        [] => Some(Zone::Unknown),
        [b'+', rest @ ..] => Some(Zone::Ahead(offset(rest)?)),
        [b'-', rest @ ..] => Some(Zone::Behind(offset(rest)?)),
        [b'Z', rest @ ..] => if_ends(rest, Zone::Ahead(0)),
        _ => if_ends(bytes, Zone::Unknown),
    }
}

// the zone, if the text ends there
fn if_ends(bytes: &[u8], zone: Zone) -> Option<Zone>
    ensures { option_map views.zone_of result ≡ (if length (from_run bytes.now) == 0 then Some (views.zone_of zone) else None) }
{
    if ends(bytes) { Some(zone) } else { None }
}

// the moment at which the clocks of the zone show this
fn in_zone(zone: Zone, number: u128) -> Moment
    requires { number < end_of_timeline }
    ensures { moment_of result ≡ in_zone (views.zone_of zone) number }
{
    match zone {
        Zone::Unknown => Moment {
            zoned: false,
            at: number,
        },
        Zone::Ahead(minutes) => Moment {
            zoned: true,
            at: number.saturating_sub(u128::from(minutes) * MINUTE),
        },
        Zone::Behind(minutes) => Moment {
            zoned: true,
            at: number + u128::from(minutes) * MINUTE,
        },
    }
}

// the moment that a front writes, with the time zone that ends the text
pub(crate) fn with_zone(number: u128, bytes: &[u8]) -> Option<Moment>
    requires { number < end_of_timeline }
    ensures { option_map moment_of result ≡ with_zone (number, from_run bytes.now) }
{
    Some(in_zone(read_zone(bytes)?, number))
}
