//! The zone of clock times, and the moments that people write.
use jiff::Timestamp;
use jiff::civil::{Date, DateTime, Time};
use jiff::tz::{Offset, TimeZone, TimeZoneDatabase};
use queue_views::Clock;
use std::str::FromStr;

/// The s of a minute.
const MINUTE: i32 = 60;

/// The s of an hour.
const HOUR: i32 = 3600;

/// A moment of a recorded day, as people write it.
#[derive(Clone, Copy)]
pub(crate) enum When {
    /// In ms since the start.
    Millis(u64),
    /// A date with a time and its distance to UTC.
    Instant(Timestamp),
    /// A date with a time in the zone of the page.
    Date(DateTime),
    /// A clock time in the zone of the page: the first after the start.
    Clock(Time),
}

/// The number of two digits, if it is at most this.
fn two_digits(text: &str, most: i32) -> Option<i32> {
    let digits = text.len() == 2 && text.bytes().all(|byte| byte.is_ascii_digit());
    if !digits {
        return None;
    }
    text.parse::<i32>().ok().filter(|number| *number <= most)
}

/// The offset from UTC that hours and minutes give.
fn seconds_of(text: &str) -> Option<i32> {
    let (hours, minutes) = text.split_once(":").unwrap_or((text, "00"));
    let hours = two_digits(hours, 23)?;
    let minutes = two_digits(minutes, 59)?;
    hours
        .checked_mul(HOUR)?
        .checked_add(minutes.checked_mul(MINUTE)?)
}

/// The zone of an offset, as `+02:00`, or of UTC.
fn fixed(text: &str) -> Option<TimeZone<'static>> {
    if text == "UTC" || text == "Z" {
        return Some(TimeZone::UTC);
    }
    let seconds = match text.strip_prefix("+") {
        Some(ahead) => seconds_of(ahead)?,
        None => seconds_of(text.strip_prefix("-")?)?.checked_neg()?,
    };
    Some(TimeZone::fixed(Offset::from_seconds(seconds).ok()?))
}

/// Returns whether a zone is found without the database of the system.
pub(crate) fn is_fixed(text: &str) -> bool {
    fixed(text).is_some()
}

/// The zone of a text: an offset, or a name of the database.
pub(crate) fn zone_of<'a>(database: &'a TimeZoneDatabase, text: &str) -> Option<TimeZone<'a>> {
    match fixed(text) {
        Some(zone) => Some(zone),
        None => database.get(text).ok(),
    }
}

impl When {
    /// The moment of a text.
    pub(crate) fn of(text: &str) -> Option<When> {
        if let Ok(millis) = text.parse::<u64>() {
            return Some(When::Millis(millis));
        }
        if let Ok(instant) = Timestamp::from_str(text) {
            return Some(When::Instant(instant));
        }
        if let Ok(date) = DateTime::from_str(text) {
            return Some(When::Date(date));
        }
        Time::from_str(text).ok().map(When::Clock)
    }

    /// The ms of the moment since the start; `None` if it needs a clock that isn't set, or can't be written in the zone.
    pub(crate) fn millis(self, clock: Option<&Clock>, zone: TimeZone<'_>) -> Option<u64> {
        let instant = match self {
            When::Millis(millis) => return Some(millis),
            When::Instant(instant) => instant,
            When::Date(date) => zone.to_timestamp(date).ok()?,
            When::Clock(time) => first_at(time, clock?, zone)?,
        };
        let time = u64::try_from(instant.as_millisecond()).ok()?;
        clock?.moment_at(time)
    }
}

/// The instant at which a clock in the zone shows a time on a day.
fn instant_of(day: Date, time: Time, zone: TimeZone<'_>) -> Option<Timestamp> {
    zone.to_timestamp(DateTime::from_parts(day, time)).ok()
}

/// The first instant after the start at which a clock in the zone shows a time.
fn first_at(time: Time, clock: &Clock, zone: TimeZone<'_>) -> Option<Timestamp> {
    let start = i64::try_from(clock.time_at(0)?).ok()?;
    let began = Timestamp::from_millisecond(start).ok()?;
    let today = zone.to_datetime(began).date();
    let first = instant_of(today, time, zone)?;
    if first >= began {
        return Some(first);
    }
    instant_of(today.tomorrow().ok()?, time, zone)
}
