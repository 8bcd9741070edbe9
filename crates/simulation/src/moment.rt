//! The moments of jobs: numbers of ms, clock times, and dates with a time.

use base_types::Limits;
use jiff::Timestamp;
use jiff::civil::{DateTime, Time};
use std::str::FromStr;

/// The form in which a list has its moments.
#[derive(Clone, Copy, PartialEq, Eq)]
pub(crate) enum Clock {
    /// A number of ms from the beginning of the day.
    Millis,
    /// A clock time.
    Time,
    /// A date, with a clock time or without.
    Date,
    /// A date with a clock time and its distance to UTC.
    Instant,
}

/// A moment of a field.
#[derive(Clone, Copy)]
pub(crate) struct Stamp {
    pub(crate) clock: Clock,
    /// The ms since the first moment of the form.
    pub(crate) millis: u64,
}

/// A stamp with a number of ms, if they aren't negative.
fn counted(clock: Clock, millis: i128) -> Option<Stamp> {
    let millis = u64::try_from(millis).ok()?;
    Some(Stamp { clock, millis })
}

/// The moment of a clock time or date of a text.
fn calendar_stamp(text: &str) -> Option<Stamp> {
    if let Ok(instant) = Timestamp::from_str(text) {
        let since = instant.duration_since(Timestamp::MIN);
        return counted(Clock::Instant, since.as_millis());
    }
    if let Ok(date) = DateTime::from_str(text) {
        let since = date.duration_since(DateTime::MIN);
        return counted(Clock::Date, since.as_millis());
    }
    let time = Time::from_str(text).ok()?;
    counted(Clock::Time, time.duration_since(Time::MIN).as_millis())
}

/// The moment of a field.
pub(crate) fn stamp_of(field: &[u8]) -> Option<Stamp> {
    if let Some(millis) = text::number_up_to(field, Limits::LAST_MOMENT) {
        return Some(Stamp {
            clock: Clock::Millis,
            millis,
        });
    }
    if text::is_number(field) {
        return None;
    }
    calendar_stamp(str::from_utf8(field).ok()?)
}
