//! The times of moments, as a page shows them.
use jiff::Timestamp;
use jiff::civil::{DateTime, Time};
use jiff::tz::TimeZone;
use queue_views::Clock;
use std::fmt;

/// The ms of a second.
const SECOND: u64 = 1_000;

/// The ms of a minute.
const MINUTE: u64 = 60 * SECOND;

/// The ms of an hour.
const HOUR: u64 = 60 * MINUTE;

/// A date and a clock time.
#[derive(Clone, Copy, PartialEq, Eq)]
struct Civil {
    year: i16,
    month: i8,
    day: i8,
    hour: i8,
    minute: i8,
    second: i8,
}

/// How much of a time is shown.
#[derive(Clone, Copy, PartialEq, Eq)]
pub(crate) enum TimeDetail {
    /// `14:05`, with the date if it isn't the page's.
    Minutes,
    /// `14:05:10`, with the date if it isn't the page's.
    Seconds,
    /// `14:05:10`, without the date.
    TimeAlone,
    /// `2026-05-04 14:05:10`.
    Whole,
    /// `2026-05-04T14:05:10+02:00`.
    Machine,
}

/// A time as text. Where the recording has no clock, it is the time since its start: `0:14:05`.
#[derive(Clone, Copy)]
pub(crate) struct TimeText {
    shows: TimeDetail,
    /// The ms since the start.
    millis: u64,
    civil: Option<Civil>,
    /// Whether the date is the page's.
    is_today: bool,
    /// The offset of the zone, in s.
    offset: i32,
}

/// The offset of a zone in s, as text: `+02:00`.
#[derive(Clone, Copy)]
struct OffsetText(i32);

/// The times of a view's moments in a zone.
#[derive(Clone, Copy)]
pub(crate) struct ZonedTimes<'a> {
    clock: &'a Clock,
    zone: TimeZone<'a>,
    /// The ms of the page's moment.
    now: u64,
}

/// The instant of a time in ms since the beginning of 1970.
fn instant_of(time: u64) -> Option<Timestamp> {
    Timestamp::from_millisecond(i64::try_from(time).ok()?).ok()
}

/// The parts of a date with a time.
fn civil_of(shown: DateTime) -> Civil {
    Civil {
        year: shown.year(),
        month: shown.month(),
        day: shown.day(),
        hour: shown.hour(),
        minute: shown.minute(),
        second: shown.second(),
    }
}

/// Returns whether two are of the same day.
fn is_same_day(one: Option<Civil>, other: Option<Civil>) -> bool {
    match (one, other) {
        (Some(one), Some(other)) => {
            one.year == other.year && one.month == other.month && one.day == other.day
        }
        _ => false,
    }
}

impl<'a> ZonedTimes<'a> {
    /// Creates the times of a page at a moment in ms.
    pub(crate) fn new(clock: &'a Clock, zone: TimeZone<'a>, now: u64) -> ZonedTimes<'a> {
        ZonedTimes { clock, zone, now }
    }

    /// Returns whether times are clock times.
    pub(crate) fn has_clock(&self) -> bool {
        self.clock.is_set()
    }

    /// The ms of the page's moment.
    pub(crate) fn now(&self) -> u64 {
        self.now
    }

    /// The time of a moment in ms.
    pub(crate) fn at(&self, millis: u64, shows: TimeDetail) -> TimeText {
        self.text(self.clock.time_at(millis), millis, shows)
    }

    /// A time in ms since the beginning of 1970.
    pub(crate) fn of(&self, time: u64, shows: TimeDetail) -> TimeText {
        self.text(Some(time), time, shows)
    }

    /// A time in ms since the beginning of 1970, if there is one, or else a moment in ms.
    fn text(&self, time: Option<u64>, millis: u64, shows: TimeDetail) -> TimeText {
        let civil = self.civil(time);
        TimeText {
            shows,
            millis,
            civil,
            is_today: is_same_day(civil, self.civil(self.clock.time_at(self.now))),
            offset: self.offset(time),
        }
    }

    /// What a clock in the zone shows at a time in ms since the beginning of 1970.
    fn civil(&self, time: Option<u64>) -> Option<Civil> {
        let instant = instant_of(time?)?;
        Some(civil_of(self.zone.to_datetime(instant)))
    }

    /// The offset of the zone at a time, in s.
    fn offset(&self, time: Option<u64>) -> i32 {
        let Some(time) = time else {
            return 0;
        };
        match instant_of(time) {
            Some(instant) => self.zone.to_offset(instant).seconds(),
            None => 0,
        }
    }

    /// The ms of the moment at which the page's day began in the zone: moment 0 if the recording has no clock, or began
    /// later.
    pub(crate) fn day_began(&self) -> u64 {
        self.midnight().unwrap_or(0)
    }

    /// The ms of the moment of the last midnight, if there is a clock.
    fn midnight(&self) -> Option<u64> {
        let instant = instant_of(self.clock.time_at(self.now)?)?;
        let today = self.zone.to_datetime(instant).date();
        let midnight = DateTime::from_parts(today, Time::midnight());
        let began = self.zone.to_timestamp(midnight).ok()?;
        self.clock
            .moment_at(u64::try_from(began.as_millisecond()).ok()?)
    }

    /// The ms of a moment by the clock on the wall, from a midnight on: those that have passed between two moments have
    /// passed on the wall. Without a clock they are those since the start.
    pub(crate) fn on_wall(&self, millis: u64) -> u64 {
        let Some(time) = self.clock.time_at(self.now) else {
            return millis;
        };
        let Some(civil) = self.civil(Some(time)) else {
            return millis;
        };
        let hours = u64::try_from(civil.hour).unwrap_or(0);
        let minutes = u64::try_from(civil.minute).unwrap_or(0);
        let today = hours
            .saturating_mul(HOUR)
            .saturating_add(minutes.saturating_mul(MINUTE))
            .saturating_add(time % MINUTE);
        today.saturating_add(millis).saturating_sub(self.now)
    }
}

impl fmt::Display for OffsetText {
    fn fmt<W: fmt::Write>(&self, f: &mut fmt::Formatter<W>) -> fmt::Result {
        let sign = if self.0 < 0 { '-' } else { '+' };
        let minutes = self.0.unsigned_abs() / 60;
        let (hours, rest) = (minutes / 60, minutes % 60);
        write!(f, "{sign}{hours:02}:{rest:02}")
    }
}

/// Writes a date as `YYYY-MM-DD`.
fn write_date<W: fmt::Write>(f: &mut fmt::Formatter<W>, civil: &Civil) -> fmt::Result {
    let (year, month, day) = (civil.year, civil.month, civil.day);
    write!(f, "{year:04}-{month:02}-{day:02}")
}

/// Writes a clock time.
fn write_time<W: fmt::Write>(
    f: &mut fmt::Formatter<W>,
    civil: &Civil,
    seconds: bool,
) -> fmt::Result {
    let (hour, minute) = (civil.hour, civil.minute);
    write!(f, "{hour:02}:{minute:02}")?;
    if seconds {
        let second = civil.second;
        write!(f, ":{second:02}")?;
    }
    Ok(())
}

/// Writes a time since the start.
fn write_since<W: fmt::Write>(f: &mut fmt::Formatter<W>, millis: u64) -> fmt::Result {
    let (hours, minutes, seconds) = (
        millis / HOUR,
        millis % HOUR / MINUTE,
        millis % MINUTE / SECOND,
    );
    write!(f, "{hours}:{minutes:02}:{seconds:02}")
}

/// Writes a date with a time and the offset of its zone (RFC 3339).
fn write_machine<W: fmt::Write>(
    f: &mut fmt::Formatter<W>,
    civil: &Civil,
    offset: i32,
) -> fmt::Result {
    write_date(f, civil)?;
    write!(f, "T")?;
    write_time(f, civil, true)?;
    write!(f, "{}", OffsetText(offset))
}

/// Writes a date with a time, and their zone.
fn write_whole<W: fmt::Write>(
    f: &mut fmt::Formatter<W>,
    civil: &Civil,
    offset: i32,
) -> fmt::Result {
    write_date(f, civil)?;
    write!(f, " ")?;
    write_time(f, civil, true)?;
    if offset == 0 {
        write!(f, " UTC")
    } else {
        write!(f, " UTC{}", OffsetText(offset))
    }
}

impl fmt::Display for TimeText {
    fn fmt<W: fmt::Write>(&self, f: &mut fmt::Formatter<W>) -> fmt::Result {
        let Some(civil) = &self.civil else {
            return write_since(f, self.millis);
        };
        match self.shows {
            TimeDetail::Machine => write_machine(f, civil, self.offset),
            TimeDetail::Whole => write_whole(f, civil, self.offset),
            TimeDetail::TimeAlone => write_time(f, civil, true),
            TimeDetail::Minutes | TimeDetail::Seconds => {
                if !self.is_today {
                    write_date(f, civil)?;
                    write!(f, " ")?;
                }
                write_time(f, civil, self.shows == TimeDetail::Seconds)
            }
        }
    }
}
