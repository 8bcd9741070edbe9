//! Moments of the system's clock.
use base_types::{Limits, Moment};
use std::io;
use std::time::{Clock, Instant, SystemTime};

/// The time of moment 0, in ms since the beginning of 1970, if it is `now` now. The error is the clock's.
pub(crate) fn time_of_zero(clock: &impl Clock, now: Moment) -> io::Result<u64> {
    let passed = match SystemTime::now(clock)?.duration_since(SystemTime::UNIX_EPOCH) {
        Ok(passed) => u64::try_from(passed.as_millis()).unwrap_or(0),
        Err(_) => 0,
    };
    Ok(passed.saturating_sub(now.millis()))
}

/// Returns the ms since a start, at most [`Limits::LAST_MOMENT`]. The error is the clock's.
pub(crate) fn moment_since(clock: &impl Clock, start: &Instant) -> io::Result<Moment> {
    let passed = start.elapsed(clock)?.as_millis();
    let millis = u64::try_from(passed).unwrap_or(Limits::LAST_MOMENT);
    Ok(Moment::new(millis.min(Limits::LAST_MOMENT)).unwrap_or(Moment::start()))
}

/// Returns the moment that is as many ms after `from` as passed since a start, at most [`Limits::LAST_MOMENT`]. The
/// error is the clock's.
pub(crate) fn moment_after(
    clock: &impl Clock,
    start: &Instant,
    from: Moment,
) -> io::Result<Moment> {
    let passed = moment_since(clock, start)?.millis();
    let millis = from.millis().saturating_add(passed);
    Ok(Moment::new(millis.min(Limits::LAST_MOMENT)).unwrap_or(from))
}
