//! The time of the system's clock.
use std::io;
use std::time::{Duration, SystemTime};

/// The seconds of a day.
const DAY: u64 = 86_400;

/// The time since the beginning of 1970; 0 where the clock is before 1970.
pub fn now(rt: &HostRuntime) -> io::Result<Duration> {
    match SystemTime::now(rt)?.duration_since(SystemTime::UNIX_EPOCH) {
        Ok(passed) => Ok(passed),
        Err(_) => Ok(Duration::from_millis(0)),
    }
}

/// The time in ms, since the beginning of 1970.
pub fn millis_of(time: Duration) -> u64 {
    u64::try_from(time.as_millis()).unwrap_or(0)
}

/// The day of a time, in days since the beginning of 1970.
pub fn day_of(time: Duration) -> u64 {
    time.as_secs() / DAY
}
