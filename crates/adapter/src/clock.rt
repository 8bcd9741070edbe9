//! The time since a start.
use std::io;
use std::time::{Clock, Instant};

/// Returns the ms since a start. The error is the clock's.
pub(crate) fn millis_since(clock: &impl Clock, start: &Instant) -> io::Result<u64> {
    let passed = start.elapsed(clock)?.as_millis();
    Ok(u64::try_from(passed).unwrap_or(u64::MAX))
}
