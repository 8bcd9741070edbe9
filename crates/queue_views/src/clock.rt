//! The times of moments.
use base_types::Moment;
use jiff::Timestamp;
use std::alloc::{AllocError, Global};
use std::str::FromStr;

/// A time of moment 0, in ms since the beginning of 1970, that is valid from a moment on.
#[derive(Clone, Copy)]
struct Zero {
    /// The ms of the moment.
    from: u64,
    time: u64,
}

/// The times of an engine's moments. The moments of a server that was started again go on from the last turn
/// before, so that the time of moment 0 is another from then on.
#[derive(Drop)]
pub struct Clock {
    /// By rising `from`.
    zeros: Vec<Zero>,
}

/// The time of moment 0 that the comment of a recording gives, without its `#`, in ms since the beginning of
/// 1970: ` clock 2026-11-29T09:05:47.385Z`. `None` if the comment is another.
pub fn read_clock(comment: &[u8]) -> Option<u64> {
    let written = comment.strip_prefix(b" clock ")?;
    let time = Timestamp::from_str(str::from_utf8(written).ok()?).ok()?;
    u64::try_from(time.as_millisecond()).ok()
}

impl Clock {
    /// Creates a clock that gives no time.
    pub fn new(alloc: Global) -> Clock {
        Clock {
            zeros: Vec::new(alloc),
        }
    }

    /// Sets the time of moment 0, in ms since the beginning of 1970, for this moment and those after it; the
    /// first time set is valid for all moments. The only error is out of memory.
    pub fn set(&mut self, from: Moment, time: u64) -> Result<(), AllocError> {
        let is_same = match self.zeros.last() {
            Some(last) => last.time == time,
            None => false,
        };
        if !is_same {
            let from = from.millis();
            self.zeros.push(Zero { from, time })?;
        }
        Ok(())
    }

    /// Returns whether the clock gives times.
    pub fn is_set(&self) -> bool {
        !self.zeros.is_empty()
    }

    /// The time at a moment, in ms since the beginning of 1970. The moment is in ms since the start, and may be
    /// after the last.
    pub fn time_at(&self, millis: u64) -> Option<u64> {
        let mut found = self.zeros.first().copied();
        for zero in &self.zeros {
            if zero.from <= millis {
                found = Some(*zero);
            }
        }
        let zero = found?;
        Some(zero.time.saturating_add(millis))
    }

    /// The moment at a time, which is in ms since the beginning of 1970: the last moment of an ended server if it
    /// is before the next was started, and moment 0 if it is before the start. `None` if the clock gives no
    /// times.
    pub fn moment_at(&self, time: u64) -> Option<u64> {
        let mut moment = None;
        for zero in &self.zeros {
            let passed = time.saturating_sub(zero.time);
            moment = match moment {
                None => Some(passed),
                Some(earlier) if passed < zero.from => Some(zero.from.min(earlier)),
                Some(_) => Some(passed),
            };
        }
        moment
    }

    /// The ms on the wall from one moment in ms to another. They are more than those between the moments if the server
    /// was down in between. Without times they are those between the moments.
    pub fn between(&self, from: u64, to: u64) -> u64 {
        match (self.time_at(from), self.time_at(to)) {
            (Some(from), Some(to)) => to.saturating_sub(from),
            _ => to.saturating_sub(from),
        }
    }

    /// A copy of the clock. The only error is out of memory.
    pub fn copied(&self, alloc: Global) -> Result<Clock, AllocError> {
        let mut zeros = Vec::with_capacity(alloc, self.zeros.len())?;
        for zero in &self.zeros {
            zeros.push(*zero)?;
        }
        Ok(Clock { zeros })
    }
}
