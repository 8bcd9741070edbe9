//! The date of a log.
use base_types::Moment;
use jiff_core::civil::DateTime;
use std::alloc::{AllocError, Global};

/// The ns of a ms.
const MILLI: i128 = 1_000_000;

/// The ms of a day.
const DAY: u64 = 86_400_000;

/// The date that a log has at its start and at each midnight of UTC, so that its moments can be dated.
#[derive(Drop)]
pub(crate) struct Calendar {
    /// The ms since the beginning of 1970 at moment 0.
    zero: u64,
    /// The day of the last date, in days since the beginning of 1970.
    day: Option<u64>,
}

impl Calendar {
    /// Creates a calendar that has given no date. `zero` is the time of moment 0, in ms since the beginning of
    /// 1970.
    pub(crate) fn new(zero: u64) -> Calendar {
        Calendar { zero, day: None }
    }

    /// Returns whether the date is due at a moment: none was given on its day.
    pub(crate) fn takes_day(&mut self, moment: Moment) -> bool {
        let day = Some(self.zero.saturating_add(moment.millis()) / DAY);
        let due = self.day != day;
        self.day = day;
        due
    }

    /// The time of moment 0 (RFC 3339) with its ms, if the year has four digits.
    pub(crate) fn zero(&self, alloc: Global) -> Result<Option<String>, AllocError> {
        let Ok(DateTime { date, time }) = DateTime::from_nanosecond(i128::from(self.zero) * MILLI)
        else {
            return Ok(None);
        };
        let (year, month, day) = (date.year, date.month, date.day);
        let (hour, minute, second) = (time.hour, time.minute, time.second);
        let millis = time.subsec_nanosecond / 1_000_000;
        let text = format!(in alloc;
            "{year:04}-{month:02}-{day:02}T{hour:02}:{minute:02}:{second:02}.{millis:03}Z"
        )?;
        Ok(Some(text))
    }
}
