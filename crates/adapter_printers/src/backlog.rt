//! The bytes of a job that wait in this machine, once all of them are written.
use adapter_core::Pauses;

/// The first and the longest pause between two looks, in ms.
const FIRST_PAUSE: u64 = 125;

const LONGEST_PAUSE: u64 = 1_000;

/// The number of waiting bytes before the first look.
const UNKNOWN: u64 = u64::MAX;

/// The number of bytes as which the end of the writing side counts.
const END: u64 = 1;

/// The bytes of a job that the system has taken and the printer's machine hasn't, by the last look.
#[derive(Clone, Copy)]
pub(crate) struct Backlog {
    bytes: u64,
    looks: Pauses,
}

impl Backlog {
    /// Creates the record of no waiting bytes.
    pub(crate) fn none() -> Backlog {
        Backlog {
            bytes: 0,
            looks: Pauses::new(FIRST_PAUSE, LONGEST_PAUSE),
        }
    }

    /// Creates the record of a moment at which all bytes are written. Most printers that close have done that
    /// before the first look.
    pub(crate) fn unknown(now: u64) -> Backlog {
        let mut looks = Pauses::new(FIRST_PAUSE, LONGEST_PAUSE);
        looks.tried(now);
        Backlog {
            bytes: UNKNOWN,
            looks,
        }
    }

    /// Returns whether bytes wait, as far as is known.
    pub(crate) fn waits(self) -> bool {
        self.bytes > 0
    }

    /// Returns whether a look is due.
    pub(crate) fn is_due(self, now: u64) -> bool {
        self.waits() && self.looks.is_due(now)
    }

    /// Returns the ms until the next look, if one is due later.
    pub(crate) fn pause(self, now: u64) -> Option<u64> {
        self.waits().then_some(self.looks.left(now))
    }

    /// Records the result of a look. Returns whether bytes went. A look may miss a socket, and the last
    /// number stays then. If no look had a number, no bytes count as waiting.
    pub(crate) fn update(&mut self, reported: Option<u64>, now: u64) -> bool {
        self.looks.tried(now);
        let bytes = match reported {
            Some(bytes) => bytes.saturating_sub(END),
            None if self.bytes == UNKNOWN => 0,
            None => self.bytes,
        };
        let went = bytes < self.bytes;
        self.bytes = bytes;
        went
    }
}
