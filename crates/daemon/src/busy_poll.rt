//! When to look for events before a wait.
use std::mem;

/// The most waits in a row that come without a look.
const MOST_UNLOOKED: u32 = 255;

/// Busy polling for events that come within microseconds, as from a client that asks again at once. A server that
/// looks isn't asleep, and needs not be woken.
///
/// It looks only after work, and backs off: after a look that finds nothing one wait comes without a look, after
/// the next such look three, then seven, up to [`MOST_UNLOOKED`]. A look that finds an event halves the
/// number.
#[derive(Drop)]
pub(crate) struct BusyPoll {
    /// Whether there was work since the last wait.
    worked: bool,
    /// The number of waits without a look after the last look.
    unlooked: u32,
    /// The number of these waits that are left.
    left: u32,
}

impl BusyPoll {
    /// Creates the record before any work.
    pub(crate) fn new() -> BusyPoll {
        BusyPoll {
            worked: false,
            unlooked: 0,
            left: 0,
        }
    }

    /// Records that a turn had work to do.
    pub(crate) fn works(&mut self) {
        self.worked = true;
    }

    /// Returns whether to look before the wait that comes now.
    pub(crate) fn is_due(&mut self) -> bool {
        if !mem::replace(&mut self.worked, false) {
            return false;
        }
        let due = self.left == 0;
        self.left = self.left.saturating_sub(1);
        due
    }

    /// Records a look. `found` indicates whether it found an event.
    pub(crate) fn looked(&mut self, found: bool) {
        let more = self.unlooked.saturating_mul(2).saturating_add(1);
        self.unlooked = if found {
            self.unlooked / 2
        } else {
            more.min(MOST_UNLOOKED)
        };
        self.left = self.unlooked;
    }
}
