//! When kept lines are written.
use base_types::Moment;

/// The number of bytes of kept lines at which they are written. The system takes them into its memory page by page,
/// and the more pages there are in a call, the less each costs.
const MOST: usize = 262_144;

/// The longest time for which fewer than [`MOST`] bytes are kept, in ms.
const LONGEST: u64 = 100;

/// The pace at which kept lines are written: once they are many or old.
#[derive(Clone, Copy)]
pub(crate) struct Pace {
    /// The moment at which lines were last written.
    written: Moment,
}

impl Pace {
    /// Creates the pace of lines of which the last were written at a moment.
    pub(crate) fn from(written: Moment) -> Pace {
        Pace { written }
    }

    /// Records that lines are written at a moment.
    pub(crate) fn writes(&mut self, moment: Moment) {
        self.written = moment;
    }

    /// Returns whether `kept` bytes of lines are to be written at a moment.
    pub(crate) fn is_due(self, kept: usize, moment: Moment) -> bool {
        kept >= MOST || (kept > 0 && self.age(moment) >= LONGEST)
    }

    /// Returns the ms from a moment until `kept` bytes of lines are old, at most `most`.
    pub(crate) fn time_left(self, kept: usize, moment: Moment, most: u64) -> u64 {
        if kept == 0 {
            return most;
        }
        LONGEST.saturating_sub(self.age(moment)).min(most)
    }

    /// The ms since lines were last written.
    fn age(self, moment: Moment) -> u64 {
        moment.millis().saturating_sub(self.written.millis())
    }
}
