//! The time and the bytes for which a connection that was given up is still read.
ghost use Rattle.std.specs.Prelude.{◌≡◌, ◌-◌};
ghost use Rattle.sockets.specs.LingerLimit.{is_used_up};

use base_types::Moment;
use std::marker::Model;

/// The time for which a connection is still read, in ms.
const LINGER: u64 = 2_000;

/// The number of its bytes that are dropped at most.
const DROPPED: usize = 1_048_576;

/// The time and the bytes that are left to a peer whose connection was given up. In clauses it is a record of
/// the moment at which it was given up, and the number of bytes that may still come.
#[derive(Clone, Copy)]
pub(crate) struct LingerLimit {
    from: Moment,
    bytes: usize,
}

impl Model for LingerLimit {
    ghost use Rattle.sockets.specs.LingerLimit.{LingerLimitRecord};

    ghost Value = { LingerLimitRecord };

    ghost view = { λ a. record { from = a.from; bytes = a.bytes } };

    ghost inverse = { λ a. record { from = a.from; bytes = a.bytes } };
}

impl LingerLimit {
    /// Creates the linger limit of a peer whose connection is given up now.
    pub(crate) fn new(moment: Moment) -> LingerLimit
        ensures { result ≡ record { from = moment; bytes = 1048576 } }
    {
        LingerLimit {
            from: moment,
            bytes: DROPPED,
        }
    }

    /// Counts `count` bytes that came and were dropped.
    pub(crate) fn dropped(&mut self, count: usize)
        ensures { self.new ≡ record { from = self.old.from; bytes = self.old.bytes - count } }
    {
        self.bytes = self.bytes.saturating_sub(count);
    }

    /// Returns whether the connection is to be closed now.
    pub(crate) fn is_used_up(self, moment: Moment) -> bool
        ensures { result ≡ is_used_up moment self }
    {
        let passed = moment.millis().saturating_sub(self.from.millis());
        self.bytes == 0 || passed >= LINGER
    }

    /// Returns the ms until the connection is closed at the latest.
    pub(crate) fn left(self, moment: Moment) -> u64
        ensures { result ≡ 2000 - (moment - self.from) }
    {
        let passed = moment.millis().saturating_sub(self.from.millis());
        LINGER.saturating_sub(passed)
    }
}
