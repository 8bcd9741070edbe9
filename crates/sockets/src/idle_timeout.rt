//! The time for which a silent peer is awaited.
ghost use Rattle.std.specs.Prelude.{◌≡◌, ◌-◌, false};
ghost use Rattle.sockets.specs.IdleTimeout.{after_coming, left_at};

use base_types::Moment;
use std::marker::Model;

/// The time for which a peer may be silent, and the time for [`PART`] bytes of it, in ms.
const IDLE_MILLIS: u64 = 60_000;

/// The number of a peer's bytes that may take [`IDLE_MILLIS`] together, counted from the first of them.
const PART: usize = 4096;

/// The time that a peer has used up. Of a device only the time until its first byte counts; it may be silent
/// from then on. In clauses it is a record of the moment from which the time counts, the number of bytes that
/// came since (0 while the peer is silent), whether the peer is a device, and whether a byte of it came.
#[derive(Clone, Copy)]
pub(crate) struct IdleTimeout {
    from: Moment,
    came: usize,
    device: bool,
    /// Whether a byte of the peer came.
    spoke: bool,
}

impl Model for IdleTimeout {
    ghost use Rattle.sockets.specs.IdleTimeout.{IdleTimeoutRecord};

    ghost Value = { IdleTimeoutRecord };

    ghost view = { λ p. record { from = p.from; came = p.came; device = p.device; spoke = p.spoke } };

    ghost inverse = { λ p. record { from = p.from; came = p.came; device = p.device; spoke = p.spoke } };
}

impl IdleTimeout {
    /// Creates the record of a peer whose connection was just accepted. `device` indicates whether it is a device.
    pub(crate) fn new(moment: Moment, device: bool) -> IdleTimeout
        ensures { result ≡ record { from = moment; came = 0; device = device; spoke = false } }
    {
        IdleTimeout {
            from: moment,
            came: 0,
            device,
            spoke: false,
        }
    }

    /// Records that bytes were sent to the peer: its time begins anew.
    pub(crate) fn went(&mut self, moment: Moment)
        ensures { self.new ≡ record { from = moment; came = 0; device = self.old.device; spoke = self.old.spoke } }
    {
        self.from = moment;
        self.came = 0;
    }

    /// Counts `count` bytes of the peer. The time of the peer begins anew with the first byte of a part, and
    /// after the last byte of the part.
    pub(crate) fn came(&mut self, count: usize, moment: Moment)
        ensures { self.new ≡ after_coming count moment self.old }
    {
        let came = self.came.saturating_add(count);
        self.spoke = self.spoke || count > 0;
        if came >= PART {
            self.from = moment;
            self.came = 0;
            return;
        }
        if self.came == 0 {
            self.from = moment;
        }
        self.came = came;
    }

    /// Returns the ms that the peer has left, if its time is counted.
    pub(crate) fn left(self, moment: Moment) -> Option<u64>
        ensures { result ≡ left_at moment self }
    {
        if self.device && self.spoke {
            return None;
        }
        let passed = moment.millis().saturating_sub(self.from.millis());
        Some(IDLE_MILLIS.saturating_sub(passed))
    }
}
