//! Moments, in ms from the server's start.
ghost use Rattle.std.specs.Prelude.{◌≡◌, ℕ, ◌↔◌, IsSome, IfSome, max};
ghost use Rattle.base_types.specs.Ranges.{IsMoment};

use crate::limits::Limits;
use std::marker::Model;

/// A moment, in ms since the server's start: 0 to [`Limits::LAST_MOMENT`]. In clauses it is that
/// number.
#[derive(Clone, Copy, PartialEq, Eq, PartialOrd, Ord)]
pub struct Moment {
    millis: u64,
}

impl Model for Moment {
    ghost Value = { ℕ };

    ghost view = { λ m. m.millis };

    ghost invariant = { λ m. IsMoment m.millis };

    ghost inverse = { λ n. record { millis = n } };
}

impl Moment {
    /// The server's start.
    pub fn start() -> Moment
        ensures { result ≡ 0 }
    {
        Moment { millis: 0 }
    }

    /// The moment this many ms after the start, if it is in range.
    pub fn new(millis: u64) -> Option<Moment>
        ensures in_range { IsSome result ↔ IsMoment millis }
        ensures value { IfSome result (λ m. m ≡ millis) }
    {
        if millis <= Limits::LAST_MOMENT {
            Some(Moment { millis })
        } else {
            None
        }
    }

    /// The ms since the start.
    pub fn millis(self) -> u64
        ensures value { result ≡ self }
        ensures in_range { IsMoment self }
    {
        self.millis
    }

    /// The later of two moments.
    pub fn later(self, other: Moment) -> Moment
        ensures { result ≡ max self other }
    {
        Moment {
            millis: self.millis.max(other.millis),
        }
    }
}
