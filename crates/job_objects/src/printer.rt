//! The part of a printer that changes.
ghost use Rattle.std.specs.Prelude.{◌≡◌, true, false};

use std::marker::Model;

/// The part of a printer that changes: whether it is paused (RFC 8011, section 4.2.7). A paused printer takes
/// jobs and starts none. In clauses it is the boolean of that.
#[derive(Clone, Copy, PartialEq, Eq)]
pub struct Printer {
    paused: bool,
}

impl Model for Printer {
    ghost use Rattle.std.specs.Prelude.{Bool};

    ghost Value = { Bool };

    ghost view = { λ p. p.paused };

    ghost inverse = { λ b. record { paused = b } };
}

impl Printer {
    /// Creates a printer that isn't paused.
    pub fn new() -> Printer
        ensures { result ≡ false }
    {
        Printer { paused: false }
    }

    /// Returns whether the printer is paused.
    pub fn is_paused(&self) -> bool
        ensures { result ≡ self.now }
    {
        self.paused
    }

    /// Pauses the printer. A paused printer stays paused.
    pub fn pause(&mut self)
        ensures { self.new ≡ true }
    {
        self.paused = true;
    }

    /// Ends the pause of the printer. A printer that isn't paused stays so.
    pub fn resume(&mut self)
        ensures { self.new ≡ false }
    {
        self.paused = false;
    }
}
