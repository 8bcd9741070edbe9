//! The finishings of a job's sheets.
ghost use Rattle.std.specs.Prelude.{◌≡◌};
ghost use Rattle.base_types.specs.Finishings.{no_finishings, has_finishings};

/// The finishings that a job needs, or that a device has (RFC 8011, section 5.2.6).
#[derive(Clone, Copy, PartialEq, Eq)]
pub struct Finishings {
    /// The sheets of a copy are stapled.
    pub staple: bool,
    /// The sheets are punched.
    pub punch: bool,
    /// The sheets of a copy are bound.
    pub bind: bool,
}

impl Finishings {
    /// No finishings.
    pub fn none() -> Finishings
        ensures { result ≡ no_finishings }
    {
        Finishings {
            staple: false,
            punch: false,
            bind: false,
        }
    }

    /// Returns whether each of the wanted finishings is among these.
    pub fn has(self, wanted: Finishings) -> bool
        ensures { result ≡ has_finishings self wanted }
    {
        (!wanted.staple || self.staple)
            && (!wanted.punch || self.punch)
            && (!wanted.bind || self.bind)
    }
}
