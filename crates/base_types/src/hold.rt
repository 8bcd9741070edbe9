//! The values of job-hold-until.
ghost use Rattle.std.specs.Prelude.{◌≡◌};
ghost use Rattle.base_types.specs.Hold.{hold_keyword, hold_of_keyword, hold_where, is_held};

/// The values of job-hold-until that the server supports (RFC 8011, section 5.2.2).
#[derive(Clone, Copy, PartialEq, Eq)]
pub enum Hold {
    /// The job isn't held.
    NoHold,
    /// The job is held until it is released.
    Indefinite,
}

impl Hold {
    /// The value of a job that is held or not.
    pub fn held_where(held: bool) -> Hold
        ensures { result ≡ hold_where held }
    {
        if held { Hold::Indefinite } else { Hold::NoHold }
    }

    /// Returns whether the value holds a job.
    pub fn is_held(self) -> bool
        ensures { result ≡ is_held self }
    {
        match self {
            Hold::NoHold => false,
            Hold::Indefinite => true,
        }
    }

    /// The keyword of the value.
    pub fn keyword(self) -> &'static str
        ensures { result.now ≡ hold_keyword self }
    {
        match self {
            Hold::NoHold => "no-hold",
            Hold::Indefinite => "indefinite",
        }
    }

    /// The value of a keyword.
    pub fn of_keyword(word: &[u8]) -> Option<Hold>
        ensures { result ≡ hold_of_keyword word.now }
    {
        if word == Hold::NoHold.keyword().as_bytes() {
            Some(Hold::NoHold)
        } else if word == Hold::Indefinite.keyword().as_bytes() {
            Some(Hold::Indefinite)
        } else {
            None
        }
    }
}
