//! Pauses that double.
ghost use Rattle.std.specs.Prelude.{◌≡◌, ◌+◌, ◌-◌, ◌*◌, nat_le, min};

/// The times of tries: a pause follows each try, and each pause is twice as long as the pause before, up to a
/// longest one.
#[derive(Clone, Copy)]
pub struct Pauses {
    /// The moment of the next try, in ms.
    pub at: u64,
    pub pause: u64,
    pub longest: u64,
}

impl Pauses {
    /// Creates the times of tries. The first try is due at once; the first and the longest pause are in ms.
    pub fn new(first: u64, longest: u64) -> Pauses
        ensures { result ≡ record { at = 0; pause = first; longest = longest } }
    {
        Pauses {
            at: 0,
            pause: first,
            longest,
        }
    }

    /// Returns whether the next try is due.
    pub fn is_due(self, now: u64) -> bool
        ensures { result ≡ nat_le self.at now }
    {
        self.at <= now
    }

    /// The ms until the next try.
    pub fn left(self, now: u64) -> u64
        ensures { result ≡ self.at - now }
    {
        self.at.saturating_sub(now)
    }

    /// Records a try: the next one is due after the pause.
    pub fn tried(&mut self, now: u64)
        ensures next { self.new.at ≡ min (now + self.old.pause) u64.MAX }
        ensures pause { self.new.pause ≡ min (self.old.pause * 2) self.old.longest }
        ensures longest { self.new.longest ≡ self.old.longest }
    {
        self.at = now.saturating_add(self.pause);
        self.pause = self.pause.saturating_mul(2).min(self.longest);
    }
}
