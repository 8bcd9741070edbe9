/// A sequence of numbers that look random; equal seeds give equal sequences. It is G. Marsaglia's xorshift
/// with the shifts 13, 7 and 17 (Xorshift RNGs, 2003).
#[derive(Drop)]
pub(crate) struct Random {
    state: u64,
}

impl Random {
    /// Creates the sequence of a seed; the seed 0 has the sequence of the seed 1.
    pub(crate) fn new(seed: u64) -> Random {
        Random { state: seed.max(1) }
    }

    /// The next number below a bound; 0 where the bound is 0.
    pub(crate) fn below(&mut self, bound: u64) -> u64 {
        self.state ^= self.state.wrapping_shl(13);
        self.state ^= self.state.wrapping_shr(7);
        self.state ^= self.state.wrapping_shl(17);
        self.state.checked_rem(bound).unwrap_or(0)
    }
}
