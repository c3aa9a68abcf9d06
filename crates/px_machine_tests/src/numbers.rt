//! Numbers that look random, the same in each run.

#[derive(Drop)]
pub(crate) struct Numbers {
    state: u64,
}

impl Numbers {
    /// Those that come after a first one.
    pub(crate) fn from(state: u64) -> Numbers {
        Numbers { state }
    }

    /// The next, below 2^31, by a linear congruence of 64 bits.
    pub(crate) fn draw(&mut self) -> u32 {
        self.state = self
            .state
            .wrapping_mul(6364136223846793005)
            .wrapping_add(1442695040888963407);
        (self.state >> 33) as u32
    }
}
