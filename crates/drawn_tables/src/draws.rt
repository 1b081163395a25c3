// Numbers that look drawn at random, the same in each run.
ghost use Rattle.std.specs.Prelude.{◌<◌, ◌≤◌};

/// A linear congruential generator of 64 bits (Knuth's MMIX), of which the upper 31 are drawn.
#[derive(Drop)]
pub struct Draws {
    state: u64,
}

impl Draws {
    /// The draws of a seed.
    pub fn new(seed: u64) -> Draws {
        Draws { state: seed }
    }

    /// The next number below another one.
    pub fn below(&mut self, most: u8) -> u8
        requires { 1 ≤ most }
        ensures { result < most }
    {
        self.state = self
            .state
            .wrapping_mul(6_364_136_223_846_793_005)
            .wrapping_add(1_442_695_040_888_963_407);
        ((self.state >> 33) % u64::from(most)) as u8
    }
}
