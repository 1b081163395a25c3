// Numbers that look random and depend on the seed alone.
ghost use Rattle.std.specs.Prelude.{◌≡◌, ◌<◌, ◌/◌, ◌%◌, ◌^◌};
ghost use Rattle.demo_gen.specs.Draws.{next};

/// The state that the next number is drawn from.
#[derive(Debug, Drop)]
pub struct Draws {
    pub state: u64,
}

impl Draws {
    /// The next number below a limit.
    pub fn below(&mut self, limit: u64) -> u64
        requires { 0 < limit }
        ensures number { result ≡ next self.old.state / 2 ^ 33 % limit }
        ensures state { self.new.state ≡ next self.old.state }
    {
        self.state = next(self.state);
        (self.state >> 33) % limit
    }
}

/// A step of the generator of Knuth's MMIX.
#[tactic(auto, unfolding(crate::specs::Draws::next))]
fn next(state: u64) -> u64
    ensures { result ≡ next state }
{
    state
        .wrapping_mul(6_364_136_223_846_793_005)
        .wrapping_add(1_442_695_040_888_963_407)
}
