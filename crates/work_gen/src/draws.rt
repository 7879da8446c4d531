// The numbers that a seed gives.
ghost use Rattle.std.specs.Prelude.{◌≡◌};
ghost use Rattle.work_gen.specs.Draws.{advanced, drawn};

const MULTIPLIER: u64 = 6_364_136_223_846_793_005;

const INCREMENT: u64 = 1_442_695_040_888_963_407;

// The low bits of a state, which are not drawn.
const LOW_BITS: u32 = 32;

/// A linear congruential generator of 64 bits.
#[derive(Drop)]
pub struct Draws {
    pub state: u64,
}

impl Draws {
    /// The next number.
    #[tactic(auto, unfolding(crate::specs::Draws::advanced))]
    pub fn draw(&mut self) -> u32
        ensures state { self.new.state ≡ advanced self.old.state }
        ensures number { result ≡ drawn (advanced self.old.state) }
    {
        self.state = self.state.wrapping_mul(MULTIPLIER).wrapping_add(INCREMENT);
        (self.state >> LOW_BITS) as u32
    }
}
