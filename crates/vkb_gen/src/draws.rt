//! The numbers that a sample is drawn by.
ghost use Rattle.std.specs.Prelude.{◌≡◌, ◌<◌};
ghost use Rattle.vkb_gen.specs.Draws.{drawn, next_state};

/// What Knuth's generator for MMIX multiplies its state by.
const MULTIPLIER: u64 = 6_364_136_223_846_793_005;

/// What it adds then.
const INCREMENT: u64 = 1_442_695_040_888_963_407;

/// The generator, as far as it has come.
#[derive(Drop)]
pub(crate) struct Draws {
    state: u64,
}

impl Draws {
    pub(crate) fn from_seed(seed: u64) -> Draws
        ensures { result.state ≡ seed }
    {
        Draws { state: seed }
    }

    /// The next number below a bound. Only the highest bits of the state count, as the lowest repeat soon.
    #[tactic(auto, unfolding(crate::specs::Draws::next_state, crate::specs::Draws::drawn))]
    pub(crate) fn below(&mut self, bound: u32) -> u32
        requires { 0 < bound }
        ensures state { self.new.state ≡ next_state self.old.state }
        ensures value { result ≡ drawn self.new.state bound }
        ensures small { result < bound }
    {
        self.state = self.state.wrapping_mul(MULTIPLIER).wrapping_add(INCREMENT);
        ((self.state >> 33) % u64::from(bound)) as u32
    }
}
