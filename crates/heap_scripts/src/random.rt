//! Random numbers.

ghost use Rattle.std.specs.Prelude.{◌<◌};

/// The factor and the summand of the generator, which are Knuth's.
const FACTOR: u64 = 6_364_136_223_846_793_005;

const SUMMAND: u64 = 1_442_695_040_888_963_407;

/// A linear congruential generator.
#[derive(Drop)]
pub struct Random {
    state: u64,
}

impl Random {
    /// The generator of a thread: those of other numbers begin elsewhere.
    pub fn new(seed: u64, number: u32) -> Random {
        Random {
            state: seed.wrapping_add(u64::from(number).wrapping_mul(SUMMAND)),
        }
    }

    /// The next number below this one.
    pub fn below(&mut self, most: u32) -> u32
        requires { 0 < most }
        ensures { result < most }
    {
        self.state = self.state.wrapping_mul(FACTOR).wrapping_add(SUMMAND);
        ((self.state >> 33) % u64::from(most)) as u32
    }
}
