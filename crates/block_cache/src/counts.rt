//! What a cache's pass counts.

ghost use Rattle.std.specs.Prelude.{◌≡◌};

use crate::cache::Cache;

impl Cache {
    /// How many turns its pass has taken.
    pub fn turns(&self) -> u64
        ensures { result ≡ self.now.pass.errand.turns }
    {
        self.pass.turns()
    }

    /// How many exchanges its pass has won, at most 2^64 - 1.
    pub fn won(&self) -> u64
        ensures { result ≡ self.now.pass.errand.won }
    {
        self.pass.won()
    }

    /// How many exchanges its pass has lost, at most 2^64 - 1.
    pub fn lost(&self) -> u64
        ensures { result ≡ self.now.pass.errand.lost }
    {
        self.pass.lost()
    }

    /// How many empty superblocks its pass has taken for partial ones, at most 2^64 - 1.
    pub fn cleared(&self) -> u64
        ensures { result ≡ self.now.pass.errand.cleared }
    {
        self.pass.cleared()
    }
}
