//! The token of a caller.

ghost use Rattle.std.specs.Prelude.{◌≡◌, ◌<◌, ◌≤◌};
ghost use Rattle.errand_steps.specs.Points.{is_idle};

use crate::view::View;
use atomic_region::Seat;
use errand_steps::errand::Errand;

/// A caller of a heap: a thread makes its calls with it, and no other thread with the same one. It can't
/// be copied, cloned or made; `Heap::open` gives one for each caller.
#[derive(Drop)]
pub struct Pass {
    pub(crate) seat: Seat<View>,
    pub(crate) errand: Errand,
    /// How many blocks' words are out with it.
    pub(crate) out: u32,
}

impl Pass {
    /// The caller's number.
    pub fn caller(&self) -> u32
        ensures value { result ≡ self.now.errand.caller }
        ensures within { result < self.now.errand.geometry.callers }
    {
        self.errand.caller()
    }

    /// Whether it is in no call.
    pub fn idle(&self) -> bool
        ensures { result ≡ is_idle self.now.errand.point }
    {
        self.errand.idle()
    }

    /// How many blocks' words are out with it, as plain memory.
    pub fn out(&self) -> u32
        ensures { result ≡ self.now.out }
    {
        self.out
    }

    /// How many turns it has begun, at most the turn limit.
    pub fn turns(&self) -> u64
        ensures value { result ≡ self.now.errand.turns }
        ensures within { result ≤ self.now.errand.geometry.turn_limit }
    {
        self.errand.turns()
    }

    /// How many exchanges it has won, at most 2^64 - 1.
    pub fn won(&self) -> u64
        ensures { result ≡ self.now.errand.won }
    {
        self.errand.won()
    }

    /// How many exchanges it has lost, at most 2^64 - 1.
    pub fn lost(&self) -> u64
        ensures { result ≡ self.now.errand.lost }
    {
        self.errand.lost()
    }

    /// How many empty superblocks its allocations took for partial ones, at most 2^64 - 1.
    pub fn cleared(&self) -> u64
        ensures { result ≡ self.now.errand.cleared }
    {
        self.errand.cleared()
    }
}
