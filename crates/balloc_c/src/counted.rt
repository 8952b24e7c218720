//! What C is told of a heap that has closed.

ghost use Rattle.balloc_c.specs.Census.{IsCountOf};
ghost use Rattle.std.specs.Prelude.{◌≡◌, true};

use heap_census::census::Census;
use heap_census::counting::census;
use live_heap::closed::Closed;

/// What a heap held when it closed.
#[repr(C)]
pub struct Counted {
    /// Whether it is told. If not, the other fields tell nothing.
    pub counted: bool,
    /// How many exchanges all passes won, at most 2^64 - 1.
    pub won: u64,
    /// How many they lost, at most 2^64 - 1.
    pub lost: u64,
    /// Its blocks, and what was free.
    pub census: Census,
}

impl Counted {
    /// Tells what a closed heap holds.
    pub fn tell(&mut self, closed: &Closed)
        ensures counted { self.new.counted ≡ true }
        ensures count { IsCountOf closed.now self.new }
    {
        self.counted = true;
        self.won = closed.won();
        self.lost = closed.lost();
        self.census = census(closed);
    }
}
