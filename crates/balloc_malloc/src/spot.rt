//! Where C is told a pointer.

ghost use Rattle.std.specs.Prelude.{◌≡◌};

use plain_words::Start;

/// A variable of C's for a pointer, which it reads when the call has returned.
#[repr(C)]
#[derive(Drop)]
pub struct Spot {
    pub at: *mut u64,
}

impl Spot {
    /// The pointer to where memory begins.
    pub fn of(start: Start) -> Spot
        ensures { result.at ≡ start.at }
    {
        Spot { at: start.at }
    }
}
