//! What is known of a block whose memory is out with C.

ghost use Rattle.std.specs.Prelude.{◌≡◌};
ghost use Rattle.heap_geometry.specs.Need.{IsNeed};
ghost use Rattle.step_machine.specs.Needs.{IsNeed-prop};

use heap_geometry::need::Need;

/// A block whose memory is out with C: where it lies and what it serves, of which its token is made again when the
/// memory comes home.
#[derive(Drop)]
pub struct LentBlock {
    pub place: u32,
    pub need: Need,
    ghost is_need: { IsNeed need } by { IsNeed-prop need },
}

impl LentBlock {
    /// A block at this place, that serves this need.
    pub fn new(place: u32, need: Need) -> LentBlock
        requires { IsNeed need }
        ensures { (result.place ≡ place) × (result.need ≡ need) }
    {
        LentBlock { place, need }
    }
}
