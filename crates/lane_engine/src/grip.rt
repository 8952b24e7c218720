//! A block that a caller of a machine holds.

ghost use Rattle.heap_geometry.specs.Need.{IsNeed};
ghost use Rattle.step_machine.specs.Needs.{IsNeed-prop};

use errand_steps::told::MakesBlocks;
use heap_geometry::need::{Need, usable};
use step_machine::token::Token;

/// A block that a caller of a machine holds, since a heap alone makes a `Block`. `place` is the arena word of its
/// prefix.
#[derive(Debug, PartialEq, Eq, Drop)]
pub struct Grip {
    pub place: u32,
    pub need: Need,
    ghost is_need: { IsNeed need } by { IsNeed-prop need },
}

impl Token for Grip {
    ghost place_of = { λ grip. grip.place };

    ghost need_of = { λ grip. grip.need };

    fn words(&self) -> u32 {
        usable(self.need)
    }

    fn need(&self) -> Need {
        self.need
    }

    fn place(&self) -> u32 {
        self.place
    }
}

/// What makes the blocks in hand that a machine's steps tell of.
pub(crate) struct Grips;

impl MakesBlocks for Grips {
    type Block = Grip;

    ghost place_of = { λ grip. grip.place };

    ghost need_of = { λ grip. grip.need };

    fn made(place: u32, need: Need) -> Grip {
        Grip { place, need }
    }
}
