//! The token of a live block.

ghost use Rattle.std.specs.Prelude.{◌≡◌};
ghost use Rattle.heap_geometry.specs.Need.{IsNeed, usable_words};
ghost use Rattle.step_machine.specs.Needs.{IsNeed-prop};

use errand_steps::told::MakesBlocks;
use heap_geometry::need::{Need, usable};
use step_machine::token::Token;

/// A block that a caller of a heap owns, or owned: it can't be copied, cloned or made, and whoever frees
/// it or puts it on a shelf gives it away.
#[derive(Debug, PartialEq, Eq, Drop)]
pub struct Block {
    pub(crate) place: u32,
    pub(crate) need: Need,
    ghost is_need: { IsNeed need } by { IsNeed-prop need },
}

impl Block {
    /// Its usable words, at most 131,071.
    pub fn usable_words(&self) -> u32
        ensures { result ≡ usable_words self.now.need }
    {
        usable(self.need)
    }

    /// What it serves: its size class, or its units.
    pub fn need(&self) -> Need
        ensures { result ≡ self.now.need }
    {
        self.need
    }

    /// The arena word of its prefix; its usable words follow.
    pub fn place(&self) -> u32
        ensures { result ≡ self.now.place }
    {
        self.place
    }
}

impl Token for Block {
    ghost place_of = { λ block. block.place };

    ghost need_of = { λ block. block.need };

    fn words(&self) -> u32 {
        self.usable_words()
    }

    fn need(&self) -> Need {
        self.need()
    }

    fn place(&self) -> u32 {
        self.place()
    }
}

/// Who makes the blocks that steps tell of: the heap alone.
pub(crate) struct Tokens;

impl MakesBlocks for Tokens {
    type Block = Block;

    ghost place_of = { λ block. block.place };

    ghost need_of = { λ block. block.need };

    #[inline(always)]
    fn made(place: u32, need: Need) -> Block {
        Block { place, need }
    }
}
