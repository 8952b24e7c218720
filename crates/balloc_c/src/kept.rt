//! What a slot of the table has: a block that is home, what is known of one whose memory is out with C, what the pass keeps,
//! home or out, or nothing.

ghost use Rattle.std.specs.Prelude.{◌≡◌, Some, false};
ghost use Rattle.live_heap.specs.declared.block.Block.{Block as Lot};
ghost use Rattle.balloc_c.specs.declared.kept.Kept.TheVariants as kept;
ghost use Rattle.balloc_c.specs.Kept.{block_of, content_of, is_laid, is_out, kept_in, words_in};

use crate::lent::LentBlock;
use heap_geometry::need::usable;
use live_heap::block::Block;
use live_heap::plain::Memory;

/// A block of a pass.
#[derive(Drop)]
pub enum Kept {
    /// Its words are home: calls write and read them.
    Home(Block),
    /// Its words are out with C.
    Out(LentBlock),
    /// Its words are home, and the pass keeps it to give it again: no number names it.
    Resting(Block),
    /// Its words are out, and the pass keeps them to give them again: no number names it.
    Laid(Memory),
}

impl Kept {
    /// The block, whose words are home.
    pub fn into_home(self) -> Block
        requires out { is_out (Some self) ≡ false }
        requires laid { is_laid (Some self) ≡ false }
        ensures { result ≡ block_of self }
    {
        match self {
            Kept::Home(block) => block,
            Kept::Resting(block) => block,
            _ => unreachable!(),
        }
    }
}

/// What lies in a slot: a block, as `Kept` tells it, or nothing. One tag tells all, and a block that is kept, or is given again,
/// stays where it lies.
#[derive(Drop)]
pub enum Content {
    Vacant,
    Home(Block),
    Out(LentBlock),
    Resting(Block),
    Laid(Memory),
}

impl Content {
    /// A block, or nothing.
    pub fn of(kept: Option<Kept>) -> Content
        ensures { result ≡ content_of kept }
    {
        match kept {
            None => Content::Vacant,
            Some(Kept::Home(block)) => Content::Home(block),
            Some(Kept::Out(lent)) => Content::Out(lent),
            Some(Kept::Resting(block)) => Content::Resting(block),
            Some(Kept::Laid(memory)) => Content::Laid(memory),
        }
    }

    /// The block, if there is one.
    pub fn into_kept(self) -> Option<Kept>
        ensures { result ≡ kept_in self }
    {
        match self {
            Content::Vacant => None,
            Content::Home(block) => Some(Kept::Home(block)),
            Content::Out(lent) => Some(Kept::Out(lent)),
            Content::Resting(block) => Some(Kept::Resting(block)),
            Content::Laid(memory) => Some(Kept::Laid(memory)),
        }
    }

    /// How many usable words the block has, at most 131,071; none where there is no block.
    pub fn usable_words(&self) -> u32
        ensures { result ≡ words_in (kept_in self.now) }
    {
        match self {
            Content::Vacant => 0,
            Content::Home(block) => block.usable_words(),
            Content::Out(lent) => usable(lent.need),
            Content::Resting(block) => block.usable_words(),
            Content::Laid(memory) => memory.usable_words(),
        }
    }

    /// The block that is home rests.
    #[inline(always)]
    pub fn rested(self) -> Content
        requires { (block : Lot) × (kept_in self ≡ Some (kept.Home block)) }
        ensures { (block : Lot) × (kept_in self ≡ Some (kept.Home block)) × (kept_in result ≡ Some (kept.Resting block)) }
    {
        match self {
            Content::Home(block) => Content::Resting(block),
            other => other,
        }
    }

    /// The block that rests is given again.
    #[inline(always)]
    pub fn woken(self) -> Content
        requires { (block : Lot) × (kept_in self ≡ Some (kept.Resting block)) }
        ensures { (block : Lot) × (kept_in self ≡ Some (kept.Resting block)) × (kept_in result ≡ Some (kept.Home block)) }
    {
        match self {
            Content::Resting(block) => Content::Home(block),
            other => other,
        }
    }
}
