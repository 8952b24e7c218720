//! What the whole calls of a heap answer.

use crate::block::Block;

/// The answer of `Heap::alloc`, and of a cache in front of a heap, whose blocks are `B`: tokens, or their memory.
#[derive(Debug, PartialEq, Eq, Drop)]
pub enum AllocAnswer<B = Block> {
    /// The block, which is the pass's.
    Given(B),
    /// For a small need no frame was left, behind a look in vain for a superblock of its class; for a
    /// large one no run of units was free.
    Refused,
    /// No block has so many words.
    TooLarge,
    /// The pass has taken all its turns.
    Spent,
    /// As many steps lost an exchange or cleared a superblock as there were tries. The call is still
    /// under way, and `Heap::resume` goes on with it.
    Busy,
}

/// The answer of `Heap::free`, which is neither refused nor spent.
#[derive(Debug, PartialEq, Eq, Drop)]
pub enum FreeAnswer {
    /// The block is freed.
    Freed,
    /// As many steps lost an exchange as there were tries. The call is still under way, and
    /// `Heap::resume` goes on with it.
    Busy,
}

/// The answer of `Heap::resume`: the pass alone knows whether an allocation or a free was interrupted.
#[derive(Debug, PartialEq, Eq, Drop)]
pub enum Resumed {
    /// The allocation is given this block, which is the pass's.
    Given(Block),
    /// The block is freed.
    Freed,
    /// The allocation is refused.
    Refused,
    /// The allocation would have begun a turn, and the pass has none left.
    Spent,
    /// As many steps lost an exchange or cleared a superblock as there were tries. The call is still
    /// under way.
    Busy,
}

/// A shelf holds a block already. The pass still owns its own.
#[derive(Debug, PartialEq, Eq, Drop)]
pub struct Full {
    /// The block that was to be put there.
    pub block: Block,
    /// The word of the shelf, which names the block that lies there.
    pub found: u64,
}

/// The answer of `Heap::take`, and of whoever takes for a lane, whose blocks are `B`.
#[derive(Debug, PartialEq, Eq, Drop)]
pub enum Taken<B = Block> {
    /// The block that lay on the shelf, which is the pass's now.
    Got(B),
    /// Nothing lay there.
    Empty,
    /// Another caller changed the shelf in between: its word was `expected` and is `found`.
    Missed { expected: u64, found: u64 },
}
