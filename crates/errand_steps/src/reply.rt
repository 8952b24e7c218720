//! What calls and steps answer.

use heap_geometry::need::Need;

/// The answer of a call that has ended. Places are arena words.
#[derive(Clone, Copy, PartialEq, Eq)]
pub enum Reply {
    /// The allocation is given the block at this place.
    Given { place: u32, need: Need },
    /// The allocation is refused.
    Refused,
    /// The allocation would have begun a turn, and its caller has none left.
    Spent,
    /// The block is freed.
    Freed,
    /// The word is written.
    Wrote,
    /// The word that was read.
    Word(u64),
    /// The block lies on the shelf.
    Put,
    /// The shelf holds a block already: its word.
    Full { found: u64 },
    /// The block that was taken from the shelf.
    Got { place: u32, need: Need },
    /// The shelf is empty.
    Empty,
    /// The shelf's word was another one than the one that was read before.
    Missed { expected: u64, found: u64 },
}

/// The answer of a call that begins an allocation.
#[derive(Clone, Copy, PartialEq, Eq)]
pub enum Begun {
    /// The allocation is under way.
    Started,
    /// No block has so many words. Nothing has begun.
    TooLarge,
    /// The caller has no turn left, and nothing has begun.
    Spent,
}

/// What a step of a caller came to.
#[derive(Clone, Copy, PartialEq, Eq)]
pub enum Progress {
    /// The caller was in no call, and made no step.
    Idle,
    /// The call goes on.
    More,
    /// The call goes on after a lost exchange.
    Lost,
    /// The call goes on after it took an empty superblock for a partial one.
    Cleared,
    /// The call has ended.
    Done(Reply),
}

/// The block that a put offers to its shelf. `place` is the arena word of its prefix word.
#[derive(Clone, Copy, PartialEq, Eq)]
pub struct Offer {
    pub place: u32,
    pub need: Need,
}
