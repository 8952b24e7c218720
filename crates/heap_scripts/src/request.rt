//! What is asked of a pass with the blocks in its hand, and what that came to.

/// What is asked of a hand. A block is named by its number there.
#[derive(Debug, Clone, Copy)]
pub enum Request {
    Alloc(u32),
    Free(usize),
    Resume,
    Write(usize, u32, u64),
    Read(usize, u32),
    Put(usize, u8),
    Take(u8),
}

/// What a call on a hand came to. A block that it brought is the last one of the hand; its place is told.
#[derive(Debug, Clone, Copy, PartialEq, Eq)]
pub enum Told {
    Given(u32),
    Refused,
    TooLarge,
    Spent,
    Busy,
    FreedAt(u32),
    /// An interrupted free has gone on to its end.
    Freed,
    Wrote,
    Word(u64),
    Put,
    Full { place: u32, found: u64 },
    Got(u32),
    Empty,
    Missed { expected: u64, found: u64 },
}
