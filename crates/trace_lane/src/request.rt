//! What a lane asks for, and what it is answered.

use lane_outcomes::outcome::Outcome;

/// What a lane asks for. A block comes back with the answer, unless it is given away.
#[derive(Drop)]
pub enum Request<B> {
    /// A block of so many usable words.
    Allocate { need: u32 },
    /// The free of a block.
    Free(B),
    /// The fill of a block: word i with from + i, modulo 2^64.
    Fill { block: B, from: u64 },
    /// The sum of a block's words, modulo 2^64.
    Sum(B),
    /// The copy of a block's words into another block, with 0 behind them.
    Copy { from: B, to: B },
    /// The put of a block on a shelf.
    Put { block: B, shelf: u8 },
    /// The block that lies on a shelf.
    Take { shelf: u8 },
}

/// What a request came to.
#[derive(Drop)]
pub enum Answer<B> {
    /// The block that was asked for.
    Given(B),
    /// No block is free.
    Refused,
    /// The caller has no turn left.
    Spent,
    /// The block is freed.
    Freed,
    /// The block is filled.
    Filled(B),
    /// The words of the block add up to this.
    Summed { block: B, total: u64 },
    /// The words of one block are copied into the other one.
    Copied { from: B, to: B },
    /// The block lies on the shelf.
    Put,
    /// A block lies on the shelf already.
    Full(B),
    /// The block that lay on the shelf.
    Got(B),
    /// The shelf is empty.
    Empty,
}

/// How an operation goes on.
#[derive(Drop)]
pub enum Next<B> {
    /// It asks for this.
    Ask(Request<B>),
    /// It has ended with this outcome.
    Told(Outcome),
}
