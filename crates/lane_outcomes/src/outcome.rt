//! What became of each operation of a lane.

use heap_geometry::need::Need;

/// What became of an operation, which makes several calls, or none. Places are told beside what the report prints,
/// since a history names its blocks by their places; and the need of a block that was taken, which no operation of
/// the lane says.
#[derive(Clone, Copy, PartialEq, Eq)]
pub enum Outcome {
    /// A block of `words` usable words was given, and filled.
    Given { words: u32, place: u32 },
    /// The allocation, or that of a resize, was refused.
    Refused,
    /// The lane has no turn left for a small allocation, or for a resize to a small need.
    Spent,
    /// The held block was given back.
    Freed,
    /// Every usable word of the held block was written.
    Filled,
    /// The sum of the held block's words, modulo 2^64.
    Sum(u64),
    /// The held block lies on the shelf.
    Put,
    /// The shelf held a block, and the lane keeps its own.
    ShelfFull,
    /// A block of this need, which has `words` usable words, was taken from the shelf.
    Took { words: u32, place: u32, need: Need },
    /// The shelf held nothing.
    ShelfEmpty,
    /// The held block has the need that was asked for, and stays. It has `words` usable words.
    Kept { words: u32, place: u32 },
    /// A block of `words` usable words was given in place of the held one, whose words it has as far
    /// as both go.
    Resized { words: u32, place: u32 },
    /// The register was full where the operation wants an empty one, or the other way round.
    Skipped,
}
