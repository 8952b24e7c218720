//! The exits by which a caller leaves a large block, a usable word or a shelf.

use crate::large::run::UnitRun;
use heap_geometry::need::Need;

/// How a caller left a large block, a usable word or a shelf. No step is made here.
///
/// `place` is the arena word of a block's prefix word, and `need` says which blocks the block is one
/// of.
#[derive(Clone, Copy)]
pub enum LargeExit {
    /// The run is handed out.
    GivenRun { place: u32, run: UnitRun },
    /// No run of as many units is free.
    NoRun,
    /// The run is freed.
    FreedRun,
    /// The word is written.
    Wrote,
    /// The word that was read.
    Word { value: u64 },
    /// The block lies on the shelf.
    PutDone,
    /// Something else lies on the shelf: its word.
    ShelfFull { found: u64 },
    /// The block was taken from the shelf.
    Got { place: u32, need: Need },
    /// Nothing lies on the shelf.
    NothingThere,
    /// The shelf's word was another one than the one that was read before.
    Missed { expected: u64, found: u64 },
}
