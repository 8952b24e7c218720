//! Counts of what threads did.

use live_heap::block::Block;

/// What one thread did, or all of them. Each count stands still at its end.
#[derive(Clone, Copy)]
pub struct Tally {
    /// Steps, pairs or rounds.
    pub made: u64,
    /// Allocations that got a block, and those that didn't.
    pub given: u64,
    pub refused: u64,
    pub freed: u64,
    /// Blocks that were put on a shelf or taken from one, and calls that missed.
    pub put: u64,
    pub taken: u64,
    pub missed: u64,
    /// How often a call was interrupted after all its tries.
    pub busy: u64,
    /// Empty superblocks that were taken for partial ones.
    pub cleared: u64,
    /// Words of blocks that were filled and summed.
    pub words: u64,
    /// Words of a block that weren't what its owner had written there.
    pub wrong: u64,
}

impl Tally {
    /// Nothing is done yet.
    pub fn new() -> Tally {
        Tally {
            made: 0,
            given: 0,
            refused: 0,
            freed: 0,
            put: 0,
            taken: 0,
            missed: 0,
            busy: 0,
            cleared: 0,
            words: 0,
            wrong: 0,
        }
    }

    /// What these two did, together.
    pub fn with(self, other: Tally) -> Tally {
        Tally {
            made: self.made.saturating_add(other.made),
            given: self.given.saturating_add(other.given),
            refused: self.refused.saturating_add(other.refused),
            freed: self.freed.saturating_add(other.freed),
            put: self.put.saturating_add(other.put),
            taken: self.taken.saturating_add(other.taken),
            missed: self.missed.saturating_add(other.missed),
            busy: self.busy.saturating_add(other.busy),
            cleared: self.cleared.saturating_add(other.cleared),
            words: self.words.saturating_add(other.words),
            wrong: self.wrong.saturating_add(other.wrong),
        }
    }

    /// Counts the words of a block that was filled or checked.
    pub fn count_words(&mut self, block: &Block) {
        self.words = self.words.saturating_add(u64::from(block.usable_words()));
    }
}

/// Adds one to a count.
pub fn count(number: &mut u64) {
    *number = number.saturating_add(1);
}
