//! What the calls of a script came to.

use typed_store::store::{Pending, Stored};

/// The calls of a script by what they came to. Each count stands still at its end.
#[derive(Debug, Clone, Copy, PartialEq, Eq)]
pub struct Sums {
    pub calls: u64,
    /// Pairs and records that were stored, and pairs that were taken out.
    pub stored: u64,
    pub taken: u64,
    pub refused: u64,
    /// Calls that found no turn left.
    pub spent: u64,
    /// Calls that were interrupted, each as often: for a pair, for a record and in the free of a node.
    pub busy_pairs: u64,
    pub busy_records: u64,
    pub busy_frees: u64,
    /// Calls that were resumed to their end.
    pub resumed: u64,
    /// Reads of a pair, a record, or the whole list.
    pub read: u64,
    /// Exchanges that the other caller lost.
    pub lost: u64,
    /// Answers that were not what they had to be.
    pub differed: u64,
}

impl Sums {
    /// Nothing is called yet.
    pub fn new() -> Sums {
        Sums {
            calls: 0,
            stored: 0,
            taken: 0,
            refused: 0,
            spent: 0,
            busy_pairs: 0,
            busy_records: 0,
            busy_frees: 0,
            resumed: 0,
            read: 0,
            lost: 0,
            differed: 0,
        }
    }

    /// A call that adds something, or one that was resumed, has come to this.
    pub(crate) fn add_stored(&mut self, stored: Stored, asked: Pending) {
        match stored {
            Stored::Done if asked == Pending::Free => {}
            Stored::Done => count(&mut self.stored),
            Stored::Refused => count(&mut self.refused),
            Stored::Spent => count(&mut self.spent),
            Stored::Busy => self.add_busy(asked),
        }
    }

    /// A call was interrupted, and waits for this.
    pub(crate) fn add_busy(&mut self, asked: Pending) {
        match asked {
            Pending::Pair { .. } => count(&mut self.busy_pairs),
            Pending::Record { .. } => count(&mut self.busy_records),
            Pending::Free => count(&mut self.busy_frees),
            Pending::Nothing => {}
        }
    }

    /// Takes note of whether an answer is what it has to be.
    pub(crate) fn compare(&mut self, same: bool) {
        if !same {
            count(&mut self.differed);
        }
    }

    /// Those of two scripts together.
    pub fn with(self, other: Sums) -> Sums {
        Sums {
            calls: self.calls.saturating_add(other.calls),
            stored: self.stored.saturating_add(other.stored),
            taken: self.taken.saturating_add(other.taken),
            refused: self.refused.saturating_add(other.refused),
            spent: self.spent.saturating_add(other.spent),
            busy_pairs: self.busy_pairs.saturating_add(other.busy_pairs),
            busy_records: self.busy_records.saturating_add(other.busy_records),
            busy_frees: self.busy_frees.saturating_add(other.busy_frees),
            resumed: self.resumed.saturating_add(other.resumed),
            read: self.read.saturating_add(other.read),
            lost: self.lost.saturating_add(other.lost),
            differed: self.differed.saturating_add(other.differed),
        }
    }
}

/// One more.
pub(crate) fn count(count: &mut u64) {
    *count = count.saturating_add(1);
}
