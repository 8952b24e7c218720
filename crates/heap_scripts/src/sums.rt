//! What the calls of a script came to.

use crate::request::Told;

/// The calls of a script by what they came to, what the callers counted, and the words of the heap; and how
/// much of it was not the same on the other heap. Each count stands still at its end.
#[derive(Debug, Clone, Copy, PartialEq, Eq)]
pub struct Sums {
    pub calls: u64,
    pub given: u64,
    pub refused: u64,
    /// Allocations that had no turn left.
    pub spent: u64,
    pub freed: u64,
    /// Calls that were interrupted, each as often.
    pub busy: u64,
    /// Steps of the calls that were made step by step.
    pub steps: u64,
    pub won: u64,
    pub lost: u64,
    pub cleared: u64,
    /// A sum of all words of the closed heap, which depends on their order.
    pub words: u64,
    /// Calls whose answers or counts differed, and words that did.
    pub differed: u64,
}

impl Sums {
    /// Nothing is called yet.
    pub(crate) fn new() -> Sums {
        Sums {
            calls: 0,
            given: 0,
            refused: 0,
            spent: 0,
            freed: 0,
            busy: 0,
            steps: 0,
            won: 0,
            lost: 0,
            cleared: 0,
            words: 0,
            differed: 0,
        }
    }

    /// One call more has come to this.
    pub(crate) fn add(&mut self, told: Told) {
        add(&mut self.calls, 1);
        match told {
            Told::Given(_) => add(&mut self.given, 1),
            Told::Refused => add(&mut self.refused, 1),
            Told::Spent => add(&mut self.spent, 1),
            Told::FreedAt(_) => add(&mut self.freed, 1),
            Told::Freed => add(&mut self.freed, 1),
            Told::Busy => add(&mut self.busy, 1),
            _ => {}
        }
    }
}

/// Adds to a count.
pub(crate) fn add(count: &mut u64, more: u64) {
    *count = count.saturating_add(more);
}

/// The sum of all words in their order.
pub(crate) fn sum(words: &[u64]) -> u64 {
    let mut sum: u64 = 0;
    for word in words {
        sum = sum.wrapping_mul(1_000_003).wrapping_add(*word);
    }
    sum
}

/// How many words are not the same in both lists.
pub(crate) fn differing(words: &[u64], others: &[u64]) -> u64 {
    let mut differing = 0;
    for (word, other) in words.iter().zip(others) {
        if word != other {
            add(&mut differing, 1);
        }
    }
    if words.len() != others.len() {
        add(&mut differing, 1);
    }
    differing
}
