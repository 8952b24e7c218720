//! The list and the records that a store is to hold, in vectors.

ghost use Rattle.std.specs.Prelude.{◌<◌, IfSome, length};

use std::alloc::{AllocError, Global};

/// Pairs and records.
#[derive(Drop)]
pub(crate) struct Plain {
    /// From back to front, so that the last pair is the first one of the list.
    pairs: Vec<(u64, u64)>,
    records: Vec<Vec<u64>>,
}

/// Where the first pair with this key stands in a list from back to front.
fn place_of(pairs: &[(u64, u64)], key: u64) -> Option<usize>
    ensures { IfSome result (λ place. place < length pairs.now) }
{
    for passed in 0..pairs.len() {
        let place = pairs.len() - 1 - passed;
        if pairs[place].0 == key {
            return Some(place);
        }
    }
    None
}

impl Plain {
    /// No pairs, and no records.
    pub(crate) fn new(alloc: Global) -> Plain {
        Plain {
            pairs: Vec::new(alloc),
            records: Vec::new(alloc),
        }
    }

    /// Puts a pair in front.
    pub(crate) fn push_front(&mut self, key: u64, value: u64) -> Result<(), AllocError> {
        self.pairs.push((key, value))?;
        Ok(())
    }

    /// Takes the first pair out.
    pub(crate) fn pop_front(&mut self) -> Option<(u64, u64)> {
        self.pairs.pop()
    }

    /// Takes the first pair with this key out.
    pub(crate) fn remove(&mut self, key: u64) -> Option<(u64, u64)> {
        let place = place_of(self.pairs.as_slice(), key)?;
        Some(self.pairs.remove(place))
    }

    /// The value of the first pair with this key.
    pub(crate) fn get(&self, key: u64) -> Option<u64> {
        let place = place_of(self.pairs.as_slice(), key)?;
        Some(self.pairs[place].1)
    }

    /// How many pairs there are.
    pub(crate) fn pairs(&self) -> usize {
        self.pairs.len()
    }

    /// Whether these are the pairs, from front to back.
    pub(crate) fn has_pairs(&self, pairs: &[(u64, u64)]) -> bool {
        let many = pairs.len();
        if many != self.pairs.len() {
            return false;
        }
        for i in 0..many {
            if pairs[many - 1 - i] != self.pairs[i] {
                return false;
            }
        }
        true
    }

    /// Appends a record.
    pub(crate) fn add_record(&mut self, words: Vec<u64>) -> Result<(), AllocError> {
        self.records.push(words)?;
        Ok(())
    }

    /// How many records there are.
    pub(crate) fn records(&self) -> usize {
        self.records.len()
    }

    /// Whether the record of this number has these words, or there is none.
    pub(crate) fn has_record(&self, number: u32, words: Option<&[u64]>) -> bool {
        match (self.records.get(number as usize), words) {
            (Some(record), Some(words)) => record.as_slice() == words,
            (None, None) => true,
            _ => false,
        }
    }
}
