//! The calls of a random script.

use crate::random::Random;

/// How many calls are made between two changes of how often a pair is taken out.
const SPELL: u32 = 80;

/// How many keys there are: few, so that many pairs have the same one.
const KEYS: u32 = 9;

/// The most words of a short record, which is of a node's class or of one that is near; and of a long one,
/// of whose class a superblock has a few blocks.
const SHORT: u32 = 8;

const LONG: u32 = 1_022;

/// What is asked of a store.
#[derive(Clone, Copy)]
pub(crate) enum Request {
    Push { key: u64, value: u64 },
    Pop,
    Remove { key: u64 },
    Get { key: u64 },
    List,
    /// A record of so many words.
    Add { words: u32 },
    Record { number: u32 },
}

/// A script, and how far it has come.
#[derive(Drop)]
pub(crate) struct Script {
    random: Random,
    asked: u64,
    /// How many calls are left until the mood changes.
    left: u32,
    /// Of ten calls that push or take out, how many take out.
    takes: u32,
}

impl Script {
    /// The script of this number.
    pub(crate) fn new(seed: u64) -> Script {
        Script {
            random: Random::new(seed, 0),
            asked: 0,
            left: 0,
            takes: 0,
        }
    }

    /// What is asked next of a store with so many records.
    pub(crate) fn next(&mut self, records: u32) -> Request {
        if self.left == 0 {
            self.left = SPELL;
            self.takes = 2 + self.random.below(7);
        }
        self.left -= 1;
        self.asked = self.asked.wrapping_add(1);
        match self.random.below(40) {
            0 => Request::List,
            1..=3 => Request::Get { key: self.key() },
            4 | 5 => Request::Record {
                number: self.random.below(records.saturating_add(2).max(1)),
            },
            6 => Request::Add {
                words: self.random.below(SHORT + 1),
            },
            7 | 8 => Request::Add {
                words: LONG - self.random.below(LONG / 2),
            },
            _ => self.change(),
        }
    }

    /// A call that changes the list.
    fn change(&mut self) -> Request {
        if self.random.below(10) >= self.takes {
            return Request::Push {
                key: self.key(),
                value: self.asked,
            };
        }
        if self.random.below(3) == 0 {
            return Request::Remove { key: self.key() };
        }
        Request::Pop
    }

    fn key(&mut self) -> u64 {
        u64::from(self.random.below(KEYS))
    }
}
