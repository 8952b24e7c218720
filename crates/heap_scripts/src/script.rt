//! The calls of a random script.

ghost use Rattle.std.specs.Prelude.{◌<◌};

use crate::random::Random;
use crate::request::Request;
use heap_geometry::limits::{CALL_STEPS, CLASSES, LARGE_MOST, SMALL_MOST};
use live_heap::block::Block;

/// How many calls are made between two changes of how often a block is freed.
const SPELL: u64 = 60;

/// How many shelves are used.
const USED_SHELVES: u32 = 4;

/// The fewest usable words of a wide block.
const LEAST_WIDE: u32 = 300;

/// How many usable words are asked for.
#[derive(Clone, Copy)]
enum Needs {
    /// Those of the largest classes, so that superblocks are full and empty soon.
    Wide,
    /// One.
    One,
    /// Those of each class as often.
    Mixed,
    /// Mostly those of some units.
    Units,
}

/// A script, and how far it has come.
#[derive(Drop)]
pub(crate) struct Script {
    random: Random,
    needs: Needs,
    tries: u32,
    /// Of ten calls that allocate or free, how many free.
    frees: u32,
    asked: u64,
}

impl Script {
    /// The script of this number, of which all about it is drawn.
    pub(crate) fn new(seed: u64) -> Script {
        let mut random = Random::new(seed, 0);
        let needs = match random.below(6) {
            0 | 1 => Needs::Wide,
            2 => Needs::One,
            3 | 4 => Needs::Mixed,
            _ => Needs::Units,
        };
        let tries = match random.below(4) {
            0 | 1 => 1,
            2 => 2,
            _ => 64,
        };
        Script {
            random,
            needs,
            tries,
            frees: 1,
            asked: 0,
        }
    }

    /// How many tries each call has.
    pub(crate) fn tries(&self) -> u32 {
        self.tries
    }

    /// Which of so many callers makes the next call.
    pub(crate) fn caller(&mut self, callers: u32) -> u32
        requires { 0 < callers }
        ensures { result < callers }
    {
        self.random.below(callers)
    }

    /// What is asked next of a pass with these blocks in its hand.
    pub(crate) fn request(&mut self, idle: bool, blocks: &[Block]) -> Request {
        if self.asked % SPELL == 0 {
            self.frees = 1 + 2 * self.random.below(5);
        }
        self.asked = self.asked.wrapping_add(1);
        if !idle {
            return Request::Resume;
        }
        let kind = self.random.below(12);
        if kind == 3 {
            return Request::Take(self.shelf());
        }
        if blocks.is_empty() {
            return Request::Alloc(self.need());
        }
        let number = self.random.below(blocks.len().min(1 << 20) as u32) as usize;
        match kind {
            0 => Request::Write(number, self.word(&blocks[number]), self.asked),
            1 => Request::Read(number, self.word(&blocks[number])),
            2 => Request::Put(number, self.shelf()),
            _ if self.random.below(10) < self.frees => Request::Free(number),
            _ => Request::Alloc(self.need()),
        }
    }

    /// After how many steps the call is stopped, if it is one that can be.
    pub(crate) fn stop(&mut self, request: Request) -> Option<u32> {
        match request {
            Request::Alloc(_) | Request::Free(_) | Request::Resume => {}
            _ => return None,
        }
        if self.random.below(4) != 0 {
            return None;
        }
        let most = match self.random.below(4) {
            0 => 4,
            1 => 12,
            2 => 40,
            _ => CALL_STEPS as u32,
        };
        Some(1 + self.random.below(most))
    }

    /// The usable words of an allocation.
    fn need(&mut self) -> u32 {
        match self.needs {
            Needs::Wide => LEAST_WIDE + self.random.below(SMALL_MOST + 1 - LEAST_WIDE),
            Needs::One => 1,
            Needs::Mixed => {
                let class = self.random.below(u32::from(CLASSES));
                self.random.below(2 << class)
            }
            Needs::Units if self.random.below(4) == 0 => self.random.below(1 + SMALL_MOST),
            Needs::Units if self.random.below(2) == 0 => self.random.below(LARGE_MOST + 129),
            Needs::Units => SMALL_MOST + 1 + self.random.below(8000),
        }
    }

    /// The number of a usable word.
    fn word(&mut self, block: &Block) -> u32 {
        self.random.below(block.usable_words().max(1))
    }

    fn shelf(&mut self) -> u8 {
        self.random.below(USED_SHELVES) as u8
    }
}
