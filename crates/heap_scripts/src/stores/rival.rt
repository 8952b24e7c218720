//! Another caller of the heap.

ghost use Rattle.std.specs.Prelude.{◌≡◌, []};

use crate::random::Random;
use crate::request::{Request, Told};
use crate::stepped::{Pace, make};
use heap_geometry::limits::SMALL_MOST;
use live_heap::block::Block;
use live_heap::heap::Heap;
use live_heap::pass::Pass;
use std::alloc::{AllocError, Global};
use typed_store::nodes::NODE_WORDS;

/// The most steps that are made of a call before it is interrupted.
const STEPS: u32 = 30;

/// The most blocks of a node's class, of which a superblock has about a thousand; and of a long one, of
/// which it has a few.
const MOST_SHORT: u32 = 5_000;

const MOST_LONG: u32 = 80;

/// A caller that gets blocks of one class and gives them back, and stands still in the middle of its calls.
#[derive(Drop)]
pub struct Rival {
    pub(crate) pass: Pass,
    pub(crate) blocks: Vec<Block>,
    random: Random,
    need: u32,
    /// How many blocks it gets until it frees, and how many it frees until it gets some.
    most: u32,
    least: u32,
    frees: bool,
    /// Whether the oldest block is freed first, or any.
    oldest: bool,
    steps: u64,
}

impl Rival {
    ghost use Rattle.heap_scripts.specs.stores.Twins.{IsRival};

    /// A caller that has no block.
    pub(crate) fn new(alloc: Global, pass: Pass, seed: u64) -> Rival
        ensures pass { result.pass ≡ pass }
        ensures blocks { result.blocks.items ≡ [] }
    {
        let random = Random::new(seed, 1);
        Rival {
            pass,
            blocks: Vec::new(alloc),
            random,
            need: NODE_WORDS,
            most: 0,
            least: 0,
            frees: true,
            oldest: false,
            steps: 0,
        }
    }

    /// Some steps of its call, or of the next one.
    pub(crate) fn go_on(&mut self, heap: &Heap) -> Result<(), AllocError>
        requires { IsRival heap.now self.old }
        ensures { IsRival heap.now self.new }
    {
        let request = self.request();
        let pace = Pace {
            tries: u32::MAX,
            steps: 1 + self.random.below(STEPS),
        };
        let told = make(
            heap,
            &mut self.pass,
            &mut self.blocks,
            request,
            pace,
            &mut self.steps,
        )?;
        if let Some(Told::Refused | Told::Spent) = told {
            self.frees = true;
        }
        Ok(())
    }

    /// How many exchanges it has lost.
    pub(crate) fn lost(&self) -> u64 {
        self.pass.lost()
    }

    /// What it asks for next.
    fn request(&mut self) -> Request
        ensures pass { self.new.pass ≡ self.old.pass }
        ensures blocks { self.new.blocks ≡ self.old.blocks }
    {
        if !self.pass.idle() {
            return Request::Resume;
        }
        let many = self.blocks.len().min(MOST_SHORT as usize) as u32;
        if self.frees && many <= self.least {
            self.grow();
        } else if !self.frees && many >= self.most {
            self.shrink(many);
        }
        if !self.frees {
            return Request::Alloc(self.need);
        }
        if self.oldest || many == 0 {
            return Request::Free(0);
        }
        Request::Free(self.random.below(many) as usize)
    }

    /// From now on it gets blocks, mostly of a node's class.
    fn grow(&mut self)
        ensures pass { self.new.pass ≡ self.old.pass }
        ensures blocks { self.new.blocks ≡ self.old.blocks }
    {
        self.frees = false;
        if self.random.below(2) == 0 {
            self.need = NODE_WORDS;
            self.most = 1 + self.random.below(MOST_SHORT);
        } else {
            self.need = SMALL_MOST - self.random.below(SMALL_MOST / 2);
            self.most = 1 + self.random.below(MOST_LONG);
        }
    }

    /// From now on it frees some of its blocks.
    fn shrink(&mut self, many: u32)
        ensures pass { self.new.pass ≡ self.old.pass }
        ensures blocks { self.new.blocks ≡ self.old.blocks }
    {
        self.frees = true;
        self.oldest = self.random.below(2) == 0;
        self.least = self.random.below(many.max(1));
        if self.random.below(3) == 0 {
            self.least = 0;
        }
    }
}
