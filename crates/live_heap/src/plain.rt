//! The usable words of a block that are out with the pass of its owner, as plain memory.

ghost use Rattle.std.specs.Prelude.{ℕ, ◌≡◌, ◌<◌, ◌^◌, length, slice_index};
ghost use Rattle.std.specs.Borrow.{sem};
ghost use Rattle.heap_geometry.specs.Need.{IsNeed, usable_words};
ghost use Rattle.plain_words.specs.Places.{laids};

use crate::block::Block;
use crate::heap::Heap;
use crate::shelves::ShelfRule;
use heap_geometry::need::Need;
use plain_words::PlainWords;

/// A block of a pass whose usable words are out, as plain memory of whoever has this. It can't be copied or cloned, and is
/// made of its words alone (`of_words`). One that is dropped keeps its words out for ever, and the heap's memory stays
/// allocated.
#[derive(Drop)]
pub struct Memory {
    pub(crate) block: Block,
    pub(crate) words: PlainWords,
}

impl Memory {
    ghost use Rattle.live_heap.specs.Memory.{IsMemoryOf, lends_memory};

    /// The usable words of the block, with what is in them now.
    pub fn words<R: ShelfRule>(&self, heap: &Heap<R>) -> &[u64]
        requires { IsMemoryOf heap.now self.now }
        ensures value { self.now.words.places ≡ laids result.now }
        ensures long { length result.now ≡ usable_words self.now.block.need }
    {
        let first = self.block.place() as usize + 1;
        let count = self.block.usable_words() as usize;
        self.words.slice(heap.table.start(), first, count)
    }

    /// The usable words of the block, to be written as any memory is.
    pub fn words_mut<R: ShelfRule>(&mut self, heap: &Heap<R>) -> &mut [u64]
        requires { IsMemoryOf heap.now self.old }
        ensures* writes_back { sem 𝓛 (lends_memory self.entry result) }
        ensures value { self.old.words.places ≡ laids result.now }
        ensures long { length result.now ≡ usable_words self.old.block.need }
    {
        let start = heap.table.start();
        let first = self.block.place() as usize + 1;
        let count = self.block.usable_words() as usize;
        self.words.slice_mut(start, first, count)
    }

    /// The words alone, as plain memory of whoever has them. Where their block lies, and what it serves, is to be kept
    /// elsewhere: `of_words` asks for both.
    pub fn into_words(self) -> PlainWords
        ensures { result ≡ self.words }
    {
        let Memory { block: _, words } = self;
        words
    }

    /// Plain memory as the words of the block at this place, that serves this need. Whether they are that block's, and
    /// are out with a pass, `bring_home` asks.
    pub fn of_words(place: u32, need: Need, words: PlainWords) -> Memory
        requires { IsNeed need }
        ensures block { (result.block.place ≡ place) × (result.block.need ≡ need) }
        ensures words { result.words ≡ words }
    {
        Memory {
            block: Block { place, need },
            words,
        }
    }

    /// How many usable words the block has, at most 131,071.
    pub fn usable_words(&self) -> u32
        ensures { result ≡ usable_words self.now.block.need }
    {
        self.block.usable_words()
    }

    /// What the block serves: its size class, or its units.
    pub fn need(&self) -> Need
        ensures { result ≡ self.now.block.need }
    {
        self.block.need()
    }

    /// The arena word of the block's prefix; its usable words follow.
    pub fn place(&self) -> u32
        ensures { result ≡ self.now.block.place }
    {
        self.block.place()
    }
}

/// Each word of a slice is a number of 64 bits.
pub(crate) fn are_small(_words: &[u64])
    ensures { (i : ℕ) → i < length _words.now → slice_index _words.now i < 2 ^ 64 }
{}
