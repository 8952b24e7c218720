//! What fills a block, sums it, and copies it into another one: whole calls on usable words, in their order, each on slices.

ghost use Rattle.std.specs.Prelude.{◌≡◌, ◌+◌, ◌%◌, ◌^◌, length, sum};
ghost use Rattle.heap_geometry.specs.Need.{usable_words};
ghost use Rattle.errand_steps.specs.Begins.{IsIdle};
ghost use Rattle.live_heap.specs.declared.block.Block.{Block};
ghost use Rattle.sound_laws.specs.events.Made.{Copies, LeadsBy, Sums, wrote};
ghost use Rattle.live_heap.specs.Lending.{numbers_from};
ghost use Rattle.live_heap.specs.Passes.{IsOf, Owns, accesses, view};
ghost use Rattle.live_heap.specs.Words.{CallsOnWord};

use crate::block::Block;
use crate::heap::Heap;
use crate::pass::Pass;
use crate::plain::are_small;
use crate::shelves::ShelfRule;
use std::marker::Brand;

impl<R: ShelfRule> Heap<R> {
    /// Fills the pass's block: word i with from + i, modulo 2^64.
    pub fn fill(&self, pass: &mut Pass, block: &Block, from: u64)
        requires of { IsOf self.now pass.old }
        requires idle { IsIdle pass.old.errand }
        requires owned { Owns pass.old block.now }
        ensures of { IsOf self.now pass.new }
        ensures idle { IsIdle pass.new.errand }
        ensures keeps { (other : Block) → Owns pass.old other → Owns pass.new other }
        ensures lent { (view pass.new).lent ≡ (view pass.old).lent }
        ensures wrote { LeadsBy (CallsOnWord self.now) pass.old (wrote block.now.place block.now.need from (usable_words block.now.need)) pass.new }
        ensures accesses { accesses pass.new ≡ usable_words block.now.need + accesses pass.old }
    {
        let count = block.usable_words();
        let mut words = self.lift_words(pass, block.place, block.need);
        let first = block.place as usize + 1;
        count_from(words.slice_mut(self.start(), first, count as usize), from);
        self.lay_words::<Brand>(pass, words, block.place, block.need, 0, count);
    }

    /// Copies the pass's block into another one of its blocks, the first word first: each word is read and then
    /// written. What the other one has beyond them is filled with 0.
    pub fn copy(&self, pass: &mut Pass, from: &Block, to: &Block)
        requires of { IsOf self.now pass.old }
        requires idle { IsIdle pass.old.errand }
        requires owned { Owns pass.old from.now }
        requires owned_too { Owns pass.old to.now }
        ensures of { IsOf self.now pass.new }
        ensures idle { IsIdle pass.new.errand }
        ensures keeps { (other : Block) → Owns pass.old other → Owns pass.new other }
        ensures lent { (view pass.new).lent ≡ (view pass.old).lent }
        ensures copied { Copies (CallsOnWord self.now) pass.old from.now.place from.now.need to.now.place to.now.need pass.new }
    {
        let source = Block {
            place: from.place,
            need: from.need,
        };
        let target = Block {
            place: to.place,
            need: to.need,
        };
        if from.place == to.place {
            self.copy_itself(pass, source);
        } else {
            self.copy_plainly(pass, source, target);
        }
    }

    /// Copies a block into itself: each word is read and written again.
    fn copy_itself(&self, pass: &mut Pass, block: Block)
        requires of { IsOf self.now pass.old }
        requires idle { IsIdle pass.old.errand }
        requires owned { Owns pass.old block }
        ensures { Copies (CallsOnWord self.now) pass.old block.place block.need block.place block.need pass.new }
    {
        let count = block.usable_words();
        let words = self.lift_words(pass, block.place, block.need);
        let first = block.place as usize + 1;
        are_small(words.slice(self.start(), first, count as usize));
        self.lay_words::<Brand>(pass, words, block.place, block.need, 0, count);
    }

    /// The sum of the words of the pass's block, modulo 2^64. Each is what the block's owners last wrote
    /// there; a word that none has written is some number.
    pub fn sum(&self, pass: &mut Pass, block: &Block) -> u64
        requires of { IsOf self.now pass.old }
        requires idle { IsIdle pass.old.errand }
        requires owned { Owns pass.old block.now }
        ensures of { IsOf self.now pass.new }
        ensures idle { IsIdle pass.new.errand }
        ensures keeps { (other : Block) → Owns pass.old other → Owns pass.new other }
        ensures lent { (view pass.new).lent ≡ (view pass.old).lent }
        ensures sums { Sums (CallsOnWord self.now) pass.old block.now.place block.now.need result pass.new }
        ensures accesses { accesses pass.new ≡ usable_words block.now.need + accesses pass.old }
    {
        let count = block.usable_words();
        let words = self.lift_words(pass, block.place, block.need);
        let first = block.place as usize + 1;
        let total = sum_of(words.slice(self.start(), first, count as usize));
        self.lay_words::<Brand>(pass, words, block.place, block.need, 0, count);
        total
    }
}

/// Fills a slice: word i with from + i, modulo 2^64.
fn count_from(words: &mut [u64], from: u64)
    ensures { words.new ≡ numbers_from from (length words.old) }
{
    for i in 0..words.len() {
        words[i] = from.wrapping_add(i as u64);
    }
}

/// The sum of the words of a slice, modulo 2^64.
fn sum_of(words: &[u64]) -> u64
    ensures { result ≡ sum words.now % 2 ^ 64 }
{
    let mut total = 0u64;
    for i in 0..words.len() {
        total = total.wrapping_add(words[i]);
    }
    total
}
