//! Whole calls on words of a block that stand side by side, as many as a slice has: they are read into it, or written with
//! what is in it.

ghost use Rattle.std.specs.Prelude.{◌≡◌, ◌≤◌, ◌+◌, length, take, drop, ◌++◌};
ghost use Rattle.heap_geometry.specs.Need.{usable_words};
ghost use Rattle.errand_steps.specs.Begins.{IsIdle};
ghost use Rattle.sound_laws.specs.events.Made.{LeadsBy, found_from};
ghost use Rattle.live_heap.specs.declared.block.Block.{Block};
ghost use Rattle.live_heap.specs.Memory.{writes_from};
ghost use Rattle.live_heap.specs.Passes.{IsOf, Owns, accesses, view};
ghost use Rattle.live_heap.specs.Words.{CallsOnWord};

use crate::block::Block;
use crate::heap::Heap;
use crate::pass::Pass;
use crate::plain::are_small;
use crate::shelves::ShelfRule;
use std::marker::Brand;

impl<R: ShelfRule> Heap<R> {
    /// Reads words of the pass's block, from word `first` on, into a slice, as many as it has, in their order. Each is what
    /// the block's owners last wrote there; a word that none has written is some number.
    #[inline(always)]
    pub fn read_slice(&self, pass: &mut Pass, block: &Block, first: u32, into: &mut [u64])
        requires of { IsOf self.now pass.old }
        requires idle { IsIdle pass.old.errand }
        requires owned { Owns pass.old block.now }
        requires words { first + length into.old ≤ usable_words block.now.need }
        ensures of { IsOf self.now pass.new }
        ensures idle { IsIdle pass.new.errand }
        ensures keeps { (other : Block) → Owns pass.old other → Owns pass.new other }
        ensures lent { (view pass.new).lent ≡ (view pass.old).lent }
        ensures long { length into.new ≡ length into.old }
        ensures found { LeadsBy (CallsOnWord self.now) pass.old (found_from block.now.place block.now.need first into.new) pass.new }
        ensures accesses { accesses pass.new ≡ length into.old + accesses pass.old }
    {
        let _most = block.usable_words();
        let count = into.len();
        let words = self.lift_words(pass, block.place, block.need);
        let at = block.place as usize + 1 + first as usize;
        into.copy_from_slice(words.slice(self.start(), at, count));
        self.lay_words::<Brand>(pass, words, block.place, block.need, first, count as u32);
    }

    /// Writes words of the pass's block, from word `first` on, with those of a slice, in their order.
    #[inline(always)]
    pub fn write_slice(&self, pass: &mut Pass, block: &Block, first: u32, from: &[u64])
        requires of { IsOf self.now pass.old }
        requires idle { IsIdle pass.old.errand }
        requires owned { Owns pass.old block.now }
        requires words { first + length from.now ≤ usable_words block.now.need }
        ensures of { IsOf self.now pass.new }
        ensures idle { IsIdle pass.new.errand }
        ensures keeps { (other : Block) → Owns pass.old other → Owns pass.new other }
        ensures lent { (view pass.new).lent ≡ (view pass.old).lent }
        ensures wrote { LeadsBy (CallsOnWord self.now) pass.old (writes_from block.now.place block.now.need first from.now) pass.new }
        ensures accesses { accesses pass.new ≡ length from.now + accesses pass.old }
    {
        are_small(from);
        let most = block.usable_words();
        let mut words = self.lift_words(pass, block.place, block.need);
        let at = block.place as usize + 1;
        write_over(
            words.slice_mut(self.start(), at, most as usize),
            first as usize,
            from,
        );
        self.lay_words::<Brand>(
            pass,
            words,
            block.place,
            block.need,
            first,
            from.len() as u32,
        );
    }
}

/// Writes a slice over words of another one, from one on.
#[inline(always)]
fn write_over(words: &mut [u64], first: usize, from: &[u64])
    requires { first + length from.now ≤ length words.old }
    ensures { words.new ≡ take first words.old ++ (from.now ++ drop (first + length from.now) words.old) }
{
    words[first..first + from.len()].copy_from_slice(from);
}
