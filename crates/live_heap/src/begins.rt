//! How a pass begins a call. Nothing happens in the heap before its first step.

ghost use Rattle.std.specs.Prelude.{◌≡◌, ◌<◌};
ghost use Rattle.heap_geometry.specs.Need.{usable_words};
ghost use Rattle.heap_geometry.specs.declared.limits.TheConstants.{SHELVES};
ghost use Rattle.errand_steps.specs.Begins.{IsIdle, alloc_answer};
ghost use Rattle.errand_steps.specs.Calls.{alloc, free, write, read, put, take};
ghost use Rattle.live_heap.specs.Answers.{HasBegun};
ghost use Rattle.live_heap.specs.Passes.{IsOf, Owns, seen};
ghost use Rattle.live_heap.specs.Shelves.{MayLieOn, PutsByRule};

use crate::block::Block;
use crate::heap::Heap;
use crate::pass::Pass;
use crate::shelves::ShelfRule;
use errand_steps::reply::Begun;

impl<R: ShelfRule> Heap<R> {
    /// Begins an allocation of so many usable words. A small one takes a turn; where the pass has none
    /// left, or no block has so many words, nothing begins.
    pub fn begin_alloc(&self, pass: &mut Pass, need: u32) -> Begun
        requires of { IsOf self.now pass.old }
        requires idle { IsIdle pass.old.errand }
        ensures of { IsOf self.now pass.new }
        ensures puts { PutsByRule R.allows (seen pass.new) pass.new.errand }
        ensures begun { HasBegun pass.old (alloc need) pass.new }
        ensures answer { result ≡ alloc_answer pass.old.errand need }
    {
        pass.errand.begin_alloc(need)
    }

    /// Begins the free of the pass's block.
    pub fn begin_free(&self, pass: &mut Pass, block: Block)
        requires of { IsOf self.now pass.old }
        requires idle { IsIdle pass.old.errand }
        requires owned { Owns pass.old block }
        ensures of { IsOf self.now pass.new }
        ensures puts { PutsByRule R.allows (seen pass.new) pass.new.errand }
        ensures begun { HasBegun pass.old (free block.place block.need) pass.new }
    {
        pass.errand.begin_free(block.place, block.need);
    }

    /// Begins the write of a usable word of the pass's block; `i` counts them from 0.
    pub fn begin_write(&self, pass: &mut Pass, block: &Block, i: u32, v: u64)
        requires of { IsOf self.now pass.old }
        requires idle { IsIdle pass.old.errand }
        requires owned { Owns pass.old block.now }
        requires word { i < usable_words block.now.need }
        ensures of { IsOf self.now pass.new }
        ensures puts { PutsByRule R.allows (seen pass.new) pass.new.errand }
        ensures begun { HasBegun pass.old (write block.now.place block.now.need i v) pass.new }
    {
        pass.errand.begin_write(block.place, block.need, i, v);
    }

    /// Begins the read of a usable word of the pass's block; `i` counts them from 0.
    pub fn begin_read(&self, pass: &mut Pass, block: &Block, i: u32)
        requires of { IsOf self.now pass.old }
        requires idle { IsIdle pass.old.errand }
        requires owned { Owns pass.old block.now }
        requires word { i < usable_words block.now.need }
        ensures of { IsOf self.now pass.new }
        ensures puts { PutsByRule R.allows (seen pass.new) pass.new.errand }
        ensures begun { HasBegun pass.old (read block.now.place block.now.need i) pass.new }
    {
        pass.errand.begin_read(block.place, block.need, i);
    }

    /// Begins to put the pass's block on a shelf, where its words may lie.
    pub fn begin_put(&self, pass: &mut Pass, block: Block, shelf: u8)
        requires of { IsOf self.now pass.old }
        requires idle { IsIdle pass.old.errand }
        requires owned { Owns pass.old block }
        requires shelf { shelf < SHELVES }
        requires words { MayLieOn R.allows (seen pass.old) pass.old.errand.caller block.place shelf }
        ensures of { IsOf self.now pass.new }
        ensures puts { PutsByRule R.allows (seen pass.new) pass.new.errand }
        ensures begun { HasBegun pass.old (put block.place block.need shelf) pass.new }
    {
        pass.errand.begin_put(block.place, block.need, shelf);
    }

    /// Begins to take the block that lies on a shelf.
    pub fn begin_take(&self, pass: &mut Pass, shelf: u8)
        requires of { IsOf self.now pass.old }
        requires idle { IsIdle pass.old.errand }
        requires shelf { shelf < SHELVES }
        ensures of { IsOf self.now pass.new }
        ensures puts { PutsByRule R.allows (seen pass.new) pass.new.errand }
        ensures begun { HasBegun pass.old (take shelf) pass.new }
    {
        pass.errand.begin_take(shelf);
    }
}
