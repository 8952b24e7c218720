//! What a thread makes its calls through: a pass of a heap, or something in front of it.

ghost use Rattle.std.specs.Prelude.{◌≡◌, ◌<◌, ◌≤◌, ◌++◌, ◌∷◌, ◌↔◌, List, [], Option, IfOk};
ghost use Rattle.heap_geometry.specs.Need.{usable_words};
ghost use Rattle.heap_geometry.specs.declared.limits.TheConstants.{LARGE_MOST, SHELVES};
ghost use Rattle.live_heap.specs.declared.block.Block.{Block};
ghost use Rattle.live_heap.specs.Heaps.{HeapFields};
ghost use Rattle.live_heap.specs.Passes.{IsFresh};
ghost use Rattle.benches.specs.Hands.{Rests, got_by};

use crate::heap::calls;
use crate::heap::tally::Tally;
use live_heap::block::Block;
use live_heap::heap::Heap;
use live_heap::laws::passes_keep_their_blocks;
use live_heap::pass::Pass;
use std::alloc::{AllocError, Global};
use std::sync::Wait;

/// Whole calls of one caller, which are gone on with until they have ended, with so many tries each time.
pub trait Front: Drop {
    /// It is of this heap, in no call, and no block's words are out with it.
    ghost rests: { HeapFields → Self → Type 0 };

    /// Its caller holds these blocks, each once.
    ghost holds: { Self → List Block → Type 0 };

    /// One over a pass that has made no step; its caller holds nothing.
    fn open(alloc: Global, heap: &Heap, pass: Pass) -> Result<Self, AllocError>
        requires { IsFresh heap.now pass }
        ensures { IfOk result (λ front. rests heap.now front × holds front []) };

    /// The pass, in no call.
    fn close<R: Wait>(self, rt: &R, heap: &Heap) -> Pass
        requires { rests heap.now self }
        ensures { Rests heap.now result };

    /// An allocation of so many usable words.
    fn allocate<R: Wait>(
        &mut self,
        rt: &R,
        heap: &Heap,
        need: u32,
        tries: u32,
        tally: &mut Tally,
    ) -> Option<Block>
        requires rests { rests heap.now self.old }
        requires need { need ≤ LARGE_MOST }
        requires tries { 0 < tries }
        ensures rests { rests heap.now self.new }
        ensures holds { (held : List Block) → holds self.old held → holds self.new (got_by result ++ held) };

    /// Frees the caller's block.
    fn release<R: Wait>(&mut self, rt: &R, heap: &Heap, block: Block, tries: u32, tally: &mut Tally)
        requires rests { rests heap.now self.old }
        requires held { (others : List Block) × holds self.old (block ∷ others) }
        requires tries { 0 < tries }
        ensures rests { rests heap.now self.new }
        ensures holds { (held : List Block) → holds self.old (block ∷ held) → holds self.new held };

    /// Puts the caller's block on a shelf, or frees it where the shelf is full.
    fn shelve<R: Wait>(
        &mut self,
        rt: &R,
        heap: &Heap,
        block: Block,
        shelf: u8,
        tries: u32,
        tally: &mut Tally,
    )
        requires rests { rests heap.now self.old }
        requires held { (others : List Block) × holds self.old (block ∷ others) }
        requires shelf { shelf < SHELVES }
        requires tries { 0 < tries }
        ensures rests { rests heap.now self.new }
        ensures holds { (held : List Block) → holds self.old (block ∷ held) → holds self.new held };

    /// Takes the block that lies on a shelf.
    fn fetch(&mut self, heap: &Heap, shelf: u8, tally: &mut Tally) -> Option<Block>
        requires rests { rests heap.now self.old }
        requires shelf { shelf < SHELVES }
        ensures rests { rests heap.now self.new }
        ensures holds { (held : List Block) → holds self.old held → holds self.new (got_by result ++ held) };

    /// Writes a usable word of the caller's block; `i` counts them from 0.
    fn write(&mut self, heap: &Heap, block: &Block, i: u32, v: u64)
        requires rests { rests heap.now self.old }
        requires held { (others : List Block) × holds self.old (block.now ∷ others) }
        requires word { i < usable_words block.now.need }
        ensures rests { rests heap.now self.new }
        ensures holds { (held : List Block) → holds self.old held → holds self.new held };

    /// Reads a usable word of the caller's block; `i` counts them from 0.
    fn read(&mut self, heap: &Heap, block: &Block, i: u32) -> u64
        requires rests { rests heap.now self.old }
        requires held { (others : List Block) × holds self.old (block.now ∷ others) }
        requires word { i < usable_words block.now.need }
        ensures rests { rests heap.now self.new }
        ensures holds { (held : List Block) → holds self.old held → holds self.new held };

    /// Fills the caller's block: word i with from + i, modulo 2^64.
    fn fill(&mut self, heap: &Heap, block: &Block, from: u64)
        requires rests { rests heap.now self.old }
        requires held { (others : List Block) × holds self.old (block.now ∷ others) }
        ensures rests { rests heap.now self.new }
        ensures holds { (held : List Block) → holds self.old held → holds self.new held };

    /// The sum of the words of the caller's block, modulo 2^64.
    fn sum(&mut self, heap: &Heap, block: &Block) -> u64
        requires rests { rests heap.now self.old }
        requires held { (others : List Block) × holds self.old (block.now ∷ others) }
        ensures rests { rests heap.now self.new }
        ensures holds { (held : List Block) → holds self.old held → holds self.new held };

    /// The order of the blocks means nothing: a theorem, on a function that does nothing.
    fn blocks_have_no_order()
        ensures { (front : Self) (before after : List Block) (block : Block)
            → holds front (before ++ block ∷ after) ↔ holds front (block ∷ before ++ after) };
}

impl Front for Pass {
    ghost use Rattle.std.specs.Prelude.{◌++◌, ◌∷◌, ◌↔◌, List};
    ghost use Rattle.live_heap.specs.declared.block.Block.{Block};
    ghost use Rattle.live_heap.specs.Heaps.{HeapFields};
    ghost use Rattle.live_heap.specs.declared.pass.Pass.{Pass};
    ghost use Rattle.live_heap.specs.Holdings.{Holds};
    ghost use Rattle.benches.specs.Hands.{Rests};

    ghost rests = { λ h p. Rests h p };

    ghost holds = { λ p blocks. Holds p blocks };

    fn open(_alloc: Global, _heap: &Heap, pass: Pass) -> Result<Pass, AllocError> {
        Ok(pass)
    }

    fn close<R: Wait>(self, _rt: &R, _heap: &Heap) -> Pass {
        self
    }

    fn allocate<R: Wait>(
        &mut self,
        rt: &R,
        heap: &Heap,
        need: u32,
        tries: u32,
        tally: &mut Tally,
    ) -> Option<Block> {
        calls::allocate(rt, heap, self, need, tries, tally)
    }

    fn release<R: Wait>(
        &mut self,
        rt: &R,
        heap: &Heap,
        block: Block,
        tries: u32,
        tally: &mut Tally,
    ) {
        calls::release(rt, heap, self, block, tries, tally);
    }

    fn shelve<R: Wait>(
        &mut self,
        rt: &R,
        heap: &Heap,
        block: Block,
        shelf: u8,
        tries: u32,
        tally: &mut Tally,
    ) {
        calls::shelve(rt, heap, self, block, shelf, tries, tally);
    }

    fn fetch(&mut self, heap: &Heap, shelf: u8, tally: &mut Tally) -> Option<Block> {
        calls::fetch(heap, self, shelf, tally)
    }

    fn write(&mut self, heap: &Heap, block: &Block, i: u32, v: u64) {
        passes_keep_their_blocks();
        heap.write(self, block, i, v);
    }

    fn read(&mut self, heap: &Heap, block: &Block, i: u32) -> u64 {
        passes_keep_their_blocks();
        heap.read(self, block, i)
    }

    fn fill(&mut self, heap: &Heap, block: &Block, from: u64) {
        heap.fill(self, block, from);
    }

    fn sum(&mut self, heap: &Heap, block: &Block) -> u64 {
        heap.sum(self, block)
    }

    fn blocks_have_no_order()
        ensures { (front : Pass) (before after : List Block) (block : Block)
            → Holds front (before ++ block ∷ after) ↔ Holds front (block ∷ before ++ after) }
    {}
}
