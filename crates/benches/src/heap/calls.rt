//! Whole calls of a pass, which are gone on with until they have ended, with so many tries each time.

ghost use Rattle.std.specs.Prelude.{ℕ, ◌≡◌, ◌<◌, None};
ghost use Rattle.heap_geometry.specs.declared.limits.TheConstants.{SHELVES};
ghost use Rattle.errand_steps.specs.Calls.{Call, alloc, free, put, take};
ghost use Rattle.live_heap.specs.declared.pass.Pass.{Pass};
ghost use Rattle.live_heap.specs.Calls.{IsCalling};
ghost use Rattle.live_heap.specs.Passes.{IsOf, Owns};
ghost use Rattle.benches.specs.Hands.{HasMade, IsUnderWay, Rests};

use crate::heap::tally::{Tally, count};
use live_heap::answers::{AllocAnswer, FreeAnswer, Resumed, Taken};
use live_heap::block::Block;
use live_heap::heap::Heap;
use live_heap::laws::passes_keep_their_blocks;
use live_heap::pass::Pass;
use std::sync::Wait;

/// An allocation of so many usable words.
pub fn allocate<R: Wait>(
    rt: &R,
    heap: &Heap,
    pass: &mut Pass,
    need: u32,
    tries: u32,
    tally: &mut Tally,
) -> Option<Block>
    requires rests { Rests heap.now pass.old }
    requires tries { 0 < tries }
    ensures { HasMade heap.now pass.old (alloc need) result pass.new }
{
    passes_keep_their_blocks();
    match heap.alloc(pass, need, tries) {
        AllocAnswer::Given(block) => {
            count(&mut tally.given);
            Some(block)
        }
        AllocAnswer::Busy => {
            count(&mut tally.busy);
            finish(rt, heap, pass, tries, tally)
        }
        AllocAnswer::Refused => {
            count(&mut tally.refused);
            None
        }
        AllocAnswer::Spent => {
            count(&mut tally.refused);
            None
        }
        AllocAnswer::TooLarge => {
            count(&mut tally.refused);
            None
        }
    }
}

/// Frees the pass's block.
pub fn release<R: Wait>(
    rt: &R,
    heap: &Heap,
    pass: &mut Pass,
    block: Block,
    tries: u32,
    tally: &mut Tally,
)
    requires rests { Rests heap.now pass.old }
    requires owned { Owns pass.old block }
    requires tries { 0 < tries }
    ensures { HasMade heap.now pass.old (free block.place block.need) None pass.new }
{
    passes_keep_their_blocks();
    match heap.free(pass, block, tries) {
        FreeAnswer::Freed => count(&mut tally.freed),
        FreeAnswer::Busy => {
            count(&mut tally.busy);
            let _ = finish(rt, heap, pass, tries, tally);
        }
    }
}

/// Goes on with an allocation or a free to its end, and answers the block that it got.
fn finish<R: Wait>(
    rt: &R,
    heap: &Heap,
    pass: &mut Pass,
    tries: u32,
    tally: &mut Tally,
) -> Option<Block>
    requires of { IsOf heap.now pass.old }
    requires under_way { IsUnderWay heap.now pass.old }
    requires tries { 0 < tries }
    ensures { (first : Pass) (call : Call) (made : ℕ) → Rests heap.now first → IsCalling first call made pass.old
        → HasMade heap.now first call result pass.new }
{
    passes_keep_their_blocks();
    for _ in rt.forever() {
        match heap.resume(pass, tries) {
            Resumed::Busy => count(&mut tally.busy),
            Resumed::Given(block) => {
                count(&mut tally.given);
                return Some(block);
            }
            Resumed::Freed => {
                count(&mut tally.freed);
                return None;
            }
            Resumed::Refused => {
                count(&mut tally.refused);
                return None;
            }
            Resumed::Spent => {
                count(&mut tally.refused);
                return None;
            }
        }
    }
    unreachable!()
}

/// Puts the pass's block on a shelf, or frees it where the shelf is full.
pub fn shelve<R: Wait>(
    rt: &R,
    heap: &Heap,
    pass: &mut Pass,
    block: Block,
    shelf: u8,
    tries: u32,
    tally: &mut Tally,
)
    requires rests { Rests heap.now pass.old }
    requires owned { Owns pass.old block }
    requires shelf { shelf < SHELVES }
    requires tries { 0 < tries }
    ensures { HasMade heap.now pass.old (put block.place block.need shelf) None pass.new }
{
    passes_keep_their_blocks();
    match heap.put(pass, block, shelf) {
        Ok(()) => count(&mut tally.put),
        Err(full) => {
            count(&mut tally.missed);
            release(rt, heap, pass, full.block, tries, tally);
        }
    }
}

/// Takes the block that lies on a shelf.
pub fn fetch(heap: &Heap, pass: &mut Pass, shelf: u8, tally: &mut Tally) -> Option<Block>
    requires rests { Rests heap.now pass.old }
    requires shelf { shelf < SHELVES }
    ensures { HasMade heap.now pass.old (take shelf) result pass.new }
{
    passes_keep_their_blocks();
    match heap.take(pass, shelf) {
        Taken::Got(block) => {
            count(&mut tally.taken);
            Some(block)
        }
        Taken::Empty => {
            count(&mut tally.missed);
            None
        }
        Taken::Missed { .. } => {
            count(&mut tally.missed);
            None
        }
    }
}
