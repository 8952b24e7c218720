//! Whole calls of a pass: an allocation or a free, with all that resumes it.

ghost use Rattle.std.specs.Prelude.{ℕ, ◌≤◌};
ghost use Rattle.heap_geometry.specs.declared.limits.TheConstants.{LARGE_MOST};
ghost use Rattle.errand_steps.specs.declared.reply.Reply.TheVariants as reply;
ghost use Rattle.errand_steps.specs.Calls.{Call, alloc, free};
ghost use Rattle.lane_engine.specs.Whole.{allocated_as};
ghost use Rattle.live_heap.specs.declared.pass.Pass.{Pass};
ghost use Rattle.live_heap.specs.Answers.{IsResumable};
ghost use Rattle.live_heap.specs.Calls.{IsCalling};
ghost use Rattle.live_heap.specs.Passes.{IsOf, Owns};
ghost use Rattle.live_heap.specs.Whole.{IsAtRest, IsWhole, ResumesTo};

use lane_engine::calls::Allocated;
use live_heap::answers::{AllocAnswer, FreeAnswer, Resumed};
use live_heap::block::Block;
use live_heap::heap::Heap;
use live_heap::pass::Pass;
use std::sync::Wait;
use std::thread;

/// How many exchanges a call loses, and empty superblocks it clears, together, before it yields.
const TRIES: u32 = 64;

/// Goes on with an allocation or a free that was interrupted, to its end.
fn go_on<R: Wait>(rt: &R, heap: &Heap, pass: &mut Pass) -> Resumed
    requires of { IsOf heap.now pass.old }
    requires under_way { (r : IsResumable pass.old) × IsOf heap.now r.first }
    ensures rests { IsAtRest heap.now pass.new }
    ensures ended { (first : Pass) (call : Call) (made : ℕ) → IsOf heap.now first → IsCalling first call made pass.old
        → ResumesTo first call result pass.new }
{
    for _ in rt.forever() {
        thread::yield_now();
        match heap.resume(pass, TRIES) {
            Resumed::Busy => {}
            ended => return ended,
        }
    }
    unreachable!()
}

/// Allocates a block of so many usable words.
pub(crate) fn allocate<R: Wait>(rt: &R, heap: &Heap, pass: &mut Pass, need: u32) -> Allocated<Block>
    requires rest { IsAtRest heap.now pass.old }
    requires need { need ≤ LARGE_MOST }
    ensures { IsWhole heap.now pass.old (alloc need)
        (allocated_as (λ (block : Block). block.place) (λ (block : Block). block.need) result) heap.now pass.new }
{
    match heap.alloc(pass, need, TRIES) {
        AllocAnswer::Given(block) => Allocated::Given(block),
        AllocAnswer::Refused => Allocated::Refused,
        AllocAnswer::Spent => Allocated::Spent,
        AllocAnswer::TooLarge => unreachable!(),
        AllocAnswer::Busy => match go_on(rt, heap, pass) {
            Resumed::Given(block) => Allocated::Given(block),
            Resumed::Refused => Allocated::Refused,
            Resumed::Spent => Allocated::Spent,
            _ => unreachable!(),
        },
    }
}

/// Frees the pass's block.
pub(crate) fn release<R: Wait>(rt: &R, heap: &Heap, pass: &mut Pass, block: Block)
    requires rest { IsAtRest heap.now pass.old }
    requires owned { Owns pass.old block }
    ensures { IsWhole heap.now pass.old (free block.place block.need) reply.Freed heap.now pass.new }
{
    match heap.free(pass, block, TRIES) {
        FreeAnswer::Freed => {}
        FreeAnswer::Busy => {
            let _ = go_on(rt, heap, pass);
        }
    }
}
