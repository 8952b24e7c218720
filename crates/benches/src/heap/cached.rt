//! A cache in front of a pass, through which a thread makes its calls.

ghost use Rattle.std.specs.Prelude.{ℕ, ◌≡◌, ◌<◌, ◌++◌, ◌∷◌, ◌↔◌, List};
ghost use Rattle.errand_steps.specs.Begins.{IsBusy};
ghost use Rattle.errand_steps.specs.Calls.{Call};
ghost use Rattle.live_heap.specs.declared.block.Block.{Block};
ghost use Rattle.live_heap.specs.declared.pass.Pass.{Pass};
ghost use Rattle.live_heap.specs.Calls.{IsCalling};
ghost use Rattle.live_heap.specs.Hands.{resumed_by};
ghost use Rattle.live_heap.specs.Passes.{IsOf};
ghost use Rattle.live_heap.specs.Whole.{ResumesTo};
ghost use Rattle.block_cache.specs.Caches.{Holds, IsCache};
ghost use Rattle.block_cache.specs.Whole.{RestsAt};
ghost use Rattle.benches.specs.Hands.{got_by};

use crate::heap::front::Front;
use crate::heap::tally::{Tally, count};
use block_cache::cache::Cache;
use block_cache::laws::{caches_account_for_all_blocks, ended_calls_are_whole};
use lane_engine::over_cache::empty;
use live_heap::answers::{AllocAnswer, FreeAnswer, Resumed, Taken};
use live_heap::block::Block;
use live_heap::heap::Heap;
use live_heap::laws::blocks::passes_hold_exactly;
use live_heap::pass::Pass;
use std::alloc::{AllocError, Global};
use std::sync::Wait;

/// How many blocks of a class a cache keeps.
const DEPTH: u8 = 64;

/// Goes on with an allocation or a free to its end.
fn go_on<R: Wait>(rt: &R, heap: &Heap, cache: &mut Cache, tries: u32, tally: &mut Tally) -> Resumed
    requires cache { IsCache heap.now cache.old }
    requires under_way { IsBusy cache.old.pass.errand }
    requires tries { 0 < tries }
    ensures rests { RestsAt heap.now cache.new }
    ensures holds { (held : List Block) → Holds cache.old held → Holds cache.new (resumed_by result ++ held) }
    ensures ended { (first : Pass) (call : Call) (made : ℕ) → IsOf heap.now first → IsCalling first call made cache.old.pass
        → ResumesTo first call result cache.new.pass }
{
    for _ in rt.forever() {
        match cache.resume(heap, tries) {
            Resumed::Busy => count(&mut tally.busy),
            ended => return ended,
        }
    }
    unreachable!()
}

/// The block that an allocation was given.
fn given(answer: Resumed, tally: &mut Tally) -> Option<Block>
    ensures { got_by result ≡ resumed_by answer }
{
    match answer {
        Resumed::Given(block) => {
            count(&mut tally.given);
            Some(block)
        }
        _ => {
            count(&mut tally.refused);
            None
        }
    }
}

impl Front for Cache {
    ghost use Rattle.std.specs.Prelude.{◌≡◌, ◌++◌, ◌∷◌, ◌↔◌, List};
    ghost use Rattle.live_heap.specs.declared.block.Block.{Block};
    ghost use Rattle.live_heap.specs.Heaps.{HeapFields};
    ghost use Rattle.block_cache.specs.declared.cache.Cache.{Cache};
    ghost use Rattle.block_cache.specs.Caches.{Holds};
    ghost use Rattle.block_cache.specs.Whole.{RestsAt};

    ghost rests = { λ h c. RestsAt h c × (c.pass.out ≡ 0) };

    ghost holds = { λ c blocks. Holds c blocks };

    fn open(alloc: Global, _heap: &Heap, pass: Pass) -> Result<Cache, AllocError> {
        passes_hold_exactly();
        caches_account_for_all_blocks();
        match Cache::open(alloc, pass, DEPTH) {
            Ok(cache) => Ok(cache),
            Err(_) => Err(AllocError),
        }
    }

    fn close<R: Wait>(mut self, rt: &R, heap: &Heap) -> Pass {
        empty(rt, heap, &mut self);
        Cache::close(self)
    }

    fn allocate<R: Wait>(
        &mut self,
        rt: &R,
        heap: &Heap,
        need: u32,
        tries: u32,
        tally: &mut Tally,
    ) -> Option<Block> {
        ended_calls_are_whole();
        match self.alloc(heap, need, tries) {
            AllocAnswer::Given(block) => {
                count(&mut tally.given);
                Some(block)
            }
            AllocAnswer::Busy => {
                count(&mut tally.busy);
                given(go_on(rt, heap, self, tries, tally), tally)
            }
            AllocAnswer::Refused => {
                count(&mut tally.refused);
                None
            }
            AllocAnswer::Spent => {
                count(&mut tally.refused);
                None
            }
            AllocAnswer::TooLarge => unreachable!(),
        }
    }

    fn release<R: Wait>(
        &mut self,
        rt: &R,
        heap: &Heap,
        block: Block,
        tries: u32,
        tally: &mut Tally,
    ) {
        caches_account_for_all_blocks();
        ended_calls_are_whole();
        match self.free(heap, block, tries) {
            FreeAnswer::Freed => count(&mut tally.freed),
            FreeAnswer::Busy => {
                count(&mut tally.busy);
                let _ = go_on(rt, heap, self, tries, tally);
                count(&mut tally.freed);
            }
        }
    }

    fn shelve<R: Wait>(
        &mut self,
        rt: &R,
        heap: &Heap,
        block: Block,
        shelf: u8,
        tries: u32,
        tally: &mut Tally,
    ) {
        caches_account_for_all_blocks();
        match self.put(heap, block, shelf) {
            Ok(()) => count(&mut tally.put),
            Err(full) => {
                count(&mut tally.missed);
                self.release(rt, heap, full.block, tries, tally);
            }
        }
    }

    fn fetch(&mut self, heap: &Heap, shelf: u8, tally: &mut Tally) -> Option<Block> {
        match self.take(heap, shelf) {
            Taken::Got(block) => {
                count(&mut tally.taken);
                Some(block)
            }
            Taken::Empty => {
                count(&mut tally.missed);
                None
            }
            Taken::Missed { .. } => {
                count(&mut tally.missed);
                None
            }
        }
    }

    fn write(&mut self, heap: &Heap, block: &Block, i: u32, v: u64) {
        caches_account_for_all_blocks();
        Cache::write(self, heap, block, i, v);
    }

    fn read(&mut self, heap: &Heap, block: &Block, i: u32) -> u64 {
        caches_account_for_all_blocks();
        Cache::read(self, heap, block, i)
    }

    fn fill(&mut self, heap: &Heap, block: &Block, from: u64) {
        caches_account_for_all_blocks();
        Cache::fill(self, heap, block, from);
    }

    fn sum(&mut self, heap: &Heap, block: &Block) -> u64 {
        caches_account_for_all_blocks();
        Cache::sum(self, heap, block)
    }

    fn blocks_have_no_order()
        ensures { (front : Cache) (before after : List Block) (block : Block)
            → Holds front (before ++ block ∷ after) ↔ Holds front (block ∷ before ++ after) }
    {
        caches_account_for_all_blocks();
    }
}
