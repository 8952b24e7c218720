//! A cache in front of a heap, whose lane makes whole calls.

ghost use Rattle.std.specs.Prelude.{ℕ, ◌≡◌, ◌<◌, ◌≤◌};
ghost use Rattle.heap_geometry.specs.declared.limits.TheConstants.{LARGE_MOST};
ghost use Rattle.errand_steps.specs.declared.reply.Reply.TheVariants as reply;
ghost use Rattle.errand_steps.specs.Calls.{Call, alloc, free};
ghost use Rattle.live_heap.specs.declared.pass.Pass.{Pass};
ghost use Rattle.live_heap.specs.Answers.{IsResumable};
ghost use Rattle.live_heap.specs.Calls.{IsCalling};
ghost use Rattle.live_heap.specs.Passes.{IsOf};
ghost use Rattle.live_heap.specs.Whole.{ResumesTo};
ghost use Rattle.lane_engine.specs.Whole.{allocated_as};
ghost use Rattle.block_cache.specs.Caches.{IsCache, KeepsMagazines};
ghost use Rattle.block_cache.specs.Whole.{HoldsAt, RestsAt};
ghost use Rattle.lane_engine.specs.Caches.{HasEmptied, IsCachedCall};

use crate::calls::{Allocated, Calls};
use block_cache::cache::Cache;
use block_cache::laws::{calls_on_words_are_whole, ended_calls_are_whole};
use live_heap::answers::{AllocAnswer, FreeAnswer, Resumed, Taken};
use live_heap::block::Block;
use live_heap::heap::Heap;
use std::sync::Wait;
use std::thread;

/// By how many lost exchanges and cleared superblocks, together, a pass's count grows between two yields.
const YIELD_AFTER: u32 = 64;

/// A cache through which whole calls are made. It yields once each time the exchanges that its pass lost
/// and the superblocks that it cleared have grown by 64.
#[derive(Drop)]
pub struct CachedCalls<'a> {
    heap: &'a Heap,
    cache: &'a mut Cache,
    /// The pass's count when it last yielded.
    last: u64,
}

/// How many exchanges a cache's pass has lost and how many empty superblocks it has cleared, together, at
/// most 2^64 - 1.
fn setbacks(cache: &Cache) -> u64 {
    cache.lost().saturating_add(cache.cleared())
}

/// How many more it may lose or clear before it yields; it yields where that is due.
fn tries(cache: &Cache, last: &mut u64) -> u32
    ensures { 0 < result }
{
    let now = setbacks(cache);
    let grown = now.saturating_sub(*last);
    if grown < u64::from(YIELD_AFTER) {
        return YIELD_AFTER - grown as u32;
    }
    thread::yield_now();
    *last = now;
    YIELD_AFTER
}

/// Goes on with an allocation or a free of the heap that was interrupted, to its end.
fn go_on<R: Wait>(rt: &R, heap: &Heap, cache: &mut Cache, last: &mut u64) -> Resumed
    requires cache { IsCache heap.now cache.old }
    requires under_way { IsResumable cache.old.pass }
    ensures rests { RestsAt heap.now cache.new }
    ensures keeps { KeepsMagazines cache.old cache.new }
    ensures ended { (first : Pass) (call : Call) (made : ℕ) → IsOf heap.now first → IsCalling first call made cache.old.pass
        → ResumesTo first call result cache.new.pass }
{
    for _ in rt.forever() {
        let tries = tries(cache, last);
        match cache.resume(heap, tries) {
            Resumed::Busy => {}
            ended => return ended,
        }
    }
    unreachable!()
}

/// Allocates a block, from its magazine or of the heap.
#[inline(always)]
fn allocate<R: Wait>(
    rt: &R,
    heap: &Heap,
    cache: &mut Cache,
    last: &mut u64,
    need: u32,
) -> Allocated<Block>
    requires rests { RestsAt heap.now cache.old }
    requires need { need ≤ LARGE_MOST }
    ensures { IsCachedCall heap.now cache.old (alloc need)
        (allocated_as (λ (block : Block). block.place) (λ (block : Block). block.need) result) cache.new }
{
    ended_calls_are_whole();
    let tries = tries(cache, last);
    match cache.alloc(heap, need, tries) {
        AllocAnswer::Given(block) => Allocated::Given(block),
        AllocAnswer::Refused => Allocated::Refused,
        AllocAnswer::Spent => Allocated::Spent,
        AllocAnswer::TooLarge => unreachable!(),
        AllocAnswer::Busy => match go_on(rt, heap, cache, last) {
            Resumed::Given(block) => Allocated::Given(block),
            Resumed::Refused => Allocated::Refused,
            Resumed::Spent => Allocated::Spent,
            _ => unreachable!(),
        },
    }
}

/// Frees the caller's block, into its magazine or to the heap.
#[inline(always)]
fn free_block<R: Wait>(rt: &R, heap: &Heap, cache: &mut Cache, last: &mut u64, block: Block)
    requires rests { RestsAt heap.now cache.old }
    requires held { HoldsAt cache.old block.place block.need }
    ensures { IsCachedCall heap.now cache.old (free block.place block.need) reply.Freed cache.new }
{
    ended_calls_are_whole();
    let tries = tries(cache, last);
    match cache.free(heap, block, tries) {
        FreeAnswer::Freed => {}
        FreeAnswer::Busy => {
            let _ = go_on(rt, heap, cache, last);
        }
    }
}

/// Empties all magazines, by frees of the heap.
pub fn empty<R: Wait>(rt: &R, heap: &Heap, cache: &mut Cache)
    requires rests { RestsAt heap.now cache.old }
    ensures rests { RestsAt heap.now cache.new }
    ensures emptied { HasEmptied heap.now cache.old cache.new }
{
    let mut last = setbacks(cache);
    for _ in rt.forever() {
        let tries = tries(cache, &mut last);
        match cache.flush(heap, tries) {
            FreeAnswer::Freed => return,
            FreeAnswer::Busy => {
                let _ = go_on(rt, heap, cache, &mut last);
            }
        }
    }
    unreachable!()
}

impl<'a> CachedCalls<'a> {
    /// Whole calls through this cache.
    pub fn new(heap: &'a Heap, cache: &'a mut Cache) -> CachedCalls<'a>
        requires { RestsAt heap.now cache.old }
        ensures same { result.cache.ghost_name ≡ cache.entry.ghost_name }
        ensures cache { result.cache.now ≡ cache.old }
        ensures heap { result.heap.now ≡ heap.now }
    {
        let last = setbacks(cache);
        CachedCalls { heap, cache, last }
    }
}

impl<'a> Calls for CachedCalls<'a> {
    ghost use Rattle.lane_engine.specs.Whole.{KeepBlocks};
    ghost use Rattle.lane_engine.specs.Caches.{cache_maker};

    type Held = Block;

    ghost maker = { cache_maker };

    #[inline(always)]
    fn allocate<R: Wait>(&mut self, rt: &R, need: u32) -> Allocated<Block> {
        allocate(rt, self.heap, self.cache, &mut self.last, need)
    }

    #[inline(always)]
    fn free<R: Wait>(&mut self, rt: &R, held: Block) {
        free_block(rt, self.heap, self.cache, &mut self.last, held);
    }

    fn fill(&mut self, held: &Block, from: u64) {
        calls_on_words_are_whole();
        self.cache.fill(self.heap, held, from);
    }

    fn sum(&mut self, held: &Block) -> u64 {
        calls_on_words_are_whole();
        self.cache.sum(self.heap, held)
    }

    fn copy(&mut self, from: &Block, to: &Block) {
        calls_on_words_are_whole();
        self.cache.copy(self.heap, from, to);
    }

    fn put(&mut self, held: Block, shelf: u8) -> Option<Block> {
        ended_calls_are_whole();
        match self.cache.put(self.heap, held, shelf) {
            Ok(()) => None,
            Err(full) => Some(full.block),
        }
    }

    fn take(&mut self, shelf: u8) -> Taken<Block> {
        ended_calls_are_whole();
        // A take that misses has lost an exchange, and is tried again: it yields as the others do.
        let _ = tries(self.cache, &mut self.last);
        self.cache.take(self.heap, shelf)
    }

    fn calls_keep_blocks()
        ensures { KeepBlocks cache_maker.called cache_maker.owns }
    {}
}
