//! A program that uses a block again and again: each of its rounds allocates a block through a cache, writes a
//! word, reads the word and frees the block.

ghost use Rattle.std.specs.Prelude.{◌≡◌, ◌≤◌, ◌-◌, ◌^◌, [], ◌∷◌, IfOk, min};
ghost use Rattle.std.specs.Result.{IfErr};
ghost use Rattle.heap_geometry.specs.Geometry.{IsChecked};
ghost use Rattle.heap_geometry.specs.declared.limits.TheConstants.{CLASSES, LARGE_MOST};
ghost use Rattle.errand_steps.specs.declared.reply.Reply.TheVariants as reply;
ghost use Rattle.errand_steps.specs.Calls.{alloc, free};
ghost use Rattle.sound_state.specs.Sums.{sum_below};
ghost use Rattle.live_heap.specs.Endings.{HasClosed, IsResting};
ghost use Rattle.block_cache.specs.Caches.{cached_in};
ghost use Rattle.block_cache.specs.Whole.{HoldsAt, RestsAt};
ghost use Rattle.worked_programs.specs.Embedded.{live_in};
ghost use Rattle.worked_programs.specs.Reuse.{HasReused, HasStopped, HasStoppedRounds, HasStoppedWork, HasWorked, IsOpened, IsRound, Makes, MakesRounds, Stops, WasStopped};

use crate::embedded::{Stop, TRIES, count_live};
use block_cache::cache::Cache;
use block_cache::laws::{ended_calls_are_whole, whole_calls_keep_blocks};
use heap_geometry::geometry::Geometry;
use live_heap::answers::{AllocAnswer, FreeAnswer};
use live_heap::block::Block;
use live_heap::closed::Closed;
use live_heap::heap::Heap;
use live_heap::laws::words::written_words_stay;
use live_heap::laws::{closed_heaps_are_sound, passes_are_served};
use pool_model::laws::{histories_grow_by_events, live_blocks_are_counted};
use std::alloc::{AllocError, Global};

/// How many blocks a magazine keeps at most.
pub const DEPTH: u8 = 4;

/// How many rounds the program makes.
pub const ROUNDS: u64 = 5;

/// What the program came to.
#[derive(Drop)]
pub struct Reused {
    /// The sum of the words that it read.
    pub sum: u64,
    /// How many of its allocations a magazine served.
    pub hits: u64,
    /// How many turns its pass took.
    pub turns: u64,
    /// How many blocks of all classes are live in what is left of the heap.
    pub live: u64,
    /// What is left of the heap.
    pub closed: Closed,
}

/// The answer of the call that ended the program, the heap that it opened, and the cache as it was left.
#[derive(Drop)]
pub struct Stopped {
    pub stop: Stop,
    pub heap: Heap,
    pub cache: Cache,
}

/// An allocation of so many words.
fn allocate(heap: &Heap, cache: &mut Cache, words: u32) -> Result<Block, Stop>
    requires rests { RestsAt heap.now cache.old }
    requires words { words ≤ LARGE_MOST }
    ensures given { IfOk result (λ block. Makes heap.now cache.old (alloc words) (reply.Given block.place block.need) cache.new) }
    ensures stopped { IfErr result (λ stop. Stops heap.now cache.old (alloc words) stop cache.new) }
{
    ended_calls_are_whole();
    match cache.alloc(heap, words, TRIES) {
        AllocAnswer::Given(block) => Ok(block),
        AllocAnswer::Refused => Err(Stop::Refused),
        AllocAnswer::Spent => Err(Stop::Spent),
        AllocAnswer::Busy => Err(Stop::Busy),
        AllocAnswer::TooLarge => unreachable!(),
    }
}

/// The free of a block.
fn give_back(heap: &Heap, cache: &mut Cache, block: Block) -> Result<(), Stop>
    requires rests { RestsAt heap.now cache.old }
    requires held { HoldsAt cache.old block.place block.need }
    ensures freed { IfOk result (λ _. Makes heap.now cache.old (free block.place block.need) reply.Freed cache.new) }
    ensures stopped { IfErr result (λ stop. Stops heap.now cache.old (free block.place block.need) stop cache.new) }
{
    ended_calls_are_whole();
    match cache.free(heap, block, TRIES) {
        FreeAnswer::Freed => Ok(()),
        FreeAnswer::Busy => Err(Stop::Busy),
    }
}

/// One round: the word that it reads is the one that it wrote.
fn round(heap: &Heap, cache: &mut Cache, word: u64) -> Result<u64, Stop>
    requires { RestsAt heap.now cache.old }
    ensures made { IfOk result (λ read. IsRound heap.now cache.old word cache.new) }
    ensures same { IfOk result (λ read. read ≡ word) }
    ensures stopped { IfErr result (λ stop. HasStopped heap.now cache.old word stop cache.new) }
{
    ended_calls_are_whole();
    whole_calls_keep_blocks();
    written_words_stay();
    let block = allocate(heap, cache, 3)?;
    cache.write(heap, &block, 1, word);
    let read = cache.read(heap, &block, 1);
    give_back(heap, cache, block)?;
    Ok(read)
}

/// The rounds, each with its number as the word, and the sum of the words that they read.
fn rounds(heap: &Heap, cache: &mut Cache) -> Result<u64, Stop>
    requires { RestsAt heap.now cache.old }
    ensures rests { IfOk result (λ sum. RestsAt heap.now cache.new) }
    ensures made { IfOk result (λ sum. MakesRounds heap.now cache.old ROUNDS cache.new) }
    ensures sum { IfOk result (λ sum. sum ≡ min (sum_below ROUNDS (λ word. word)) (2 ^ 64 - 1)) }
    ensures stopped { IfErr result (λ stop. HasStoppedRounds heap.now cache.old stop cache.new) }
{
    let mut sum = 0u64;
    for word in 0..ROUNDS {
        sum = sum.saturating_add(round(heap, cache, word)?);
    }
    Ok(sum)
}

/// The rounds, and the flush that ends them.
fn work(heap: &Heap, cache: &mut Cache) -> Result<u64, Stop>
    requires { RestsAt heap.now cache.old }
    ensures worked { IfOk result (λ sum. HasWorked heap.now cache.old sum cache.new) }
    ensures stopped { IfErr result (λ stop. HasStoppedWork heap.now cache.old stop cache.new) }
{
    let sum = rounds(heap, cache)?;
    match cache.flush(heap, TRIES) {
        FreeAnswer::Freed => Ok(sum),
        FreeAnswer::Busy => Err(Stop::Busy),
    }
}

/// The numbers of its heap.
fn one_caller() -> Geometry
    ensures checked { IsChecked result }
    ensures callers { result.callers ≡ 1 }
{
    Geometry {
        frames: 4,
        heaps: 1,
        units: 2,
        callers: 1,
        turn_limit: 99,
    }
}

/// A heap with one caller, and a cache in front of its pass.
fn open(alloc: Global) -> Result<(Heap, Cache), AllocError>
    ensures { IfOk result (λ opened. IsOpened opened.0 opened.1) }
{
    let (heap, mut passes) = Heap::open(alloc, one_caller())?;
    match Cache::open(alloc, passes.remove(0), DEPTH) {
        Ok(cache) => Ok((heap, cache)),
        Err(_) => Err(AllocError),
    }
}

/// The end of both, where the magazines are empty.
fn close(alloc: Global, heap: Heap, cache: Cache, sum: u64) -> Result<Reused, AllocError>
    requires alone { heap.layout.callers ≡ 1 }
    requires rests { RestsAt heap cache }
    requires empty { cached_in cache ≡ [] }
    requires home { cache.pass.out ≡ 0 }
    ensures closed { IfOk result (λ reused. HasClosed heap (cache.pass ∷ []) reused.closed) }
    ensures at_rest { IfOk result (λ reused. IsResting reused.closed) }
    ensures counts { IfOk result (λ reused. (reused.sum ≡ sum) × (reused.hits ≡ cache.hits) × (reused.turns ≡ cache.pass.errand.turns)
        × (reused.live ≡ min (sum_below CLASSES (live_in reused.closed)) (2 ^ 64 - 1))) }
{
    let hits = cache.hits();
    let pass = cache.close();
    let turns = pass.turns();
    match heap.close(alloc, vec![in alloc; pass]?) {
        Ok(closed) => Ok(Reused {
            sum,
            hits,
            turns,
            live: count_live(&closed),
            closed,
        }),
        Err(_) => unreachable!(),
    }
}

/// The program: it opens a heap, makes its rounds, and closes the heap.
pub fn run(alloc: Global) -> Result<Result<Reused, Stopped>, AllocError>
    ensures ran { IfOk result (λ told. IfOk told HasReused) }
    ensures stopped { IfOk result (λ told. IfErr told WasStopped) }
{
    passes_are_served();
    closed_heaps_are_sound();
    live_blocks_are_counted();
    histories_grow_by_events();
    let (heap, mut cache) = open(alloc)?;
    match work(&heap, &mut cache) {
        Ok(sum) => Ok(Ok(close(alloc, heap, cache, sum)?)),
        Err(stop) => Ok(Err(Stopped { stop, heap, cache })),
    }
}
