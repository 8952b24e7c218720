//! The lanes of a trace over one heap, each on a thread of its own and through a cache of its own.

ghost use Rattle.std.specs.Prelude.{ℕ, ◌≡◌, ◌<◌, ◌≤◌, ◌+◌, ◌++◌, [], IfOk, IfErr, OnErr, OnOk, All, map, length, vec_capacity, slice_index_or};
ghost use Rattle.crossbeam_utils.specs.Padded.{padded_value};
ghost use Rattle.trace_text.specs.Traces.{IsOp, IsTrace};
ghost use Rattle.lane_outcomes.specs.Passed.{AllPassed};
ghost use Rattle.errand_steps.specs.Begins.{IsIdle};
ghost use Rattle.live_heap.specs.Endings.{AreAllIdle};
ghost use Rattle.live_heap.specs.Passes.{AreFrom, IsFresh};
ghost use Rattle.trace_lane.specs.States.{IsNew};
ghost use Rattle.block_cache.specs.Caches.{cached_in};
ghost use Rattle.block_cache.specs.Whole.{RestsAt};
ghost use Rattle.lane_runner.specs.Runs.{HasMadeAll};
ghost use Rattle.lane_runner.specs.Threads.{AreDone, AreEnded, AreReady, HasRunOn, HaveRunThrough, IsOpened, IsPaired, passes_behind};
ghost use Rattle.lane_runner.specs.declared.run_lanes.CacheThread.{CacheThread};

use crate::lanes::lane_of;
use block_cache::cache::Cache;
use crossbeam_utils::CachePadded;
use edge_io::gate::Gate;
use lane_engine::over_cache::{CachedCalls, empty};
use lane_outcomes::outcome::Outcome;
use live_heap::block::Block;
use live_heap::heap::Heap;
use live_heap::pass::Pass;
use std::alloc::{AllocError, Global};
use std::sync::Wait;
use std::thread;
use std::thread::Threads;
use trace_lane::lane::LaneState;
use trace_text::trace::{Op, Trace};

/// Runs a new lane to its end through a cache.
fn run_lane<R: Wait, G: Gate>(
    rt: &R,
    heap: &Heap,
    operations: &[Op],
    gate: &G,
    cache: &mut Cache,
    lane: &mut LaneState<Block>,
)
    requires operations { All IsOp operations.now }
    requires new { IsNew lane.old.caller (length operations.now) lane.old }
    requires rests { RestsAt heap.now cache.old }
    ensures { HasMadeAll (G.passed gate.now) heap.now operations.now cache.old cache.new lane.old lane.new }
{
    let mut calls = CachedCalls::new(heap, cache);
    lane.run(rt, &mut calls, operations, gate);
}

/// What one thread works on: a lane, and the cache of its caller.
#[derive(Drop)]
struct CacheThread {
    cache: Cache,
    lane: LaneState<Block>,
}

impl CacheThread {
    /// Runs its lane to its end, and empties its cache.
    fn run<R: Wait, G: Gate>(&mut self, rt: &R, trace: &Trace, heap: &Heap, gate: &G, _depth: u8)
        requires trace { IsTrace trace.now }
        requires paired { IsPaired trace.now heap.now _depth self.old }
        ensures { HasRunOn (G.passed gate.now) trace.now heap.now self.old self.new }
    {
        let operations = lane_of(trace, self.lane.caller() as usize);
        let CacheThread { cache, lane } = self;
        run_lane(rt, heap, operations, gate, cache, lane);
        empty(rt, heap, cache);
    }
}

/// Runs a lane in its padding.
fn run_padded<R: Wait, G: Gate>(
    rt: &R,
    trace: &Trace,
    heap: &Heap,
    gate: &G,
    depth: u8,
    thread: &mut CachePadded<CacheThread>,
)
    requires trace { IsTrace trace.now }
    requires paired { IsPaired trace.now heap.now depth (padded_value {T = CacheThread} thread.old) }
    ensures { HasRunOn (G.passed gate.now) trace.now heap.now (padded_value {T = CacheThread} thread.old) (padded_value {T = CacheThread} thread.new) }
{
    let thread: &mut CacheThread = thread;
    thread.run(rt, trace, heap, gate, depth);
}

/// Runs lanes to their ends, each on a thread of its own.
fn run_each<R: Threads + Wait + Sync, G: Gate + Sync>(
    rt: &R,
    trace: &Trace,
    heap: &Heap,
    gate: &G,
    depth: u8,
    threads: &mut [CachePadded<CacheThread>],
)
    requires trace { IsTrace trace.now }
    requires some { 0 < length threads.old }
    requires paired { All (λ t. IsPaired trace.now heap.now depth (padded_value {T = CacheThread} t)) threads.old }
    ensures { (i : ℕ) (d : _) → i < length threads.old
        → HasRunOn (G.passed gate.now) trace.now heap.now (padded_value {T = CacheThread} (slice_index_or threads.old i d))
        (padded_value {T = CacheThread} (slice_index_or threads.new i d)) }
{
    let count = threads.len();
    thread::for_each_mut(
        rt,
        threads,
        count,
        &|_, thread: &mut CachePadded<CacheThread>|
            requires { IsTrace trace.now × IsPaired trace.now heap.now depth (padded_value {T = CacheThread} thread.old) }
            ensures { HasRunOn (G.passed gate.entry.now) trace.entry.now heap.entry.now (padded_value {T = CacheThread} thread.old) (padded_value {T = CacheThread} thread.new) }
        { run_padded(rt, trace, heap, gate, depth, thread) },
    );
}

/// Runs all lanes of a trace to their ends, each on a thread of its own.
fn run_threads<R: Threads + Wait + Sync, G: Gate + Sync>(
    rt: &R,
    trace: &Trace,
    heap: &Heap,
    gate: &G,
    depth: u8,
    threads: &mut Vec<CachePadded<CacheThread>>,
)
    requires trace { IsTrace trace.now }
    requires some { 0 < length trace.now.lanes }
    requires ready { (length threads.old.items ≡ length trace.now.lanes) × AreReady trace.now heap.now depth 0 threads.old.items }
    ensures done { (length threads.new.items ≡ length trace.now.lanes) × AreDone trace.now heap.now depth 0 threads.new.items }
    ensures passed { AllPassed (G.passed gate.now) trace.now.lanes }
{
    run_each(rt, trace, heap, gate, depth, threads.as_mut_slice());
}

/// A cache in front of a pass that has made no step; where there is no memory the pass comes back.
fn open_cache(alloc: Global, _heap: &Heap, pass: Pass, depth: u8) -> Result<Cache, Pass>
    requires fresh { IsFresh _heap.now pass }
    requires few { depth ≤ 64 }
    ensures opened { IfOk result (λ cache. IsOpened _heap.now depth pass.errand.caller cache × (cache.pass ≡ pass)) }
    ensures refused { IfErr result (λ back. back ≡ pass) }
{
    match Cache::open(alloc, pass, depth) {
        Ok(cache) => Ok(cache),
        Err(refused) => Err(refused.pass),
    }
}

/// A new lane, with a cache in front of the pass of its caller; where there is no memory the pass comes back.
fn open_thread(
    alloc: Global,
    trace: &Trace,
    heap: &Heap,
    lane: usize,
    pass: Pass,
    depth: u8,
) -> Result<CacheThread, Pass>
    requires trace { IsTrace trace.now }
    requires lane { lane < length trace.now.lanes }
    requires fresh { IsFresh heap.now pass × (pass.errand.caller ≡ lane) }
    requires few { depth ≤ 64 }
    ensures opened { IfOk result (λ thread. (thread.lane.caller ≡ lane) × IsPaired trace.now heap.now depth thread) }
    ensures pass { IfOk result (λ thread. thread.cache.pass ≡ pass) }
    ensures refused { IfErr result (λ back. back ≡ pass) }
{
    let Ok(opened) = LaneState::open(alloc, lane as u32, lane_of(trace, lane)) else {
        return Err(pass);
    };
    let cache = open_cache(alloc, heap, pass, depth)?;
    Ok(CacheThread {
        cache,
        lane: opened,
    })
}

/// Gives the passes of lanes that have made no step back, those of the last lanes last.
fn give_back(mut threads: Vec<CachePadded<CacheThread>>, passes: &mut Vec<Pass>)
    requires { length passes.old.items + length threads.items ≤ vec_capacity passes.old }
    ensures { passes.new.items ≡ passes.old.items ++ passes_behind threads.items }
{
    while let Some(thread) = threads.pop() {
        let CacheThread { cache, lane: _lane } = thread.into_inner();
        passes.push_reserved(cache.leave());
    }
}

/// A new lane for each of a trace's, the last one first, each with a cache in front of the pass of its caller.
/// Where there is no memory for all of them the passes are as they were.
fn open_threads(
    alloc: Global,
    trace: &Trace,
    heap: &Heap,
    passes: &mut Vec<Pass>,
    depth: u8,
) -> Result<Vec<CachePadded<CacheThread>>, AllocError>
    requires trace { IsTrace trace.now }
    requires passes { AreFrom heap.now 0 passes.old.items × (length passes.old.items ≡ length trace.now.lanes) }
    requires few { depth ≤ 64 }
    ensures opened { IfOk result (λ threads. (length threads.items ≡ length trace.now.lanes) × AreReady trace.now heap.now depth 0 threads.items) }
    ensures refused { OnErr result (passes.new.items ≡ passes.old.items) }
{
    let mut threads = Vec::with_capacity(alloc, trace.lanes.len())?;
    while let Some(pass) = passes.pop() {
        match open_thread(alloc, trace, heap, passes.len(), pass, depth) {
            Ok(thread) => threads.push_reserved(CachePadded::new(thread)),
            Err(pass) => {
                passes.push_reserved(pass);
                give_back(threads, passes);
                return Err(AllocError);
            }
        }
    }
    Ok(threads)
}

/// The lanes of a trace have run to their ends: the outcomes of each, how many of its allocations its
/// magazines have served, and the passes in the order of their numbers, each in no call and with no block's
/// words out.
#[derive(Drop)]
pub struct LanesRun {
    pub outcomes: Vec<Vec<Outcome>>,
    pub hits: Vec<u64>,
    pub passes: Vec<Pass>,
}

/// There was no memory, and no lane began.
#[derive(Drop)]
pub struct RunRefused {
    pub passes: Vec<Pass>,
}

/// Room for so many lanes.
fn reserve(alloc: Global, lanes: usize) -> Result<LanesRun, AllocError>
    ensures { IfOk result (λ run. (run.outcomes.items ≡ []) × (run.hits.items ≡ []) × (run.passes.items ≡ [])
        × (lanes ≤ vec_capacity run.outcomes) × (lanes ≤ vec_capacity run.hits) × (lanes ≤ vec_capacity run.passes)) }
{
    let outcomes = Vec::with_capacity(alloc, lanes)?;
    let hits = Vec::with_capacity(alloc, lanes)?;
    let passes = Vec::with_capacity(alloc, lanes)?;
    Ok(LanesRun {
        outcomes,
        hits,
        passes,
    })
}

/// Takes the passes, the outcomes and the hits back, those of lane 0 first.
fn take_back(
    _trace: &Trace,
    _heap: &Heap,
    _depth: u8,
    mut threads: Vec<CachePadded<CacheThread>>,
    run: &mut LanesRun,
)
    requires threads { (length threads.items ≡ length _trace.now.lanes) × AreDone _trace.now _heap.now _depth 0 threads.items }
    requires empty { (run.old.outcomes.items ≡ []) × (run.old.hits.items ≡ []) × (run.old.passes.items ≡ []) }
    requires room { (length _trace.now.lanes ≤ vec_capacity run.old.outcomes) × (length _trace.now.lanes ≤ vec_capacity run.old.hits)
        × (length _trace.now.lanes ≤ vec_capacity run.old.passes) }
    ensures { (length run.new.passes.items ≡ length _trace.now.lanes)
        × AreEnded _trace.now _heap.now _depth 0 run.new.passes.items run.new.outcomes.items run.new.hits.items }
{
    while let Some(thread) = threads.pop() {
        let CacheThread { cache, lane } = thread.into_inner();
        run.hits.push_reserved(cache.hits());
        run.passes.push_reserved(cache.close());
        run.outcomes.push_reserved(lane.into_outcomes());
    }
}

/// Runs the lanes of a trace to their ends over a heap that no pass has made a step of, each on a thread
/// of its own, as many threads as lanes, and through a cache of its own with magazines for `depth` blocks
/// each, at most 64, which it empties at its end: with 0 each call is its pass's. A trace's order runs are
/// not used. Each operation passes the gate before it begins. A lane yields once each time the exchanges that
/// it lost and the superblocks that it cleared have grown by 64. All memory is taken before a lane begins:
/// where there is too little, no lane begins, and the passes come back as they were.
pub fn run_lanes<R: Threads + Wait + Sync, G: Gate + Sync>(
    rt: &R,
    alloc: Global,
    trace: &Trace,
    heap: &Heap,
    mut passes: Vec<Pass>,
    depth: u8,
    gate: &G,
) -> Result<LanesRun, RunRefused>
    requires trace { IsTrace trace.now }
    requires heap { heap.now.layout ≡ trace.now.heap }
    requires passes { AreFrom heap.now 0 passes.items × (length passes.items ≡ trace.now.heap.callers) }
    requires few { depth ≤ 64 }
    ensures ran { IfOk result (λ run. HaveRunThrough trace.now heap.now depth run.passes.items (map (λ lane. lane.items) run.outcomes.items) run.hits.items) }
    ensures idle { IfOk result (λ run. AreAllIdle heap.now run.passes.items) }
    ensures home { IfOk result (λ run. All (λ pass. pass.out ≡ 0) run.passes.items) }
    ensures passed { OnOk result (AllPassed (G.passed gate.now) trace.now.lanes) }
    ensures refused { IfErr result (λ refused. refused.passes.items ≡ passes.items) }
{
    if trace.lanes.is_empty() {
        return Ok(LanesRun {
            outcomes: Vec::new(alloc),
            hits: Vec::new(alloc),
            passes,
        });
    }
    let Ok(mut run) = reserve(alloc, trace.lanes.len()) else {
        return Err(RunRefused { passes });
    };
    let Ok(mut threads) = open_threads(alloc, trace, heap, &mut passes, depth) else {
        return Err(RunRefused { passes });
    };
    run_threads(rt, trace, heap, gate, depth, &mut threads);
    take_back(trace, heap, depth, threads, &mut run);
    Ok(run)
}
