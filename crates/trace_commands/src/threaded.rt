//! Running a trace on threads.

ghost use Rattle.std.specs.Prelude.{IfOk, map, ◌≤◌};
ghost use Rattle.trace_text.specs.Traces.{IsTrace};
ghost use Rattle.trace_commands.specs.Answers.{IsCachedRun, IsRun};
ghost use Rattle.trace_commands.specs.Closings.{IsSharedIn};

use crate::closing::Closing;
use edge_io::gate::Gate;
use lane_outcomes::cached_laws::caches_without_room_are_none;
use lane_outcomes::outcome::Outcome;
use lane_runner::laws::{
    closed_lanes_fit_through_caches, lanes_without_magazines_run_on_passes,
    spent_lanes_took_their_turns,
};
use lane_runner::run_lanes::{LanesRun, run_lanes};
use live_heap::closed::Closed;
use live_heap::heap::Heap;
use std::alloc::{AllocError, Global};
use std::sync::Wait;
use std::thread::Threads;
use trace_text::trace::Trace;

/// A run of a trace on threads: the heap at its end, the outcomes of each lane, and how many of its
/// allocations its magazines have served.
#[derive(Drop)]
pub struct ThreadedRun {
    pub closed: Closed,
    pub outcomes: Vec<Vec<Outcome>>,
    pub hits: Vec<u64>,
}

/// Runs the lanes of a trace on a new heap, each on a thread of its own and through a cache of this depth,
/// which it empties at its end, and closes the heap. The trace's order runs are not used. Each operation passes
/// the gate before it begins.
pub fn run_through_caches<R: Threads + Wait + Sync, G: Gate + Sync>(
    rt: &R,
    alloc: Global,
    gate: &G,
    trace: &Trace,
    depth: u8,
) -> Result<ThreadedRun, AllocError>
    requires trace { IsTrace trace.now }
    requires few { depth ≤ 64 }
    ensures { IfOk result (λ run. IsCachedRun (G.passed gate.now) trace.now depth run.hits.items (Closing.Ran run.closed)
        (map (λ lane. lane.items) run.outcomes.items)) }
{
    closed_lanes_fit_through_caches();
    spent_lanes_took_their_turns();
    let (heap, passes) = Heap::open(alloc, trace.heap)?;
    let Ok(run) = run_lanes(rt, alloc, trace, &heap, passes, depth, gate) else {
        return Err(AllocError);
    };
    let LanesRun {
        outcomes,
        hits,
        passes,
    } = run;
    match heap.close(alloc, passes) {
        Ok(closed) => Ok(ThreadedRun {
            closed,
            outcomes,
            hits,
        }),
        Err(_) => Err(AllocError),
    }
}

/// Runs the lanes of a trace on a new heap, each on a thread of its own, and closes the heap. The trace's
/// order runs are not used. Each operation passes the gate before it begins.
pub fn run_on_threads<R: Threads + Wait + Sync, G: Gate + Sync>(
    rt: &R,
    alloc: Global,
    gate: &G,
    trace: &Trace,
) -> Result<ThreadedRun, AllocError>
    requires { IsTrace trace.now }
    ensures { IfOk result (λ run. IsRun (G.passed gate.now) trace.now (IsSharedIn trace.now) (Closing.Ran run.closed)
        (map (λ lane. lane.items) run.outcomes.items)) }
{
    caches_without_room_are_none();
    lanes_without_magazines_run_on_passes();
    run_through_caches(rt, alloc, gate, trace, 0)
}
