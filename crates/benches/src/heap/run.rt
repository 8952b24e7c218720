//! A run of all threads, from the opening of a heap to its closing.

ghost use Rattle.std.specs.Prelude.{ℕ, ◌≡◌, ◌<◌, IfOk, All, length, slice_index_or};
ghost use Rattle.crossbeam_utils.specs.Padded.{padded_value};
ghost use Rattle.heap_geometry.specs.Geometry.{IsChecked};
ghost use Rattle.live_heap.specs.Passes.{AreFrom};
ghost use Rattle.benches.specs.declared.heap.worker.Worker.{Worker};
ghost use Rattle.benches.specs.Hands.{IsReady, Rests};

use crate::command::Command;
use crate::heap::front::Front;
use crate::heap::tally::Tally;
use crate::heap::worker::{MOST_HELD, Work, Worker};
use crossbeam_utils::CachePadded;
use heap_scripts::random::Random;
use live_heap::heap::Heap;
use live_heap::pass::Pass;
use std::alloc::{AllocError, Global};
use std::sync::Wait;
use std::thread;
use std::thread::Threads;

/// What all threads did, and how many exchanges they won and lost.
#[derive(Clone, Copy)]
pub struct Outcome {
    pub tally: Tally,
    pub won: u64,
    pub lost: u64,
}

/// Opens a heap, lets each thread do the work through a front of its own, and closes the heap.
pub fn run<R: Threads + Wait + Sync, F: Front + Send, W: Work<F> + Sync>(
    rt: &R,
    alloc: Global,
    work: &W,
    command: Command,
) -> Result<Outcome, AllocError>
    requires { IsChecked command.geometry }
{
    let (heap, passes) = Heap::open(alloc, command.geometry)?;
    let mut workers = hire::<F>(alloc, &heap, passes, command.seed)?;
    work_all(rt, &heap, workers.as_mut_slice(), work, command.count);
    let (passes, tally) = dismiss(rt, alloc, &heap, workers)?;
    match heap.close(alloc, passes) {
        Ok(closed) => Ok(Outcome {
            tally,
            won: closed.won(),
            lost: closed.lost(),
        }),
        Err(_) => unreachable!(),
    }
}

/// A worker for each pass, with an empty hand.
fn hire<F: Front>(
    alloc: Global,
    heap: &Heap,
    passes: Vec<Pass>,
    seed: u64,
) -> Result<Vec<CachePadded<Worker<F>>>, AllocError>
    requires { AreFrom heap.now 0 passes.items }
    ensures { IfOk result (λ workers. All (λ w. IsReady F.rests F.holds heap.now (padded_value {T = Worker F} w)) workers.items × (length workers.items ≡ length passes.items)) }
{
    let mut workers = Vec::new(alloc);
    for pass in passes {
        let caller = pass.caller();
        let front = F::open(alloc, heap, pass)?;
        let random = Random::new(seed, caller);
        workers.push(CachePadded::new(Worker {
            front,
            caller,
            hand: Vec::with_capacity(alloc, MOST_HELD as usize)?,
            random,
            stamps: 0,
            tally: Tally::new(),
        }))?;
    }
    Ok(workers)
}

/// Each worker on a thread of its own.
fn work_all<R: Threads + Wait + Sync, F: Front + Send, W: Work<F> + Sync>(
    rt: &R,
    heap: &Heap,
    workers: &mut [CachePadded<Worker<F>>],
    work: &W,
    count: u64,
)
    requires { All (λ w. IsReady F.rests F.holds heap.now (padded_value {T = Worker F} w)) workers.old }
    ensures { (i : ℕ) (d : _) → i < length workers.old → F.rests heap.now (padded_value {T = Worker F} (slice_index_or workers.new i d)).front }
{
    if workers.is_empty() {
        return;
    }
    let threads = workers.len();
    thread::for_each_mut(
        rt,
        workers,
        threads,
        &|_, worker: &mut CachePadded<Worker<F>>|
            requires { IsReady F.rests F.holds heap.now (padded_value {T = Worker F} worker.old) }
            ensures { F.rests heap.entry.now (padded_value {T = Worker F} worker.new).front }
        { work_padded(rt, heap, worker, work, count) },
    );
}

/// The work of the worker in its padding.
fn work_padded<R: Wait, F: Front, W: Work<F>>(
    rt: &R,
    heap: &Heap,
    worker: &mut CachePadded<Worker<F>>,
    work: &W,
    count: u64,
)
    requires { IsReady F.rests F.holds heap.now (padded_value {T = Worker F} worker.old) }
    ensures { F.rests heap.now (padded_value {T = Worker F} worker.new).front }
{
    let worker: &mut Worker<F> = worker;
    work.work(rt, heap, worker, count);
}

/// The passes of the workers, and what these did together.
fn dismiss<R: Wait, F: Front>(
    rt: &R,
    alloc: Global,
    heap: &Heap,
    workers: Vec<CachePadded<Worker<F>>>,
) -> Result<(Vec<Pass>, Tally), AllocError>
    requires { All (λ w. F.rests heap.now (padded_value {T = Worker F} w).front) workers.items }
    ensures { IfOk result (λ r. All (λ p. Rests heap.now p) r.0.items × (length r.0.items ≡ length workers.items)) }
{
    let mut passes = Vec::new(alloc);
    let mut tally = Tally::new();
    for worker in workers {
        let Worker {
            front,
            caller: _,
            hand: _,
            random: _,
            stamps: _,
            tally: mut made,
        } = worker.into_inner();
        let pass = front.close(rt, heap);
        made.cleared = pass.cleared();
        tally = tally.with(made);
        passes.push(pass)?;
    }
    Ok((passes, tally))
}
