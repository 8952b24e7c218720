//! Collections over allocators of one heap, each thread with its own, and over the C library's; or pieces by themselves.

ghost use Rattle.std.specs.Prelude.{◌≡◌};
ghost use Rattle.heap_geometry.specs.Geometry.{IsChecked};
ghost use Rattle.live_heap.specs.Passes.{IsFresh};

use crate::command::{Collection, Command, Place};
use crate::counts::print_line;
use crate::pieces::in_pages;
use heap_allocator::HeapAllocator;
use heap_geometry::geometry::Geometry;
use live_heap::heap::Heap;
use live_heap::laws::blocks::passes_hold_exactly;
use live_heap::pass::Pass;
use std::alloc::{AllocError, Allocator, Global};
use std::collections::BTreeMap;
use std::io::Print;
use std::thread::Threads;
use std::{io, thread};

/// How many pages an allocator keeps whose pieces are all back.
const DEPTH: u16 = 64;

/// How many exchanges a call may lose.
const TRIES: u32 = 1000;

#[derive(Clone, Copy)]
struct Job {
    task: Collection,
    size: u64,
    rounds: u64,
}

/// The sum of a vector that has room for its words before they are pushed.
fn block<A: Allocator>(alloc: A, size: u64, from: u64) -> Result<u64, AllocError> {
    let mut words = Vec::with_capacity(alloc, size as usize)?;
    for i in 0..size {
        words.push(from.wrapping_add(i))?;
    }
    Ok(total(words.as_slice()))
}

/// The sum of a vector that grows as its words are pushed.
fn grow<A: Allocator>(alloc: A, size: u64, from: u64) -> Result<u64, AllocError> {
    let mut words = Vec::new(alloc);
    for i in 0..size {
        words.push(from.wrapping_add(i))?;
    }
    Ok(total(words.as_slice()))
}

/// The sum of the values of a map, each looked up by its key. The keys come in no order.
fn tree<A: Allocator + Clone>(alloc: A, size: u64, from: u64) -> Result<u64, AllocError> {
    let mut map = BTreeMap::new(alloc);
    for i in 0..size {
        map.insert(key(i), from.wrapping_add(i))?;
    }
    let mut sum = 0u64;
    for i in 0..size {
        if let Some(value) = map.get(&key(i)) {
            sum = sum.wrapping_add(*value);
        }
    }
    Ok(sum)
}

/// A key that is another one for each number: an odd factor has an inverse modulo 2^64.
fn key(i: u64) -> u64 {
    i.wrapping_mul(0x9e37_79b9_7f4a_7c15)
}

fn total(words: &[u64]) -> u64 {
    let mut sum = 0u64;
    for word in words {
        sum = sum.wrapping_add(*word);
    }
    sum
}

/// All rounds of a thread over one allocator.
fn rounds<A: Allocator>(alloc: &A, job: Job) -> Result<u64, AllocError> {
    let mut sum = 0u64;
    for round in 0..job.rounds {
        let found = match job.task {
            Collection::Block | Collection::Piece => block(alloc, job.size, round)?,
            Collection::Grow => grow(alloc, job.size, round)?,
            Collection::Tree => tree(alloc, job.size, round)?,
        };
        sum = sum.wrapping_add(found);
    }
    Ok(sum)
}

/// A thread in the heap: an allocator over its pass, which gives the pass back at the end.
fn in_heap(alloc: Global, heap: &Heap, pass: Pass, job: Job) -> Result<u64, AllocError>
    requires { IsFresh heap.now pass }
{
    if let Collection::Piece = job.task {
        return in_pages(alloc, heap, pass, job.size, job.rounds);
    }
    passes_hold_exactly();
    let Ok(allocator) = HeapAllocator::new(alloc, heap, pass, DEPTH, TRIES) else {
        return Err(AllocError);
    };
    let sum = rounds(&allocator, job);
    let _ = allocator.close();
    sum
}

/// A thread over the C library's allocator.
fn in_global(alloc: Global, job: Job) -> Result<u64, AllocError> {
    rounds(&alloc, job)
}

/// Two threads beside each other.
fn two_in_heap<R: Threads + Sync>(
    rt: &R,
    alloc: Global,
    heap: &Heap,
    first: Pass,
    second: Pass,
    job: Job,
) -> Result<u64, AllocError>
    requires first { IsFresh heap.now first }
    requires second { IsFresh heap.now second }
{
    let (one, other) = thread::join(
        rt,
        move ||
            requires { IsFresh heap.now first }
        { in_heap(alloc, heap, first, job) },
        move ||
            requires { IsFresh heap.now second }
        { in_heap(alloc, heap, second, job) },
    );
    Ok(one?.wrapping_add(other?))
}

fn two_in_global<R: Threads + Sync>(rt: &R, alloc: Global, job: Job) -> Result<u64, AllocError> {
    let (one, other) = thread::join(
        rt,
        move || in_global(alloc, job),
        move || in_global(alloc, job),
    );
    Ok(one?.wrapping_add(other?))
}

/// The work on as many threads as the heap has callers, in one heap.
fn run_in_heap<R: Threads + Sync>(
    rt: &R,
    alloc: Global,
    job: Job,
    geometry: Geometry,
) -> Result<u64, AllocError>
    requires { IsChecked geometry }
{
    let (heap, mut passes) = Heap::open(alloc, geometry)?;
    let shared = &heap;
    match geometry.callers {
        1 => in_heap(alloc, shared, passes.remove(0), job),
        2 => {
            let first = passes.remove(0);
            let second = passes.remove(0);
            two_in_heap(rt, alloc, shared, first, second, job)
        }
        4 => {
            let first = passes.remove(0);
            let second = passes.remove(0);
            let third = passes.remove(0);
            let fourth = passes.remove(0);
            let (one, other) = thread::join(
                rt,
                move ||
                    requires { IsFresh shared.now first × IsFresh shared.now second }
                { two_in_heap(rt, alloc, shared, first, second, job) },
                move ||
                    requires { IsFresh shared.now third × IsFresh shared.now fourth }
                { two_in_heap(rt, alloc, shared, third, fourth, job) },
            );
            Ok(one?.wrapping_add(other?))
        }
        _ => Err(AllocError),
    }
}

/// The work on so many threads, over the C library's allocator.
fn run_in_global<R: Threads + Sync>(
    rt: &R,
    alloc: Global,
    job: Job,
    threads: u64,
) -> Result<u64, AllocError> {
    match threads {
        1 => in_global(alloc, job),
        2 => two_in_global(rt, alloc, job),
        _ => {
            let (one, other) = thread::join(
                rt,
                move || two_in_global(rt, alloc, job),
                move || two_in_global(rt, alloc, job),
            );
            Ok(one?.wrapping_add(other?))
        }
    }
}

/// Makes the collections, each of as many things as the seed says, and prints the sum of what all threads found.
/// None can be wrong.
pub fn print_sum<R: Print + Threads + Sync>(
    rt: &R,
    alloc: Global,
    place: Place,
    task: Collection,
    command: Command,
) -> io::Result<u64>
    requires { IsChecked command.geometry }
{
    let job = Job {
        task,
        size: command.seed.min(1 << 24),
        rounds: command.count,
    };
    let sum = match place {
        Place::Heap => run_in_heap(rt, alloc, job, command.geometry)?,
        Place::Global => run_in_global(rt, alloc, job, u64::from(command.geometry.callers))?,
    };
    print_line(rt, &[("sum", sum)])?;
    Ok(0)
}
