//! A store and another caller of its heap, on one thread by turns or on two threads.

ghost use Rattle.std.specs.Prelude.{IfOk, IfSome};
ghost use Rattle.heap_geometry.specs.Geometry.{IsChecked};
ghost use Rattle.heap_scripts.specs.stores.Twins.{IsRival, IsTwin};

use crate::stores::rival::Rival;
use crate::stores::script::Script;
use crate::stores::sums::Sums;
use crate::stores::twin::Twin;
use heap_geometry::geometry::Geometry;
use live_heap::heap::Heap;
use live_heap::laws::blocks::passes_hold_exactly;
use std::alloc::{AllocError, Global};
use std::thread;
use std::thread::Threads;
use typed_store::store::Store;

/// How many steps of the other caller's there are to a call of the store, on threads.
const MORE: u64 = 4;

/// A heap, a store of its first caller, and its second caller.
#[derive(Drop)]
struct Place {
    heap: Heap,
    twin: Twin,
    rival: Rival,
}

/// A new heap with both; `None` where it has fewer callers.
fn open(alloc: Global, geometry: Geometry, seed: u64) -> Result<Option<Place>, AllocError>
    requires { IsChecked geometry }
    ensures { IfOk result (λ found. IfSome found (λ place. IsTwin place.heap place.twin × IsRival place.heap place.rival)) }
{
    passes_hold_exactly();
    let (heap, mut passes) = Heap::open(alloc, geometry)?;
    if passes.len() < 2 {
        return Ok(None);
    }
    let first = passes.remove(0);
    let second = passes.remove(0);
    Ok(Some(Place {
        heap,
        twin: Twin::new(alloc, Store::open(alloc, first)),
        rival: Rival::new(alloc, second, seed),
    }))
}

/// Makes so many calls of the script of this number, and some steps of the other caller behind each. `None`
/// where the heap has one caller.
pub fn run_by_turns(
    alloc: Global,
    geometry: Geometry,
    seed: u64,
    calls: u64,
) -> Result<Option<Sums>, AllocError>
    requires { IsChecked geometry }
{
    let Some(place) = open(alloc, geometry, seed)? else {
        return Ok(None);
    };
    let Place {
        heap,
        mut twin,
        mut rival,
    } = place;
    let mut script = Script::new(seed);
    for _made in 0..calls {
        let request = script.next(twin.records());
        twin.call(alloc, &heap, request)?;
        rival.go_on(&heap)?;
    }
    twin.finish(alloc, &heap)?;
    Ok(Some(Sums {
        lost: rival.lost(),
        ..twin.sums()
    }))
}

/// Makes the calls of the script on one thread, and the steps of the other caller on another one.
pub fn run_on_threads<R: Threads + Sync>(
    rt: &R,
    alloc: Global,
    geometry: Geometry,
    seed: u64,
    calls: u64,
) -> Result<Option<Sums>, AllocError>
    requires { IsChecked geometry }
{
    let Some(place) = open(alloc, geometry, seed)? else {
        return Ok(None);
    };
    let Place { heap, twin, rival } = place;
    let shared = &heap;
    let (sums, lost) = thread::join(
        rt,
        move ||
            requires { IsTwin shared.now twin }
        { keep_calling(alloc, shared, twin, seed, calls) },
        move ||
            requires { IsRival shared.now rival }
        { keep_going(shared, rival, calls.saturating_mul(MORE)) },
    );
    Ok(Some(Sums {
        lost: lost?,
        ..sums?
    }))
}

/// The calls of the script, and what they came to.
fn keep_calling(
    alloc: Global,
    heap: &Heap,
    mut twin: Twin,
    seed: u64,
    calls: u64,
) -> Result<Sums, AllocError>
    requires { IsTwin heap.now twin }
{
    let mut script = Script::new(seed);
    for _made in 0..calls {
        let request = script.next(twin.records());
        twin.call(alloc, heap, request)?;
    }
    twin.finish(alloc, heap)?;
    Ok(twin.sums())
}

/// So many times some steps of the other caller, and how many exchanges it lost.
fn keep_going(heap: &Heap, mut rival: Rival, times: u64) -> Result<u64, AllocError>
    requires { IsRival heap.now rival }
{
    for _made in 0..times {
        rival.go_on(heap)?;
    }
    Ok(rival.lost())
}
