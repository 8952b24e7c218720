//! Small runs through a cache. Places and answers of the heap are worked by hand, or come from a model of the
//! machine that was written apart from it.

ghost use Rattle.std.specs.Prelude.{◌≤◌, IfOk, IfSome};
ghost use Rattle.heap_geometry.specs.Geometry.{IsWithin};
ghost use Rattle.heap_geometry.specs.declared.limits.TheConstants.{CLASSES, MAX_FRAMES, MAX_TURNS, MAX_UNITS};
ghost use Rattle.block_cache.specs.Caches.{Holds, IsCache};

use crate::cached::come_to;
use crate::expect::expect;
use block_cache::cache::Cache;
use heap_geometry::limits::CLASSES;
use heap_scripts::alone::geometry;
use heap_scripts::request::{Request as Asked, Told};
use live_heap::answers::FreeAnswer;
use live_heap::block::Block;
use live_heap::heap::Heap;
use std::alloc::{AllocError, Global};
use std::process::Abort;
use std::test::Fail;

/// A heap with one caller, a cache in front of its pass, and no block held. There was no memory where there is
/// no cache.
fn open_cached(
    alloc: Global,
    frames: u32,
    units: u32,
    turn_limit: u64,
    depth: u8,
) -> Result<Option<(Heap, Cache, Vec<Block>)>, AllocError>
    requires frames { IsWithin 1 MAX_FRAMES frames }
    requires units { IsWithin 0 MAX_UNITS units }
    requires turn_limit { IsWithin 1 MAX_TURNS turn_limit }
    requires some { 1 ≤ depth }
    requires few { depth ≤ 64 }
    ensures { IfOk result (λ opened. IfSome opened (λ desk. IsCache desk.0 desk.1 × Holds desk.1 desk.2.items)) }
{
    let (heap, mut passes) = Heap::open(alloc, geometry(frames, units, 1, turn_limit))?;
    let pass = passes.remove(0);
    match Cache::open(alloc, pass, depth) {
        Ok(cache) => Ok(Some((heap, cache, Vec::new(alloc)))),
        Err(_) => Ok(None),
    }
}

/// How many blocks the magazines of all classes have.
fn cached(heap: &Heap, cache: &Cache) -> u32
    requires { IsCache heap.now cache.now }
{
    let mut total = 0u32;
    for class in 0..CLASSES {
        total = total.saturating_add(cache.cached(class));
    }
    total
}

/// A row of calls through a new cache comes to this.
fn play<R: Abort>(
    rt: &R,
    alloc: Global,
    frames: u32,
    units: u32,
    turn_limit: u64,
    depth: u8,
    rows: &[(Asked, Told, u64)],
) -> Result<(), AllocError>
    requires frames { IsWithin 1 MAX_FRAMES frames }
    requires units { IsWithin 0 MAX_UNITS units }
    requires turn_limit { IsWithin 1 MAX_TURNS turn_limit }
    requires some { 1 ≤ depth }
    requires few { depth ≤ 64 }
{
    match open_cached(alloc, frames, units, turn_limit, depth)? {
        Some((heap, mut cache, mut held)) => come_to(rt, &heap, &mut cache, &mut held, rows),
        None => Err(AllocError),
    }
}

/// A cache that keeps one block is flushed, and its pass has made one turn and won four exchanges.
fn flushes<R: Abort>(rt: &R, heap: &Heap, mut cache: Cache)
    requires { IsCache heap.now cache }
{
    if !cache.idle() {
        panic!(rt; "the caller is in a call");
    }
    expect(rt, cached(heap, &cache) == 1, 0);
    expect(rt, matches!(cache.flush(heap, 1), FreeAnswer::Freed), 1);
    expect(rt, cached(heap, &cache) == 0, 2);
    if !cache.idle() {
        panic!(rt; "the flush goes on");
    }
    let pass = cache.close();
    expect(rt, pass.turns() == 1, 3);
    expect(rt, pass.won() == 4, 4);
}

/// A row of calls comes to this, and then the cache is flushed.
fn play_and_flush<R: Abort>(
    rt: &R,
    alloc: Global,
    rows: &[(Asked, Told, u64)],
) -> Result<(), AllocError> {
    match open_cached(alloc, 4, 0, 9, 16)? {
        Some((heap, mut cache, mut held)) => {
            come_to(rt, &heap, &mut cache, &mut held, rows)?;
            flushes(rt, &heap, cache);
            Ok(())
        }
        None => Err(AllocError),
    }
}

// What was freed last is given again, and written as any block is.
#[test]
fn a_freed_block_is_given_again(rt: HostRuntime) -> Result<(), Fail> {
    let rows = [
        (Asked::Alloc(1), Told::Given(0), 0),
        (Asked::Write(0, 0, 5), Told::Wrote, 0),
        (Asked::Free(0), Told::FreedAt(0), 0),
        (Asked::Alloc(1), Told::Given(0), 1),
        (Asked::Write(0, 0, 6), Told::Wrote, 1),
        (Asked::Read(0, 0), Told::Word(6), 1),
        (Asked::Free(0), Told::FreedAt(0), 1),
    ];
    Ok(play_and_flush(&rt, rt.alloc(), &rows)?)
}

// A magazine of one block: the first freed one stays there, the second goes to the heap.
#[test]
fn a_full_magazine_sends_frees_on(rt: HostRuntime) -> Result<(), Fail> {
    let rows = [
        (Asked::Alloc(1), Told::Given(0), 0),
        (Asked::Alloc(1), Told::Given(2), 0),
        (Asked::Free(1), Told::FreedAt(2), 0),
        (Asked::Free(0), Told::FreedAt(0), 0),
        (Asked::Alloc(3), Told::Given(4096), 0),
        (Asked::Alloc(1), Told::Given(2), 1),
        (Asked::Alloc(1), Told::Given(0), 1),
    ];
    Ok(play(&rt, rt.alloc(), 4, 0, 9, 1, &rows)?)
}

// A magazine serves also whom the heap would refuse, since no frame is left or no turn.
#[test]
fn a_cache_answers_as_its_heap(rt: HostRuntime) -> Result<(), Fail> {
    let full = Told::Full {
        place: 1024,
        found: 137,
    };
    let rows = [
        (Asked::Take(0), Told::Empty, 0),
        (Asked::Alloc(1023), Told::Given(0), 0),
        (Asked::Alloc(1023), Told::Given(1024), 0),
        (Asked::Put(0, 0), Told::Put, 0),
        (Asked::Put(0, 0), full, 0),
        (Asked::Take(0), Told::Got(0), 0),
        (Asked::Alloc(1), Told::Refused, 0),
        (Asked::Alloc(131_072), Told::TooLarge, 0),
        (Asked::Alloc(2048), Told::Refused, 0),
        (Asked::Free(0), Told::FreedAt(1024), 0),
        (Asked::Alloc(1), Told::Refused, 0),
        (Asked::Alloc(1), Told::Spent, 0),
        (Asked::Alloc(1023), Told::Given(1024), 1),
    ];
    Ok(play(&rt, rt.alloc(), 1, 1, 4, 2, &rows)?)
}

// As in the row of the heap's own test: behind one kept block the heap stands as there.
#[test]
fn an_interrupted_allocation_is_resumed(rt: HostRuntime) -> Result<(), Fail> {
    let rows = [
        (Asked::Alloc(2047), Told::Given(0), 0),
        (Asked::Alloc(2047), Told::Given(2048), 0),
        (Asked::Alloc(2047), Told::Given(4096), 0),
        (Asked::Alloc(2047), Told::Given(6144), 0),
        (Asked::Alloc(2047), Told::Given(8192), 0),
        (Asked::Alloc(2047), Told::Given(10240), 0),
        (Asked::Alloc(2047), Told::Given(12288), 0),
        (Asked::Alloc(2047), Told::Given(14336), 0),
        (Asked::Free(7), Told::FreedAt(14336), 0),
        (Asked::Free(0), Told::FreedAt(0), 0),
        (Asked::Free(1), Told::FreedAt(4096), 0),
        (Asked::Free(2), Told::FreedAt(8192), 0),
        (Asked::Free(3), Told::FreedAt(12288), 0),
        (Asked::Free(0), Told::FreedAt(2048), 0),
        (Asked::Alloc(2047), Told::Given(14336), 1),
        (Asked::Alloc(2047), Told::Given(12288), 1),
        (Asked::Alloc(2047), Told::Given(8192), 1),
        (Asked::Alloc(2047), Told::Given(4096), 1),
        (Asked::Alloc(2047), Told::Busy, 1),
        (Asked::Resume, Told::Given(0), 1),
    ];
    Ok(play(&rt, rt.alloc(), 4, 0, 20, 1, &rows)?)
}
