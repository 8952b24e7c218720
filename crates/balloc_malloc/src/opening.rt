//! How a heap opens for C.

ghost use Rattle.std.specs.Prelude.{ℕ, ◌≡◌, ◌≤◌, [], IfOk, IfSome, None, false, length, min, true};
ghost use Rattle.live_heap.specs.Heaps.{HeapFields};
ghost use Rattle.live_heap.specs.Passes.{IsFresh};
ghost use Rattle.memory_cache.specs.Caches.{kept_in};
ghost use Rattle.memory_cache.specs.Paged.{IsOut, IsPaged};
ghost use Rattle.balloc_malloc.specs.Opened.{AreEmpty, Fit, HoldNew, Opens};

use crate::codes::{BAD_NUMBERS, NO_MEMORY};
use crate::seat::ThreadSeat;
use crate::tenant::Tenant;
use heap_geometry::geometry::Geometry;
use live_heap::heap::Heap;
use live_heap::laws::blocks::passes_hold_exactly;
use live_heap::pass::Pass;
use memory_cache::laws::passes_with_nothing_are_settled;
use memory_cache::paged::PagedCache;
use plain_words::Start;
use std::alloc::{AllocError, Global};
use std::sync::Arc;

/// A magazine has room for so many pages at most.
const DEEPEST: u32 = 4096;

/// Opens a heap, and puts a pass into each seat. Where that fails the seats are empty as before, or one wasn't and
/// all are as they were.
pub fn open_all(
    alloc: Global,
    geometry: Geometry,
    depth: u32,
    seats: &mut [ThreadSeat],
) -> Result<Start, u32>
    requires callers { geometry.callers ≡ min (length seats.old) 1000 }
    ensures { Opens seats.old geometry depth result seats.new }
{
    if !are_empty(seats) {
        return Err(BAD_NUMBERS);
    }
    let Some((geometry, depth)) = checked(geometry, depth) else {
        return Err(BAD_NUMBERS);
    };
    match give_all(alloc, geometry, depth, seats) {
        Ok(start) => Ok(start),
        Err(_) => {
            empty_all(alloc, seats);
            Err(NO_MEMORY)
        }
    }
}

/// The numbers, where each is in its range.
fn checked(geometry: Geometry, depth: u32) -> Option<(Geometry, u16)>
    ensures some { IfSome result (λ numbers. (numbers.0 ≡ geometry) × (numbers.1 ≡ depth) × Fit geometry depth) }
    ensures none { result ≡ None → ¬ Fit geometry depth }
{
    if depth > DEEPEST {
        return None;
    }
    match geometry.check() {
        Ok(geometry) => Some((geometry, depth as u16)),
        Err(_) => None,
    }
}

/// Whether no seat has a pass.
fn are_empty(seats: &[ThreadSeat]) -> bool
    ensures yes { result ≡ true → AreEmpty seats.now }
    ensures no { result ≡ false → ¬ AreEmpty seats.now }
{
    for seat in seats {
        if seat.live() {
            return false;
        }
    }
    true
}

/// Lets all passes go.
fn empty_all(alloc: Global, seats: &mut [ThreadSeat])
    ensures { AreEmpty seats.new }
{
    for number in 0..seats.len() {
        drop(seats[number].take(alloc));
    }
}

/// A pass into each seat, as long as there is memory. Tells where the heap's memory begins.
fn give_all(
    alloc: Global,
    geometry: Geometry,
    depth: u16,
    seats: &mut [ThreadSeat],
) -> Result<Start, AllocError>
    requires fit { Fit geometry depth }
    requires callers { geometry.callers ≡ length seats.old }
    ensures { IfOk result (λ start. (h : HeapFields) × (h.layout ≡ geometry) × (start.at ≡ h.region.at)
        × HoldNew h depth geometry.callers seats.new) }
{
    let (heap, made) = Heap::open(alloc, geometry)?;
    let heap = Arc::new(alloc, heap)?;
    let mut number = 0;
    for pass in made {
        let share = Arc::try_clone(&heap)?;
        let cache = cached(alloc, &heap, pass, depth)?;
        let tenant = Box::new(alloc, Tenant::new(share, cache))?;
        drop(seats[number].take(alloc));
        seats[number].give(tenant);
        number += 1;
    }
    Ok(heap.start())
}

/// The pass with magazines of this depth for pages.
fn cached(alloc: Global, heap: &Heap, pass: Pass, depth: u16) -> Result<PagedCache, AllocError>
    requires fresh { IsFresh heap.now pass }
    requires few { depth ≤ 4096 }
    ensures paged { IfOk result (λ cache. IsPaged heap.now cache) }
    ensures new { IfOk result (λ cache. (cache.cache.pass ≡ pass) × ((first size : ℕ) → ¬ IsOut cache first size) × (kept_in cache.cache ≡ [])
        × (cache.cache.magazines.depth ≡ depth) × (cache.hits ≡ 0)) }
{
    passes_hold_exactly();
    passes_with_nothing_are_settled();
    match PagedCache::open(alloc, pass, depth) {
        Ok(cache) => Ok(cache),
        Err(_) => Err(AllocError),
    }
}
