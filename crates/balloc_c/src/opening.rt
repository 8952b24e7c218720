//! How a heap opens for C.

ghost use Rattle.std.specs.Prelude.{◌≡◌, ◌≤◌, [], IfOk, IfSome, None, false, length, min, true};
ghost use Rattle.live_heap.specs.Heaps.{HeapFields};
ghost use Rattle.live_heap.specs.Passes.{IsFresh};
ghost use Rattle.block_cache.specs.Caches.{cached_in};
ghost use Rattle.balloc_c.specs.Opened.{AreEmpty, Fit, HoldNew, Opens};
ghost use Rattle.balloc_c.specs.Tended.{Tends};

use crate::hand::Hand;
use crate::handle::PassHandle;
use crate::refusal::Refusal;
use block_cache::cache::Cache;
use block_cache::laws::caches_account_for_all_blocks;
use heap_geometry::geometry::Geometry;
use live_heap::heap::Heap;
use live_heap::laws::blocks::passes_hold_exactly;
use live_heap::pass::Pass;
use shared_heap::shared::SharedHeap;
use std::alloc::{AllocError, Global};

/// A magazine has room for so many blocks at most.
const DEEPEST: u32 = 64;

/// Opens a heap, and puts a pass into each handle. Where that fails, each handle is as it was.
pub fn open_all(
    alloc: Global,
    geometry: Geometry,
    depth: u32,
    passes: &mut [PassHandle],
) -> Result<(), Refusal>
    requires callers { geometry.callers ≡ min (length passes.old) 1000 }
    ensures { Opens passes.old geometry depth result passes.new }
{
    if !are_empty(passes) {
        return Err(Refusal::InUse);
    }
    let Some((geometry, depth)) = checked(geometry, depth) else {
        return Err(Refusal::BadNumbers);
    };
    match give_all(alloc, geometry, depth, passes) {
        Ok(()) => Ok(()),
        Err(_) => {
            empty_all(alloc, passes);
            Err(Refusal::NoMemory)
        }
    }
}

/// The numbers, where each is in its range.
fn checked(geometry: Geometry, depth: u32) -> Option<(Geometry, u8)>
    ensures some { IfSome result (λ numbers. (numbers.0 ≡ geometry) × (numbers.1 ≡ depth) × Fit geometry depth) }
    ensures none { result ≡ None → ¬ Fit geometry depth }
{
    if depth > DEEPEST {
        return None;
    }
    match geometry.check() {
        Ok(geometry) => Some((geometry, depth as u8)),
        Err(_) => None,
    }
}

/// Whether no handle holds a pass.
fn are_empty(passes: &[PassHandle]) -> bool
    ensures yes { result ≡ true → AreEmpty passes.now }
    ensures no { result ≡ false → ¬ AreEmpty passes.now }
{
    for pass in passes {
        if pass.live() {
            return false;
        }
    }
    true
}

/// Lets all passes go.
fn empty_all(alloc: Global, passes: &mut [PassHandle])
    ensures { AreEmpty passes.new }
{
    for number in 0..passes.len() {
        drop(passes[number].take(alloc));
    }
}

/// A pass into each handle, as long as there is memory.
fn give_all(
    alloc: Global,
    geometry: Geometry,
    depth: u8,
    passes: &mut [PassHandle],
) -> Result<(), AllocError>
    requires fit { Fit geometry depth }
    requires callers { geometry.callers ≡ length passes.old }
    ensures { IfOk result (λ _. (h : HeapFields) × (h.layout ≡ geometry) × HoldNew h depth geometry.callers passes.new) }
{
    let (heap, made) = Heap::open(alloc, geometry)?;
    let (heap, mut dealer) = SharedHeap::new(alloc, heap)?;
    let mut number = 0;
    for pass in made {
        let share = heap.share()?;
        let own = heap.heap();
        let cache = cached(alloc, own, pass, depth)?;
        let ticket = heap.ticket(&mut dealer);
        let hand = Box::new(alloc, Hand::new(alloc, share, ticket, cache, depth))?;
        drop(passes[number].take(alloc));
        passes[number].give(hand);
        number += 1;
    }
    Ok(())
}

/// The pass with magazines of this depth.
fn cached(alloc: Global, heap: &Heap, pass: Pass, depth: u8) -> Result<Cache, AllocError>
    requires fresh { IsFresh heap.now pass }
    requires few { depth ≤ 64 }
    ensures tends { IfOk result (λ cache. Tends heap.now cache []) }
    ensures new { IfOk result (λ cache. (cache.pass ≡ pass) × (cached_in cache ≡ []) × (cache.magazines.depth ≡ depth) × (cache.hits ≡ 0)) }
{
    passes_hold_exactly();
    caches_account_for_all_blocks();
    match Cache::open(alloc, pass, depth) {
        Ok(cache) => Ok(cache),
        Err(_) => Err(AllocError),
    }
}
