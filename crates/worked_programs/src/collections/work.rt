//! A thread's work over a pass.

ghost use Rattle.std.specs.Prelude.{◌≡◌, ◌<◌, ◌≤◌, ◌*◌, IfSome};
ghost use Rattle.worked_programs.specs.collections.Shared.{HasBuilt, HasNothing};

use crate::collections::build::{Built, build, fill};
use heap_allocator::HeapAllocator;
use live_heap::heap::Heap;
use live_heap::pass::Pass;
use std::alloc::Global;

/// How many pages an allocator keeps whose pieces are all back.
const DEPTH: u16 = 4;

/// How often a call of the heap may lose an exchange before it is given up.
const TRIES: u32 = 1000;

/// An allocator over the pass, where there is memory for it.
fn open<'h>(alloc: Global, heap: &'h Heap, pass: Pass) -> Option<HeapAllocator<'h>>
    requires { HasNothing heap.now pass }
    ensures { IfSome result (λ allocator. (allocator.heap.now ≡ heap.now) × (allocator.caller ≡ pass.errand.caller)) }
{
    HeapAllocator::new(alloc, heap, pass, DEPTH, TRIES).ok()
}

/// The pass of an allocator that is closed, where it has begun a call of the heap since it had taken so many turns.
fn close(allocator: HeapAllocator, before: u64) -> Option<Pass>
    ensures back { IfSome result (λ pass. HasNothing allocator.entry.heap.now pass × (pass.errand.caller ≡ allocator.entry.caller)) }
    ensures worked { IfSome result (λ pass. before < pass.errand.turns) }
{
    let pass = allocator.close().ok()?;
    if pass.turns() > before {
        Some(pass)
    } else {
        None
    }
}

/// Builds over the pass, which comes back with nothing and has begun calls of the heap. None where there was no memory for
/// that, or nothing to build.
pub fn work(alloc: Global, heap: &Heap, pass: Pass, things: u32) -> Option<(Built, Pass)>
    requires pass { HasNothing heap.now pass }
    requires few { things ≤ 1000 }
    ensures { IfSome result (λ done. HasBuilt heap.now pass (3 * things) done.0 done.1) }
{
    let before = pass.turns();
    let allocator = open(alloc, heap, pass)?;
    let built = build(&allocator, things).ok();
    let pass = close(allocator, before)?;
    Some((built?, pass))
}

/// Fills a list until there is no memory for more, drops it, and builds: the memory is there again.
pub fn overflow(alloc: Global, heap: &Heap, pass: Pass, things: u32) -> Option<(u32, Built, Pass)>
    requires pass { HasNothing heap.now pass }
    requires few { things ≤ 1000 }
    ensures { IfSome result (λ done. HasBuilt heap.now pass (3 * things) done.1 done.2) }
{
    let before = pass.turns();
    let allocator = open(alloc, heap, pass)?;
    let most = fill(&allocator);
    let built = build(&allocator, things).ok();
    let pass = close(allocator, before)?;
    Some((most, built?, pass))
}
