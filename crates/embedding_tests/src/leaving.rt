//! The last owner that goes closes the heap.

ghost use Rattle.std.specs.Prelude.{IfSome};
ghost use Rattle.live_heap.specs.Heaps.{HeapFields};
ghost use Rattle.live_heap.specs.Passes.{AreFrom, IsOf};

use crate::expect::expect;
use heap_geometry::geometry::Geometry;
use heap_scripts::alone::geometry;
use live_heap::heap::Heap;
use live_heap::pass::Pass;
use shared_heap::shared::{End, SharedHeap};
use std::alloc::{AllocError, Global};
use std::process::Abort;
use std::test::Fail;

/// The two passes of a heap of two callers.
fn both(mut passes: Vec<Pass>) -> Option<(Pass, Pass)>
    ensures { IfSome result (λ two. (h : HeapFields) → AreFrom h 0 passes.items → IsOf h two.0 × IsOf h two.1) }
{
    let second = passes.pop()?;
    let first = passes.pop()?;
    Some((first, second))
}

/// Whether a heap with these numbers was closed.
fn is_closed(end: End, numbers: Geometry) -> bool {
    match end {
        End::Closed(closed) => closed.geometry() == numbers,
        _ => false,
    }
}

/// Whether passes are to be given back yet.
fn is_before_others(end: End) -> bool {
    match end {
        End::Others => true,
        _ => false,
    }
}

/// The heap is closed by the second of its two owners, and not by the first.
fn leave<R: Abort>(rt: &R, alloc: Global) -> Result<(), AllocError> {
    let numbers = geometry(4, 2, 2, 99);
    let (heap, passes) = Heap::open(alloc, numbers)?;
    let Some((first, second)) = both(passes) else {
        panic!(rt; "there is no pass for each caller");
    };
    let (share, mut dealer) = SharedHeap::new(alloc, heap)?;
    let other = share.share()?;
    let first_ticket = share.ticket(&mut dealer);
    let second_ticket = share.ticket(&mut dealer);
    let left = other.leave(alloc, first_ticket, first);
    expect(rt, is_before_others(left.end), 0);
    let left = share.leave(alloc, second_ticket, second);
    expect(rt, is_closed(left.end, numbers), 1);
    Ok(())
}

#[test]
fn the_last_owner_that_goes_closes_the_heap(rt: HostRuntime) -> Result<(), Fail> {
    Ok(leave(&rt, rt.alloc())?)
}
