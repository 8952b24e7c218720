//! A heap with one caller: how it opens, and what is left of it.

ghost use Rattle.std.specs.Prelude.{◌≡◌, IfOk};
ghost use Rattle.heap_geometry.specs.Geometry.{IsChecked, IsWithin};
ghost use Rattle.heap_geometry.specs.declared.limits.TheConstants.{MAX_FRAMES, MAX_UNITS, MAX_CALLERS, MAX_TURNS};
ghost use Rattle.live_heap.specs.Hands.{IsHand};
ghost use Rattle.live_heap.specs.Passes.{IsOf};

use heap_geometry::geometry::Geometry;
use live_heap::block::Block;
use live_heap::closed::Closed;
use live_heap::heap::Heap;
use live_heap::pass::Pass;
use std::alloc::{AllocError, Global};

/// A heap with one processor heap of each class.
pub fn geometry(frames: u32, units: u32, callers: u32, turn_limit: u64) -> Geometry
    requires frames { IsWithin 1 MAX_FRAMES frames }
    requires units { IsWithin 0 MAX_UNITS units }
    requires callers { IsWithin 1 MAX_CALLERS callers }
    requires turn_limit { IsWithin 1 MAX_TURNS turn_limit }
    ensures checked { IsChecked result }
    ensures callers { result.callers ≡ callers }
{
    Geometry {
        frames,
        heaps: 1,
        units,
        callers,
        turn_limit,
    }
}

/// A heap with one caller, its pass, and an empty hand.
pub fn open_alone(
    alloc: Global,
    frames: u32,
    units: u32,
    turn_limit: u64,
) -> Result<(Heap, Pass, Vec<Block>), AllocError>
    requires frames { IsWithin 1 MAX_FRAMES frames }
    requires units { IsWithin 0 MAX_UNITS units }
    requires turn_limit { IsWithin 1 MAX_TURNS turn_limit }
    ensures { IfOk result (λ opened. IsHand opened.0 opened.1 opened.2.items) }
{
    let (heap, mut passes) = Heap::open(alloc, geometry(frames, units, 1, turn_limit))?;
    let pass = passes.remove(0);
    Ok((heap, pass, Vec::new(alloc)))
}

/// What is left of a heap with one caller, where that is in no call.
pub fn close_alone(alloc: Global, heap: Heap, pass: Pass) -> Result<Option<Closed>, AllocError>
    requires { IsOf heap pass }
{
    if heap.geometry().callers != 1 || !pass.idle() {
        return Ok(None);
    }
    let mut passes = Vec::with_capacity(alloc, 1)?;
    passes.push_reserved(pass);
    Ok(heap.close(alloc, passes).ok())
}
