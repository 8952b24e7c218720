//! One thread whose memory ends: it gets an error, drops what it has, and goes on.

ghost use Rattle.std.specs.Prelude.{◌≡◌, ◌≤◌, ◌*◌, IfOk, IfSome};
ghost use Rattle.heap_geometry.specs.Geometry.{IsChecked};
ghost use Rattle.worked_programs.specs.collections.Shared.{HaveAllWorked, IsBuiltIn, OwnNothing};

use crate::collections::build::Built;
use crate::collections::work::overflow;
use heap_geometry::geometry::Geometry;
use live_heap::closed::Closed;
use live_heap::heap::Heap;
use live_heap::laws::blocks::{calls_change_their_block, passes_hold_exactly};
use std::alloc::{AllocError, Global};

/// How long a list was when the memory ended, what was built behind that, and what is left of the heap.
#[derive(Drop)]
pub struct Ended {
    pub most: u32,
    pub built: Built,
    pub closed: Closed,
}

/// The numbers of its heap.
fn one_caller() -> Geometry
    ensures checked { IsChecked result }
    ensures callers { result.callers ≡ 1 }
{
    Geometry {
        frames: 16,
        heaps: 1,
        units: 4,
        callers: 1,
        turn_limit: 100_000,
    }
}

/// Fills the heap with a list, drops it, and builds collections of so many things. The heap closes, which is the one of
/// its allocator: its caller owns no block in it, and has begun calls in it.
pub fn end(alloc: Global, things: u32) -> Result<Option<Ended>, AllocError>
    requires { things ≤ 1000 }
    ensures built { IfOk result (λ told. IfSome told (λ ended. ended.built.count ≡ 3 * things)) }
    ensures there { IfOk result (λ told. IfSome told (λ ended. IsBuiltIn ended.closed ended.built)) }
    ensures nothing { IfOk result (λ told. IfSome told (λ ended. OwnNothing ended.closed)) }
    ensures worked { IfOk result (λ told. IfSome told (λ ended. HaveAllWorked 1 ended.closed)) }
{
    calls_change_their_block();
    passes_hold_exactly();
    let (heap, mut passes) = Heap::open(alloc, one_caller())?;
    let Some((most, built, pass)) = overflow(alloc, &heap, passes.remove(0), things) else {
        return Ok(None);
    };
    passes.push_reserved(pass);
    match heap.close(alloc, passes) {
        Ok(closed) => Ok(Some(Ended {
            most,
            built,
            closed,
        })),
        Err(_) => Ok(None),
    }
}
