//! Two threads that build collections in one heap, each over its own pass.

ghost use Rattle.std.specs.Prelude.{◌≡◌, ◌≤◌, ◌*◌, IfOk, IfSome};
ghost use Rattle.heap_geometry.specs.Geometry.{IsChecked};
ghost use Rattle.worked_programs.specs.collections.Shared.{HasBuilt, HasNothing, HaveAllWorked, IsBuiltIn, OwnNothing};

use crate::collections::build::Built;
use crate::collections::work::work;
use heap_geometry::geometry::Geometry;
use live_heap::closed::Closed;
use live_heap::heap::Heap;
use live_heap::laws::blocks::{calls_change_their_block, passes_hold_exactly};
use std::alloc::{AllocError, Global};
use std::thread;
use std::thread::Threads;

/// What the threads built, and what is left of the heap.
#[derive(Drop)]
pub struct Report {
    pub one: Built,
    pub other: Built,
    pub closed: Closed,
}

/// The numbers of its heap.
fn two_callers() -> Geometry
    ensures checked { IsChecked result }
    ensures callers { result.callers ≡ 2 }
{
    Geometry {
        frames: 64,
        heaps: 2,
        units: 4,
        callers: 2,
        turn_limit: 100_000,
    }
}

/// Two threads build collections of so many things at once and drop them. Each hands its count over, and the heap closes,
/// which is the one of their allocators: no caller owns a block in it, and each has begun calls in it. None where a thread
/// had no memory for all of that or nothing to build, or a call of the heap stayed under way.
pub fn share<R: Threads + Sync>(
    rt: &R,
    alloc: Global,
    things: u32,
) -> Result<Option<Report>, AllocError>
    requires { things ≤ 1000 }
    ensures counts { IfOk result (λ told. IfSome told (λ report. (report.one.count ≡ 3 * things) × (report.other.count ≡ 3 * things))) }
    ensures there { IfOk result (λ told. IfSome told (λ report. IsBuiltIn report.closed report.one × IsBuiltIn report.closed report.other)) }
    ensures nothing { IfOk result (λ told. IfSome told (λ report. OwnNothing report.closed)) }
    ensures worked { IfOk result (λ told. IfSome told (λ report. HaveAllWorked 2 report.closed)) }
{
    calls_change_their_block();
    passes_hold_exactly();
    let (heap, mut passes) = Heap::open(alloc, two_callers())?;
    let second = passes.remove(1);
    let first = passes.remove(0);
    let shared = &heap;
    let (one, other) = thread::join(
        rt,
        move ||
            requires { HasNothing shared.now first × (things ≤ 1000) }
            ensures { IfSome result (λ done. HasBuilt shared.entry.now first (3 * things) done.0 done.1) }
        { work(alloc, shared, first, things) },
        move ||
            requires { HasNothing shared.now second × (things ≤ 1000) }
            ensures { IfSome result (λ done. HasBuilt shared.entry.now second (3 * things) done.0 done.1) }
        { work(alloc, shared, second, things) },
    );
    let (Some((one, first)), Some((other, second))) = (one, other) else {
        return Ok(None);
    };
    passes.push_reserved(first);
    passes.push_reserved(second);
    match heap.close(alloc, passes) {
        Ok(closed) => Ok(Some(Report { one, other, closed })),
        Err(_) => Ok(None),
    }
}
