//! How the tests open a store, and bring a call of it to its end.

ghost use Rattle.std.specs.Prelude.{ℕ, ◌≡◌, ◌≤◌, IfOk, length};
ghost use Rattle.heap_geometry.specs.Geometry.{IsChecked};
ghost use Rattle.typed_store.specs.declared.store.Pending.{Pending};
ghost use Rattle.typed_store.specs.declared.store.Pending.TheVariants as pending;
ghost use Rattle.typed_store.specs.Stores.{IsReady, LeavesStore, LeavesPopped};

use heap_geometry::geometry::Geometry;
use live_heap::heap::Heap;
use live_heap::laws::blocks::passes_hold_exactly;
use std::alloc::{AllocError, Global};
use std::process::Abort;
use typed_store::store::{Popped, Store, Stored};

/// How often a call is resumed at most.
const RESUMES: u32 = 1_000;

/// A heap with these numbers, and a store of its first caller.
pub fn open_store(alloc: Global, geometry: Geometry) -> Result<(Heap, Store), AllocError>
    requires { IsChecked geometry }
    ensures { IfOk result (λ opened. IsReady opened.0 opened.1) }
{
    passes_hold_exactly();
    let (heap, mut passes) = Heap::open(alloc, geometry)?;
    let pass = passes.remove(0);
    Ok((heap, Store::open(alloc, pass)))
}

/// Brings a call to its end, one try after another, and counts how often it was interrupted.
pub fn finish<R: Abort>(
    rt: &R,
    heap: &Heap,
    store: &mut Store,
    words: &[u64],
    first: Stored,
    busy: &mut u64,
) -> Stored
    requires left { (waiting : Pending) × LeavesStore heap.now first waiting store.old × ((many : ℕ) → waiting ≡ pending.Record many → length words.now ≡ many) }
    ensures { IsReady heap.now store.new }
{
    let mut stored = first;
    for _resumed in 0..RESUMES {
        match stored {
            Stored::Busy => {
                *busy = busy.saturating_add(1);
                stored = store.resume(heap, words, 1);
            }
            _ => return stored,
        }
    }
    panic!(rt; "the call does not end")
}

/// Adds a record, and brings that to its end.
pub fn add<R: Abort>(
    rt: &R,
    heap: &Heap,
    store: &mut Store,
    words: &[u64],
    busy: &mut u64,
) -> Result<Stored, AllocError>
    requires ready { IsReady heap.now store.old }
    requires few { length words.now ≤ 131070 }
    ensures { IsReady heap.now store.new }
{
    let many = store.records();
    if many >= 1_000_000 {
        panic!(rt; "the store has all its records");
    }
    let added = store.add_record(heap, words, 9)?;
    Ok(finish(rt, heap, store, words, added, busy))
}

/// Brings the free of a popped pair to its end.
pub fn finish_popped<R: Abort>(
    rt: &R,
    heap: &Heap,
    store: &mut Store,
    popped: Popped,
    busy: &mut u64,
) -> Option<(u64, u64)>
    requires { LeavesPopped heap.now popped store.old }
    ensures { IsReady heap.now store.new }
{
    match popped {
        Popped::Got {
            key,
            value,
            freed: true,
        } => Some((key, value)),
        Popped::Got { key, value, .. } => {
            let _ = finish(rt, heap, store, &[], Stored::Busy, busy);
            Some((key, value))
        }
        Popped::Empty => None,
    }
}
