//! Worked rows, on a heap of one frame.

ghost use Rattle.typed_store.specs.Stores.{IsReady};

use crate::driver::{add, finish, finish_popped, open_store};
use crate::expect::expect;
use heap_scripts::alone::geometry;
use live_heap::heap::Heap;
use std::alloc::{AllocError, Global};
use std::process::Abort;
use std::test::Fail;
use typed_store::store::{Popped, Store, Stored};

/// Puts a pair in front, and answers whether that is done.
fn is_pushed<R: Abort>(
    rt: &R,
    heap: &Heap,
    store: &mut Store,
    key: u64,
    value: u64,
    busy: &mut u64,
) -> Result<bool, AllocError>
    requires { IsReady heap.now store.old }
    ensures { IsReady heap.now store.new }
{
    let pushed = store.push_front(heap, key, value, 9)?;
    let stored = finish(rt, heap, store, &[], pushed, busy);
    Ok(matches!(stored, Stored::Done))
}

/// A record of a node's class fits beside the nodes, and a wider one is refused.
fn fill<R: Abort>(rt: &R, heap: &Heap, store: &mut Store) -> Result<(), AllocError>
    requires { IsReady heap.now store.old }
    ensures { IsReady heap.now store.new }
{
    let mut busy = 0;
    expect(rt, is_pushed(rt, heap, store, 3, 10, &mut busy)?, 0);
    let added = add(rt, heap, store, &[7, 8], &mut busy)?;
    expect(rt, matches!(added, Stored::Done), 1);
    let refused = add(rt, heap, store, &[1, 2, 3, 4, 5], &mut busy)?;
    expect(rt, matches!(refused, Stored::Refused), 2);
    expect(rt, busy == 0, 3);
    Ok(())
}

/// Whether the value at a key is this one.
fn has_value(heap: &Heap, store: &mut Store, key: u64, value: u64) -> bool
    requires { IsReady heap.now store.old }
    ensures { IsReady heap.now store.new }
{
    match store.get(heap, key) {
        Some(found) => found == value,
        None => false,
    }
}

/// Whether the list has this pair alone.
fn lists(
    alloc: Global,
    heap: &Heap,
    store: &mut Store,
    key: u64,
    value: u64,
) -> Result<bool, AllocError>
    requires { IsReady heap.now store.old }
    ensures { IsReady heap.now store.new }
{
    let listed = store.list(alloc, heap)?;
    match listed.as_slice() {
        [(first, second)] => Ok(*first == key && *second == value),
        _ => Ok(false),
    }
}

/// Whether this record has these words.
fn records(
    alloc: Global,
    heap: &Heap,
    store: &mut Store,
    first: u64,
    second: u64,
) -> Result<bool, AllocError>
    requires { IsReady heap.now store.old }
    ensures { IsReady heap.now store.new }
{
    match store.record(alloc, heap, 0)? {
        Some(words) => Ok(is_pair(words.as_slice(), first, second)),
        None => Ok(false),
    }
}

/// Whether these are two words.
fn is_pair(words: &[u64], first: u64, second: u64) -> bool {
    match words {
        [one, other] => *one == first && *other == second,
        _ => false,
    }
}

/// What was put into the store is read there.
fn read<R: Abort>(rt: &R, alloc: Global, heap: &Heap, store: &mut Store) -> Result<(), AllocError>
    requires { IsReady heap.now store.old }
    ensures { IsReady heap.now store.new }
{
    expect(rt, store.records() == 1, 4);
    expect(rt, has_value(heap, store, 3, 10), 5);
    expect(rt, store.get(heap, 4).is_none(), 6);
    expect(rt, lists(alloc, heap, store, 3, 10)?, 7);
    expect(rt, records(alloc, heap, store, 7, 8)?, 8);
    expect(rt, store.record(alloc, heap, 1)?.is_none(), 9);
    Ok(())
}

/// The pair is popped, and no other.
fn pop<R: Abort>(rt: &R, heap: &Heap, store: &mut Store)
    requires { IsReady heap.now store.old }
{
    let mut busy = 0;
    let popped = store.pop_front(heap, 9);
    match finish_popped(rt, heap, store, popped, &mut busy) {
        Some((key, value)) => expect(rt, key == 3 && value == 10, 10),
        None => panic!(rt; "there is no pair"),
    }
    expect(rt, matches!(store.pop_front(heap, 9), Popped::Empty), 11);
}

/// All of this on a heap of one frame.
fn play<R: Abort>(rt: &R, alloc: Global) -> Result<(), AllocError> {
    let (heap, mut store) = open_store(alloc, geometry(1, 0, 1, 100))?;
    fill(rt, &heap, &mut store)?;
    read(rt, alloc, &heap, &mut store)?;
    pop(rt, &heap, &mut store);
    Ok(())
}

#[test]
fn a_record_of_a_nodes_class_fits_beside_the_nodes_and_a_wider_one_is_refused(
    rt: HostRuntime,
) -> Result<(), Fail> {
    Ok(play(&rt, rt.alloc())?)
}
