//! Pairs of a push and a pop through stores, on one thread.

ghost use Rattle.std.specs.Prelude.{ℕ, ◌≡◌, ◌≢◌, OnOk};
ghost use Rattle.heap_geometry.specs.Geometry.{IsChecked};
ghost use Rattle.typed_store.specs.declared.store.Pending.TheVariants as pending;
ghost use Rattle.typed_store.specs.Stores.{IsReady, IsUnderWay};

use crate::command::Command;
use crate::counts::print_line;
use live_heap::heap::Heap;
use live_heap::laws::blocks::passes_hold_exactly;
use std::alloc::{AllocError, Global};
use std::io;
use std::io::Print;
use std::sync::Wait;
use typed_store::store::{Popped, Store, Stored};

/// How many tries a call has until it is interrupted.
const TRIES: u32 = 4;

/// How many pairs were popped, and the sum of their values modulo 2^64.
#[derive(Clone, Copy)]
struct Sums {
    popped: u64,
    values: u64,
}

impl Sums {
    /// One value more.
    fn with(self, value: u64) -> Sums {
        Sums {
            popped: self.popped.saturating_add(1),
            values: self.values.wrapping_add(value),
        }
    }
}

/// Goes on with a call of a store to its end.
fn finish<R: Wait>(rt: &R, heap: &Heap, store: &mut Store)
    requires under_way { IsUnderWay heap.now store.old }
    requires no_record { (many : ℕ) → store.old.pending ≢ pending.Record many }
    ensures { IsReady heap.now store.new }
{
    for _ in rt.forever() {
        match store.resume(heap, &[], TRIES) {
            Stored::Busy => {}
            Stored::Done => return,
            Stored::Refused => return,
            Stored::Spent => return,
        }
    }
    unreachable!()
}

/// Puts a pair in front, where the heap has a block for it.
fn push<R: Wait>(rt: &R, heap: &Heap, store: &mut Store, number: u64) -> Result<(), AllocError>
    requires { IsReady heap.now store.old }
    ensures { OnOk result (IsReady heap.now store.new) }
{
    match store.push_front(heap, number, number, TRIES)? {
        Stored::Busy => finish(rt, heap, store),
        Stored::Done => {}
        Stored::Refused => {}
        Stored::Spent => {}
    }
    Ok(())
}

/// Takes the first pair out.
fn pop<R: Wait>(rt: &R, heap: &Heap, store: &mut Store, sums: Sums) -> Sums
    requires { IsReady heap.now store.old }
    ensures { IsReady heap.now store.new }
{
    match store.pop_front(heap, TRIES) {
        Popped::Empty => sums,
        Popped::Got { value, freed, .. } => {
            if !freed {
                finish(rt, heap, store);
            }
            sums.with(value)
        }
    }
}

/// So many pushes, each with a pop behind it.
fn make_pairs<R: Wait>(
    rt: &R,
    heap: &Heap,
    store: &mut Store,
    pairs: u64,
    sums: Sums,
) -> Result<Sums, AllocError>
    requires { IsReady heap.now store.old }
    ensures { OnOk result (IsReady heap.now store.new) }
{
    let mut sums = sums;
    for number in 0..pairs {
        push(rt, heap, store, number)?;
        sums = pop(rt, heap, store, sums);
    }
    Ok(sums)
}

/// Opens a heap, makes so many pairs through a store for each caller in turn, and closes the heap.
fn run<R: Wait>(rt: &R, alloc: Global, command: Command) -> Result<Sums, AllocError>
    requires { IsChecked command.geometry }
{
    passes_hold_exactly();
    let (heap, passes) = Heap::open(alloc, command.geometry)?;
    let mut done = Vec::new(alloc);
    let mut sums = Sums {
        popped: 0,
        values: 0,
    };
    for pass in passes {
        let mut store = Store::open(alloc, pass);
        sums = make_pairs(rt, &heap, &mut store, command.count, sums)?;
        done.push(store.close())?;
    }
    match heap.close(alloc, done) {
        Ok(_) => Ok(sums),
        Err(_) => unreachable!(),
    }
}

/// Makes the pairs, and prints how many were popped and the sum of their values. None can be wrong.
pub fn print_sums<R: Print + Wait>(rt: &R, alloc: Global, command: Command) -> io::Result<u64>
    requires { IsChecked command.geometry }
{
    let sums = run(rt, alloc, command)?;
    print_line(rt, &[("popped", sums.popped), ("values", sums.values)])?;
    Ok(0)
}
