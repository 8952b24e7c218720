//! The calls of the script on its store, each to its end.

ghost use Rattle.std.specs.Prelude.{ℕ, ◌≡◌, ◌≢◌, ◌≤◌, ◌+◌, List, [], ◌∷◌, IfOk, OnOk, length};
ghost use Rattle.errand_steps.specs.Calls.{alloc};
ghost use Rattle.live_heap.specs.declared.pass.Pass.{Pass};
ghost use Rattle.live_heap.specs.Calls.{IsCalling};
ghost use Rattle.live_heap.specs.Passes.{IsOf};
ghost use Rattle.store_runner.specs.Counts.{CountsBlocks, given_by};
ghost use Rattle.typed_store.specs.declared.store.Pending.TheVariants as pending;
ghost use Rattle.typed_store.specs.Nodes.{without_first};
ghost use Rattle.typed_store.specs.Stores.{HasList, HasRecords, IsReady, IsUnderWay, pairs_after, records_after, with_pair, with_record};

use live_heap::heap::Heap;
use live_heap::laws::one_caller_loses_nothing;
use std::alloc::AllocError;
use std::sync::Wait;
use typed_store::store::{Store, Stored};

/// How many empty superblocks an allocation may clear before the store answers that it is interrupted.
const TRIES: u32 = 1000;

/// Takes the first pair with this key out, where there is one. A heap's only caller is never interrupted
/// in a free.
pub(crate) fn take_out(heap: &Heap, store: &mut Store, key: u64)
    requires alone { heap.now.layout.callers ≡ 1 }
    requires ready { IsReady heap.now store.old }
    ensures ready { IsReady heap.now store.new }
    ensures list { (pairs : List (ℕ × ℕ)) → HasList store.old pairs → HasList store.new (without_first key pairs) }
    ensures records { (records : List (List ℕ)) → HasRecords store.old records → HasRecords store.new records }
    ensures counts { (pairs : List (ℕ × ℕ)) → HasList store.old pairs
        → (freed : ℕ) × CountsBlocks 0 freed store.old.pass store.new.pass × (length (without_first key pairs) + freed ≡ length pairs) }
{
    one_caller_loses_nothing();
    store.remove(heap, key, TRIES);
}

/// Goes on with a call that adds something, to its end.
fn go_on<R: Wait>(rt: &R, heap: &Heap, store: &mut Store, words: &[u64]) -> Stored
    requires under_way { IsUnderWay heap.now store.old }
    requires adds { store.old.pending ≢ pending.Free }
    requires words { (many : ℕ) → store.old.pending ≡ pending.Record many → length words.now ≡ many }
    ensures ready { IsReady heap.now store.new }
    ensures list { (pairs : List (ℕ × ℕ)) → HasList store.old pairs → HasList store.new (pairs_after store.old.pending result pairs) }
    ensures records { (records : List (List ℕ)) → HasRecords store.old records
        → HasRecords store.new (records_after store.old.pending words.now result records) }
    ensures counts { (first : Pass) (asked made : ℕ) → IsOf heap.now first → IsCalling first (alloc asked) made store.old.pass
        → CountsBlocks (given_by result) 0 first store.new.pass }
{
    for _ in rt.forever() {
        match store.resume(heap, words, TRIES) {
            Stored::Busy => {}
            Stored::Done => return Stored::Done,
            Stored::Refused => return Stored::Refused,
            Stored::Spent => return Stored::Spent,
        }
    }
    unreachable!()
}

/// Asks once for a block for a pair in front, and answers what that came to.
fn try_push<R: Wait>(
    rt: &R,
    heap: &Heap,
    store: &mut Store,
    key: u64,
    value: u64,
) -> Result<Stored, AllocError>
    requires ready { IsReady heap.now store.old }
    ensures ready { IfOk result (λ stored. IsReady heap.now store.new) }
    ensures list { IfOk result (λ stored. (pairs : List (ℕ × ℕ)) → HasList store.old pairs
        → HasList store.new (with_pair stored (key, value) pairs)) }
    ensures records { (records : List (List ℕ)) → HasRecords store.old records → HasRecords store.new records }
    ensures counts { IfOk result (λ stored. CountsBlocks (given_by stored) 0 store.old.pass store.new.pass) }
{
    let stored = store.push_front(heap, key, value, TRIES)?;
    match stored {
        Stored::Busy => Ok(go_on(rt, heap, store, &[])),
        Stored::Done => Ok(Stored::Done),
        Stored::Refused => Ok(Stored::Refused),
        Stored::Spent => Ok(Stored::Spent),
    }
}

/// Puts a pair in front. Where the heap gives no block, it asks again.
pub(crate) fn push<R: Wait>(
    rt: &R,
    heap: &Heap,
    store: &mut Store,
    key: u64,
    value: u64,
) -> Result<(), AllocError>
    requires ready { IsReady heap.now store.old }
    ensures ready { OnOk result (IsReady heap.now store.new) }
    ensures list { OnOk result ((pairs : List (ℕ × ℕ)) → HasList store.old pairs → HasList store.new ((key, value) ∷ pairs)) }
    ensures records { OnOk result ((records : List (List ℕ)) → HasRecords store.old records → HasRecords store.new records) }
    ensures counts { OnOk result (CountsBlocks 1 0 store.old.pass store.new.pass) }
{
    for _ in rt.forever() {
        let stored = try_push(rt, heap, store, key, value)?;
        match stored {
            Stored::Done => return Ok(()),
            Stored::Refused => {}
            Stored::Spent => {}
            Stored::Busy => {}
        }
    }
    unreachable!()
}

/// Asks once for a block for a record, and answers what that came to.
fn try_note<R: Wait>(
    rt: &R,
    heap: &Heap,
    store: &mut Store,
    words: &[u64],
) -> Result<Stored, AllocError>
    requires ready { IsReady heap.now store.old }
    requires few { length words.now ≤ 131070 }
    requires none { HasRecords store.old [] }
    ensures ready { IfOk result (λ stored. IsReady heap.now store.new) }
    ensures list { (pairs : List (ℕ × ℕ)) → HasList store.old pairs → HasList store.new pairs }
    ensures records { IfOk result (λ stored. HasRecords store.new (with_record stored words.now [])) }
    ensures counts { IfOk result (λ stored. CountsBlocks (given_by stored) 0 store.old.pass store.new.pass) }
{
    let stored = store.add_record(heap, words, TRIES)?;
    match stored {
        Stored::Busy => Ok(go_on(rt, heap, store, words)),
        Stored::Done => Ok(Stored::Done),
        Stored::Refused => Ok(Stored::Refused),
        Stored::Spent => Ok(Stored::Spent),
    }
}

/// Adds the first record. Where the heap gives no block, it asks again.
pub(crate) fn note<R: Wait>(
    rt: &R,
    heap: &Heap,
    store: &mut Store,
    words: &[u64],
) -> Result<(), AllocError>
    requires ready { IsReady heap.now store.old }
    requires few { length words.now ≤ 131070 }
    requires none { HasRecords store.old [] }
    ensures ready { OnOk result (IsReady heap.now store.new) }
    ensures list { OnOk result ((pairs : List (ℕ × ℕ)) → HasList store.old pairs → HasList store.new pairs) }
    ensures records { OnOk result (HasRecords store.new (words.now ∷ [])) }
    ensures counts { OnOk result (CountsBlocks 1 0 store.old.pass store.new.pass) }
{
    for _ in rt.forever() {
        let stored = try_note(rt, heap, store, words)?;
        match stored {
            Stored::Done => return Ok(()),
            Stored::Refused => {}
            Stored::Spent => {}
            Stored::Busy => {}
        }
    }
    unreachable!()
}
