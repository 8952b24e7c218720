//! The script: rounds on a list of pairs, and then a record of its values.

ghost use Rattle.std.specs.Prelude.{ℕ, ◌≡◌, ◌+◌, List, [], ◌∷◌, IfOk, OnOk};
ghost use Rattle.live_heap.specs.Contents.{owned_in};
ghost use Rattle.live_heap.specs.Passes.{IsFresh};
ghost use Rattle.typed_store.specs.Passings.{Rests};
ghost use Rattle.typed_store.specs.Stores.{HasList, HasRecords, IsReady};
ghost use Rattle.store_runner.specs.Ends.{HasRun, IsSpelled, ReadsBack};
ghost use Rattle.store_runner.specs.Scripts.{IsBehind, values_of};

use crate::calls::{note, push, take_out};
use live_heap::heap::Heap;
use live_heap::laws::blocks::passes_hold_exactly;
use live_heap::pass::Pass;
use std::alloc::{AllocError, Global};
use std::sync::Wait;
use typed_store::store::Store;

/// How many keys there are.
const KEYS: u64 = 7;

/// What a script has left.
#[derive(Drop)]
pub struct Script {
    /// The pass that kept the list and the record in its blocks.
    pub pass: Pass,
    /// The pairs as they were read back, from front to back.
    pub pairs: Vec<(u64, u64)>,
    /// The words of the record as they were read back.
    pub words: Vec<u64>,
}

/// One round more: the key of the round is taken out, where it is there, and comes to the front with the
/// round's number, counted from 1.
fn play_round<R: Wait>(
    rt: &R,
    heap: &Heap,
    store: &mut Store,
    rounds: u32,
) -> Result<(), AllocError>
    requires alone { heap.now.layout.callers ≡ 1 }
    requires behind { IsBehind heap.now rounds store.old }
    ensures { OnOk result (IsBehind heap.now (rounds + 1) store.new) }
{
    let number = u64::from(rounds) + 1;
    let key = number % KEYS;
    take_out(heap, store, key);
    push(rt, heap, store, key, number)?;
    Ok(())
}

/// The values of pairs.
fn values(alloc: Global, pairs: &[(u64, u64)]) -> Result<Vec<u64>, AllocError>
    ensures { IfOk result (λ values. values.items ≡ values_of pairs.now) }
{
    let mut values = Vec::with_capacity(alloc, pairs.len())?;
    for i in 0..pairs.len() {
        values.push_reserved(pairs[i].1);
    }
    Ok(values)
}

/// Runs so many rounds on a new list, in the blocks of the heap's only caller, and adds a record of the
/// values from front to back; then the list and the record are read back.
pub fn run_script<R: Wait>(
    rt: &R,
    alloc: Global,
    heap: &Heap,
    pass: Pass,
    rounds: u32,
) -> Result<Script, AllocError>
    requires alone { heap.now.layout.callers ≡ 1 }
    requires fresh { IsFresh heap.now pass }
    requires first { pass.errand.caller ≡ 0 }
    ensures { IfOk result (HasRun heap.now rounds) }
{
    passes_hold_exactly();
    let mut store = Store::open(alloc, pass);
    for round in 0..rounds {
        play_round(rt, heap, &mut store, round)?;
    }
    let pairs = store.list(alloc, heap)?;
    let values = values(alloc, pairs.as_slice())?;
    note(rt, heap, &mut store, values.as_slice())?;
    let script = read_back(alloc, heap, store)?;
    Ok(script)
}

/// Reads the list and the one record, and ends the store.
fn read_back(alloc: Global, heap: &Heap, mut store: Store) -> Result<Script, AllocError>
    requires ready { IsReady heap.now store }
    requires record { (words : List ℕ) × HasRecords store (words ∷ []) }
    ensures rests { IfOk result (λ script. Rests heap.now store.pass script.pass) }
    ensures pairs { IfOk result (λ script. HasList store script.pairs.items) }
    ensures words { IfOk result (λ script. (words : List ℕ) → HasRecords store (words ∷ []) → script.words.items ≡ words) }
    ensures keeps { IfOk result (λ script. (pairs : List (ℕ × ℕ)) (words : List ℕ) → HasList store pairs → HasRecords store (words ∷ [])
        → (keeps : IsSpelled (owned_in script.pass) pairs words)
        × ReadsBack heap.now keeps.slots keeps.head keeps.block script.pairs.items script.words.items script.pass) }
{
    let pairs = store.list(alloc, heap)?;
    let found = store.record(alloc, heap, 0)?;
    match found {
        Some(words) => Ok(Script {
            pass: store.close(),
            pairs,
            words,
        }),
        None => unreachable!(),
    }
}
