//! The heap of a script, from its opening to its end.

ghost use Rattle.std.specs.Prelude.{◌≡◌, ◌≤◌, IfOk};
ghost use Rattle.heap_geometry.specs.Geometry.{IsChecked};
ghost use Rattle.store_runner.specs.Closings.{IsStored, store_heap};
ghost use Rattle.store_runner.specs.Texts.{store_text, text_of};

use crate::script::{Script, run_script};
use crate::told::told;
use heap_geometry::geometry::Geometry;
use heap_geometry::limits::MAX_TURNS;
use live_heap::closed::Closed;
use live_heap::heap::Heap;
use live_heap::laws::blocks::calls_change_their_block;
use live_heap::laws::closed_heaps_are_sound;
use pool_model::laws::{histories_grow_by_events, live_blocks_are_counted};
use std::alloc::{AllocError, Global};
use std::sync::Wait;

/// What a script came to.
#[derive(Drop)]
pub struct StoreRun {
    /// The text that tells of it.
    pub text: Vec<u8>,
    /// The heap at its end, in which the list and the record are live.
    pub closed: Closed,
}

/// The numbers of the heap.
fn geometry() -> Geometry
    ensures value { result ≡ store_heap }
    ensures checked { IsChecked result }
{
    Geometry {
        frames: 64,
        heaps: 1,
        units: 0,
        callers: 1,
        turn_limit: MAX_TURNS,
    }
}

/// Runs so many rounds of the script on a heap of its own.
pub fn run_store<R: Wait>(rt: &R, alloc: Global, rounds: u32) -> Result<StoreRun, AllocError>
    ensures stored { IfOk result (λ run. IsStored rounds run.closed) }
    ensures text { IfOk result (λ run. run.text.items ≡ store_text rounds) }
    ensures told { IfOk result (λ run. (stored : IsStored rounds run.closed) × (run.text.items ≡ text_of rounds stored.pairs stored.words)) }
{
    calls_change_their_block();
    closed_heaps_are_sound();
    live_blocks_are_counted();
    histories_grow_by_events();
    let (heap, mut passes) = Heap::open(alloc, geometry())?;
    let pass = passes.remove(0);
    let script = run_script(rt, alloc, &heap, pass, rounds)?;
    let text = told(
        alloc,
        rounds,
        script.pairs.as_slice(),
        script.words.as_slice(),
    )?;
    let Script { pass, .. } = script;
    passes.push_reserved(pass);
    match heap.close(alloc, passes) {
        Ok(closed) => Ok(StoreRun { text, closed }),
        Err(_) => Err(AllocError),
    }
}
