//! What is told of a store's script.

ghost use Rattle.std.specs.Prelude.{IfOk, Some};
ghost use Rattle.trace_commands.specs.Stored.{IsStoreTold};

use crate::closing::Closing;
use crate::told::Told;
use std::alloc::{AllocError, Global};
use std::sync::Wait;
use store_runner::heap::{StoreRun, run_store};

/// Runs so many rounds of the script of a store.
pub fn store<R: Wait>(rt: &R, alloc: Global, rounds: u32) -> Result<Told, AllocError>
    ensures { IfOk result (λ told. IsStoreTold rounds (Some told.closing) told.text.items) }
{
    let StoreRun { text, closed } = run_store(rt, alloc, rounds)?;
    let closing = Closing::Ran(closed);
    Ok(Told { text, closing })
}
