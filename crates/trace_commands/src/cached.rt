//! Running a trace on threads, each lane through a cache of its own.

ghost use Rattle.std.specs.Prelude.{◌≡◌, IfOk, Some, sum};
ghost use Rattle.trace_text.specs.Traces.{IsTrace};
ghost use Rattle.command_line.specs.Command.{IsDepth};
ghost use Rattle.trace_commands.specs.Answers.{IsCacheTold, hits_line};

use crate::closing::Closing;
use crate::threaded::run_through_caches;
use crate::told::{Told, report_on};
use command_line::wide::write_wide;
use edge_io::gate::Gate;
use std::alloc::{AllocError, Global};
use std::sync::Wait;
use std::thread::Threads;
use trace_text::text::Text;
use trace_text::trace::Trace;

/// How many allocations all caches have served.
fn total(hits: &[u64]) -> u128
    ensures { result ≡ sum hits.now }
{
    let mut total = 0;
    for served in hits {
        total += u128::from(*served);
    }
    total
}

/// The line of how many they are.
fn hits_line(alloc: Global, hits: &[u64]) -> Result<Vec<u8>, AllocError>
    ensures { IfOk result (λ text. text.items ≡ hits_line (sum hits.now)) }
{
    let mut text = Text::new(alloc);
    text.begin("hits")?;
    write_wide(alloc, &mut text, total(hits))?;
    text.end_line()?;
    Ok(text.into_bytes())
}

/// Runs the lanes of a trace on threads through caches of this depth, reports it, and counts what the caches
/// have served. Its order runs are not used.
pub fn cached<R: Threads + Wait + Sync, G: Gate + Sync>(
    rt: &R,
    alloc: Global,
    gate: &G,
    trace: &Trace,
    depth: u8,
) -> Result<Told, AllocError>
    requires trace { IsTrace trace.now }
    requires depth { IsDepth depth }
    ensures { IfOk result (λ told. IsCacheTold (G.passed gate.now) trace.now depth (Some told.closing) told.text.items) }
{
    let run = run_through_caches(rt, alloc, gate, trace, depth)?;
    let mut text = report_on(alloc, trace, run.outcomes.as_slice())?;
    let hits = hits_line(alloc, run.hits.as_slice())?;
    text.extend_from_slice(hits.as_slice())?;
    let closing = Closing::Ran(run.closed);
    Ok(Told { text, closing })
}
