//! What is told of a workload.

ghost use Rattle.std.specs.Prelude.{◌≡◌, IfOk, Some};
ghost use Rattle.trace_text.specs.Text.{canonical_of};
ghost use Rattle.trace_commands.specs.Answers.{HasOneSummary, IsTold, make_text, serial_make};
ghost use Rattle.trace_commands.specs.Closings.{IsSharedIn};
ghost use Rattle.command_line.specs.Command.{IsWorkload};
ghost use Rattle.command_line.specs.Summaries.{trace_of};

use crate::closing::Closing;
use crate::threaded::{ThreadedRun, run_on_threads};
use crate::told::Told;
use command_line::command::Workload;
use command_line::summary::summary;
use edge_io::gate::Gate;
use lane_outcomes::live::live_count;
use std::alloc::{AllocError, Global};
use std::sync::Wait;
use std::thread::Threads;
use trace_text::printing::print_trace;
use workloads::making::make_trace;

/// Makes the trace of a workload, runs its lanes on threads, and sums up their outcomes.
pub fn make<R: Threads + Wait + Sync, G: Gate + Sync>(
    rt: &R,
    alloc: Global,
    gate: &G,
    workload: Workload,
) -> Result<Told, AllocError>
    requires { IsWorkload workload }
    ensures { IfOk result (λ told.
        IsTold (G.passed gate.now) (trace_of workload) (IsSharedIn (trace_of workload)) (make_text workload) (serial_make workload)
        (Some told.closing) told.text.items
        × HasOneSummary workload told.text.items) }
{
    let trace = make_trace(alloc, workload.kind, workload.size, workload.start)?;
    let ThreadedRun {
        closed,
        outcomes,
        hits: _,
    } = run_on_threads(rt, alloc, gate, &trace)?;
    let outcomes = outcomes.as_slice();
    let (live, words) = live_count(&trace, outcomes);
    let text = summary(alloc, workload, &trace, outcomes, live, words)?;
    let closing = Closing::Ran(closed);
    Ok(Told { text, closing })
}

/// Makes the trace of a workload, and prints it.
pub fn print(alloc: Global, workload: Workload) -> Result<Vec<u8>, AllocError>
    requires { IsWorkload workload }
    ensures { IfOk result (λ text. text.items ≡ canonical_of (trace_of workload)) }
{
    let trace = make_trace(alloc, workload.kind, workload.size, workload.start)?;
    print_trace(alloc, &trace)
}
