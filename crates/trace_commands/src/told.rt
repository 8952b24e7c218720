//! What is told of the run of a trace.

ghost use Rattle.std.specs.Prelude.{ℕ, ◌≡◌, List, IfOk, Some, map};
ghost use Rattle.pool_model.specs.declared.event.Event.{Event};
ghost use Rattle.pool_model.specs.Legal.{IsLegal};
ghost use Rattle.trace_text.specs.Traces.{IsTrace};
ghost use Rattle.lane_outcomes.specs.Fits.{OutcomesFit};
ghost use Rattle.lane_outcomes.specs.Report.{report_of};
ghost use Rattle.lane_outcomes.specs.Cached.{CachedOutcomesFit};
ghost use Rattle.heap_census.specs.declared.census.Census.{Census as Counts};
ghost use Rattle.trace_commands.specs.Answers.{IsTold, counted_text, replay_text, schedule_text, serial_counted, serial_replay, serial_schedule};
ghost use Rattle.trace_commands.specs.Censuses.{IsCensusOf};
ghost use Rattle.trace_commands.specs.Closings.{IsDrivenIn, IsSharedIn};

use crate::census::census_lines;
use crate::closing::Closing;
use crate::driven::{DrivenRun, drive};
use crate::steps::steps_line;
use crate::threaded::{ThreadedRun, run_on_threads};
use edge_io::gate::Gate;
use heap_census::counting::census;
use lane_outcomes::cached_laws::live_blocks_are_counted;
use lane_outcomes::live::live_count;
use lane_outcomes::outcome::Outcome;
use lane_outcomes::report::report;
use std::alloc::{AllocError, Global};
use std::sync::Wait;
use std::thread::Threads;
use trace_text::trace::Trace;

/// What is told of a run, and the heap that it left.
#[derive(Drop)]
pub struct Told {
    pub text: Vec<u8>,
    pub closing: Closing,
}

/// The report of a trace whose lanes had these outcomes, also through caches.
pub fn report_on(
    alloc: Global,
    trace: &Trace,
    outcomes: &[Vec<Outcome>],
) -> Result<Vec<u8>, AllocError>
    requires { IsTrace trace.now }
    ensures alone { IfOk result (λ text. (history : List Event) (lost : ℕ) → IsLegal trace.now.heap history
        → OutcomesFit trace.now.heap history lost trace.now.lanes (map (λ lane. lane.items) outcomes.now)
        → text.items ≡ report_of trace.now (map (λ lane. lane.items) outcomes.now) history) }
    ensures cached { IfOk result (λ text. (history : List Event) (lost depth hits : ℕ) → IsLegal trace.now.heap history
        → CachedOutcomesFit trace.now.heap history lost depth trace.now.lanes (map (λ lane. lane.items) outcomes.now) hits
        → text.items ≡ report_of trace.now (map (λ lane. lane.items) outcomes.now) history) }
{
    live_blocks_are_counted();
    let (live, words) = live_count(trace, outcomes);
    report(alloc, trace, outcomes, live, words)
}

/// Runs the lanes of a trace on threads, and reports it. Its order runs are not used.
pub fn replay<R: Threads + Wait + Sync, G: Gate + Sync>(
    rt: &R,
    alloc: Global,
    gate: &G,
    trace: &Trace,
) -> Result<Told, AllocError>
    requires { IsTrace trace.now }
    ensures { IfOk result (λ told.
        IsTold (G.passed gate.now) trace.now (IsSharedIn trace.now) (replay_text trace.now) (serial_replay trace.now) (Some told.closing) told.text.items) }
{
    let ThreadedRun {
        closed,
        outcomes,
        hits: _,
    } = run_on_threads(rt, alloc, gate, trace)?;
    let text = report_on(alloc, trace, outcomes.as_slice())?;
    let closing = Closing::Ran(closed);
    Ok(Told { text, closing })
}

/// Runs a trace in the order that it gives, and reports it with the steps that were made.
pub fn schedule<G: Gate>(alloc: Global, gate: &G, trace: &Trace) -> Result<Told, AllocError>
    requires { IsTrace trace.now }
    ensures { IfOk result (λ told.
        IsTold (G.passed gate.now) trace.now (IsDrivenIn trace.now trace.now.orders) (schedule_text trace.now) (serial_schedule trace.now)
        (Some told.closing) told.text.items) }
{
    let DrivenRun { core, outcomes } = drive(alloc, gate, trace)?;
    let mut text = report_on(alloc, trace, outcomes.as_slice())?;
    let steps = steps_line(alloc, &core)?;
    text.extend_from_slice(steps.as_slice())?;
    let closing = Closing::Stepped(core);
    Ok(Told { text, closing })
}

/// Runs the lanes of a trace on threads, reports it, and counts what the closed heap holds.
pub fn counted<R: Threads + Wait + Sync, G: Gate + Sync>(
    rt: &R,
    alloc: Global,
    gate: &G,
    trace: &Trace,
) -> Result<Told, AllocError>
    requires { IsTrace trace.now }
    ensures { IfOk result (λ told. (counts : Counts) × IsCensusOf (Some told.closing) counts
        × IsTold (G.passed gate.now) trace.now (IsSharedIn trace.now) (counted_text trace.now counts) (serial_counted trace.now counts)
        (Some told.closing) told.text.items) }
{
    let ThreadedRun {
        closed,
        outcomes,
        hits: _,
    } = run_on_threads(rt, alloc, gate, trace)?;
    let mut text = report_on(alloc, trace, outcomes.as_slice())?;
    let counts = census_lines(alloc, &census(&closed))?;
    text.extend_from_slice(counts.as_slice())?;
    let closing = Closing::Ran(closed);
    Ok(Told { text, closing })
}
