//! Running a trace on a machine.

ghost use Rattle.std.specs.Prelude.{IfOk, map};
ghost use Rattle.trace_text.specs.Traces.{IsTrace};
ghost use Rattle.trace_commands.specs.Answers.{IsRun};
ghost use Rattle.trace_commands.specs.Closings.{IsDrivenIn};

use crate::closing::Closing;
use edge_io::gate::Gate;
use lane_outcomes::outcome::Outcome;
use lane_runner::run_core::run_core;
use std::alloc::{AllocError, Global};
use step_machine::machine::Core;
use trace_text::trace::Trace;

/// A run of a trace: the machine at its end, and the outcomes of each lane.
#[derive(Drop)]
pub struct DrivenRun {
    pub core: Core,
    pub outcomes: Vec<Vec<Outcome>>,
}

/// Runs the lanes of a trace on a new machine, in the order that the trace gives. Each operation passes
/// the gate before it begins.
pub fn drive<G: Gate>(alloc: Global, gate: &G, trace: &Trace) -> Result<DrivenRun, AllocError>
    requires { IsTrace trace.now }
    ensures { IfOk result (λ run. IsRun (G.passed gate.now) trace.now (IsDrivenIn trace.now trace.now.orders) (Closing.Stepped run.core)
        (map (λ lane. lane.items) run.outcomes.items)) }
{
    let mut core = Core::open(alloc, trace.heap)?;
    let outcomes = run_core(alloc, gate, trace, &mut core)?;
    Ok(DrivenRun { core, outcomes })
}
