//! The lanes of a trace on one machine, in the order that the trace gives.

ghost use Rattle.std.specs.Prelude.{ℕ, ◌≡◌, ◌<◌, ◌≤◌, ◌+◌, ◌∷◌, List, IfOk, OnErr, OnOk, map, length};
ghost use Rattle.std.specs.List.{All};
ghost use Rattle.trace_text.specs.Traces.{IsTrace, IsOp, IsOrder};
ghost use Rattle.errand_steps.specs.Openings.{opening};
ghost use Rattle.sound_state.specs.Runs.{Move};
ghost use Rattle.step_machine.specs.Openings.{IsOpened};
ghost use Rattle.lane_outcomes.specs.Passed.{AllPassed};
ghost use Rattle.lane_runner.specs.Driven.{IsDriven, IsDrivenSoFar};
ghost use Rattle.lane_runner.specs.Orders.{InOrder, OneByOne};
ghost use Rattle.lane_runner.specs.Running.{HasRun, HasRunOut, HasRunSome, HaveFinished, HaveRunBefore, LanesRan};
ghost use Rattle.trace_lane.specs.States.{StandsOn};

use crate::lanes::{lane_of, open_lanes};
use edge_io::gate::Gate;
use lane_engine::grip::Grip;
use lane_outcomes::outcome::Outcome;
use std::alloc::{AllocError, Global};
use step_machine::machine::Core;
use trace_lane::lane::LaneState;
use trace_text::trace::{Op, OrderRun, Trace};

/// Advances a lane so many times, or to its end.
fn run_some<G: Gate>(
    gate: &G,
    operations: &[Op],
    lane: &mut LaneState<Grip>,
    core: &mut Core,
    steps: u32,
) -> Result<(), AllocError>
    requires operations { All IsOp operations.now }
    requires stands { StandsOn core.old operations.now lane.old }
    ensures ran { OnOk result (HasRunSome (G.passed gate.now) core.old core.new operations.now lane.old lane.new steps) }
    ensures stopped { OnErr result
        ((made : ℕ) × HasRun (G.passed gate.now) core.old core.new operations.now lane.old lane.new made × (made ≤ steps)) }
    ensures geometry { core.new.geometry ≡ core.old.geometry }
{
    for _step in 0..steps {
        if !lane.advance(core, operations, gate)? {
            return Ok(());
        }
    }
    Ok(())
}

/// Advances a lane to its end.
fn run_to_end<G: Gate>(
    gate: &G,
    operations: &[Op],
    lane: &mut LaneState<Grip>,
    core: &mut Core,
) -> Result<(), AllocError>
    requires operations { All IsOp operations.now }
    requires stands { StandsOn core.old operations.now lane.old }
    ensures ran { OnOk result (HasRunOut (G.passed gate.now) core.old core.new operations.now lane.old lane.new) }
    ensures stopped { OnErr result
        ((made : ℕ) × HasRun (G.passed gate.now) core.old core.new operations.now lane.old lane.new made) }
    ensures geometry { core.new.geometry ≡ core.old.geometry }
{
    loop {
        if !lane.advance(core, operations, gate)? {
            return Ok(());
        }
    }
}

/// Makes one order run, behind those before it.
fn follow_run<G: Gate>(
    gate: &G,
    trace: &Trace,
    lanes: &mut Vec<LaneState<Grip>>,
    core: &mut Core,
    run: OrderRun,
) -> Result<(), AllocError>
    requires trace { IsTrace trace.now }
    requires order { IsOrder trace.now.lanes run }
    requires stand { (moves : List Move) × LanesRan (G.passed gate.now) trace.now core.old lanes.old.items moves }
    ensures ran { OnOk result ((later : List OrderRun)
        → HaveRunBefore (G.passed gate.now) trace.now (InOrder (run ∷ later) (length trace.now.lanes)) core.old lanes.old.items
        → HaveRunBefore (G.passed gate.now) trace.now (InOrder later (length trace.now.lanes)) core.new lanes.new.items) }
    ensures stopped { OnErr result ((later : List OrderRun)
        → HaveRunBefore (G.passed gate.now) trace.now (InOrder (run ∷ later) (length trace.now.lanes)) core.old lanes.old.items
        → IsDrivenSoFar trace.now trace.now.orders core.new) }
    ensures geometry { core.new.geometry ≡ core.old.geometry }
{
    let lane = usize::from(run.lane);
    run_some(
        gate,
        lane_of(trace, lane),
        &mut lanes[lane],
        core,
        run.steps,
    )
}

/// Makes the order runs of a trace.
fn follow_runs<G: Gate>(
    gate: &G,
    trace: &Trace,
    lanes: &mut Vec<LaneState<Grip>>,
    core: &mut Core,
) -> Result<(), AllocError>
    requires trace { IsTrace trace.now }
    requires run { HaveRunBefore (G.passed gate.now) trace.now (InOrder trace.now.orders (length trace.now.lanes)) core.old lanes.old.items }
    ensures ran { OnOk result (HaveRunBefore (G.passed gate.now) trace.now (OneByOne 0 (length trace.now.lanes)) core.new lanes.new.items) }
    ensures stopped { OnErr result (IsDrivenSoFar trace.now trace.now.orders core.new) }
    ensures geometry { core.new.geometry ≡ core.old.geometry }
{
    for run in trace.orders.as_slice() {
        follow_run(gate, trace, lanes, core, *run)?;
    }
    Ok(())
}

/// Runs one lane to its end, behind those before it.
fn finish_lane<G: Gate>(
    gate: &G,
    trace: &Trace,
    lanes: &mut Vec<LaneState<Grip>>,
    core: &mut Core,
    lane: usize,
) -> Result<(), AllocError>
    requires trace { IsTrace trace.now }
    requires lane { lane < length trace.now.lanes }
    requires finished { HaveFinished (G.passed gate.now) trace.now lane core.old lanes.old.items }
    ensures ran { OnOk result (HaveFinished (G.passed gate.now) trace.now (lane + 1) core.new lanes.new.items) }
    ensures stopped { OnErr result (IsDrivenSoFar trace.now trace.now.orders core.new) }
    ensures geometry { core.new.geometry ≡ core.old.geometry }
{
    run_to_end(gate, lane_of(trace, lane), &mut lanes[lane], core)
}

/// Runs each lane to its end, lane 0 first.
fn finish_lanes<G: Gate>(
    gate: &G,
    trace: &Trace,
    lanes: &mut Vec<LaneState<Grip>>,
    core: &mut Core,
) -> Result<(), AllocError>
    requires trace { IsTrace trace.now }
    requires run { HaveRunBefore (G.passed gate.now) trace.now (OneByOne 0 (length trace.now.lanes)) core.old lanes.old.items }
    ensures ran { OnOk result (HaveFinished (G.passed gate.now) trace.now (length trace.now.lanes) core.new lanes.new.items) }
    ensures stopped { OnErr result (IsDrivenSoFar trace.now trace.now.orders core.new) }
    ensures geometry { core.new.geometry ≡ core.old.geometry }
{
    for lane in 0..trace.lanes.len() {
        finish_lane(gate, trace, lanes, core, lane)?;
    }
    Ok(())
}

/// The outcomes of each lane.
fn outcomes_of(alloc: Global, lanes: Vec<LaneState<Grip>>) -> Result<Vec<Vec<Outcome>>, AllocError>
    ensures { IfOk result (λ outcomes. outcomes.items ≡ map (λ lane. lane.outcomes) lanes.items) }
{
    lanes
        .into_iter()
        .map(|lane| lane.into_outcomes())
        .collect(alloc)
}

/// Runs the lanes of a trace to their ends on a machine that has made no step. The order runs come
/// first: each advances its lane that many steps, or to the lane's end. Then each lane goes on to its
/// end, lane 0 first. Each operation passes the gate before it begins. Takes time by the steps that are
/// made, whatever numbers the order runs name. Where the machine finds no memory for a step, the lanes
/// have run so far.
pub fn run_core<G: Gate>(
    alloc: Global,
    gate: &G,
    trace: &Trace,
    core: &mut Core,
) -> Result<Vec<Vec<Outcome>>, AllocError>
    requires trace { IsTrace trace.now }
    requires opened { IsOpened trace.now.heap (opening trace.now.heap) core.old }
    ensures driven { IfOk result (λ outcomes. IsDriven trace.now trace.now.orders core.new (map (λ lane. lane.items) outcomes.items)) }
    ensures passed { OnOk result (AllPassed (G.passed gate.now) trace.now.lanes) }
    ensures stopped { OnErr result (IsDrivenSoFar trace.now trace.now.orders core.new) }
    ensures geometry { core.new.geometry ≡ core.old.geometry }
{
    // Lanes stand on what the machine's type keeps.
    let _ = core.steps();
    let mut lanes = open_lanes(alloc, trace)?;
    follow_runs(gate, trace, &mut lanes, core)?;
    finish_lanes(gate, trace, &mut lanes, core)?;
    outcomes_of(alloc, lanes)
}
