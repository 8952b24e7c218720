//! The lanes of a trace, before their first operations.

ghost use Rattle.std.specs.Prelude.{◌≡◌, ◌<◌, IfOk, length};
ghost use Rattle.trace_text.specs.Traces.{IsTrace};
ghost use Rattle.lane_runner.specs.Running.{operations_in};
ghost use Rattle.trace_lane.specs.States.{AreNew};

use std::alloc::{AllocError, Global};
use step_machine::token::Token;
use trace_lane::lane::LaneState;
use trace_text::trace::{Op, Trace};

/// The operations of a lane.
pub(crate) fn lane_of(trace: &Trace, lane: usize) -> &[Op]
    requires { lane < length trace.now.lanes }
    ensures { result.now ≡ operations_in trace.now lane }
{
    trace.lanes.as_slice()[lane].as_slice()
}

/// A lane for each of a trace's, before its first operation.
pub(crate) fn open_lanes<B: Token + Drop>(
    alloc: Global,
    trace: &Trace,
) -> Result<Vec<LaneState<B>>, AllocError>
    requires { IsTrace trace.now }
    ensures { IfOk result (λ lanes. AreNew trace.now.lanes lanes.items) }
{
    let mut lanes = Vec::with_capacity(alloc, trace.lanes.len())?;
    for (lane, operations) in trace.lanes.as_slice().iter().enumerate() {
        let opened = LaneState::open(alloc, lane as u32, operations.as_slice())?;
        lanes.push(opened)?;
    }
    Ok(lanes)
}
