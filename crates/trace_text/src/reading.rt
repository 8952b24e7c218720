//! The reader: from a text to its trace.

ghost use Rattle.std.specs.Prelude.{◌≡◌, ◌≤◌, length, IfOk};
ghost use Rattle.trace_text.specs.Reading.{AnswersReading, at_end, fault_of, reading_of};
ghost use Rattle.trace_text.specs.Stages.{HasTrace};
ghost use Rattle.trace_text.specs.Traces.{IsTrace};
ghost use Rattle.trace_text.specs.declared.limits.TheConstants.{MAX_INPUT};

use crate::fault::{Cause, Stop, TraceFault};
use crate::lines::first_line;
use crate::stage::ReadingStage;
use crate::trace::Trace;
use std::alloc::Global;

/// What a stop at a line is told as.
fn fault_at(number: u32, stop: Stop) -> TraceFault
    ensures { result ≡ fault_of number stop }
{
    match stop {
        Stop::OutOfMemory => TraceFault::OutOfMemory,
        Stop::Because(cause) => TraceFault::Line {
            number,
            cause: cause.code(),
        },
    }
}

/// The trace, where the text ends behind its last line.
#[tactic(auto, unfolding(crate::specs::Reading::at_end))]
fn whole_trace(stage: ReadingStage, number: u32) -> Result<Trace, TraceFault>
    requires { HasTrace stage }
    ensures reads { AnswersReading result (at_end number stage) }
    ensures named { IfOk result IsTrace }
{
    match stage {
        ReadingStage::Ended(trace) => Ok(trace),
        ReadingStage::Before => Err(fault_at(number, Stop::Because(Cause::NoHeapLine))),
        ReadingStage::Inside(_trace) => Err(fault_at(number, Stop::Because(Cause::NoEnd))),
    }
}

/// Reads a text: the trace that it names, or the first line that is refused and the number of the
/// first test of that line that fails. The text is gone over once, a line at a time, and memory is
/// taken for the trace alone.
pub fn read_trace(alloc: Global, text: &[u8]) -> Result<Trace, TraceFault>
    requires { length text.now ≤ MAX_INPUT }
    ensures reads { AnswersReading result (reading_of text.now) }
    ensures named { IfOk result IsTrace }
{
    let mut stage = ReadingStage::Before;
    let mut number = 1;
    let mut rest = text;
    while let Some((line, after)) = first_line(rest) {
        if let Err(stop) = stage.read_line(alloc, line) {
            return Err(fault_at(number, stop));
        }
        let Ok((ops, after)) = stage.read_ops(after) else {
            return Err(TraceFault::OutOfMemory);
        };
        number += 1 + ops;
        rest = after;
    }
    whole_trace(stage, number)
}
