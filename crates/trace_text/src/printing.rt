//! The printer: from a trace to its canonical text.

ghost use Rattle.std.specs.Prelude.{◌≡◌, ◌∷◌, ◌++◌, map, IfOk, OnOk};
ghost use Rattle.std.specs.List.{flat_map, join_with_byte};
ghost use Rattle.trace_text.specs.declared.limits.TheConstants.{SPACE};
ghost use Rattle.trace_text.specs.Text.{limit_fields, heap_fields, lane_lines, order_line, canonical_of};
ghost use Rattle.trace_text.specs.Traces.{IsTrace};

use crate::text::Text;
use crate::trace::{Op, OrderRun, Trace};
use std::alloc::{AllocError, Global};

/// Writes the turn limit, where the trace names it.
fn write_limit(text: &mut Text, trace: &Trace) -> Result<(), AllocError>
    ensures { OnOk result (text.new ≡ text.old ++ flat_map (λ field. SPACE ∷ field) (limit_fields trace.now)) }
{
    if trace.named_limit {
        text.number(trace.heap.turn_limit)?;
    }
    Ok(())
}

/// Writes the heap line but for its end: a report has more fields there.
pub fn write_heap(text: &mut Text, trace: &Trace) -> Result<(), AllocError>
    ensures { OnOk result (text.new ≡ text.old ++ join_with_byte SPACE (heap_fields trace.now)) }
{
    text.begin(trace.version.heap_word())?;
    text.number(u64::from(trace.heap.frames))?;
    text.number(u64::from(trace.heap.heaps))?;
    text.number(u64::from(trace.heap.units))?;
    write_limit(text, trace)
}

/// Writes the lines of a lane.
fn write_lane(text: &mut Text, ops: &[Op]) -> Result<(), AllocError>
    ensures { OnOk result (text.new ≡ text.old ++ lane_lines ops.now) }
{
    text.line("lane")?;
    for op in ops {
        op.write(text)?;
    }
    Ok(())
}

/// Writes the lines of the lanes.
fn write_lanes(text: &mut Text, lanes: &[Vec<Op>]) -> Result<(), AllocError>
    ensures { OnOk result (text.new
        ≡ text.old ++ flat_map lane_lines (map (λ ops. ops.items) lanes.now)) }
{
    for ops in lanes {
        write_lane(text, ops)?;
    }
    Ok(())
}

/// Writes the lines of the order runs.
fn write_orders(text: &mut Text, orders: &[OrderRun]) -> Result<(), AllocError>
    ensures { OnOk result (text.new ≡ text.old ++ flat_map order_line orders.now) }
{
    for run in orders {
        text.line_with_two("order", u64::from(run.lane), u64::from(run.steps))?;
    }
    Ok(())
}

/// Prints a trace that a text can name: the one text of it with no comment, no empty line, one space
/// between two fields and a line feed at the end of each line.
#[tactic(auto, unfolding(crate::specs::Text::canonical_of))]
pub fn print_trace(alloc: Global, trace: &Trace) -> Result<Vec<u8>, AllocError>
    requires { IsTrace trace.now }
    ensures { IfOk result (λ text. text.items ≡ canonical_of trace.now) }
{
    let mut text = Text::new(alloc);
    write_heap(&mut text, trace)?;
    text.end_line()?;
    write_lanes(&mut text, trace.lanes.as_slice())?;
    write_orders(&mut text, trace.orders.as_slice())?;
    text.line("end")?;
    Ok(text.into_bytes())
}
