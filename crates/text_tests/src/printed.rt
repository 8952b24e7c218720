//! Texts that are read and printed again.

ghost use Rattle.std.specs.Prelude.{◌≤◌, IfOk, length};
ghost use Rattle.trace_text.specs.Traces.{IsTrace};
ghost use Rattle.trace_text.specs.declared.limits.TheConstants.{MAX_INPUT};

use std::alloc::Global;
use std::test::Fail;
use trace_text::printing::print_trace;
use trace_text::reading::read_trace;
use trace_text::trace::Trace;

/// The trace that a text names.
pub fn trace_of(alloc: Global, text: &[u8]) -> Result<Trace, Fail>
    requires { length text.now ≤ MAX_INPUT }
    ensures { IfOk result IsTrace }
{
    Ok(read_trace(alloc, text)?)
}

/// The text of the trace that a text names.
pub fn printed(alloc: Global, text: &[u8]) -> Result<Vec<u8>, Fail>
    requires { length text.now ≤ MAX_INPUT }
{
    let trace = trace_of(alloc, text)?;
    Ok(print_trace(alloc, &trace)?)
}
