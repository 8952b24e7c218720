//! Runs of the program between edges that fail.

ghost use Rattle.std.specs.Prelude.{◌<◌};

use crate::running::{
    ROOM, Told, failing_sink, failing_source, leaves, next_reads, next_writes, run_between,
    run_from,
};
use edge_io::memory::MemorySink;
use std::alloc::{AllocError, Global};
use std::sync::Wait;
use std::test::Fail;
use std::thread::Threads;

/// How the edges of a run are called: how many bytes the source gives and the sink takes a call, and which call of
/// each fails. Calls are counted from 1, so none fails where that is 0.
#[derive(Clone, Copy)]
pub(crate) struct Edges {
    pub(crate) given: usize,
    pub(crate) failing_read: u64,
    pub(crate) taken: usize,
    pub(crate) failing_write: u64,
}

/// Edges that never fail.
pub(crate) const STEADY: Edges = Edges {
    given: ROOM,
    failing_read: 0,
    taken: ROOM,
    failing_write: 0,
};

/// How a run ends between such edges, and what the sink holds then.
fn run_at<R: Threads + Wait + Sync>(
    rt: &R,
    alloc: Global,
    line: &str,
    input: &[u8],
    edges: Edges,
) -> Result<(Told, MemorySink), AllocError>
    requires given { 0 < edges.given }
    requires taken { 0 < edges.taken }
{
    let sink = failing_sink(alloc, edges.taken, edges.failing_write)?;
    let mut source = failing_source(alloc, input, edges.given, edges.failing_read)?;
    run_from(rt, alloc, line, &mut source, sink)
}

/// A run between such edges ends so, and this stands in its sink. The number tells it from the other runs of a test.
pub(crate) fn leaves_at<R: Threads + Wait + AllocGlobal + Sync>(
    rt: &R,
    number: u64,
    line: &str,
    input: &[u8],
    edges: Edges,
    ends: Told,
    text: &str,
) -> Result<(), Fail>
    requires given { 0 < edges.given }
    requires taken { 0 < edges.taken }
{
    let run = run_at(rt, rt.alloc(), line, input, edges)?;
    leaves(number, &run, ends, text)
}

/// What the source has whose first call fails.
const INPUT: &str = "heap 4 1 2\nend\n";

/// How a run ends that has not called such a source: the call that fails is the test's own, and all bytes are there
/// at the second. `None` where the run has called it.
pub(crate) fn run_unread<R: Threads + Wait + Sync>(
    rt: &R,
    alloc: Global,
    line: &str,
    sink: &mut MemorySink,
) -> Result<Option<Told>, AllocError> {
    let input = INPUT.as_bytes();
    let mut source = failing_source(alloc, input, ROOM, 1)?;
    let told = run_between(rt, alloc, line, &mut source, sink)?;
    let is_unread = next_reads(&mut source) == [None, Some(input.len())];
    Ok(if is_unread { Some(told) } else { None })
}

/// Whether nobody has called a sink whose first call fails: that call is the test's own, and all bytes are taken at
/// the second.
pub(crate) fn is_unwritten(sink: &mut MemorySink) -> bool {
    let piece = INPUT.as_bytes();
    sink.bytes().is_empty() && next_writes(sink, piece) == [None, Some(piece.len())]
}
