//! Runs of the program over edges in memory.

ghost use Rattle.std.specs.Prelude.{◌<◌};

use edge_io::gate::{Gate, NoGate};
use edge_io::memory::{MemorySink, MemorySource};
use edge_io::sink::Sink;
use edge_io::source::Source;
use edge_io::steady::SteadySource;
use std::alloc::{AllocError, Global};
use std::sync::Wait;
use std::test::Fail;
use std::thread::Threads;
use trace_commands::closing::Closing;
use trace_commands::run::{Ended, run};

/// More bytes than any answer here has.
pub const ROOM: usize = 32_768;

/// What a run leaves of its heap.
#[derive(Clone, Copy, Debug, PartialEq, Eq)]
pub enum Left {
    Nothing,
    /// The heap that threads have shared.
    Shared,
    /// The machine that was stepped.
    Machine,
}

/// The status that a run ends with, and what it leaves.
pub type Told = (u8, Left);

fn told_of(ended: &Ended) -> Told {
    let left = match &ended.closed {
        None => Left::Nothing,
        Some(Closing::Ran(_) | Closing::Piped(_)) => Left::Shared,
        Some(Closing::Stepped(_)) => Left::Machine,
    };
    (ended.status, left)
}

/// The words of a command line.
fn words_of(alloc: Global, line: &str) -> Result<Vec<String>, AllocError> {
    let mut words = Vec::new(alloc);
    for word in line.split_whitespace() {
        words.push(word.to_string(alloc)?)?;
    }
    Ok(words)
}

/// A source that gives these bytes and never fails.
pub fn steady_source(alloc: Global, bytes: &[u8]) -> Result<SteadySource, AllocError> {
    Ok(SteadySource::new(bytes.to_vec(alloc)?))
}

/// A source that gives these bytes, so many a call, and fails at this one.
pub fn failing_source(
    alloc: Global,
    bytes: &[u8],
    chunk: usize,
    call: u64,
) -> Result<MemorySource, AllocError>
    requires { 0 < chunk }
{
    let bytes = bytes.to_vec(alloc)?;
    Ok(MemorySource::new(bytes, chunk, vec![in alloc; call]?))
}

/// A sink that takes any answer in one write.
pub fn wide_sink(alloc: Global) -> Result<MemorySink, AllocError> {
    MemorySink::new(alloc, ROOM, ROOM, Vec::new(alloc))
}

/// A sink that takes so many bytes a call, and fails at this one.
pub fn failing_sink(alloc: Global, chunk: usize, call: u64) -> Result<MemorySink, AllocError>
    requires { 0 < chunk }
{
    MemorySink::new(alloc, ROOM, chunk, vec![in alloc; call]?)
}

/// What the next two reads of a source answer, `None` for a failure.
pub fn next_reads<S: Source>(source: &mut S) -> [Option<usize>; 2] {
    let mut buffer = [0; ROOM];
    [source.read(&mut buffer).ok(), source.read(&mut buffer).ok()]
}

/// What the next two writes of this piece answer, `None` for a failure.
pub fn next_writes<K: Sink>(sink: &mut K, piece: &[u8]) -> [Option<usize>; 2] {
    [sink.write(piece).ok(), sink.write(piece).ok()]
}

/// How the program ends on this command line between these edges, where operations pass this gate.
pub fn run_through<R: Threads + Wait + Sync, S: Source, G: Gate + Sync>(
    rt: &R,
    alloc: Global,
    line: &str,
    source: &mut S,
    sink: &mut MemorySink,
    gate: &G,
) -> Result<Told, AllocError> {
    let words = words_of(alloc, line)?;
    let ended = run(rt, alloc, words.as_slice(), source, sink, gate);
    Ok(told_of(&ended))
}

/// How the program ends on this command line between these edges.
pub fn run_between<R: Threads + Wait + Sync, S: Source>(
    rt: &R,
    alloc: Global,
    line: &str,
    source: &mut S,
    sink: &mut MemorySink,
) -> Result<Told, AllocError> {
    run_through(rt, alloc, line, source, sink, &NoGate)
}

/// How the program ends on this command line and this source, and what the sink holds then.
pub fn run_from<R: Threads + Wait + Sync, S: Source>(
    rt: &R,
    alloc: Global,
    line: &str,
    source: &mut S,
    mut sink: MemorySink,
) -> Result<(Told, MemorySink), AllocError> {
    let told = run_between(rt, alloc, line, source, &mut sink)?;
    Ok((told, sink))
}

/// How the program ends on this command line and input, and what it writes.
pub fn run_on<R: Threads + Wait + Sync>(
    rt: &R,
    alloc: Global,
    line: &str,
    input: &str,
) -> Result<(Told, MemorySink), AllocError> {
    let mut source = steady_source(alloc, input.as_bytes())?;
    run_from(rt, alloc, line, &mut source, wide_sink(alloc)?)
}

/// A run ended so, and its sink holds this text; or what it came to is told. The number tells it from the
/// other runs of a test.
pub fn leaves(
    number: u64,
    (told, sink): &(Told, MemorySink),
    ends: Told,
    text: &str,
) -> Result<(), Fail> {
    let came = (*told, sink.bytes());
    if came == (ends, text.as_bytes()) {
        return Ok(());
    }
    Err(Fail::new(format_args!("at {number}: {came:?}")))
}

/// The program ends so on this command line and input, and writes this text; or what it came to is told.
pub fn writes<R: Threads + Wait + AllocGlobal + Sync>(
    rt: &R,
    line: &str,
    input: &str,
    ends: Told,
    text: &str,
) -> Result<(), Fail> {
    let (told, sink) = run_on(rt, rt.alloc(), line, input)?;
    let came = (told, sink.bytes());
    if came == (ends, text.as_bytes()) {
        return Ok(());
    }
    Err(Fail::new(format_args!("{line}: {input}: {came:?}")))
}

/// The program, run by this command, ends so on each of these inputs, and writes the text that stands beside it.
pub(crate) fn all_are_written<R: Threads + Wait + AllocGlobal + Sync>(
    rt: &R,
    line: &str,
    ends: Told,
    cases: &[(&str, &str)],
) -> Result<(), Fail> {
    for (input, text) in cases {
        writes(rt, line, input, ends, text)?;
    }
    Ok(())
}
