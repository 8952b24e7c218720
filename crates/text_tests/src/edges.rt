//! Each edge in a run of calls, through its trait.

use edge_io::faults::Failed;
use edge_io::gate::{Gate, NoGate};
use edge_io::memory::{MemorySink, MemorySource};
use edge_io::real::{StdSink, StdSource};
use edge_io::sink::Sink;
use edge_io::source::Source;
use edge_io::steady::SteadySource;
use std::io;
use std::process::Abort;
use std::test::Fail;

const TEXT: &[u8] = b"abcdefg";

/// What a read into a buffer of four bytes gives, `None` for a failure.
fn read_four<'a, S: Source>(source: &mut S, buffer: &'a mut [u8; 4]) -> Option<&'a [u8]> {
    match source.read(buffer) {
        Ok(n) => Some(&buffer[..n]),
        Err(Failed) => None,
    }
}

/// The reads of a source into buffers of four bytes give these pieces, `None` for a failure.
fn gives<R: Abort + AllocGlobal, S: Source>(rt: &R, source: &mut S, pieces: &[Option<&[u8]>]) {
    for piece in pieces {
        assert_eq!(rt; read_four(source, &mut [0; 4]), *piece);
    }
}

/// The writes of a sink, each of what the ones before it left of the text, take so many bytes, `None` for a
/// failure.
fn takes<R: Abort + AllocGlobal, K: Sink>(rt: &R, sink: &mut K, counts: &[Option<usize>]) {
    let mut rest = TEXT;
    for count in counts {
        let taken = sink.write(rest).ok();
        assert_eq!(rt; taken, *count);
        if let Some(n) = taken {
            rest = &rest[n..];
        }
    }
}

/// Passes a gate that threads may share.
fn pass_once<G: Gate + Sync>(gate: &G) {
    gate.pass(0, 0);
}

/// A reader that fails at first, and then gives the text.
#[derive(Drop)]
struct Interrupted {
    is_over: bool,
}

impl io::Read for Interrupted {
    fn read(&mut self, buf: &mut [u8]) -> io::Result<usize> {
        if !self.is_over {
            self.is_over = true;
            return Err(io::Error::from(io::ErrorKind::Interrupted));
        }
        let mut text = TEXT;
        text.read(buf)
    }
}

/// A writer that takes nothing.
#[derive(Drop)]
struct Stuck;

impl io::Write for Stuck {
    fn write(&mut self, _buf: &[u8]) -> io::Result<usize> {
        Ok(0)
    }

    fn flush(&mut self) -> io::Result<()> {
        Ok(())
    }
}

/// A writer that takes all and fails to flush it.
#[derive(Drop)]
struct Unflushed;

impl io::Write for Unflushed {
    fn write(&mut self, buf: &[u8]) -> io::Result<usize> {
        Ok(buf.len())
    }

    fn flush(&mut self) -> io::Result<()> {
        Err(io::Error::from(io::ErrorKind::BrokenPipe))
    }
}

#[test]
fn sources_in_memory(rt: HostRuntime) -> Result<(), Fail> {
    gives(
        &rt,
        &mut SteadySource::new(TEXT.to_vec(rt.alloc())?),
        &[Some(b"abcd"), Some(b"efg"), Some(b""), Some(b"")],
    );

    let failing = [2, 5].to_vec(rt.alloc())?;
    let mut memory = MemorySource::new(TEXT.to_vec(rt.alloc())?, 3, failing);
    gives(
        &rt,
        &mut memory,
        &[
            Some(b"abc"),
            None,
            Some(b"def"),
            Some(b"g"),
            None,
            Some(b""),
        ],
    );
    Ok(())
}

#[test]
fn sink_in_memory(rt: HostRuntime) -> Result<(), Fail> {
    let failing = [2].to_vec(rt.alloc())?;
    let mut sink = MemorySink::new(rt.alloc(), 5, 2, failing)?;
    takes(
        &rt,
        &mut sink,
        &[Some(2), None, Some(2), Some(1), None, None],
    );
    assert_eq!(rt; sink.bytes(), b"abcde".as_slice());
    Ok(())
}

#[test]
fn edges_over_std(rt: HostRuntime) {
    gives(
        &rt,
        &mut StdSource::new(TEXT),
        &[Some(b"abcd"), Some(b"efg"), Some(b"")],
    );
    let interrupted = Interrupted { is_over: false };
    gives(
        &rt,
        &mut StdSource::new(interrupted),
        &[None, Some(b"abcd")],
    );

    let mut taken = Vec::new(rt.alloc());
    takes(&rt, &mut StdSink::new(&mut taken), &[Some(7), Some(0)]);
    assert_eq!(rt; taken.as_slice(), TEXT);
    takes(&rt, &mut StdSink::new(Stuck), &[None, None]);
    takes(&rt, &mut StdSink::new(Unflushed), &[None]);
}

#[test]
fn no_gate() {
    pass_once(&NoGate);
}
