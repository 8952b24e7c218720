//! The edges over a reader and a writer of std. They tell no bytes.

ghost use Rattle.std.specs.Prelude.{◌≡◌, ◌<◌, ◌≤◌, length, None, IfOk, OnErr};
ghost use Rattle.std.specs.Io.KnownBytes.{ReadConsumes};
ghost use Rattle.edge_io.specs.Faults.{FaultsRose, faults_after};
ghost use Rattle.edge_io.specs.Real.{WritesFront, read_faults, reader_of, write_faults, writer_of};

use crate::faults::{Failed, count_fault};
use crate::sink::Sink;
use crate::source::Source;
use std::io::{Read, Write};

/// A source over a reader of std, each of whose errors is a fault.
#[derive(Drop)]
pub struct StdSource<R> {
    reader: R,
    faults: u64,
}

impl<R> StdSource<R> {
    pub fn new(reader: R) -> StdSource<R>
        ensures reader { reader_of result ≡ reader }
        ensures faults { read_faults result ≡ 0 }
    {
        StdSource { reader, faults: 0 }
    }
}

impl<R: Read> Source for StdSource<R> {
    ghost left = { λ _. None };

    ghost faults = { λ s. s.faults };

    ghost gave = { λ old _ outcome new. read_faults new ≡ faults_after (read_faults old) outcome };

    fn read(&mut self, buf: &mut [u8]) -> Result<usize, Failed>
        ensures within { IfOk result (λ n. n ≤ length buf.new) }
        ensures never_falls { read_faults self.old ≤ read_faults self.new }
        ensures cause { OnErr result (FaultsRose (read_faults self.old) (read_faults self.new)) }
        ensures faults { read_faults self.new ≡ faults_after (read_faults self.old) result }

        // Where the reader's bytes are known, a read gives the first of them, and an error takes none.
        ensures bytes { ReadConsumes (R.remaining (reader_of self.old))
            (R.remaining (reader_of self.new)) result buf.new }
    {
        let outcome = self.reader.read(buf).map_err(|_| Failed);
        count_fault(&mut self.faults, &outcome);
        outcome
    }
}

/// A sink over a writer of std, which is flushed after each write. A fault is each error of a write or
/// a flush, and each write that takes nothing of a piece that isn't empty. After a fault the writer may
/// have taken a front of the piece.
#[derive(Drop)]
pub struct StdSink<W> {
    writer: W,
    faults: u64,
}

impl<W> StdSink<W> {
    pub fn new(writer: W) -> StdSink<W>
        ensures writer { writer_of result ≡ writer }
        ensures faults { write_faults result ≡ 0 }
    {
        StdSink { writer, faults: 0 }
    }
}

impl<W: Write> Sink for StdSink<W> {
    ghost holds = { λ _. None };

    ghost faults = { λ s. s.faults };

    ghost wrote = { λ old _ outcome new. write_faults new ≡ faults_after (write_faults old) outcome };

    fn write(&mut self, piece: &[u8]) -> Result<usize, Failed>
        ensures within { IfOk result (λ n. n ≤ length piece.now) }
        ensures progress { 0 < length piece.now → IfOk result (λ n. 0 < n) }
        ensures never_falls { write_faults self.old ≤ write_faults self.new }
        ensures cause { OnErr result (FaultsRose (write_faults self.old) (write_faults self.new)) }
        ensures faults { write_faults self.new ≡ faults_after (write_faults self.old) result }

        // Where the writer's bytes are known, they grow by those that were taken.
        ensures bytes { WritesFront (W.contents (writer_of self.old))
            (W.contents (writer_of self.new)) result piece.now }
    {
        let outcome = write_and_flush(&mut self.writer, piece);
        count_fault(&mut self.faults, &outcome);
        outcome
    }
}

/// Writes a front of the piece, at least one byte of a piece that isn't empty, and flushes it.
fn write_and_flush<W: Write>(writer: &mut W, piece: &[u8]) -> Result<usize, Failed>
    ensures within { IfOk result (λ n. n ≤ length piece.now) }
    ensures progress { 0 < length piece.now → IfOk result (λ n. 0 < n) }
    ensures bytes { WritesFront (W.contents writer.old) (W.contents writer.new) result piece.now }
{
    let n = writer.write(piece).map_err(|_| Failed)?;
    if n == 0 && !piece.is_empty() {
        return Err(Failed);
    }
    writer.flush().map_err(|_| Failed)?;
    Ok(n)
}
