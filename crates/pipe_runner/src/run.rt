//! The whole run of a pipeline.

ghost use Rattle.std.specs.Prelude.{ℕ, ◌≡◌, ◌<◌, ◌≤◌, ◌+◌, [], IfOk, length, vec_capacity, slice_index};
ghost use Rattle.heap_geometry.specs.Geometry.{IsChecked};
ghost use Rattle.pipe_runner.specs.Receivers.{IsReceiving};
ghost use Rattle.pipe_runner.specs.Runs.{IsPipeRun, IsReadyToRun, pipe_heap};
ghost use Rattle.pipe_runner.specs.Senders.{AreSending};
ghost use Rattle.pipe_runner.specs.declared.sender.TheConstants.{MAX_MESSAGES};

use crate::closing::{pair_senders, take_apart};
use crate::receiver::ReceiverThread;
use crate::rounds::send_in_rounds;
use crate::row::Row;
use crate::sender::{SHELVES_EACH, SenderThread};
use block_pipe::log::PipeLog;
use block_pipe::pipe::Pipe;
use block_pipe::sender::Sender;
use edge_io::gate::Gate;
use heap_geometry::geometry::Geometry;
use heap_geometry::limits::MAX_TURNS;
use live_heap::closed::Closed;
use live_heap::heap::Heap;
use live_heap::pass::Pass;
use std::alloc::{AllocError, Global};
use std::sync::Wait;
use std::thread::Threads;

/// What a run of a pipeline leaves: its heap, what was pushed and popped, and for each sender the fold
/// over the words that the receiver took of it.
#[derive(Drop)]
pub struct PipeRun {
    pub closed: Closed,
    pub log: PipeLog,
    pub folds: Row,
}

/// The parts of a run before its first message, and room for what its end takes.
struct Parts {
    heap: Heap,
    pipe: Pipe,
    threads: Vec<SenderThread>,
    receiver: ReceiverThread,
    passes: Vec<Pass>,
    ends: Vec<Sender>,
}

/// The numbers of the heap of a pipeline with so many senders: 64 frames, one processor heap and no
/// units, with a caller for each sender and one for the receiver.
fn geometry_for(senders: u8) -> Geometry
    requires { senders ≤ 4 }
    ensures value { result ≡ pipe_heap senders }
    ensures checked { IsChecked result }
{
    Geometry {
        frames: 64,
        heaps: 1,
        units: 0,
        callers: u32::from(senders) + 1,
        turn_limit: MAX_TURNS,
    }
}

/// A new heap and a new pipe, and the threads' parts. All memory is taken here.
fn open_parts<G: Gate>(
    alloc: Global,
    _gate: &G,
    senders: u8,
    _start: u64,
) -> Result<Parts, AllocError>
    requires senders { (1 ≤ senders) × (senders ≤ 4) }
    ensures { IfOk result (IsReadyToRun (G.passed _gate.now) senders _start) }
{
    let mut threads = Vec::with_capacity(alloc, senders as usize)?;
    let done = Vec::with_capacity(alloc, senders as usize + 1)?;
    let back = Vec::with_capacity(alloc, senders as usize)?;
    let (pipe, ends, end) = Pipe::open(alloc, senders, SHELVES_EACH)?;
    let (heap, mut passes) = Heap::open(alloc, geometry_for(senders))?;
    let pass = passes.pop().unwrap();
    pair_senders(&pipe, &heap, _gate, _start, ends, passes, &mut threads);
    let receiver = ReceiverThread {
        pass,
        end,
        counts: Row::new(),
        folds: Row::new(),
    };
    Ok(Parts {
        heap,
        pipe,
        threads,
        receiver,
        passes: done,
        ends: back,
    })
}

/// Runs a pipeline of so many senders, from 1 to 4, each of which sends so many messages, at most 100,000,
/// to one receiver over a new heap. Message `i` of sender `k` passes the gate as `(k, i)` before it is first
/// sent. All memory is taken before a message is sent.
pub fn run_pipe<R: Threads + Wait + Sync, G: Gate + Sync>(
    rt: &R,
    alloc: Global,
    gate: &G,
    senders: u8,
    messages: u64,
    start: u64,
) -> Result<PipeRun, AllocError>
    requires senders { (1 ≤ senders) × (senders ≤ 4) }
    requires messages { messages ≤ MAX_MESSAGES }
    ensures { IfOk result (IsPipeRun (G.passed gate.now) senders messages start) }
{
    let Parts {
        heap,
        pipe,
        mut threads,
        mut receiver,
        mut passes,
        mut ends,
    } = open_parts(alloc, gate, senders, start)?;
    send_in_rounds(
        rt,
        &pipe,
        &heap,
        gate,
        start,
        messages,
        &mut threads,
        &mut receiver,
    );
    receiver.drain(rt, &pipe, &heap, senders, messages);
    take_apart(
        &pipe,
        &heap,
        gate,
        start,
        messages,
        threads,
        &mut passes,
        &mut ends,
    );
    let ReceiverThread {
        pass,
        end,
        counts: _,
        folds,
    } = receiver;
    passes.push_reserved(pass);
    let Ok(closed) = heap.close(alloc, passes) else {
        return Err(AllocError);
    };
    let Ok(log) = pipe.close(rt, alloc, ends, end) else {
        return Err(AllocError);
    };
    Ok(PipeRun { closed, log, folds })
}
