//! The threads' parts, put together before a run and taken apart behind it.

ghost use Rattle.std.specs.Prelude.{◌≡◌, ◌≤◌, [], length, vec_capacity};
ghost use Rattle.live_heap.specs.Passes.{AreFrom};
ghost use Rattle.block_pipe.specs.Ends.{AreNewFrom};
ghost use Rattle.pipe_runner.specs.Runs.{AreDone};
ghost use Rattle.pipe_runner.specs.Senders.{AreSending};
ghost use Rattle.pipe_runner.specs.declared.sender.TheConstants.{SHELVES_EACH};

use crate::sender::SenderThread;
use block_pipe::pipe::Pipe;
use block_pipe::sender::Sender;
use edge_io::gate::Gate;
use live_heap::heap::Heap;
use live_heap::pass::Pass;

/// Gives each sender the pass of its caller, the last sender first.
pub(crate) fn pair_senders<G: Gate>(
    _pipe: &Pipe,
    _heap: &Heap,
    _gate: &G,
    _start: u64,
    mut ends: Vec<Sender>,
    mut passes: Vec<Pass>,
    threads: &mut Vec<SenderThread>,
)
    requires shelves { _pipe.now.shelves ≡ SHELVES_EACH }
    requires ends { AreNewFrom _pipe.now 0 ends.items }
    requires passes { AreFrom _heap.now 0 passes.items × (length passes.items ≡ length ends.items) }
    requires room { (threads.old.items ≡ []) × (length ends.items ≤ vec_capacity threads.old) }
    ensures stands { AreSending (G.passed _gate.now) _heap.now _pipe.now _start 0 0 threads.new.items }
    ensures all { length threads.new.items ≡ length ends.items }
{
    while let Some(end) = ends.pop() {
        let pass = passes.pop().unwrap();
        threads.push_reserved(SenderThread::of(pass, end));
    }
}

/// Takes the passes and the ends back, those of sender 0 first.
pub(crate) fn take_apart<G: Gate>(
    _pipe: &Pipe,
    _heap: &Heap,
    _gate: &G,
    _start: u64,
    _messages: u64,
    mut threads: Vec<SenderThread>,
    passes: &mut Vec<Pass>,
    ends: &mut Vec<Sender>,
)
    requires threads { AreSending (G.passed _gate.now) _heap.now _pipe.now _start _messages 0 threads.items }
    requires passes { (passes.old.items ≡ []) × (length threads.items ≤ vec_capacity passes.old) }
    requires ends { (ends.old.items ≡ []) × (length threads.items ≤ vec_capacity ends.old) }
    ensures done { AreDone (G.passed _gate.now) _heap.now _pipe.now _start _messages 0 passes.new.items ends.new.items }
    ensures all { length passes.new.items ≡ length threads.items }
    ensures room { vec_capacity passes.new ≡ vec_capacity passes.old }
{
    while let Some(thread) = threads.pop() {
        let SenderThread { pass, end, rest: _ } = thread;
        passes.push_reserved(pass);
        ends.push_reserved(end);
    }
}
