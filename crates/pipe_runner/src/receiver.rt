//! The receiver at work.

ghost use Rattle.std.specs.Prelude.{ℕ, ◌≡◌, ◌<◌, ◌≤◌, None, true, IfSome, slice_index};
ghost use Rattle.live_heap.specs.Whole.{IsAtRest};
ghost use Rattle.block_pipe.specs.Ends.{IsReceiver, popped_by};
ghost use Rattle.pipe_runner.specs.Moves.{HasTakenOff};
ghost use Rattle.pipe_runner.specs.Receivers.{Arrives, IsReceiving};

use crate::calls::fold_block;
use crate::row::Row;
use crate::whole::release;
use block_pipe::pipe::Pipe;
use block_pipe::receiver::Receiver;
use block_pipe::receiving::Received;
use live_heap::answers::Taken;
use live_heap::block::Block;
use live_heap::heap::Heap;
use live_heap::pass::Pass;
use std::sync::Wait;
use std::thread;

/// What the receiver's thread works on: its end of the pipe and the pass of its caller; how many blocks it
/// has taken of each sender, and the fold over their words.
#[derive(Drop)]
pub struct ReceiverThread {
    pub(crate) pass: Pass,
    pub(crate) end: Receiver,
    pub(crate) counts: Row,
    pub(crate) folds: Row,
}

/// A block that has come, and its sender.
struct Arrival {
    block: Block,
    sender: u8,
}

/// Takes from a shelf until a block comes.
fn take_until<R: Wait>(rt: &R, heap: &Heap, pass: &mut Pass, shelf: u8) -> Block
    requires rest { IsAtRest heap.now pass.old }
    requires shelf { shelf < 64 }
    ensures { HasTakenOff heap.now pass.old shelf result pass.new }
{
    for _ in rt.forever() {
        match heap.take(pass, shelf) {
            Taken::Got(block) => return block,
            Taken::Empty => thread::yield_now(),
            Taken::Missed { .. } => thread::yield_now(),
        }
    }
    unreachable!()
}

/// Receives the next block, if there is a note. A receive that misses is made again; where no block lies
/// on the note's shelf, it is awaited there; and another block than the note's counts as the note's.
fn receive<R: Wait>(
    rt: &R,
    pipe: &Pipe,
    heap: &Heap,
    pass: &mut Pass,
    end: &mut Receiver,
) -> Option<Arrival>
    requires end { IsReceiver pipe.now end.old × (end.old.kept ≡ None) }
    requires rest { IsAtRest heap.now pass.old }
    requires caller { pass.old.errand.caller ≡ pipe.now.senders }
    ensures end { IsReceiver pipe.now end.new × (end.new.kept ≡ None) }
    ensures nothing { result ≡ None → (pass.new ≡ pass.old) × (popped_by end.new ≡ popped_by end.old) }
    ensures got { IfSome result (λ arrival. Arrives heap.now pipe.now end.old pass.old arrival end.new pass.new) }
{
    for _ in rt.forever() {
        match end.recv(rt, pipe, heap, pass) {
            Received::Got { block, sender, .. } => return Some(Arrival { block, sender }),
            Received::Nothing => return None,
            Received::Other { block, note } => {
                return Some(Arrival {
                    block,
                    sender: note.sender,
                });
            }
            Received::Gone { note } => {
                let block = take_until(rt, heap, pass, note.shelf);
                return Some(Arrival {
                    block,
                    sender: note.sender,
                });
            }
            Received::Missed { .. } => thread::yield_now(),
        }
    }
    unreachable!()
}

impl ReceiverThread {
    /// Receives the next block, if there is a note, folds its words, and frees it.
    fn receive_one<R: Wait>(&mut self, rt: &R, pipe: &Pipe, heap: &Heap) -> bool
        requires { IsReceiving heap.now pipe.now self.old }
        ensures { IsReceiving heap.now pipe.now self.new }
    {
        match receive(rt, pipe, heap, &mut self.pass, &mut self.end) {
            None => false,
            Some(Arrival { block, sender }) => {
                let fold = fold_block(heap, &mut self.pass, &block, self.folds.of(sender));
                self.folds.set(sender, fold);
                self.counts.set(sender, self.counts.of(sender) + 1);
                release(rt, heap, &mut self.pass, block);
                true
            }
        }
    }

    /// Receives what is there.
    pub(crate) fn receive_all<R: Wait>(&mut self, rt: &R, pipe: &Pipe, heap: &Heap)
        requires { IsReceiving heap.now pipe.now self.old }
        ensures { IsReceiving heap.now pipe.now self.new }
    {
        for _ in rt.forever() {
            if !self.receive_one(rt, pipe, heap) {
                return;
            }
        }
    }

    /// Whether it has received so many blocks of each sender.
    fn has_all(&self, senders: u8, messages: u64) -> bool
        requires { senders ≤ 4 }
        ensures { result ≡ true → (k : ℕ) → k < senders → slice_index self.now.counts.numbers k ≡ messages }
    {
        for sender in 0..senders {
            if self.counts.of(sender) != messages {
                return false;
            }
        }
        true
    }

    /// Receives until it has so many blocks of each sender.
    pub(crate) fn drain<R: Wait>(
        &mut self,
        rt: &R,
        pipe: &Pipe,
        heap: &Heap,
        senders: u8,
        messages: u64,
    )
        requires stands { IsReceiving heap.now pipe.now self.old }
        requires senders { (senders ≡ pipe.now.senders) × (senders ≤ 4) }
        ensures stands { IsReceiving heap.now pipe.now self.new }
        ensures all { (k : ℕ) → k < senders → slice_index self.new.counts.numbers k ≡ messages }
    {
        for _ in rt.forever() {
            if self.has_all(senders, messages) {
                return;
            }
            let _ = self.receive_one(rt, pipe, heap);
        }
    }
}
