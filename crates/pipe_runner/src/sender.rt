//! A sender at work.

ghost use Rattle.std.specs.Prelude.{◌≡◌, ◌<◌, ◌≤◌, ◌+◌, ◌++◌, ◌∷◌, ◌^◌, ◌%◌, ◌*◌, [], None};
ghost use Rattle.live_heap.specs.Passes.{Owns};
ghost use Rattle.live_heap.specs.Whole.{IsAtRest};
ghost use Rattle.block_pipe.specs.Answers.{note_of};
ghost use Rattle.block_pipe.specs.Ends.{IsSender, pending_of, pushed_by};
ghost use Rattle.block_pipe.specs.Notes.{shelf_for};
ghost use Rattle.pipe_runner.specs.Messages.{first_word};
ghost use Rattle.pipe_runner.specs.Moves.{HasHandedOver};
ghost use Rattle.pipe_runner.specs.Senders.{IsSending};

use crate::calls::{allocate, write_message};
use block_pipe::pipe::Pipe;
use block_pipe::sender::Sender;
use block_pipe::sending::Sent;
use edge_io::gate::Gate;
use live_heap::block::Block;
use live_heap::heap::Heap;
use live_heap::pass::Pass;
use std::sync::Wait;
use std::thread;

/// How many shelves each sender has.
pub const SHELVES_EACH: u8 = 8;

/// How many messages a sender sends at most.
pub const MAX_MESSAGES: u32 = 100_000;

/// What a sender's thread works on: its end of the pipe, and the pass of its caller.
#[derive(Drop)]
pub struct SenderThread {
    pub(crate) pass: Pass,
    pub(crate) end: Sender,
    /// What keeps it apart from what lies behind it in memory: another sender's, which its own thread writes.
    pub(crate) rest: [u64; 16],
}

/// Pushes the note that is pending, if there is one, as often as the queue is found full.
fn flush_out<R: Wait>(rt: &R, pipe: &Pipe, end: &mut Sender)
    requires { IsSender pipe.now end.old }
    ensures end { IsSender pipe.now end.new × (end.new.number ≡ end.old.number) × (end.new.pending ≡ None) }
    ensures pushed { pushed_by end.new ≡ pushed_by end.old ++ pending_of end.old }
{
    for _ in rt.forever() {
        if end.flush(rt, pipe) {
            return;
        }
        thread::yield_now();
    }
    unreachable!()
}

/// Sends a block. Where its shelf holds one already the same call is made again.
fn hand_over<R: Wait>(
    rt: &R,
    pipe: &Pipe,
    heap: &Heap,
    pass: &mut Pass,
    end: &mut Sender,
    block: Block,
)
    requires end { IsSender pipe.now end.old × (end.old.pending ≡ None) }
    requires few { end.old.sent < 2 ^ 60 }
    requires rest { IsAtRest heap.now pass.old }
    requires caller { pass.old.errand.caller ≡ end.old.number }
    requires owned { Owns pass.old block }
    ensures end { IsSender pipe.now end.new × (end.new.number ≡ end.old.number) × (end.new.pending ≡ None) }
    ensures pushed { pushed_by end.new ≡ pushed_by end.old ++ note_of pipe.now end.old.number end.old.sent block.place ∷ [] }
    ensures put { HasHandedOver heap.now pass.old block (shelf_for pipe.now.shelves end.old.number end.old.sent) pass.new }
{
    let mut left = block;
    for _ in rt.forever() {
        match end.send(rt, pipe, heap, pass, left) {
            Sent::Sent => return,
            Sent::QueueFull => {
                flush_out(rt, pipe, end);
                return;
            }
            Sent::ShelfFull { block, .. } => left = block,
        }
        thread::yield_now();
    }
    unreachable!()
}

/// The first word of a sender's message.
fn first_of(start: u64, sender: u32, message: u64) -> u64
    requires { (sender < 4) × (message < MAX_MESSAGES) }
    ensures { result ≡ first_word start sender message }
{
    start.wrapping_add(1000 * u64::from(sender) + message)
}

impl SenderThread {
    /// A sender's thread works on these.
    pub(crate) fn of(pass: Pass, end: Sender) -> SenderThread
        ensures { (result.pass ≡ pass) × (result.end ≡ end) }
    {
        SenderThread {
            pass,
            end,
            rest: [0; 16],
        }
    }

    /// Sends its next message, which passes the gate first.
    fn send_message<R: Wait, G: Gate>(
        &mut self,
        rt: &R,
        pipe: &Pipe,
        heap: &Heap,
        gate: &G,
        start: u64,
    )
        requires stands { IsSending (G.passed gate.now) heap.now pipe.now start self.old.end.sent self.old }
        requires few { self.old.end.sent < MAX_MESSAGES }
        ensures stands { IsSending (G.passed gate.now) heap.now pipe.now start (self.old.end.sent + 1) self.new }
        ensures number { self.new.end.number ≡ self.old.end.number }
    {
        let message = self.end.sent();
        let caller = self.pass.caller();
        gate.pass(caller, message as u32);
        let block = allocate(rt, heap, &mut self.pass);
        write_message(
            heap,
            &mut self.pass,
            &block,
            first_of(start, caller, message),
        );
        hand_over(rt, pipe, heap, &mut self.pass, &mut self.end, block);
    }

    /// Sends messages until so many are sent.
    pub(crate) fn send_until<R: Wait, G: Gate>(
        &mut self,
        rt: &R,
        pipe: &Pipe,
        heap: &Heap,
        gate: &G,
        start: u64,
        until: u64,
    )
        requires stands { IsSending (G.passed gate.now) heap.now pipe.now start self.old.end.sent self.old }
        requires until { (self.old.end.sent ≤ until) × (until ≤ MAX_MESSAGES) }
        ensures stands { IsSending (G.passed gate.now) heap.now pipe.now start until self.new }
        ensures number { self.new.end.number ≡ self.old.end.number }
    {
        while self.end.sent() < until {
            self.send_message(rt, pipe, heap, gate, start);
        }
    }
}
