//! Rounds, in each of which all senders send beside each other and the receiver receives beside them.

ghost use Rattle.std.specs.Prelude.{ℕ, ◌≡◌, ◌<◌, ◌≤◌, All, length, slice_index_or};
ghost use Rattle.pipe_runner.specs.Receivers.{IsReceiving};
ghost use Rattle.pipe_runner.specs.Senders.{AreSending, MaySend, SendsUntil};

use crate::receiver::ReceiverThread;
use crate::sender::{MAX_MESSAGES, SenderThread};
use block_pipe::pipe::Pipe;
use edge_io::gate::Gate;
use live_heap::heap::Heap;
use std::sync::Wait;
use std::thread::{Threads, join_mut, yield_now};

/// How many messages a sender sends in a round.
pub const PER_ROUND: u64 = 8;

/// Each sender sends until it has sent so many, on a thread of its own, and the receiver receives beside them.
/// This thread starts one sender after the other and then receives, so that it waits for few of them. It lets others go on
/// before it waits: a sender that shares its processor then ends, and nobody has to wake this thread for it.
#[cycle(beside)]
fn send_beside<R: Threads + Wait + Sync, G: Gate + Sync>(
    rt: &R,
    pipe: &Pipe,
    heap: &Heap,
    gate: &G,
    start: u64,
    until: u64,
    senders: &mut [SenderThread],
    receiver: &mut ReceiverThread,
)
    requires may { All (λ w. MaySend (G.passed gate.now) heap.now pipe.now start until w) senders.old }
    requires receives { IsReceiving heap.now pipe.now receiver.old }
    ensures sent { (i : ℕ) (d : _) → i < length senders.old
        → SendsUntil (G.passed gate.now) heap.now pipe.now start until (slice_index_or senders.old i d) (slice_index_or senders.new i d) }
    ensures receives { IsReceiving heap.now pipe.now receiver.new }
{
    match senders.split_first_mut() {
        None => {
            receiver.receive_all(rt, pipe, heap);
            yield_now();
            receiver.receive_all(rt, pipe, heap);
        }
        Some((first, others)) => {
            send_first(rt, pipe, heap, gate, start, until, first, others, receiver);
        }
    }
}

/// The first of them sends on a thread of its own.
#[cycle(beside)]
fn send_first<R: Threads + Wait + Sync, G: Gate + Sync>(
    rt: &R,
    pipe: &Pipe,
    heap: &Heap,
    gate: &G,
    start: u64,
    until: u64,
    first: &mut SenderThread,
    others: &mut [SenderThread],
    receiver: &mut ReceiverThread,
)
    requires first { MaySend (G.passed gate.now) heap.now pipe.now start until first.old }
    requires others { All (λ w. MaySend (G.passed gate.now) heap.now pipe.now start until w) others.old }
    requires receives { IsReceiving heap.now pipe.now receiver.old }
    ensures first { SendsUntil (G.passed gate.now) heap.now pipe.now start until first.old first.new }
    ensures others { (i : ℕ) (d : _) → i < length others.old
        → SendsUntil (G.passed gate.now) heap.now pipe.now start until (slice_index_or others.old i d) (slice_index_or others.new i d) }
    ensures receives { IsReceiving heap.now pipe.now receiver.new }
{
    let mut send = ||
        requires { MaySend (G.passed gate.now) heap.now pipe.now start until first.now }
        ensures { SendsUntil (G.passed gate.entry.now) heap.entry.now pipe.entry.now start until first.entry.now first.exit.now }
    { first.send_until(rt, pipe, heap, gate, start, until) };
    let mut go_on = ||
        requires { All (λ w. MaySend (G.passed gate.now) heap.now pipe.now start until w) others.now × IsReceiving heap.now pipe.now receiver.now }
        ensures { ((i : ℕ) (d : _) → i < length others.entry.now
            → SendsUntil (G.passed gate.entry.now) heap.entry.now pipe.entry.now start until (slice_index_or others.entry.now i d) (slice_index_or others.exit.now i d))
            × IsReceiving heap.entry.now pipe.entry.now receiver.exit.now }
    { send_beside(rt, pipe, heap, gate, start, until, others, receiver) };
    join_mut(rt, &mut send, &mut go_on);
}

/// A round: all senders go on from so many messages until so many, and the receiver receives beside them. Then it receives
/// what is left, so that no sender of the next round finds a block on its shelf.
fn round<R: Threads + Wait + Sync, G: Gate + Sync>(
    rt: &R,
    pipe: &Pipe,
    heap: &Heap,
    gate: &G,
    start: u64,
    _from: u64,
    until: u64,
    senders: &mut Vec<SenderThread>,
    receiver: &mut ReceiverThread,
)
    requires stands { AreSending (G.passed gate.now) heap.now pipe.now start _from 0 senders.old.items }
    requires until { (_from ≤ until) × (until ≤ MAX_MESSAGES) }
    requires receives { IsReceiving heap.now pipe.now receiver.old }
    ensures stands { AreSending (G.passed gate.now) heap.now pipe.now start until 0 senders.new.items }
    ensures all { length senders.new.items ≡ length senders.old.items }
    ensures receives { IsReceiving heap.now pipe.now receiver.new }
{
    send_beside(
        rt,
        pipe,
        heap,
        gate,
        start,
        until,
        senders.as_mut_slice(),
        receiver,
    );
    receiver.receive_all(rt, pipe, heap);
}

/// All senders send so many messages, in rounds of at most eight.
pub(crate) fn send_in_rounds<R: Threads + Wait + Sync, G: Gate + Sync>(
    rt: &R,
    pipe: &Pipe,
    heap: &Heap,
    gate: &G,
    start: u64,
    messages: u64,
    senders: &mut Vec<SenderThread>,
    receiver: &mut ReceiverThread,
)
    requires stands { AreSending (G.passed gate.now) heap.now pipe.now start 0 0 senders.old.items }
    requires few { messages ≤ MAX_MESSAGES }
    requires receives { IsReceiving heap.now pipe.now receiver.old }
    ensures stands { AreSending (G.passed gate.now) heap.now pipe.now start messages 0 senders.new.items }
    ensures all { length senders.new.items ≡ length senders.old.items }
    ensures receives { IsReceiving heap.now pipe.now receiver.new }
{
    let mut sent = 0u64;
    while sent < messages {
        let until = messages.min(sent + PER_ROUND);
        round(rt, pipe, heap, gate, start, sent, until, senders, receiver);
        sent = until;
    }
}
