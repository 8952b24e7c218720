//! A program of two threads with a pipe between them: one sends a word in a block of the heap, and the other
//! receives the block, reads the word and frees the block. The heap's rule says that what lies on a shelf begins with
//! that word. So whoever takes it has the word: no history is asked, and the heap is open still.

ghost use Rattle.std.specs.Prelude.{◌≡◌, ◌<◌, ◌^◌, None, IfOk, IfSome};
ghost use Rattle.block_pipe.specs.Ends.{IsReceiver, IsSender};
ghost use Rattle.live_heap.specs.Whole.{IsAtRest};

use crate::pipes::TWO_CALLERS;
use block_pipe::pipe::Pipe;
use block_pipe::receiver::Receiver;
use block_pipe::receiving::Received;
use block_pipe::sender::Sender;
use live_heap::answers::AllocAnswer;
use live_heap::heap::Heap;
use live_heap::laws::blocks::given_blocks_have_enough_words;
use live_heap::laws::passes_keep_their_blocks;
use live_heap::laws::words::written_words_stay;
use live_heap::pass::Pass;
use live_heap::shelves::ShelfRule;
use std::alloc::{AllocError, Global};
use std::marker::{Brand, PhantomData};
use std::sync::Wait;
use std::thread;
use std::thread::Threads;

/// How often a call may lose an exchange before the program gives it up.
const TRIES: u32 = 1000;

/// The word that is on its way. The call that opens the heap names it for the proof.
pub trait Carried {
    ghost use Rattle.std.specs.Prelude.{ℕ};

    ghost word: { ℕ };
}

impl Carried for Brand {
    ghost word = { 0 };
}

/// What lies on a shelf begins with the word that is on its way.
pub struct BeginsWith<C> {
    word: PhantomData<C>,
}

impl<C: Carried> ShelfRule for BeginsWith<C> {
    ghost use Rattle.worked_programs.specs.Relay.{begins_with};

    ghost allows = { begins_with C.word };
}

/// Sends the word in a block, and waits until the note of that is in the queue.
fn give<R: Wait, C: Carried>(
    rt: &R,
    pipe: &Pipe,
    heap: &Heap<BeginsWith<C>>,
    mut sender: Sender,
    mut pass: Pass,
    word: u64,
) -> Sender
    requires sender { IsSender pipe.now sender × (sender.pending ≡ None) × (sender.sent < 2 ^ 60) }
    requires pass { IsAtRest heap.now pass × (pass.errand.caller ≡ sender.number) }
    requires word { word ≡ C.word }
    ensures { IsSender pipe.now result × (result.pending ≡ None) }
{
    given_blocks_have_enough_words();
    passes_keep_their_blocks();
    written_words_stay();
    let AllocAnswer::Given(block) = heap.alloc(&mut pass, 1, TRIES) else {
        return sender;
    };
    heap.write(&mut pass, &block, 0, word);
    let _ = sender.send(rt, pipe, heap, &mut pass, block);
    for _ in rt.forever() {
        if sender.flush(rt, pipe) {
            return sender;
        }
    }
    unreachable!()
}

/// Waits for a block, and answers its first word, which is the one that was sent.
fn take<R: Wait, C: Carried>(
    rt: &R,
    pipe: &Pipe,
    heap: &Heap<BeginsWith<C>>,
    mut receiver: Receiver,
    mut pass: Pass,
) -> (Receiver, Option<u64>)
    requires receiver { IsReceiver pipe.now receiver }
    requires pass { IsAtRest heap.now pass × (pass.errand.caller ≡ pipe.now.senders) }
    ensures receiver { IsReceiver pipe.now result.0 }
    ensures word { IfSome result.1 (λ got. got ≡ C.word) }
{
    passes_keep_their_blocks();
    written_words_stay();
    for _ in rt.forever() {
        match receiver.recv(rt, pipe, heap, &mut pass) {
            Received::Nothing | Received::Missed { .. } => {}
            Received::Gone { .. } | Received::Other { .. } => return (receiver, None),
            Received::Got { block, .. } => {
                let word = heap.read(&mut pass, &block, 0);
                let _ = heap.free(&mut pass, block, TRIES);
                return (receiver, Some(word));
            }
        }
    }
    unreachable!()
}

/// Hands the word from one thread to another: an answer is that word.
pub fn relay<R: Threads + Wait + Sync>(
    rt: &R,
    alloc: Global,
    word: u64,
) -> Result<Option<u64>, AllocError>
    ensures { IfOk result (λ told. IfSome told (λ got. got ≡ word)) }
{
    carry::<R, Brand>(rt, alloc, word)
}

/// The same, for the word that `C` names for the proof. It is answered where a note of it was pushed and popped.
fn carry<R: Threads + Wait + Sync, C: Carried + Send + Sync>(
    rt: &R,
    alloc: Global,
    word: u64,
) -> Result<Option<u64>, AllocError>
    requires { word ≡ C.word }
    ensures { IfOk result (λ told. IfSome told (λ got. got ≡ C.word)) }
{
    let (heap, mut passes): (Heap<BeginsWith<C>>, Vec<Pass>) = Heap::open_with_rule(
        alloc,
        TWO_CALLERS,
    )?;
    let (pipe, mut senders, receiver) = Pipe::open(alloc, 1, 1)?;
    let giver = passes.remove(0);
    let taker = passes.remove(0);
    let sender = senders.remove(0);
    let (line, shared) = (&pipe, &heap);
    let (sender, (receiver, got)) = thread::join(
        rt,
        move ||
            requires { IsSender line.now sender × (sender.pending ≡ None) × (sender.sent < 2 ^ 60)
                × IsAtRest shared.now giver × (giver.errand.caller ≡ sender.number) × (word ≡ C.word) }
            ensures { IsSender line.entry.now result × (result.pending ≡ None) }
        { give(rt, line, shared, sender, giver, word) },
        move ||
            requires { IsReceiver line.now receiver × IsAtRest shared.now taker × (taker.errand.caller ≡ line.now.senders) }
            ensures { IsReceiver line.entry.now result.0 × IfSome result.1 (λ got. got ≡ C.word) }
        { take(rt, line, shared, receiver, taker) },
    );
    let mut ends = Vec::with_capacity(alloc, 1)?;
    ends.push_reserved(sender);
    if receiver.keeps() {
        return Ok(None);
    }
    match pipe.close(rt, alloc, ends, receiver) {
        Ok(log) if log.sent(0) == 1 && log.taken(0) == 1 => Ok(got),
        _ => Ok(None),
    }
}
