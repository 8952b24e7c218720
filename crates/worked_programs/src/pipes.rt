//! A pipe with one sender, which has one shelf, between the two passes of a heap: what is asked of it, and
//! what that comes to.

ghost use Rattle.std.specs.Prelude.{IfOk};
ghost use Rattle.worked_programs.specs.Pipes.{IsLine};

use block_pipe::log::PipeLog;
use block_pipe::pipe::Pipe;
use block_pipe::receiver::Receiver;
use block_pipe::receiving::Received;
use block_pipe::sender::Sender;
use block_pipe::sending::Sent;
use heap_geometry::geometry::Geometry;
use live_heap::answers::{AllocAnswer, Taken};
use live_heap::block::Block;
use live_heap::heap::Heap;
use live_heap::pass::Pass;
use std::alloc::{AllocError, Global};
use std::sync::Wait;

/// A heap with two callers, a pipe with one sender and one shelf, and the block that the sender's pass has
/// in hand.
#[derive(Drop)]
pub struct Line {
    heap: Heap,
    pipe: Pipe,
    giver: Pass,
    sender: Sender,
    taker: Pass,
    receiver: Receiver,
    block: Option<Block>,
}

/// A heap of four frames for two callers.
pub const TWO_CALLERS: Geometry = Geometry {
    frames: 4,
    heaps: 1,
    units: 0,
    callers: 2,
    turn_limit: 100,
};

/// What is asked.
#[derive(Clone, Copy, Debug)]
pub enum Ask {
    /// The sender's pass allocates a block of three words.
    Allocate,
    Send,
    Flush,
    Receive,
    /// The receiver's pass takes from shelf 0 without a note.
    Take,
}

/// What it comes to.
#[derive(Clone, Copy, Debug, PartialEq, Eq)]
pub enum Came {
    /// A block lies at this place.
    At(u32),
    Sent,
    /// The shelf held a block, with this word.
    Full(u64),
    /// The queue was full.
    Queued,
    Flushed(bool),
    /// A block came: its place, and its sender's number and its own.
    Got(u32, u8, u64),
    Nothing,
    /// No block lay there for the note of this number.
    Gone(u64),
    /// A block lay at the one place, and the note names the other.
    Other(u32, u32),
}

impl Line {
    /// Nothing has happened.
    pub fn open(alloc: Global) -> Result<Line, AllocError>
        ensures { IfOk result (λ line. IsLine line) }
    {
        let (heap, mut passes) = Heap::open(alloc, TWO_CALLERS)?;
        let (pipe, mut senders, receiver) = Pipe::open(alloc, 1, 1)?;
        let giver = passes.remove(0);
        let taker = passes.remove(0);
        let sender = senders.remove(0);
        Ok(Line {
            heap,
            pipe,
            giver,
            sender,
            taker,
            receiver,
            block: None,
        })
    }

    /// What this comes to, where it can be done.
    pub fn ask<R: Wait>(&mut self, rt: &R, ask: Ask) -> Option<Came>
        requires { IsLine self.old }
        ensures { IsLine self.new }
    {
        match ask {
            Ask::Allocate => self.allocate(),
            Ask::Send => self.send(rt),
            Ask::Flush => Some(Came::Flushed(self.sender.flush(rt, &self.pipe))),
            Ask::Receive => self.receive(rt),
            Ask::Take => self.take(),
        }
    }

    /// The sender's pass allocates a block of three words, which it has in hand then.
    fn allocate(&mut self) -> Option<Came>
        requires { IsLine self.old }
        ensures { IsLine self.new }
    {
        if self.block.is_some() || !self.giver.idle() {
            return None;
        }
        match self.heap.alloc(&mut self.giver, 3, 1) {
            AllocAnswer::Given(block) => {
                let place = block.place();
                self.block = Some(block);
                Some(Came::At(place))
            }
            _ => None,
        }
    }

    /// The sender sends the block in hand.
    fn send<R: Wait>(&mut self, rt: &R) -> Option<Came>
        requires { IsLine self.old }
        ensures { IsLine self.new }
    {
        if !self.giver.idle() || self.sender.pending() || self.sender.sent() >= 1 << 60 {
            return None;
        }
        let block = self.block.take()?;
        let sent = self
            .sender
            .send(rt, &self.pipe, &self.heap, &mut self.giver, block);
        match sent {
            Sent::Sent => Some(Came::Sent),
            Sent::ShelfFull { block, found } => {
                self.block = Some(block);
                Some(Came::Full(found))
            }
            Sent::QueueFull => Some(Came::Queued),
        }
    }

    /// The receiver receives, and lets the block go.
    fn receive<R: Wait>(&mut self, rt: &R) -> Option<Came>
        requires { IsLine self.old }
        ensures { IsLine self.new }
    {
        if !self.taker.idle() {
            return None;
        }
        match self
            .receiver
            .recv(rt, &self.pipe, &self.heap, &mut self.taker)
        {
            Received::Got { block, sender, seq } => Some(Came::Got(block.place(), sender, seq)),
            Received::Nothing => Some(Came::Nothing),
            Received::Gone { note } => Some(Came::Gone(note.seq)),
            Received::Other { block, note } => Some(Came::Other(block.place(), note.place)),
            Received::Missed { .. } => None,
        }
    }

    /// The receiver's pass takes from shelf 0, with no note, and lets the block go.
    fn take(&mut self) -> Option<Came>
        requires { IsLine self.old }
        ensures { IsLine self.new }
    {
        if !self.taker.idle() {
            return None;
        }
        match self.heap.take(&mut self.taker, 0) {
            Taken::Got(block) => Some(Came::At(block.place())),
            _ => None,
        }
    }

    /// The log, where nothing is pending or kept.
    pub fn close<R: Wait>(self, rt: &R, alloc: Global) -> Result<Option<PipeLog>, AllocError>
        requires { IsLine self }
    {
        if self.sender.pending() || self.receiver.keeps() {
            return Ok(None);
        }
        let Line {
            heap: _,
            pipe,
            giver: _,
            sender,
            taker: _,
            receiver,
            block: _,
        } = self;
        let mut senders = Vec::with_capacity(alloc, 1)?;
        senders.push_reserved(sender);
        Ok(pipe.close(rt, alloc, senders, receiver).ok())
    }
}
