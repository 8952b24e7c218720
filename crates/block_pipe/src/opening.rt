//! How a pipe opens.

ghost use Rattle.std.specs.Prelude.{◌≡◌, ◌≤◌, ◌*◌, IfOk, length};
ghost use Rattle.crossbeam_queue.specs.Passes.{IsPassOf, view};
ghost use Rattle.block_pipe.specs.Ends.{AreNewFrom, IsNewReceiver};
ghost use Rattle.block_pipe.specs.Notes.{unset, whole};

use crate::pipe::Pipe;
use crate::receiver::Receiver;
use crate::rule::{End, FirstEnd, PeelsEnd, Queue, Sizes};
use crate::sender::Sender;
use crate::tally::PerSender;
use std::alloc::{AllocError, Global};
use std::marker::Brand;

impl Pipe {
    /// A pipe with so many senders, from 1 to 4, each with so many shelves of its own, at most 64 in all.
    /// Sender `k` has the shelves from `k*shelves` on, and its block `i` goes on the shelf
    /// `k*shelves + i % shelves`. The queue has room for a note for each shelf.
    pub fn open(
        alloc: Global,
        senders: u8,
        shelves: u8,
    ) -> Result<(Pipe, Vec<Sender>, Receiver), AllocError>
        requires senders { (1 ≤ senders) × (senders ≤ 4) }
        requires shelves { (1 ≤ shelves) × (senders * shelves ≤ 64) }
        ensures pipe { IfOk result (λ opened. (opened.0.senders ≡ senders) × (opened.0.shelves ≡ shelves)) }
        ensures senders { IfOk result (λ opened. AreNewFrom opened.0 0 opened.1.items × (length opened.1.items ≡ senders)) }
        ensures receiver { IfOk result (λ opened. IsNewReceiver opened.0 opened.2) }
    {
        let mut ends = Vec::with_capacity(alloc, senders as usize)?;
        let (queue, mut end) = Queue::ruled(alloc, senders as usize * shelves as usize)?;
        begin::<Brand>(&queue, &mut end, senders, shelves);
        for number in 0..senders {
            let theirs = queue.another::<PeelsEnd>(&mut end);
            ends.push_reserved(Sender {
                end: theirs,
                number,
                sent: 0,
                turn: 0,
                pending: None,
            });
        }
        let pipe = Pipe {
            queue,
            senders,
            shelves,
        };
        let receiver = Receiver {
            end,
            kept: None,
            popped: PerSender::new(),
        };
        Ok((pipe, ends, receiver))
    }
}

/// The first end comes to stand for all senders and the receiver.
fn begin<E: Sizes>(queue: &Queue, end: &mut End, senders: u8, shelves: u8)
    requires of { IsPassOf queue.now end.old }
    requires unset { view end.old ≡ unset }
    requires sizes { (E.senders ≡ senders) × (E.shelves ≡ shelves) }
    ensures of { IsPassOf queue.now end.new }
    ensures whole { view end.new ≡ whole senders shelves }
{
    let _ = queue.another::<FirstEnd<E>>(end);
}
