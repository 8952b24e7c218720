//! Sending: a block is put on its sender's next shelf, and then its note is pushed.

use crate::pipe::Pipe;
use crate::sender::Sender;
use live_heap::answers::Full;
use live_heap::block::Block;
use live_heap::heap::Heap;
use live_heap::pass::Pass;
use live_heap::shelves::ShelfRule;
use std::sync::Wait;

/// What a send came to.
#[derive(Debug, PartialEq, Eq, Drop)]
pub enum Sent {
    /// The block lies on its shelf, and its note is in the queue.
    Sent,
    /// The shelf holds a block already, `found` is its word. The block is back, and nothing has changed.
    ShelfFull { block: Block, found: u64 },
    /// The block lies on its shelf; the queue was full, and the note is pending. `Sender::flush` pushes it.
    QueueFull,
}

impl Sender {
    ghost use Rattle.std.specs.Prelude.{◌≡◌, ◌<◌, ◌^◌, None};
    ghost use Rattle.errand_steps.specs.Begins.{IsIdle};
    ghost use Rattle.live_heap.specs.Passes.{IsOf, Owns, seen};
    ghost use Rattle.live_heap.specs.Shelves.{MayLieOn};
    ghost use Rattle.block_pipe.specs.Answers.{SendTells};
    ghost use Rattle.block_pipe.specs.Ends.{IsSender};
    ghost use Rattle.block_pipe.specs.Notes.{shelf_for};

    /// Sends a block of the pass's, whose words may lie there: puts it on the sender's next shelf, and pushes its note.
    pub fn send<R: Wait, L: ShelfRule>(
        &mut self,
        rt: &R,
        pipe: &Pipe,
        heap: &Heap<L>,
        pass: &mut Pass,
        block: Block,
    ) -> Sent
        requires sender { IsSender pipe.now self.old }
        requires none { self.old.pending ≡ None }
        requires few { self.old.sent < 2 ^ 60 }
        requires of { IsOf heap.now pass.old }
        requires idle { IsIdle pass.old.errand }
        requires caller { pass.old.errand.caller ≡ self.old.number }
        requires owned { Owns pass.old block }
        requires words { MayLieOn L.allows (seen pass.old) pass.old.errand.caller block.place (shelf_for pipe.now.shelves self.old.number self.old.sent) }
        ensures sender { IsSender pipe.now self.new × (self.new.number ≡ self.old.number) }
        ensures of { IsOf heap.now pass.new }
        ensures tells { SendTells pipe.now self.old pass.old block result self.new pass.new }
    {
        let place = block.place();
        let shelf = self.shelf(pipe);
        match heap.put(pass, block, shelf) {
            Err(Full { block, found }) => Sent::ShelfFull { block, found },
            Ok(()) => {
                self.tell(pipe, shelf, place);
                if self.flush(rt, pipe) {
                    Sent::Sent
                } else {
                    Sent::QueueFull
                }
            }
        }
    }
}
