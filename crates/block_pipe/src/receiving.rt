//! Receiving: a note is popped, and then its block is taken from the shelf that it names.

use crate::note::Note;
use crate::pipe::Pipe;
use crate::receiver::Receiver;
use live_heap::answers::Taken;
use live_heap::block::Block;
use live_heap::heap::Heap;
use live_heap::laws::blocks::passes_see_more;
use live_heap::pass::Pass;
use live_heap::shelves::ShelfRule;
use std::sync::Wait;

/// What a receive came to.
#[derive(Debug, PartialEq, Eq, Drop)]
pub enum Received {
    /// The block that the note is of, which is the pass's now: the sender's block of this number.
    Got { block: Block, sender: u8, seq: u64 },
    /// The queue was empty. Nothing has changed.
    Nothing,
    /// No block lay on the shelf that the note names. The note is used up.
    Gone { note: Note },
    /// Another block lay there, which is the pass's now. The note is used up.
    Other { block: Block, note: Note },
    /// Another caller changed the shelf in between: its word was `expected` and is `found`. The note is
    /// kept for the next receive.
    Missed { expected: u64, found: u64 },
}

impl Receiver {
    ghost use Rattle.std.specs.Prelude.{◌≡◌};
    ghost use Rattle.errand_steps.specs.Begins.{IsIdle};
    ghost use Rattle.live_heap.specs.Passes.{IsOf};
    ghost use Rattle.block_pipe.specs.Answers.{IsReceivedByRule, ReceiveTells};
    ghost use Rattle.block_pipe.specs.Ends.{IsReceiver};

    /// Receives a block: pops a note, unless it kept one, and takes the block from the shelf that it names. The block's
    /// words are such as may lie there by the heap's rule.
    pub fn recv<R: Wait, L: ShelfRule>(
        &mut self,
        rt: &R,
        pipe: &Pipe,
        heap: &Heap<L>,
        pass: &mut Pass,
    ) -> Received
        requires receiver { IsReceiver pipe.now self.old }
        requires of { IsOf heap.now pass.old }
        requires idle { IsIdle pass.old.errand }
        requires caller { pass.old.errand.caller ≡ pipe.now.senders }
        ensures receiver { IsReceiver pipe.now self.new }
        ensures of { IsOf heap.now pass.new }
        ensures tells { ReceiveTells pipe.now self.old pass.old result self.new pass.new }
        ensures words { IsReceivedByRule L.allows pipe.now result pass.new }
    {
        let Some(note) = self.note(rt, pipe) else {
            return Received::Nothing;
        };
        passes_see_more();
        match heap.take(pass, note.shelf) {
            Taken::Got(block) => {
                self.kept = None;
                if block.place() == note.place {
                    Received::Got {
                        block,
                        sender: note.sender,
                        seq: note.seq,
                    }
                } else {
                    Received::Other { block, note }
                }
            }
            Taken::Empty => {
                self.kept = None;
                Received::Gone { note }
            }
            Taken::Missed { expected, found } => Received::Missed { expected, found },
        }
    }
}
