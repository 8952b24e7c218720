//! What a queue that held notes tells the ends of its pipe: a law, on a function that does nothing.

ghost use Rattle.std.specs.Prelude.{ℕ, ◌≡◌, ◌≤◌, ◌++◌, List, length};
ghost use Rattle.crossbeam_queue.specs.Passes.{view};
ghost use Rattle.block_pipe.specs.declared.note.Note.{Note};
ghost use Rattle.block_pipe.specs.declared.pipe.Pipe.{Pipe};
ghost use Rattle.block_pipe.specs.declared.receiver.Receiver.{Receiver};
ghost use Rattle.block_pipe.specs.declared.sender.Sender.{Sender};
ghost use Rattle.block_pipe.specs.Ends.{HasHeld, IsReceiver, IsSender, popped_by, pushed_by};
ghost use Rattle.block_pipe.specs.Notes.{AreNumbered, EndsIn, RuleStands, of_sender};

/// A sender's notes in the queue are the last ones that it has pushed; a queue of one sender held no more than
/// that has pushed. Behind what the receiver has popped the notes in the queue go on in their numbers.
pub fn held_notes_are_in_line()
    ensures pushed { (pipe : Pipe) (s : Sender) (items : List Note) → IsSender pipe s → RuleStands (view s.end) items
        → EndsIn (of_sender s.number items) (pushed_by s) }
    ensures alone { (pipe : Pipe) (s : Sender) (count : ℕ) → IsSender pipe s → pipe.senders ≡ 1 → HasHeld count (view s.end)
        → count ≤ length (pushed_by s) }
    ensures popped { (pipe : Pipe) (r : Receiver) (items : List Note) → IsReceiver pipe r → RuleStands (view r.end) items
        → AreNumbered pipe.senders pipe.shelves (popped_by r ++ items) }
{}
