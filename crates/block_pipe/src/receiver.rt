//! The receiver's end.

use crate::note::Note;
use crate::pipe::Pipe;
use crate::rule::{End, TakesNote};
use crate::tally::PerSender;
use std::sync::Wait;

/// The receiver's end of a pipe. It can't be copied, cloned or made; `Pipe::open` gives it.
#[derive(Drop)]
pub struct Receiver {
    pub(crate) end: End,
    pub(crate) kept: Option<Note>,
    pub(crate) popped: PerSender,
}

impl Receiver {
    ghost use Rattle.std.specs.Prelude.{◌≡◌, ◌∷◌, ◌↔◌, ◌++◌, [], None, Some, IfSome, IsSome, IsTrue};
    ghost use Rattle.crossbeam_queue.specs.Passes.{view};
    ghost use Rattle.block_pipe.specs.Ends.{ComesTo, HasHeld, IsNextIn, IsReceiver, popped_by};

    /// Whether it keeps a note, since its take missed.
    pub fn keeps(&self) -> bool
        ensures { IsTrue result ↔ IsSome self.now.kept }
    {
        self.kept.is_some()
    }

    /// The note that it keeps, or else the first one of the queue, which it keeps from now on.
    pub(crate) fn note<R: Wait>(&mut self, rt: &R, pipe: &Pipe) -> Option<Note>
        requires { IsReceiver pipe.now self.old }
        ensures of { IsReceiver pipe.now self.new }
        ensures kept { self.new.kept ≡ result }
        ensures note { IfSome result (λ note. ComesTo pipe.now self.old note self.new) }
        ensures empty { result ≡ None → (self.old.kept ≡ None) × (popped_by self.new ≡ popped_by self.old) × HasHeld 0 (view self.old.end) }
    {
        if self.kept.is_none() {
            self.kept = self.pop(rt, pipe);
        }
        self.kept
    }

    /// The first note of the queue.
    fn pop<R: Wait>(&mut self, rt: &R, pipe: &Pipe) -> Option<Note>
        requires of { IsReceiver pipe.now self.old }
        requires none { self.old.kept ≡ None }
        ensures of { IsReceiver pipe.now self.new }
        ensures kept { self.new.kept ≡ None }
        ensures note { IfSome result (λ note. IsNextIn pipe.now (popped_by self.old) note
            × (popped_by self.new ≡ popped_by self.old ++ note ∷ [])) }
        ensures empty { result ≡ None → (view self.new.end ≡ view self.old.end) × HasHeld 0 (view self.old.end) }
    {
        let note = pipe.queue.pop_as::<TakesNote, R>(rt, &mut self.end)?;
        self.popped.set(note.sender, note.seq + 1);
        Some(note)
    }
}
