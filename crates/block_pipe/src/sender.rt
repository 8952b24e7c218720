//! A sender's end.

ghost use Rattle.std.specs.Prelude.{ℕ, ◌≡◌, ◌<◌, ◌+◌, ◌%◌};

use crate::note::Note;
use crate::pipe::Pipe;
use crate::rule::{End, Sends};
use std::sync::Wait;

/// A sender's end of a pipe. It can't be copied, cloned or made; `Pipe::open` gives one for each sender.
#[derive(Drop)]
pub struct Sender {
    pub(crate) end: End,
    pub(crate) number: u8,
    pub(crate) sent: u64,
    /// Which of its shelves has the next block, counted from 0.
    pub(crate) turn: u8,
    pub(crate) pending: Option<Note>,
}

/// The turn behind this one: each shelf has one, and then the first has it again.
fn next_turn(turn: u8, shelves: u8) -> u8
    requires { turn < shelves }
    ensures next { (sent : ℕ) → turn ≡ sent % shelves → result ≡ (sent + 1) % shelves }
    ensures within { result < shelves }
{
    let next = turn + 1;
    if next < shelves { next } else { 0 }
}

impl Sender {
    ghost use Rattle.std.specs.Prelude.{◌≢◌, ◌*◌, ◌^◌, ◌++◌, ◌↔◌, true, false, Some, None, IsSome, IsTrue, length};
    ghost use Rattle.crossbeam_queue.specs.Passes.{view};
    ghost use Rattle.block_pipe.specs.declared.pipe.Pipe.{Pipe};
    ghost use Rattle.block_pipe.specs.Ends.{HasHeld, IsSender, pending_of, pushed_by};
    ghost use Rattle.block_pipe.specs.Notes.{shelf_for};

    /// How many of its notes were pushed.
    pub fn sent(&self) -> u64
        ensures value { result ≡ self.now.sent }
        ensures pushed { (pipe : Pipe) → IsSender pipe self.now → result ≡ length (pushed_by self.now) }
    {
        self.sent
    }

    /// Whether a note is pending, since the queue was full.
    pub fn pending(&self) -> bool
        ensures { IsTrue result ↔ IsSome self.now.pending }
    {
        self.pending.is_some()
    }

    /// The shelf for its next block.
    pub(crate) fn shelf(&self, pipe: &Pipe) -> u8
        requires { IsSender pipe.now self.now }
        ensures value { result ≡ shelf_for pipe.now.shelves self.now.number self.now.sent }
        ensures within { result < 64 }
    {
        self.number * pipe.shelves + self.turn
    }

    /// Its next block stands on this shelf, the next one: the note of that is pending now.
    pub(crate) fn tell(&mut self, _pipe: &Pipe, shelf: u8, place: u32)
        requires of { IsSender _pipe.now self.old }
        requires shelf { shelf ≡ shelf_for _pipe.now.shelves self.old.number self.old.sent }
        requires none { self.old.pending ≡ None }
        requires few { self.old.sent < 2 ^ 60 }
        ensures of { IsSender _pipe.now self.new }
        ensures pending { self.new.pending ≡ Some (record {
          sender = self.old.number;
          seq = self.old.sent;
          shelf = shelf_for _pipe.now.shelves self.old.number self.old.sent;
          place = place;
        }) }
        ensures same { (self.new.end ≡ self.old.end) × (self.new.number ≡ self.old.number) × (self.new.sent ≡ self.old.sent) }
    {
        self.pending = Some(Note {
            sender: self.number,
            seq: self.sent,
            shelf,
            place,
        });
    }

    /// Pushes the note that is pending, if there is one; false where the queue was found full.
    pub fn flush<R: Wait>(&mut self, rt: &R, pipe: &Pipe) -> bool
        requires { IsSender pipe.now self.old }
        ensures of { IsSender pipe.now self.new × (self.new.number ≡ self.old.number) }
        ensures none { self.old.pending ≡ None → (result ≡ true) × (self.new ≡ self.old) }
        ensures pushed { result ≡ true → (self.new.pending ≡ None) × (pushed_by self.new ≡ pushed_by self.old ++ pending_of self.old) }
        ensures full { result ≡ false → (self.old.pending ≢ None) × (self.new.pending ≡ self.old.pending)
            × (view self.new.end ≡ view self.old.end) × HasHeld (pipe.now.senders * pipe.now.shelves) (view self.old.end) }
    {
        let Some(note) = self.pending else {
            return true;
        };
        match pipe.queue.push_as::<Sends, R>(rt, &mut self.end, note) {
            Ok(()) => {
                self.pending = None;
                self.sent += 1;
                self.turn = next_turn(self.turn, pipe.shelves);
                true
            }
            Err(_) => false,
        }
    }
}
