//! The rule of the queue of notes, and what its steps tell. Proofs alone speak of it.

use crate::note::Note;
use crossbeam_queue::protocol::{Join, Lesson, Outcome, Protocol, Split};
use crossbeam_queue::{Pass, RuledArrayQueue};
use std::collections::LinkedList;
use std::marker::{Brand, PhantomData};

/// What an end knows: whether the numbers of senders and of shelves are set, and which they are; the senders
/// that it stands for, whether it receives, and what it has sent and taken. No value of it is made.
pub struct Known {
    pub set: bool,
    pub senders: u8,
    pub shelves: u8,
    pub from: u8,
    pub until: u8,
    pub receives: bool,
    pub sent: LinkedList<Note>,
    pub taken: LinkedList<Note>,
}

/// An end of the queue.
pub type End = Pass<Note, Known>;

/// The queue of notes.
pub type Queue = RuledArrayQueue<Note, Known, InLine>;

/// What was sent is what was taken and then what the queue holds; each sender's notes are numbered.
pub struct InLine;

impl Protocol<Note, Known> for InLine {
    ghost use Rattle.block_pipe.specs.Notes.{Piped, unset};

    ghost holds = { Piped };

    ghost first = { unset };
}

/// How many senders there are and how many shelves each has. The first step names it for the proof.
pub trait Sizes {
    ghost use Rattle.std.specs.Prelude.{ℕ};

    ghost senders: { ℕ };

    ghost shelves: { ℕ };
}

impl Sizes for Brand {
    ghost senders = { 0 };

    ghost shelves = { 0 };
}

/// The first end comes to stand for all senders and the receiver.
pub struct FirstEnd<E> {
    sizes: PhantomData<E>,
}

impl<E: Sizes> Split<Known> for FirstEnd<E> {
    ghost use Rattle.block_pipe.specs.Notes.{nobody, whole};

    ghost left = { λ v. whole E.senders E.shelves };

    ghost right = { λ v. nobody };
}

/// Its first sender goes to an end of its own.
pub struct PeelsEnd;

impl Split<Known> for PeelsEnd {
    ghost use Rattle.block_pipe.specs.Notes.{first_out, first_sender};

    ghost left = { first_out };

    ghost right = { first_sender };
}

/// An end takes over the senders of another.
pub struct TakesOver;

impl Join<Known> for TakesOver {
    ghost use Rattle.block_pipe.specs.Notes.{nobody, with_senders};

    ghost both = { with_senders };

    ghost spent = { nobody };
}

/// A note was sent, or the queue was full.
pub struct Sends;

impl Outcome<Note, Known> for Sends {
    ghost use Rattle.std.specs.Prelude.{◌≡◌};
    ghost use Rattle.block_pipe.specs.Notes.{with_sent};

    ghost then = { λ v x w. w ≡ with_sent v x };
}

impl Lesson<Note, Known> for Sends {
    ghost use Rattle.block_pipe.specs.Notes.{RuleStands};

    ghost fact = { RuleStands };
}

/// A note was taken, or the queue was empty.
pub struct TakesNote;

impl Outcome<Note, Known> for TakesNote {
    ghost use Rattle.std.specs.Prelude.{◌≡◌};
    ghost use Rattle.block_pipe.specs.Notes.{MayComeNext, with_taken};

    ghost then = { λ v x w. MayComeNext v.senders v.shelves v.taken x × (w ≡ with_taken v x) };
}

impl Lesson<Note, Known> for TakesNote {
    ghost use Rattle.block_pipe.specs.Notes.{RuleStands};

    ghost fact = { RuleStands };
}

/// At the end: what was taken of a sender is the first part of what that sent.
pub struct TellsNote;

impl Lesson<Note, Known> for TellsNote {
    ghost use Rattle.block_pipe.specs.Notes.{HasFirstPart};

    ghost fact = { λ v items. HasFirstPart v };
}
