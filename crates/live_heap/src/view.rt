//! What a pass knows. Proofs alone speak of it; no value of it is made.

use errand_steps::errand::Errand;
use heap_geometry::need::Need;
use pool_model::event::Event;
use std::collections::LinkedList;
use std::marker::Model;
use word_table::name::WordName;

/// How many steps a caller has made, each one access to a shared word, or a usable word that is read or written
/// while it is out; what lays a piece is no step, nor what takes words out. Its number has no end, as it is
/// for proofs alone.
pub struct Accesses {
    made: LinkedList<()>,
}

impl Model for Accesses {
    ghost use Rattle.std.specs.Prelude.{ℕ, length};

    ghost Value = { ℕ };

    ghost view = { λ a. length a.made };
}

/// A caller: its errand as its last step left it, the events that it had seen then, all of its own among
/// them, and how many steps it has made.
pub struct Standing {
    pub errand: Errand,
    pub seen: LinkedList<Event>,
    pub accesses: Accesses,
}

/// A change that a caller won, and whether it made a superblock the active one.
pub struct Won {
    caller: u32,
    word: WordName,
    install: bool,
}

impl Model for Won {
    ghost use Rattle.sound_laws.specs.bounds.Wins.{Win};

    ghost Value = { Win };

    ghost view = { λ w. record { caller = w.caller; word = w.word; install = w.install } };
}

/// A block whose usable words are out with the pass of its owner: where it lies, what it serves, and the numbers that
/// count for its words.
pub struct Lent {
    pub place: u32,
    pub need: Need,
    pub numbers: LinkedList<u64>,
}

/// The callers that a pass stands for, the events and the wins that it has seen, the piece of the arena that is out
/// with it, the pieces that it knows to be laid, and the blocks whose usable words are out with it.
pub struct View {
    pub callers: LinkedList<Standing>,
    pub seen: LinkedList<Event>,
    pub wins: LinkedList<Won>,
    pub lays: Option<u32>,
    pub ready: LinkedList<u32>,
    pub lent: LinkedList<Lent>,
}
