//! The trait over which a lane makes whole calls.

ghost use Rattle.std.specs.Prelude.{ℕ, ◌≡◌, ◌<◌, ◌≤◌};
ghost use Rattle.heap_geometry.specs.declared.limits.TheConstants.{LARGE_MOST, SHELVES};
ghost use Rattle.heap_geometry.specs.declared.need.Need.{Need};
ghost use Rattle.heap_geometry.specs.Need.{usable_words};
ghost use Rattle.errand_steps.specs.declared.reply.Reply.{Reply};
ghost use Rattle.errand_steps.specs.declared.reply.Reply.TheVariants as reply;
ghost use Rattle.errand_steps.specs.Calls.{Call, alloc, free, put, take};
ghost use Rattle.lane_engine.specs.Whole.{KeepBlocks, Maker, PutTells, TakeTells, allocated_as};
ghost use Rattle.sound_laws.specs.events.Made.{Copies, LeadsBy, Sums, wrote};

pub use live_heap::answers::Taken;
use std::sync::Wait;
use step_machine::token::Token;

/// What an allocation came to once it had ended: whole calls go on while they are busy, and a lane asks for no more
/// words than a block has.
#[derive(Debug, PartialEq, Eq, Drop)]
pub enum Allocated<B> {
    /// The block.
    Given(B),
    /// No block is free.
    Refused,
    /// The caller has no turn left.
    Spent,
}

/// One caller of a heap, or something in front of it, that makes whole calls. What a call did, and what
/// it saw of others in the meantime, is `called`; a call may wait for others.
pub trait Calls {
    /// A block that the caller holds.
    type Held: Token;

    /// What it is to a lane.
    ghost maker: { Maker Self };

    /// Allocates a block of so many usable words.
    fn allocate<R: Wait>(&mut self, rt: &R, need: u32) -> Allocated<Self::Held>
        requires stands { maker.stands self.old }
        requires need { need ≤ LARGE_MOST }
        ensures stands { maker.stands self.new }
        ensures base { maker.runs_on self.new ≡ maker.runs_on self.old }
        ensures called { maker.called self.old (alloc need) (allocated_as Self.Held.place_of Self.Held.need_of result) self.new };

    /// Frees the caller's block.
    fn free<R: Wait>(&mut self, rt: &R, held: Self::Held)
        requires stands { maker.stands self.old }
        requires owned { maker.owns self.old (Self.Held.place_of held) (Self.Held.need_of held) }
        ensures stands { maker.stands self.new }
        ensures base { maker.runs_on self.new ≡ maker.runs_on self.old }
        ensures called { maker.called self.old (free (Self.Held.place_of held) (Self.Held.need_of held)) reply.Freed self.new };

    /// Fills the caller's block: word i with from + i, modulo 2^64.
    fn fill(&mut self, held: &Self::Held, from: u64)
        requires stands { maker.stands self.old }
        requires owned { maker.owns self.old (Self.Held.place_of held.now) (Self.Held.need_of held.now) }
        ensures stands { maker.stands self.new }
        ensures base { maker.runs_on self.new ≡ maker.runs_on self.old }
        ensures called { LeadsBy maker.called self.old
            (wrote (Self.Held.place_of held.now) (Self.Held.need_of held.now) from (usable_words (Self.Held.need_of held.now))) self.new };

    /// The sum of the words of the caller's block, modulo 2^64.
    fn sum(&mut self, held: &Self::Held) -> u64
        requires stands { maker.stands self.old }
        requires owned { maker.owns self.old (Self.Held.place_of held.now) (Self.Held.need_of held.now) }
        ensures stands { maker.stands self.new }
        ensures base { maker.runs_on self.new ≡ maker.runs_on self.old }
        ensures called { Sums maker.called self.old (Self.Held.place_of held.now) (Self.Held.need_of held.now) result self.new };

    /// Copies the caller's block into another one of its blocks, the first word first: each word is read and
    /// then written. What the other one has beyond them is filled with 0.
    fn copy(&mut self, from: &Self::Held, to: &Self::Held)
        requires stands { maker.stands self.old }
        requires owned { maker.owns self.old (Self.Held.place_of from.now) (Self.Held.need_of from.now) }
        requires owned_too { maker.owns self.old (Self.Held.place_of to.now) (Self.Held.need_of to.now) }
        ensures stands { maker.stands self.new }
        ensures base { maker.runs_on self.new ≡ maker.runs_on self.old }
        ensures called { Copies maker.called self.old (Self.Held.place_of from.now) (Self.Held.need_of from.now)
            (Self.Held.place_of to.now) (Self.Held.need_of to.now) self.new };

    /// Puts the caller's block on a shelf; where a block lies there already it comes back.
    fn put(&mut self, held: Self::Held, shelf: u8) -> Option<Self::Held>
        requires stands { maker.stands self.old }
        requires owned { maker.owns self.old (Self.Held.place_of held) (Self.Held.need_of held) }
        requires shelf { shelf < SHELVES }
        ensures stands { maker.stands self.new }
        ensures base { maker.runs_on self.new ≡ maker.runs_on self.old }
        ensures called { PutTells Self.Held.place_of Self.Held.need_of (maker.owns self.new)
            (λ answer. maker.called self.old (put (Self.Held.place_of held) (Self.Held.need_of held) shelf) answer self.new)
            (Self.Held.place_of held) (Self.Held.need_of held) result };

    /// Takes the block that lies on a shelf.
    fn take(&mut self, shelf: u8) -> Taken<Self::Held>
        requires stands { maker.stands self.old }
        requires shelf { shelf < SHELVES }
        ensures stands { maker.stands self.new }
        ensures base { maker.runs_on self.new ≡ maker.runs_on self.old }
        ensures called { TakeTells Self.Held.place_of Self.Held.need_of (λ answer. maker.called self.old (take shelf) answer self.new) result };

    /// What is so of all whole calls: a theorem, on a function that does nothing.
    fn calls_keep_blocks()
        ensures { KeepBlocks maker.called maker.owns };
}
