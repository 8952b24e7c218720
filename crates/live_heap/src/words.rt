//! Calls on usable words: each lifts the words of its block, is made on plain memory, and lays them again.

ghost use Rattle.std.specs.Prelude.{◌≡◌, ◌<◌, ◌+◌};
ghost use Rattle.heap_geometry.specs.Need.{usable_words};
ghost use Rattle.plain_words.specs.Places.{numbers};
ghost use Rattle.errand_steps.specs.declared.reply.Reply.TheVariants as reply;
ghost use Rattle.errand_steps.specs.Begins.{IsIdle};
ghost use Rattle.errand_steps.specs.Calls.{read, write};
ghost use Rattle.sound_laws.specs.events.Made.{LeadsBy};
ghost use Rattle.live_heap.specs.declared.pass.Pass.{Pass};
ghost use Rattle.live_heap.specs.Lending.{lent_block};
ghost use Rattle.live_heap.specs.Memory.{AreWordsOf, IsLifted, LeadsLifted, all_but};
ghost use Rattle.live_heap.specs.Passes.{IsOf, OwnsAt, view};
ghost use Rattle.live_heap.specs.Words.{CallsOnWord};

use crate::heap::Heap;
use crate::pass::Pass;
use crate::plays::Lending;
use crate::shelves::ShelfRule;
use heap_geometry::need::Need;
use plain_words::PlainWords;
use std::marker::Brand;

impl<R: ShelfRule> Heap<R> {
    /// Writes a usable word of the block that lies at this place and serves this need. Both come by value,
    /// so that a loop of writes doesn't read the block again behind each.
    #[inline(always)]
    pub(crate) fn write_word(&self, pass: &mut Pass, place: u32, need: Need, i: u32, v: u64)
        requires of { IsOf self.now pass.old }
        requires idle { IsIdle pass.old.errand }
        requires owned { OwnsAt pass.old place need }
        requires word { i < usable_words need }
        ensures { CallsOnWord self.now pass.old (write place need i v) reply.Wrote pass.new }
    {
        let mut words = self.lift_words(pass, place, need);
        let at = self.payload(place, i);
        words.lay(self.start(), at, v);
        self.lay_words::<Brand>(pass, words, place, need, i, 1);
    }

    /// Reads a usable word of the block that lies at this place and serves this need.
    #[inline(always)]
    pub(crate) fn read_word(&self, pass: &mut Pass, place: u32, need: Need, i: u32) -> u64
        requires of { IsOf self.now pass.old }
        requires idle { IsIdle pass.old.errand }
        requires owned { OwnsAt pass.old place need }
        requires word { i < usable_words need }
        ensures { CallsOnWord self.now pass.old (read place need i) (reply.Word result) pass.new }
    {
        let words = self.lift_words(pass, place, need);
        let at = self.payload(place, i);
        let found = words.word(self.start(), at);
        self.lay_words::<Brand>(pass, words, place, need, i, 1);
        found
    }

    /// Lays the words again that were lifted from the block that lies at this place and serves this need. The calls that `L`
    /// names for the proof were made on them meanwhile, on so many words from one on.
    #[inline(always)]
    pub(crate) fn lay_words<L: Lending>(
        &self,
        pass: &mut Pass,
        words: PlainWords,
        place: u32,
        need: Need,
        _first: u32,
        _count: u32,
    )
        requires words { AreWordsOf self.now place need words }
        requires owner { L.owner ≡ pass.old.errand }
        requires block { L.block ≡ lent_block place need (numbers words.places) }
        requires shown { L.shown ≡ all_but place (view pass.old).lent }
        requires lifted { LeadsLifted self.now place need L.made words pass.old }
        ensures { (before : Pass) → IsLifted self.now before place need pass.old → LeadsBy (CallsOnWord self.now) before L.made pass.new }
    {
        let mark = self.caller_mark(pass.errand.caller());
        pass.seat.carry(words);
        self.take_back::<L>(&mut pass.seat, &pass.errand, mark, place, need);
    }

    /// Where a usable word of the block at this place lies in memory, which begins with the arena.
    #[inline(always)]
    fn payload(&self, place: u32, i: u32) -> usize
        ensures { result ≡ place + 1 + i }
    {
        place as usize + 1 + i as usize
    }
}
