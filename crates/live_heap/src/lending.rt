//! How the usable words of a block go out with its owner's pass, as plain memory, and come back.

ghost use Rattle.std.specs.Prelude.{◌≡◌, ◌≢◌, ◌<◌, ◌+◌, ◌-◌, ◌%◌, List, [], ◌++◌, length, slice_index_or};
ghost use Rattle.heap_geometry.specs.Need.{usable_words};
ghost use Rattle.plain_words.specs.Places.{numbers};
ghost use Rattle.errand_steps.specs.Begins.{IsIdle};
ghost use Rattle.sound_laws.specs.events.Made.{Copies, LeadsBy, wrote};
ghost use Rattle.live_heap.specs.declared.block.Block.{Block};
ghost use Rattle.live_heap.specs.declared.plain.Memory.{Memory};
ghost use Rattle.live_heap.specs.declared.view.Lent.{Lent};
ghost use Rattle.live_heap.specs.Lending.{ComesBy, HasLent, HasReturned, LendsWhere, MayLend, MayRest, MayReturn, TellsWritten, copy_of, lent_block};
ghost use Rattle.live_heap.specs.Memory.{AreWordsOf, HasTaken, HasTakenBoth, IsLastTaken, IsMemoryOf, before_taking, lifted_from, writes_from};
ghost use Rattle.live_heap.specs.Passes.{IsOf, Owns, OwnsAt, accesses, seen, view};
ghost use Rattle.live_heap.specs.Pieces.{caller_mark, mark_place};
ghost use Rattle.live_heap.specs.Words.{CallsOnWord};

use crate::block::Block;
use crate::heap::Heap;
use crate::laying::{BLANK, OUT};
use crate::pass::Pass;
use crate::placement::APART;
use crate::plain::{Memory, are_small};
use crate::plays::{Lending, Lends, LendsMarked, Rests, Returns};
use crate::shelves::ShelfRule;
use crate::view::View;
use atomic_region::Seat;
use errand_steps::errand::Errand;
use heap_geometry::need::Need;
use plain_words::PlainWords;
use std::marker::Brand;

impl<R: ShelfRule> Heap<R> {
    /// Takes the usable words of the pass's block out: from now on they are plain memory, of whoever has what this returns,
    /// on any thread. The pass makes its other calls as before; it can free the block or put it on a shelf, and write or
    /// read its words by a call, once the words are home again. The first of them is aligned to 16 bytes: it stands at an
    /// odd number, and the region's first word stands 8 bytes behind a multiple of 16 (`Backing` of plain_words).
    pub fn take_out(&self, pass: &mut Pass, block: Block) -> Memory
        requires of { IsOf self.now pass.old }
        requires idle { IsIdle pass.old.errand }
        requires owned { Owns pass.old block }
        ensures of { IsOf self.now pass.new }
        ensures idle { IsIdle pass.new.errand }
        ensures memory { IsMemoryOf self.now result }
        ensures block { result.block ≡ block }
        ensures aligned { result.words.first % 2 ≡ 1 }
        ensures last { IsLastTaken pass.new result (numbers result.words.places) (view pass.old).lent }
        ensures taken { HasTaken pass.new result }
        ensures before { before_taking pass.new block.place ≡ pass.old }
        ensures keeps { (other : Block) → Owns pass.old other → other.place ≢ block.place → Owns pass.new other }
        ensures others { (other : Memory) → HasTaken pass.old other → HasTaken pass.new other }
        ensures seen { seen pass.new ≡ seen pass.old }
        ensures told { TellsWritten (seen pass.old) block.place (numbers result.words.places) }
        ensures accesses { accesses pass.new ≡ accesses pass.old }
    {
        let words = self.lift_words(pass, block.place, block.need);
        pass.out += 1;
        Memory { block, words }
    }

    /// Gives the usable words of a block back, which the pass has out: each is written, in their order, with the number
    /// that is in it. The block is home again.
    pub fn bring_home(&self, pass: &mut Pass, memory: Memory) -> Block
        requires of { IsOf self.now pass.old }
        requires idle { IsIdle pass.old.errand }
        requires memory { IsMemoryOf self.now memory }
        requires taken { HasTaken pass.old memory }
        ensures of { IsOf self.now pass.new }
        ensures idle { IsIdle pass.new.errand }
        ensures block { result ≡ memory.block }
        ensures owned { Owns pass.new result }
        ensures keeps { (other : Block) → Owns pass.old other → Owns pass.new other }
        ensures others { (other : Memory) → HasTaken pass.old other → other.block.place ≢ memory.block.place → HasTaken pass.new other }
        ensures wrote { LeadsBy (CallsOnWord self.now) (before_taking pass.old memory.block.place) (writes_from memory.block.place memory.block.need 0 (numbers memory.words.places)) pass.new }
        ensures accesses { accesses pass.new ≡ usable_words memory.block.need + accesses pass.old }
    {
        are_small(memory.words(self));
        self.bring::<Brand>(pass, memory)
    }

    /// Gives the usable words of one block back that have been copied, as plain memory, from those of the other one, and
    /// are 0 behind them. Both went out last, the other one first, and that stays out as it went. Each word is read and
    /// then written.
    fn bring_copy(&self, pass: &mut Pass, from: &Memory, to: Memory) -> Block
        requires of { IsOf self.now pass.old }
        requires idle { IsIdle pass.old.errand }
        requires memory { IsMemoryOf self.now from.now × IsMemoryOf self.now to }
        requires taken { HasTakenBoth pass.old from.now to }
        requires copied { numbers to.words.places ≡ copy_of (numbers from.now.words.places) (usable_words to.block.need) }
        ensures of { IsOf self.now pass.new }
        ensures idle { IsIdle pass.new.errand }
        ensures block { result ≡ to.block }
        ensures stays { (others : List Lent) × IsLastTaken pass.new from.now (numbers from.now.words.places) others }
        ensures copied { Copies (CallsOnWord self.now) (before_taking (before_taking pass.old to.block.place) from.now.block.place)
            from.now.block.place from.now.block.need to.block.place to.block.need (before_taking pass.new from.now.block.place) }
    {
        are_small(to.words(self));
        self.bring::<Brand>(pass, to)
    }

    /// Gives the usable words of the block back that went out last, as they went: no call is made.
    fn put_back(&self, pass: &mut Pass, memory: Memory) -> Block
        requires of { IsOf self.now pass.old }
        requires idle { IsIdle pass.old.errand }
        requires memory { IsMemoryOf self.now memory }
        requires taken { (others : List Lent) × IsLastTaken pass.old memory (numbers memory.words.places) others }
        ensures block { result ≡ memory.block }
        ensures same { pass.new ≡ before_taking pass.old memory.block.place }
    {
        self.bring::<Brand>(pass, memory)
    }

    /// Gives the usable words of one of the blocks back that are out with the pass. `L` names for the proof which calls on
    /// words were made meanwhile.
    fn bring<L: Lending>(&self, pass: &mut Pass, memory: Memory) -> Block
        requires of { IsOf self.now pass.old }
        requires idle { IsIdle pass.old.errand }
        requires memory { IsMemoryOf self.now memory }
        requires owner { L.owner ≡ pass.old.errand }
        requires block { L.block ≡ lent_block memory.block.place memory.block.need (numbers memory.words.places) }
        requires comes { ComesBy (view pass.old).lent L.block L.made L.shown }
        ensures block { result ≡ memory.block }
        ensures errand { pass.new.errand ≡ pass.old.errand }
        ensures out { pass.new.out ≡ pass.old.out - 1 }
        ensures seat { (pass.new.seat.region ≡ pass.old.seat.region) × (pass.new.seat.id ≡ pass.old.seat.id) }
        ensures returned { HasReturned L.owner L.block L.made L.shown (view pass.old) pass.new.seat.me }
    {
        let mark = self.caller_mark(pass.errand.caller());
        let Memory { block, words } = memory;
        pass.seat.carry(words);
        self.take_back::<L>(&mut pass.seat, &pass.errand, mark, block.place, block.need);
        pass.out -= 1;
        block
    }

    /// Copies the usable words of a block into another one, as plain memory, and fills the rest of that with 0. Both go
    /// out with the pass and come back within the call.
    pub(crate) fn copy_plainly(&self, pass: &mut Pass, from: Block, to: Block)
        requires of { IsOf self.now pass.old }
        requires idle { IsIdle pass.old.errand }
        requires owned { Owns pass.old from }
        requires owned_too { Owns pass.old to }
        requires apart { from.place ≢ to.place }
        ensures { Copies (CallsOnWord self.now) pass.old from.place from.need to.place to.need pass.new }
    {
        let from = self.take_out(pass, from);
        let mut to = self.take_out(pass, to);
        copy_and_clear(from.words(self), to.words_mut(self));
        let _ = self.bring_copy(pass, &from, to);
        let _ = self.put_back(pass, from);
    }

    /// Lifts the usable words of the block that lies at this place and serves this need. The pass doesn't count them as out.
    #[inline(always)]
    pub(crate) fn lift_words(&self, pass: &mut Pass, place: u32, need: Need) -> PlainWords
        requires of { IsOf self.now pass.old }
        requires idle { IsIdle pass.old.errand }
        requires owned { OwnsAt pass.old place need }
        ensures words { AreWordsOf self.now place need result }
        ensures lifted { pass.new ≡ lifted_from pass.old place need (numbers result.places) }
        ensures told { TellsWritten (seen pass.old) place (numbers result.places) }
    {
        let mark = self.caller_mark(pass.errand.caller());
        self.lend::<Brand>(&mut pass.seat, &pass.errand, mark, place, need);
        pass.seat.lift()
    }

    /// Takes out the usable words of the block that `L` names for the proof. The caller's mark says from now on that
    /// words may be out, and says so for good: where it did, it is only read.
    #[inline(always)]
    fn lend<L: Lending>(
        &self,
        seat: &mut Seat<View>,
        errand: &Errand,
        mark: usize,
        place: u32,
        need: Need,
    )
        requires table { seat.old.region ≡ self.now.region }
        requires empty { seat.old.me.1 ≡ [] }
        requires mark { mark ≡ mark_place self.now.layout (caller_mark self.now.layout L.owner.caller) }
        requires within { mark < self.now.region.words }
        requires may { MayLend seat.old.me.0 L.owner L.block.place L.block.need }
        ensures seat { (seat.new.region ≡ seat.old.region) × (seat.new.id ≡ seat.old.id) }
        ensures lent { HasLent L.block.place L.block.need seat.old.me.0 seat.new.me }
    {
        if self.lend_marked::<L>(seat, errand, mark, place, need) != OUT {
            self.lend_first::<L>(seat, errand, mark, place, need);
        }
    }

    /// Takes the words out where the caller's mark says that some may be out. It answers what the mark says.
    #[inline(always)]
    fn lend_marked<L: Lending>(
        &self,
        seat: &mut Seat<View>,
        _errand: &Errand,
        mark: usize,
        _place: u32,
        _need: Need,
    ) -> u64
        requires table { seat.old.region ≡ self.now.region }
        requires empty { seat.old.me.1 ≡ [] }
        requires mark { mark ≡ mark_place self.now.layout (caller_mark self.now.layout L.owner.caller) }
        requires within { mark < self.now.region.words }
        requires may { MayLend seat.old.me.0 L.owner L.block.place L.block.need }
        ensures seat { (seat.new.region ≡ seat.old.region) × (seat.new.id ≡ seat.old.id) }
        ensures lent { LendsWhere L.block.place L.block.need result seat.old.me seat.new.me }
    {
        let start = self.table.start();
        self.table.shared.load::<LendsMarked<L>>(seat, start, mark)
    }

    /// Takes the words out, and marks that words of the caller may be out.
    #[cold]
    #[inline(never)]
    fn lend_first<L: Lending>(
        &self,
        seat: &mut Seat<View>,
        _errand: &Errand,
        mark: usize,
        _place: u32,
        _need: Need,
    )
        requires table { seat.old.region ≡ self.now.region }
        requires empty { seat.old.me.1 ≡ [] }
        requires mark { mark ≡ mark_place self.now.layout (caller_mark self.now.layout L.owner.caller) }
        requires within { mark < self.now.region.words }
        requires may { MayLend seat.old.me.0 L.owner L.block.place L.block.need }
        ensures seat { (seat.new.region ≡ seat.old.region) × (seat.new.id ≡ seat.old.id) }
        ensures lent { HasLent L.block.place L.block.need seat.old.me.0 seat.new.me }
    {
        let start = self.table.start();
        self.table.shared.store::<Lends<L>>(seat, start, mark, OUT);
    }

    /// Gives back the usable words of the block that `L` names for the proof, and with them the calls on words that it
    /// names are made. The caller's mark stays set.
    #[inline(always)]
    pub(crate) fn take_back<L: Lending>(
        &self,
        seat: &mut Seat<View>,
        _errand: &Errand,
        mark: usize,
        _place: u32,
        _need: Need,
    )
        requires table { seat.old.region ≡ self.now.region }
        requires mark { mark ≡ mark_place self.now.layout (caller_mark self.now.layout L.owner.caller) }
        requires within { mark < self.now.region.words }
        requires may { MayReturn seat.old.me L.owner L.block L.made L.shown }
        ensures seat { (seat.new.region ≡ seat.old.region) × (seat.new.id ≡ seat.old.id) }
        ensures returned { HasReturned L.owner L.block L.made L.shown seat.old.me.0 seat.new.me }
    {
        let start = self.table.start();
        self.table.shared.load::<Returns<L>>(seat, start, mark);
    }

    /// Where no block's words are out with the pass, its caller's mark says so from now on. Taking words out marks it again.
    /// A heap that is dropped, and not closed, gives its memory back only where each caller's mark says so.
    pub fn rest(&self, pass: &mut Pass)
        requires of { IsOf self.now pass.old }
        ensures same { pass.new ≡ pass.old }
    {
        if pass.out == 0 {
            let mark = self.caller_mark(pass.errand.caller());
            self.clear_mark(&mut pass.seat, mark);
        }
    }

    /// Clears the mark of a seat's caller, where nothing is out with the seat.
    #[inline(never)]
    fn clear_mark(&self, seat: &mut Seat<View>, mark: usize)
        requires table { seat.old.region ≡ self.now.region }
        requires mark { MayRest self.now.layout seat.old.me mark }
        requires within { mark < self.now.region.words }
        ensures seat { (seat.new.region ≡ seat.old.region) × (seat.new.id ≡ seat.old.id) }
        ensures same { seat.new.me ≡ seat.old.me }
    {
        let start = self.table.start();
        self.table.shared.store::<Rests>(seat, start, mark, BLANK);
    }

    /// The place of the caller's mark. It is counted from the end of the memory, where it takes the least.
    #[inline(always)]
    pub(crate) fn caller_mark(&self, caller: u32) -> usize
        requires { caller < self.now.layout.callers }
        ensures place { result ≡ mark_place self.now.layout (caller_mark self.now.layout caller) }
        ensures within { result < self.now.region.words }
    {
        let behind = APART * (self.layout.geometry().callers - caller);
        self.table.count() - behind as usize
    }
}

/// Copies a slice into another one, as far as both go, and fills the rest of that with 0.
fn copy_and_clear(from: &[u64], to: &mut [u64])
    ensures { to.new ≡ copy_of from.now (length to.old) }
{
    for i in 0..to.len() {
        to[i] = word_or_zero(from, i);
    }
}

/// A word of a slice; past its end it is 0.
fn word_or_zero(words: &[u64], i: usize) -> u64
    ensures { result ≡ slice_index_or words.now i 0 }
{
    if i < words.len() { words[i] } else { 0 }
}
