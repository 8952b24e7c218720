//! A pass with its magazines, its share in the heap and its blocks.

ghost use Rattle.std.specs.Prelude.{ℕ, ◌≡◌, ◌<◌, [], Result};
ghost use Rattle.heap_geometry.specs.declared.limits.TheConstants.{CLASSES};
ghost use Rattle.std.specs.Arc.{arc_value};
ghost use Rattle.balloc_c.specs.Laid.{room_of};
ghost use Rattle.balloc_c.specs.Packed.{IsPacked};
ghost use Rattle.balloc_c.specs.Tended.{Tends};
ghost use Rattle.shared_heap.specs.Shares.{IsTicketOf};

use crate::counted::Counted;
use crate::handed::Handed;
use crate::refusal::Refusal;
use crate::table::Table;
use crate::{calls, code_with, lending, ranges};
use block_cache::cache::Cache;
use shared_heap::shared::{End, Left, SharedHeap, Ticket};
use std::alloc::Global;

/// A pass with its magazines, its share in the heap and its blocks. Magazines of depth 0 keep nothing: each call is
/// the heap's.
#[derive(Drop)]
pub struct Hand {
    heap: SharedHeap,
    /// The right to give its pass back.
    ticket: Ticket,
    cache: Cache,
    table: Table,
    /// What keeps it apart from what lies behind it in memory: another pass's magazines, which its own thread writes.
    rest: [u64; 16],
    ghost is_tended: { ∥ Tends (arc_value heap.heap) cache table.slots.items × IsPacked table × IsTicketOf heap ticket.caller ticket ∥₁ },
}

impl Hand {
    ghost use Rattle.balloc_c.specs.Outcomes.{TellsWords, HasAllocated, HasPut, HasRead, HasResumed, HasTaken, HasWritten, Makes, NoneRests, counts_of};
    ghost use Rattle.balloc_c.specs.Closed.{GivesBack, LeavesBlocks, TellsCensus};
    ghost use Rattle.balloc_c.specs.Ranges.{HasFilled, HasReadRange, HasSummed, HasWrittenRange, IsFound};
    ghost use Rattle.balloc_c.specs.Hands.{IsTended, heap_of};
    ghost use Rattle.balloc_c.specs.Lending.{AllocatesMemory, AllocatesNew, AreNumbers, BringsHome, FreesBack, HasToldMemory, IsBackFor, StayOut};
    ghost use Rattle.balloc_c.specs.Numbers.{named};
    ghost use Rattle.balloc_c.specs.declared.refusal.Refusal.{Refusal};
    ghost use Rattle.balloc_c.specs.declared.refusal.Refusal.TheVariants as refusal;
    ghost use Rattle.balloc_c.specs.Codes.{code_in, code_of, value_in, word_in, word_of};

    /// A pass with no block, and no slot for one, which keeps so many of a class that are home, and so many that are out.
    pub fn new(alloc: Global, heap: SharedHeap, ticket: Ticket, cache: Cache, depth: u8) -> Hand
        requires tends { Tends (arc_value heap.heap) cache [] }
        requires ticket { IsTicketOf heap ticket.caller ticket }
        ensures parts { (result.heap ≡ heap) × (result.cache ≡ cache) × (result.ticket ≡ ticket) }
        ensures bare { result.table.slots.items ≡ [] }
        ensures rooms { (class : ℕ) → class < CLASSES → (room_of result.table.resting class ≡ depth) × (room_of result.table.laid class ≡ depth) }
    {
        Hand {
            heap,
            ticket,
            cache,
            table: Table::new(alloc, depth),
            rest: [0; 16],
        }
    }

    /// What its type keeps, opened for a call: a field holds it only as a fact that has one proof.
    fn tended(&self)
        ensures { IsTended self.now }
    {}

    /// An allocation of so many usable words. Tells the block's number. Where a magazine and a slot stand ready it is made
    /// here, with no call; else by a function of its own, so that what that needs costs nothing here.
    #[inline(always)]
    pub fn alloc(&mut self, words: u32, id: &mut u64) -> i32
        ensures { (outcome : Result ℕ Refusal) × (result ≡ code_in outcome) × (id.new ≡ value_in outcome id.old)
            × Makes (λ c t. HasAllocated c t words) self.old outcome self.new }
    {
        self.tended();
        match calls::next_resting(&self.cache, &self.table, words) {
            Some((index, class)) => {
                let number = calls::wake(
                    self.heap.heap(),
                    &self.cache,
                    &mut self.table,
                    index,
                    class,
                    words,
                );
                code_with(Ok(number), id)
            }
            None => self.alloc_away(words, id),
        }
    }

    /// The same allocation, apart from who makes it.
    #[inline(never)]
    fn alloc_away(&mut self, words: u32, id: &mut u64) -> i32
        requires { NoneRests self.old.cache self.old.table words }
        ensures { (outcome : Result ℕ Refusal) × (result ≡ code_in outcome) × (id.new ≡ value_in outcome id.old)
            × Makes (λ c t. HasAllocated c t words) self.old outcome self.new }
    {
        self.tended();
        code_with(
            calls::alloc_new(self.heap.heap(), &mut self.cache, &mut self.table, words),
            id,
        )
    }

    /// An allocation of so many bytes, whose memory goes out: what the pass keeps, or a block's. Tells the block's number.
    pub fn alloc_memory(&mut self, bytes: usize, id: &mut u64) -> Handed
        ensures { (outcome : Result ℕ Refusal) × (result.code ≡ word_in outcome) × (id.new ≡ value_in outcome id.old)
            × Makes (λ c t answer d u. AllocatesMemory (heap_of self.old) c t bytes answer result.memory result.words d u) self.old outcome self.new }
    {
        self.tended();
        match lending::next_ready(&self.cache, &self.table, bytes) {
            Some((index, class)) => lending::give_again(
                self.heap.heap(),
                &self.cache,
                &mut self.table,
                index,
                class,
                bytes,
                id,
            ),
            None => self.alloc_new(bytes, id),
        }
    }

    /// An allocation of a block of so many bytes, whose memory goes out. It stands apart, so that memory that is given again
    /// saves no registers for it.
    #[inline(never)]
    fn alloc_new(&mut self, bytes: usize, id: &mut u64) -> Handed
        ensures { (outcome : Result ℕ Refusal) × (result.code ≡ word_in outcome) × (id.new ≡ value_in outcome id.old)
            × Makes (λ c t answer d u. AllocatesNew (heap_of self.old) c t bytes answer result.memory result.words d u) self.old outcome self.new }
    {
        self.tended();
        lending::alloc_new(
            self.heap.heap(),
            &mut self.cache,
            &mut self.table,
            bytes,
            id,
        )
    }

    /// Where the memory of the block of this number begins. Words that are home go out.
    pub fn memory(&mut self, number: u64) -> Handed
        ensures { (outcome : Result (Unit {0}) Refusal) × (result.code ≡ word_in outcome)
            × Makes (λ c t answer d u. HasToldMemory (heap_of self.old) c t number answer result.memory result.words d u) self.old outcome self.new }
    {
        self.tended();
        lending::memory(self.heap.heap(), &mut self.cache, &mut self.table, number)
    }

    /// Frees the block of this number, for which words that are out come back. Where the pass keeps it, it is freed here, with no
    /// call; else by a function of its own, so that what that needs costs nothing here.
    #[inline(always)]
    pub fn free(&mut self, number: u64, back: Handed) -> Handed
        requires back { IsBackFor (heap_of self.old) (named self.old.table number) back.words }
        requires code { back.code ≡ word_of (code_of refusal.InCall) }
        ensures { (outcome : Result (Unit {0}) Refusal) × (result.code ≡ word_in outcome) × StayOut outcome result.words
            × Makes (λ c t answer d u. FreesBack (heap_of self.old) c t number back.words answer result.words d u) self.old outcome self.new }
    {
        self.tended();
        match lending::next_kept(&self.cache, &self.table, number) {
            Some((index, class)) => lending::free_here(
                self.heap.heap(),
                &self.cache,
                &mut self.table,
                index,
                class,
                number,
            ),
            None => self.free_out(number, back),
        }
    }

    /// The same free, of a block whose words are out or that the pass doesn't keep.
    #[inline(always)]
    fn free_out(&mut self, number: u64, back: Handed) -> Handed
        requires back { IsBackFor (heap_of self.old) (named self.old.table number) back.words }
        requires code { back.code ≡ word_of (code_of refusal.InCall) }
        ensures { (outcome : Result (Unit {0}) Refusal) × (result.code ≡ word_in outcome) × StayOut outcome result.words
            × Makes (λ c t answer d u. FreesBack (heap_of self.old) c t number back.words answer result.words d u) self.old outcome self.new }
    {
        self.tended();
        match lending::next_laid(&self.cache, &self.table, number) {
            Some((index, class)) => lending::free_out_here(
                self.heap.heap(),
                &self.cache,
                &mut self.table,
                index,
                class,
                number,
                back,
            ),
            None => self.free_away(number, back),
        }
    }

    /// The same free, apart from who makes it.
    #[inline(never)]
    fn free_away(&mut self, number: u64, back: Handed) -> Handed
        requires back { IsBackFor (heap_of self.old) (named self.old.table number) back.words }
        requires code { back.code ≡ word_of (code_of refusal.InCall) }
        ensures { (outcome : Result (Unit {0}) Refusal) × (result.code ≡ word_in outcome) × StayOut outcome result.words
            × Makes (λ c t answer d u. FreesBack (heap_of self.old) c t number back.words answer result.words d u) self.old outcome self.new }
    {
        self.tended();
        lending::free_back(
            self.heap.heap(),
            &mut self.cache,
            &mut self.table,
            number,
            back,
        )
    }

    /// Brings the memory of the block of this number home, where it is out.
    pub fn bring(&mut self, number: u64, back: Handed) -> Handed
        requires back { IsBackFor (heap_of self.old) (named self.old.table number) back.words }
        requires numbers { AreNumbers back.words }
        requires code { back.code ≡ word_of (code_of refusal.InCall) }
        ensures { (outcome : Result (Unit {0}) Refusal) × (result.code ≡ word_in outcome) × StayOut outcome result.words
            × Makes (λ c t answer d u. BringsHome (heap_of self.old) c t number back.words answer result.words d u) self.old outcome self.new }
    {
        self.tended();
        lending::bring(
            self.heap.heap(),
            &mut self.cache,
            &mut self.table,
            number,
            back,
        )
    }

    /// Frees all its blocks, those in magazines too, where they are to be freed.
    pub fn leave(&mut self, frees: bool) -> Result<(), Refusal>
        ensures { LeavesBlocks frees self.old result self.new }
    {
        self.tended();
        if frees {
            calls::free_all(self.heap.heap(), &mut self.cache, &mut self.table)
        } else {
            Ok(())
        }
    }

    /// Gives its pass back. Where it is the last one of the heap's that is given back, the heap closes, and what it holds
    /// is told.
    pub fn end(self, alloc: Global, counted: &mut Counted) -> Left
        ensures given { GivesBack self result.receipt.value }
        ensures census { TellsCensus self result counted.old counted.new }
    {
        self.tended();
        let Hand {
            heap,
            ticket,
            cache,
            table: _,
            rest: _,
        } = self;
        let left = heap.leave(alloc, ticket, cache.leave());
        if let End::Closed(closed) = &left.end {
            counted.tell(closed);
        }
        left
    }

    /// Goes on with the call that was interrupted. Answers the number of a block that it got.
    pub fn resume(&mut self) -> Result<Option<u64>, Refusal>
        ensures { Makes (λ c t. HasResumed (heap_of self.old) c t) self.old result self.new }
    {
        self.tended();
        calls::resume(self.heap.heap(), &mut self.cache, &mut self.table)
    }

    /// How many usable words the block of this number has.
    pub fn words(&self, number: u64) -> Result<u64, Refusal>
        ensures { TellsWords self.now.table number result }
    {
        calls::words(&self.table, number)
    }

    /// Writes a word of the block of this number.
    pub fn write(&mut self, number: u64, i: u32, value: u64) -> Result<(), Refusal>
        ensures { Makes (λ c t. HasWritten c t number i value) self.old result self.new }
    {
        self.tended();
        calls::write(
            self.heap.heap(),
            &mut self.cache,
            &self.table,
            number,
            i,
            value,
        )
    }

    /// Reads a word of the block of this number.
    pub fn read(&mut self, number: u64, i: u32) -> Result<u64, Refusal>
        ensures { Makes (λ c t. HasRead c t number i) self.old result self.new }
    {
        self.tended();
        calls::read(self.heap.heap(), &mut self.cache, &self.table, number, i)
    }

    /// Writes words of the block of this number in a row, from one on.
    pub fn write_range(&mut self, number: u64, from: u32, words: &[u64]) -> Result<(), Refusal>
        ensures { Makes (λ c t. HasWrittenRange c t number from words.now) self.old result self.new }
    {
        self.tended();
        ranges::write_range(
            self.heap.heap(),
            &mut self.cache,
            &self.table,
            number,
            from,
            words,
        )
    }

    /// Reads words of the block of this number in a row, from one on.
    pub fn read_range(&mut self, number: u64, from: u32, words: &mut [u64]) -> Result<(), Refusal>
        ensures made { Makes (λ c t. HasReadRange c t number from words.old words.new) self.old result self.new }
        ensures found { IsFound result words.old words.new }
    {
        self.tended();
        ranges::read_range(
            self.heap.heap(),
            &mut self.cache,
            &self.table,
            number,
            from,
            words,
        )
    }

    /// Fills the block of this number: word i with from + i, modulo 2^64.
    pub fn fill(&mut self, number: u64, from: u64) -> Result<(), Refusal>
        ensures { Makes (λ c t. HasFilled c t number from) self.old result self.new }
    {
        self.tended();
        ranges::fill(self.heap.heap(), &mut self.cache, &self.table, number, from)
    }

    /// The sum of the words of the block of this number, modulo 2^64.
    pub fn sum(&mut self, number: u64) -> Result<u64, Refusal>
        ensures { Makes (λ c t. HasSummed c t number) self.old result self.new }
    {
        self.tended();
        ranges::sum(self.heap.heap(), &mut self.cache, &self.table, number)
    }

    /// Puts the block of this number on a shelf.
    pub fn put(&mut self, number: u64, shelf: u8) -> Result<(), Refusal>
        ensures { Makes (λ c t. HasPut c t number shelf) self.old result self.new }
    {
        self.tended();
        calls::put(
            self.heap.heap(),
            &mut self.cache,
            &mut self.table,
            number,
            shelf,
        )
    }

    /// Takes the block that lies on a shelf. Answers its number.
    pub fn take(&mut self, shelf: u8) -> Result<u64, Refusal>
        ensures { Makes (λ c t. HasTaken c t shelf) self.old result self.new }
    {
        self.tended();
        calls::take(self.heap.heap(), &mut self.cache, &mut self.table, shelf)
    }

    /// What the pass has counted.
    pub fn counts(&self) -> (u64, u64, u64, u64)
        ensures { result ≡ counts_of self.now.cache.pass }
    {
        (
            self.cache.turns(),
            self.cache.won(),
            self.cache.lost(),
            self.cache.cleared(),
        )
    }
}
