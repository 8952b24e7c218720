//! What one thread works with, and its rounds.

ghost use Rattle.std.specs.Prelude.{◌≡◌, ◌<◌, ◌≤◌, IfNone, IfSome};
ghost use Rattle.heap_geometry.specs.declared.limits.TheConstants.{LARGE_MOST, SHELVES};
ghost use Rattle.benches.specs.Hands.{IsReady};

use crate::heap::front::Front;
use crate::heap::stamps::{fill, first_word, wrong_words};
use crate::heap::tally::{Tally, count};
use heap_geometry::limits::{CLASSES, SMALL_MOST};
use heap_scripts::random::Random;
use live_heap::block::Block;
use live_heap::heap::Heap;
use std::sync::Wait;

/// The most blocks in a hand.
pub const MOST_HELD: u32 = 8;

/// How many shelves are used.
const USED_SHELVES: u32 = 4;

/// A block in a thread's hand, and the number in each of its words.
#[derive(Drop)]
pub struct Stamped {
    pub block: Block,
    pub stamp: u64,
}

/// What one thread works with.
#[derive(Drop)]
pub struct Worker<F> {
    /// What it makes its calls through.
    pub front: F,
    /// The number of its caller.
    pub caller: u32,
    pub hand: Vec<Stamped>,
    pub random: Random,
    /// How many stamps the thread has used.
    pub stamps: u64,
    pub tally: Tally,
}

/// The usable words that are asked for next: mostly those of a small block, of which half are as often of
/// one class as of another, and now and then those of some units.
fn next_need(random: &mut Random) -> u32
    ensures { result ≤ LARGE_MOST }
{
    match random.below(32) {
        0 => SMALL_MOST + 1 + random.below(6000),
        1..=15 => {
            let class = random.below(u32::from(CLASSES));
            1 + random.below((2 << class) - 1)
        }
        _ => 1 + random.below(SMALL_MOST),
    }
}

/// The shelf of the next call that has one.
fn next_shelf(random: &mut Random) -> u8
    ensures { result < SHELVES }
{
    random.below(USED_SHELVES) as u8
}

/// How many tries the next call has: one, so that it goes on after its first lost exchange by itself, or
/// more.
fn next_tries(random: &mut Random) -> u32
    ensures { 0 < result }
{
    match random.below(4) {
        0 | 1 => 1,
        2 => 2,
        _ => 64,
    }
}

impl<F: Front> Worker<F> {
    ghost use Rattle.std.specs.Prelude.{◌∷◌, List, vec_len, vec_capacity};
    ghost use Rattle.live_heap.specs.declared.block.Block.{Block};
    ghost use Rattle.benches.specs.Hands.{IsWorking, Keeps, blocks_of};

    /// So many rounds of calls, and then all blocks in the hand are given back.
    pub fn stress<R: Wait>(&mut self, rt: &R, heap: &Heap, rounds: u64)
        requires { IsWorking F.rests F.holds heap.now self.old }
        ensures { IsWorking F.rests F.holds heap.now self.new }
    {
        for _ in 0..rounds {
            self.round(rt, heap);
            count(&mut self.tally.made);
        }
        self.give_all_back(rt, heap);
    }

    /// A call that is picked at random.
    fn round<R: Wait>(&mut self, rt: &R, heap: &Heap)
        requires { IsWorking F.rests F.holds heap.now self.old }
        ensures { IsWorking F.rests F.holds heap.now self.new }
    {
        match self.random.below(8) {
            0 => self.put_one(rt, heap),
            1 => self.take_up(heap),
            2..=4 => self.free_one(rt, heap),
            _ => self.get(rt, heap),
        }
    }

    /// Gets a block, where the hand has room for it, and fills it with a stamp that no other block has.
    fn get<R: Wait>(&mut self, rt: &R, heap: &Heap)
        requires { IsWorking F.rests F.holds heap.now self.old }
        ensures { IsWorking F.rests F.holds heap.now self.new }
    {
        if self.hand.len() == self.hand.capacity() {
            return;
        }
        let need = next_need(&mut self.random);
        let tries = next_tries(&mut self.random);
        if let Some(block) = self.front.allocate(rt, heap, need, tries, &mut self.tally) {
            let stamp = self.next_stamp();
            fill(heap, &mut self.front, &block, stamp);
            self.tally.count_words(&block);
            self.hold(block, stamp);
        }
    }

    /// A number that no other call gives, of this worker or another.
    fn next_stamp(&mut self) -> u64
        ensures front { self.new.front ≡ self.old.front }
        ensures hand { self.new.hand ≡ self.old.hand }
    {
        self.stamps = self.stamps.wrapping_add(1);
        self.stamps
            .wrapping_mul(16)
            .wrapping_add(u64::from(self.caller))
    }

    /// Takes a block from a shelf, where the hand has room for it, and checks that all its words are the
    /// same.
    fn take_up(&mut self, heap: &Heap)
        requires { IsWorking F.rests F.holds heap.now self.old }
        ensures { IsWorking F.rests F.holds heap.now self.new }
    {
        if self.hand.len() == self.hand.capacity() {
            return;
        }
        let shelf = next_shelf(&mut self.random);
        if let Some(block) = self.front.fetch(heap, shelf, &mut self.tally) {
            let stamp = first_word(heap, &mut self.front, &block);
            self.check(heap, &block, stamp);
            self.hold(block, stamp);
        }
    }

    /// One of the blocks in the hand; none where the place that was picked is empty.
    fn pick(&mut self) -> Option<Stamped>
        requires { F.holds self.old.front (blocks_of self.old.hand.items) }
        ensures front { self.new.front ≡ self.old.front }
        ensures none { IfNone result (self.new.hand ≡ self.old.hand) }
        ensures held { IfSome result (λ held. F.holds self.new.front (held.block ∷ blocks_of self.new.hand.items)) }
    {
        F::blocks_have_no_order();
        let place = self.random.below(MOST_HELD) as usize;
        if place < self.hand.len() {
            Some(self.hand.remove(place))
        } else {
            None
        }
    }

    /// Frees one of the blocks in the hand.
    fn free_one<R: Wait>(&mut self, rt: &R, heap: &Heap)
        requires { IsWorking F.rests F.holds heap.now self.old }
        ensures { IsWorking F.rests F.holds heap.now self.new }
    {
        if let Some(held) = self.pick() {
            self.give_back(rt, heap, held);
        }
    }

    /// Puts one of them on a shelf.
    fn put_one<R: Wait>(&mut self, rt: &R, heap: &Heap)
        requires { IsWorking F.rests F.holds heap.now self.old }
        ensures { IsWorking F.rests F.holds heap.now self.new }
    {
        if let Some(held) = self.pick() {
            self.put_down(rt, heap, held);
        }
    }

    /// Checks a block from the hand, and frees it.
    fn give_back<R: Wait>(&mut self, rt: &R, heap: &Heap, held: Stamped)
        requires rests { F.rests heap.now self.old.front }
        requires holds { F.holds self.old.front (held.block ∷ blocks_of self.old.hand.items) }
        ensures working { IsWorking F.rests F.holds heap.now self.new }
        ensures hand { self.new.hand ≡ self.old.hand }
    {
        let Stamped { block, stamp } = held;
        self.check(heap, &block, stamp);
        let tries = next_tries(&mut self.random);
        self.front.release(rt, heap, block, tries, &mut self.tally);
    }

    /// Checks a block from the hand, and puts it on a shelf.
    fn put_down<R: Wait>(&mut self, rt: &R, heap: &Heap, held: Stamped)
        requires rests { F.rests heap.now self.old.front }
        requires holds { F.holds self.old.front (held.block ∷ blocks_of self.old.hand.items) }
        ensures { IsWorking F.rests F.holds heap.now self.new }
    {
        let Stamped { block, stamp } = held;
        self.check(heap, &block, stamp);
        let shelf = next_shelf(&mut self.random);
        let tries = next_tries(&mut self.random);
        self.front
            .shelve(rt, heap, block, shelf, tries, &mut self.tally);
    }

    /// Counts the words of a block that are another number than its stamp.
    fn check(&mut self, heap: &Heap, block: &Block, stamp: u64)
        requires rests { F.rests heap.now self.old.front }
        requires held { (others : List Block) × F.holds self.old.front (block.now ∷ others) }
        ensures rests { F.rests heap.now self.new.front }
        ensures keeps { Keeps F.holds self.old.front self.new.front }
        ensures hand { self.new.hand ≡ self.old.hand }
    {
        let wrong = wrong_words(heap, &mut self.front, block, stamp);
        self.tally.count_words(block);
        self.tally.wrong = self.tally.wrong.saturating_add(wrong);
    }

    /// Puts a block into the hand.
    fn hold(&mut self, block: Block, stamp: u64)
        requires room { vec_len self.old.hand < vec_capacity self.old.hand }
        requires holds { F.holds self.old.front (block ∷ blocks_of self.old.hand.items) }
        ensures front { self.new.front ≡ self.old.front }
        ensures holds { F.holds self.new.front (blocks_of self.new.hand.items) }
    {
        F::blocks_have_no_order();
        self.hand.push_reserved(Stamped { block, stamp });
    }

    /// Checks all blocks in the hand, and frees them.
    fn give_all_back<R: Wait>(&mut self, rt: &R, heap: &Heap)
        requires { IsWorking F.rests F.holds heap.now self.old }
        ensures { IsWorking F.rests F.holds heap.now self.new }
    {
        F::blocks_have_no_order();
        while !self.hand.is_empty() {
            let held = self.hand.remove(0);
            self.give_back(rt, heap, held);
        }
    }
}

/// What a worker does, so many times.
pub trait Work<F: Front> {
    /// Does it, with an empty hand at first.
    fn work<R: Wait>(&self, rt: &R, heap: &Heap, worker: &mut Worker<F>, count: u64)
        requires { IsReady F.rests F.holds heap.now worker.old }
        ensures { F.rests heap.now worker.new.front };
}
