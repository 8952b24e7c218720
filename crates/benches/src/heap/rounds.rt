//! Pairs of calls, and rounds of blocks that are filled and checked.

ghost use Rattle.std.specs.Prelude.{◌∷◌, List, []};
ghost use Rattle.live_heap.specs.declared.block.Block.{Block};
ghost use Rattle.benches.specs.Hands.{Keeps};

use crate::command::Task;
use crate::heap::front::Front;
use crate::heap::tally::{Tally, count};
use crate::heap::worker::{Work, Worker};
use live_heap::block::Block;
use live_heap::heap::Heap;
use std::sync::Wait;

/// How many tries a call has until it is interrupted.
const TRIES: u32 = 4;

/// How many usable words the blocks have that are filled and checked.
const WORDS: u32 = 31;

/// So many allocations of one word, each with its free behind it.
fn make_pairs<R: Wait, F: Front>(rt: &R, heap: &Heap, front: &mut F, pairs: u64, tally: &mut Tally)
    requires rests { F.rests heap.now front.old }
    requires none { F.holds front.old [] }
    ensures { F.rests heap.now front.new }
{
    for _ in 0..pairs {
        count(&mut tally.made);
        if let Some(block) = front.allocate(rt, heap, 1, TRIES, tally) {
            front.release(rt, heap, block, TRIES, tally);
        }
    }
}

/// Fills a block and checks the sum of its words, so many times.
fn make_words<R: Wait, F: Front>(rt: &R, heap: &Heap, front: &mut F, rounds: u64, tally: &mut Tally)
    requires rests { F.rests heap.now front.old }
    requires none { F.holds front.old [] }
    ensures rests { F.rests heap.now front.new }
    ensures none { F.holds front.new [] }
{
    if let Some(block) = front.allocate(rt, heap, WORDS, TRIES, tally) {
        turn_over(heap, front, &block, rounds, tally);
        front.release(rt, heap, block, TRIES, tally);
    }
}

/// The rounds of one block.
fn turn_over<F: Front>(heap: &Heap, front: &mut F, block: &Block, rounds: u64, tally: &mut Tally)
    requires rests { F.rests heap.now front.old }
    requires held { (others : List Block) × F.holds front.old (block.now ∷ others) }
    ensures rests { F.rests heap.now front.new }
    ensures keeps { Keeps F.holds front.old front.new }
{
    for round in 0..rounds {
        count(&mut tally.made);
        front.fill(heap, block, round);
        let found = front.sum(heap, block);
        tally.count_words(block);
        tally.count_words(block);
        if found != sum_from(round, block.usable_words()) {
            count(&mut tally.wrong);
        }
    }
}

/// The sum of so many numbers from one on, modulo 2^64.
fn sum_from(from: u64, count: u32) -> u64 {
    let count = u64::from(count);
    let pairs = count.wrapping_mul(count.wrapping_sub(1)) / 2;
    from.wrapping_mul(count).wrapping_add(pairs)
}

/// So many allocations that are filled, checked and freed.
fn make_blocks<R: Wait, F: Front>(
    rt: &R,
    heap: &Heap,
    front: &mut F,
    rounds: u64,
    tally: &mut Tally,
)
    requires rests { F.rests heap.now front.old }
    requires none { F.holds front.old [] }
    ensures { F.rests heap.now front.new }
{
    for _ in 0..rounds {
        make_words(rt, heap, front, 1, tally);
    }
}

impl<F: Front> Work<F> for Task {
    fn work<R: Wait>(&self, rt: &R, heap: &Heap, worker: &mut Worker<F>, count: u64) {
        match *self {
            Task::Pairs => make_pairs(rt, heap, &mut worker.front, count, &mut worker.tally),
            Task::Words => make_words(rt, heap, &mut worker.front, count, &mut worker.tally),
            Task::Blocks => make_blocks(rt, heap, &mut worker.front, count, &mut worker.tally),
            Task::Stress => worker.stress(rt, heap, count),
        }
    }
}
