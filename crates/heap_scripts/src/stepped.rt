//! The same calls step by step, as far as a pace allows.

ghost use Rattle.std.specs.Prelude.{◌<◌, vec_len, vec_capacity};
ghost use Rattle.errand_steps.specs.Begins.{IsBusy};
ghost use Rattle.live_heap.specs.Hands.{IsHand};

use crate::brought::{take_ending, take_step};
use crate::request::{Request, Told};
use errand_steps::reply::Begun;
use errand_steps::told::{Ending, Stepped};
use heap_geometry::limits::SHELVES;
use live_heap::block::Block;
use live_heap::heap::Heap;
use live_heap::laws::by_steps::calls_go_step_by_step;
use live_heap::laws::hands::{
    hands_give_out_blocks, hands_go_through_calls, hands_go_through_steps,
};
use live_heap::pass::Pass;
use std::alloc::AllocError;

/// How far an allocation or a free goes on until it is interrupted. The other calls go to their end.
#[derive(Clone, Copy)]
pub struct Pace {
    /// How many of its steps lose an exchange or clear a superblock.
    pub tries: u32,
    /// How many steps it makes.
    pub steps: u32,
}

/// Goes on with the call that is under way.
fn go_on(heap: &Heap, pass: &mut Pass, blocks: &mut Vec<Block>, pace: Pace, made: &mut u64) -> Told
    requires hand { IsHand heap.now pass.old blocks.old.items }
    requires busy { IsBusy pass.old.errand }
    requires room { vec_len blocks.old < vec_capacity blocks.old }
    ensures { IsHand heap.now pass.new blocks.new.items }
{
    calls_go_step_by_step();
    hands_go_through_steps();
    let mut left = pace.tries;
    for _ in 0..pace.steps {
        if left == 0 {
            return Told::Busy;
        }
        count(made);
        match heap.step(pass) {
            Stepped::Idle => unreachable!(),
            Stepped::More => {}
            Stepped::Lost => left -= 1,
            Stepped::Cleared => left -= 1,
            Stepped::Done(ending) => return take_ending(blocks, ending),
        }
    }
    Told::Busy
}

/// One step more is made.
fn count(made: &mut u64) {
    *made = made.saturating_add(1);
}

/// An allocation of so many usable words.
fn alloc(
    heap: &Heap,
    pass: &mut Pass,
    blocks: &mut Vec<Block>,
    need: u32,
    pace: Pace,
    made: &mut u64,
) -> Result<Option<Told>, AllocError>
    requires { IsHand heap.now pass.old blocks.old.items }
    ensures { IsHand heap.now pass.new blocks.new.items }
{
    blocks.reserve(1)?;
    if !pass.idle() {
        return Ok(None);
    }
    calls_go_step_by_step();
    hands_go_through_steps();
    match heap.begin_alloc(pass, need) {
        Begun::TooLarge => Ok(Some(Told::TooLarge)),
        Begun::Spent => Ok(Some(Told::Spent)),
        Begun::Started => Ok(Some(go_on(heap, pass, blocks, pace, made))),
    }
}

/// The free of the block at this number.
fn free(
    heap: &Heap,
    pass: &mut Pass,
    blocks: &mut Vec<Block>,
    number: usize,
    pace: Pace,
    made: &mut u64,
) -> Option<Told>
    requires { IsHand heap.now pass.old blocks.old.items }
    ensures { IsHand heap.now pass.new blocks.new.items }
{
    if !pass.idle() || number >= blocks.len() {
        return None;
    }
    calls_go_step_by_step();
    hands_give_out_blocks();
    hands_go_through_steps();
    let block = blocks.remove(number);
    heap.begin_free(pass, block);
    Some(go_on(heap, pass, blocks, pace, made))
}

/// Goes on with the call that was interrupted.
fn resume(
    heap: &Heap,
    pass: &mut Pass,
    blocks: &mut Vec<Block>,
    pace: Pace,
    made: &mut u64,
) -> Result<Option<Told>, AllocError>
    requires { IsHand heap.now pass.old blocks.old.items }
    ensures { IsHand heap.now pass.new blocks.new.items }
{
    blocks.reserve(1)?;
    if pass.idle() {
        return Ok(None);
    }
    Ok(Some(go_on(heap, pass, blocks, pace, made)))
}

/// Writes a word of the block at this number.
fn write(
    heap: &Heap,
    pass: &mut Pass,
    blocks: &[Block],
    number: usize,
    i: u32,
    v: u64,
    made: &mut u64,
) -> Option<Told>
    requires { IsHand heap.now pass.old blocks.now }
    ensures { IsHand heap.now pass.new blocks.now }
{
    if !pass.idle() || number >= blocks.len() || i >= blocks[number].usable_words() {
        return None;
    }
    calls_go_step_by_step();
    hands_give_out_blocks();
    hands_go_through_calls();
    heap.begin_write(pass, &blocks[number], i, v);
    count(made);
    told_word(heap.step(pass))
}

/// Reads a word of the block at this number.
fn read(
    heap: &Heap,
    pass: &mut Pass,
    blocks: &[Block],
    number: usize,
    i: u32,
    made: &mut u64,
) -> Option<Told>
    requires { IsHand heap.now pass.old blocks.now }
    ensures { IsHand heap.now pass.new blocks.now }
{
    if !pass.idle() || number >= blocks.len() || i >= blocks[number].usable_words() {
        return None;
    }
    calls_go_step_by_step();
    hands_give_out_blocks();
    hands_go_through_calls();
    heap.begin_read(pass, &blocks[number], i);
    count(made);
    told_word(heap.step(pass))
}

/// What the step of a call on a word came to.
fn told_word(step: Stepped<Block>) -> Option<Told> {
    match step {
        Stepped::Done(Ending::Wrote) => Some(Told::Wrote),
        Stepped::Done(Ending::Word(word)) => Some(Told::Word(word)),
        _ => None,
    }
}

/// Puts the block at this number on a shelf.
fn put(
    heap: &Heap,
    pass: &mut Pass,
    blocks: &mut Vec<Block>,
    number: usize,
    shelf: u8,
    made: &mut u64,
) -> Option<Told>
    requires { IsHand heap.now pass.old blocks.old.items }
    ensures { IsHand heap.now pass.new blocks.new.items }
{
    if !pass.idle() || number >= blocks.len() || shelf >= SHELVES {
        return None;
    }
    calls_go_step_by_step();
    hands_give_out_blocks();
    hands_go_through_calls();
    let block = blocks.remove(number);
    heap.begin_put(pass, block, shelf);
    count(made);
    take_step(blocks, heap.step(pass))
}

/// Takes the block that lies on a shelf.
fn take(
    heap: &Heap,
    pass: &mut Pass,
    blocks: &mut Vec<Block>,
    shelf: u8,
    made: &mut u64,
) -> Result<Option<Told>, AllocError>
    requires { IsHand heap.now pass.old blocks.old.items }
    ensures { IsHand heap.now pass.new blocks.new.items }
{
    blocks.reserve(1)?;
    if !pass.idle() || shelf >= SHELVES {
        return Ok(None);
    }
    calls_go_step_by_step();
    hands_go_through_calls();
    heap.begin_take(pass, shelf);
    count(made);
    let _ = heap.step(pass);
    count(made);
    Ok(take_step(blocks, heap.step(pass)))
}

/// What the free of the block at this place came to.
fn told_free(place: Option<u32>, told: Option<Told>) -> Option<Told> {
    match told? {
        Told::Freed => Some(Told::FreedAt(place?)),
        told => Some(told),
    }
}

/// Makes the call that is asked for, and adds its steps to those that were made.
pub fn make(
    heap: &Heap,
    pass: &mut Pass,
    blocks: &mut Vec<Block>,
    request: Request,
    pace: Pace,
    made: &mut u64,
) -> Result<Option<Told>, AllocError>
    requires { IsHand heap.now pass.old blocks.old.items }
    ensures { IsHand heap.now pass.new blocks.new.items }
{
    match request {
        Request::Alloc(need) => alloc(heap, pass, blocks, need, pace, made),
        Request::Free(number) => {
            let place = blocks.get(number).map(Block::place);
            let told = free(heap, pass, blocks, number, pace, made);
            Ok(told_free(place, told))
        }
        Request::Resume => resume(heap, pass, blocks, pace, made),
        Request::Write(number, i, v) => {
            Ok(write(heap, pass, blocks.as_slice(), number, i, v, made))
        }
        Request::Read(number, i) => Ok(read(heap, pass, blocks.as_slice(), number, i, made)),
        Request::Put(number, shelf) => Ok(put(heap, pass, blocks, number, shelf, made)),
        Request::Take(shelf) => take(heap, pass, blocks, shelf, made),
    }
}
