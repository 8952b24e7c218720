//! Whole calls of a pass on the blocks in its hand. Where a call can't be made, since the pass is in another
//! one or there is no such block, word or shelf, the answer is `None`.

ghost use Rattle.std.specs.Prelude.{◌<◌};
ghost use Rattle.live_heap.specs.Hands.{IsHand};

use crate::brought::{take_given, take_got, take_resumed, take_returned};
use crate::request::{Request, Told};
use heap_geometry::limits::SHELVES;
use live_heap::answers::FreeAnswer;
use live_heap::block::Block;
use live_heap::heap::Heap;
use live_heap::laws::hands::{hands_give_out_blocks, hands_go_through_calls};
use live_heap::pass::Pass;
use std::alloc::AllocError;

/// An allocation of so many usable words.
fn alloc(
    heap: &Heap,
    pass: &mut Pass,
    blocks: &mut Vec<Block>,
    need: u32,
    tries: u32,
) -> Result<Option<Told>, AllocError>
    requires hand { IsHand heap.now pass.old blocks.old.items }
    requires tries { 0 < tries }
    ensures { IsHand heap.now pass.new blocks.new.items }
{
    blocks.reserve(1)?;
    if !pass.idle() {
        return Ok(None);
    }
    hands_go_through_calls();
    let answer = heap.alloc(pass, need, tries);
    Ok(Some(take_given(blocks, answer)))
}

/// The free of the block at this number.
fn free(
    heap: &Heap,
    pass: &mut Pass,
    blocks: &mut Vec<Block>,
    number: usize,
    tries: u32,
) -> Option<FreeAnswer>
    requires hand { IsHand heap.now pass.old blocks.old.items }
    requires tries { 0 < tries }
    ensures { IsHand heap.now pass.new blocks.new.items }
{
    if !pass.idle() || number >= blocks.len() {
        return None;
    }
    hands_give_out_blocks();
    hands_go_through_calls();
    let block = blocks.remove(number);
    Some(heap.free(pass, block, tries))
}

/// Goes on with the call that was interrupted.
fn resume(
    heap: &Heap,
    pass: &mut Pass,
    blocks: &mut Vec<Block>,
    tries: u32,
) -> Result<Option<Told>, AllocError>
    requires hand { IsHand heap.now pass.old blocks.old.items }
    requires tries { 0 < tries }
    ensures { IsHand heap.now pass.new blocks.new.items }
{
    blocks.reserve(1)?;
    if pass.idle() {
        return Ok(None);
    }
    hands_go_through_calls();
    let answer = heap.resume(pass, tries);
    Ok(Some(take_resumed(blocks, answer)))
}

/// Writes a word of the block at this number.
fn write(
    heap: &Heap,
    pass: &mut Pass,
    blocks: &[Block],
    number: usize,
    i: u32,
    v: u64,
) -> Option<()>
    requires hand { IsHand heap.now pass.old blocks.now }
    ensures { IsHand heap.now pass.new blocks.now }
{
    if !pass.idle() || number >= blocks.len() || i >= blocks[number].usable_words() {
        return None;
    }
    hands_give_out_blocks();
    hands_go_through_calls();
    heap.write(pass, &blocks[number], i, v);
    Some(())
}

/// Reads a word of the block at this number.
fn read(heap: &Heap, pass: &mut Pass, blocks: &[Block], number: usize, i: u32) -> Option<u64>
    requires hand { IsHand heap.now pass.old blocks.now }
    ensures { IsHand heap.now pass.new blocks.now }
{
    if !pass.idle() || number >= blocks.len() || i >= blocks[number].usable_words() {
        return None;
    }
    hands_give_out_blocks();
    hands_go_through_calls();
    Some(heap.read(pass, &blocks[number], i))
}

/// Puts the block at this number on a shelf.
fn put(
    heap: &Heap,
    pass: &mut Pass,
    blocks: &mut Vec<Block>,
    number: usize,
    shelf: u8,
) -> Option<Told>
    requires hand { IsHand heap.now pass.old blocks.old.items }
    ensures { IsHand heap.now pass.new blocks.new.items }
{
    if !pass.idle() || number >= blocks.len() || shelf >= SHELVES {
        return None;
    }
    hands_give_out_blocks();
    hands_go_through_calls();
    let block = blocks.remove(number);
    let answer = heap.put(pass, block, shelf);
    Some(take_returned(blocks, answer))
}

/// Takes the block that lies on a shelf.
fn take(
    heap: &Heap,
    pass: &mut Pass,
    blocks: &mut Vec<Block>,
    shelf: u8,
) -> Result<Option<Told>, AllocError>
    requires hand { IsHand heap.now pass.old blocks.old.items }
    ensures { IsHand heap.now pass.new blocks.new.items }
{
    blocks.reserve(1)?;
    if !pass.idle() || shelf >= SHELVES {
        return Ok(None);
    }
    hands_go_through_calls();
    let answer = heap.take(pass, shelf);
    Ok(Some(take_got(blocks, answer)))
}

/// What the free of the block at this place came to.
fn told_free(place: Option<u32>, answer: Option<FreeAnswer>) -> Option<Told> {
    match answer? {
        FreeAnswer::Freed => Some(Told::FreedAt(place?)),
        FreeAnswer::Busy => Some(Told::Busy),
    }
}

/// Makes the call that is asked for.
pub fn make(
    heap: &Heap,
    pass: &mut Pass,
    blocks: &mut Vec<Block>,
    request: Request,
    tries: u32,
) -> Result<Option<Told>, AllocError>
    requires hand { IsHand heap.now pass.old blocks.old.items }
    requires tries { 0 < tries }
    ensures { IsHand heap.now pass.new blocks.new.items }
{
    match request {
        Request::Alloc(need) => alloc(heap, pass, blocks, need, tries),
        Request::Free(number) => {
            let place = blocks.get(number).map(Block::place);
            Ok(told_free(place, free(heap, pass, blocks, number, tries)))
        }
        Request::Resume => resume(heap, pass, blocks, tries),
        Request::Write(number, i, v) => {
            let wrote = write(heap, pass, blocks.as_slice(), number, i, v);
            Ok(wrote.map(|()| Told::Wrote))
        }
        Request::Read(number, i) => {
            let word = read(heap, pass, blocks.as_slice(), number, i);
            Ok(word.map(Told::Word))
        }
        Request::Put(number, shelf) => Ok(put(heap, pass, blocks, number, shelf)),
        Request::Take(shelf) => take(heap, pass, blocks, shelf),
    }
}
