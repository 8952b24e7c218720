//! Calls through a cache on the blocks that its caller holds. Where a call can't be made, since another one is
//! under way or there is no such block, word or shelf, the answer is `None`.

ghost use Rattle.std.specs.Prelude.{◌<◌};
ghost use Rattle.block_cache.specs.Caches.{Holds, IsCache};

use crate::expect::expect;
use block_cache::cache::Cache;
use heap_geometry::limits::SHELVES;
use heap_scripts::request::{Request, Told};
use live_heap::answers::{AllocAnswer, FreeAnswer, Full, Resumed, Taken};
use live_heap::block::Block;
use live_heap::heap::Heap;
use std::alloc::AllocError;
use std::process::Abort;

/// How often a call may lose an exchange or clear a superblock.
const TRIES: u32 = 1;

/// An allocation of so many usable words.
fn alloc(
    heap: &Heap,
    cache: &mut Cache,
    held: &mut Vec<Block>,
    need: u32,
) -> Result<Option<Told>, AllocError>
    requires cache { IsCache heap.now cache.old }
    requires holds { Holds cache.old held.old.items }
    ensures cache { IsCache heap.now cache.new }
    ensures holds { Holds cache.new held.new.items }
{
    held.reserve(1)?;
    if !cache.idle() {
        return Ok(None);
    }
    let told = match cache.alloc(heap, need, TRIES) {
        AllocAnswer::Given(block) => {
            let place = block.place();
            held.push_reserved(block);
            return Ok(Some(Told::Given(place)));
        }
        AllocAnswer::Refused => Told::Refused,
        AllocAnswer::TooLarge => Told::TooLarge,
        AllocAnswer::Spent => Told::Spent,
        AllocAnswer::Busy => Told::Busy,
    };
    Ok(Some(told))
}

/// The free of the block at this number.
fn free(heap: &Heap, cache: &mut Cache, held: &mut Vec<Block>, number: usize) -> Option<Told>
    requires cache { IsCache heap.now cache.old }
    requires holds { Holds cache.old held.old.items }
    ensures cache { IsCache heap.now cache.new }
    ensures holds { Holds cache.new held.new.items }
{
    if !cache.idle() || number >= held.len() {
        return None;
    }
    let block = held.remove(number);
    let place = block.place();
    let told = match cache.free(heap, block, TRIES) {
        FreeAnswer::Freed => Told::FreedAt(place),
        FreeAnswer::Busy => Told::Busy,
    };
    Some(told)
}

/// Goes on with the call that was interrupted.
fn resume(heap: &Heap, cache: &mut Cache, held: &mut Vec<Block>) -> Result<Option<Told>, AllocError>
    requires cache { IsCache heap.now cache.old }
    requires holds { Holds cache.old held.old.items }
    ensures cache { IsCache heap.now cache.new }
    ensures holds { Holds cache.new held.new.items }
{
    held.reserve(1)?;
    if cache.idle() {
        return Ok(None);
    }
    let told = match cache.resume(heap, TRIES) {
        Resumed::Given(block) => {
            let place = block.place();
            held.push_reserved(block);
            return Ok(Some(Told::Given(place)));
        }
        Resumed::Freed => Told::Freed,
        Resumed::Refused => Told::Refused,
        Resumed::Spent => Told::Spent,
        Resumed::Busy => Told::Busy,
    };
    Ok(Some(told))
}

/// Writes a word of the block at this number.
fn write(
    heap: &Heap,
    cache: &mut Cache,
    held: &[Block],
    number: usize,
    i: u32,
    v: u64,
) -> Option<Told>
    requires cache { IsCache heap.now cache.old }
    requires holds { Holds cache.old held.now }
    ensures cache { IsCache heap.now cache.new }
    ensures holds { Holds cache.new held.now }
{
    if !cache.idle() || number >= held.len() || i >= held[number].usable_words() {
        return None;
    }
    cache.write(heap, &held[number], i, v);
    Some(Told::Wrote)
}

/// Reads a word of the block at this number.
fn read(heap: &Heap, cache: &mut Cache, held: &[Block], number: usize, i: u32) -> Option<Told>
    requires cache { IsCache heap.now cache.old }
    requires holds { Holds cache.old held.now }
    ensures cache { IsCache heap.now cache.new }
    ensures holds { Holds cache.new held.now }
{
    if !cache.idle() || number >= held.len() || i >= held[number].usable_words() {
        return None;
    }
    Some(Told::Word(cache.read(heap, &held[number], i)))
}

/// Puts the block at this number on a shelf.
fn put(
    heap: &Heap,
    cache: &mut Cache,
    held: &mut Vec<Block>,
    number: usize,
    shelf: u8,
) -> Option<Told>
    requires cache { IsCache heap.now cache.old }
    requires holds { Holds cache.old held.old.items }
    ensures cache { IsCache heap.now cache.new }
    ensures holds { Holds cache.new held.new.items }
{
    if !cache.idle() || number >= held.len() || shelf >= SHELVES {
        return None;
    }
    let block = held.remove(number);
    match cache.put(heap, block, shelf) {
        Ok(()) => Some(Told::Put),
        Err(Full { block, found }) => {
            let place = block.place();
            held.push_reserved(block);
            Some(Told::Full { place, found })
        }
    }
}

/// Takes the block that lies on a shelf.
fn take(
    heap: &Heap,
    cache: &mut Cache,
    held: &mut Vec<Block>,
    shelf: u8,
) -> Result<Option<Told>, AllocError>
    requires cache { IsCache heap.now cache.old }
    requires holds { Holds cache.old held.old.items }
    ensures cache { IsCache heap.now cache.new }
    ensures holds { Holds cache.new held.new.items }
{
    held.reserve(1)?;
    if !cache.idle() || shelf >= SHELVES {
        return Ok(None);
    }
    let told = match cache.take(heap, shelf) {
        Taken::Got(block) => {
            let place = block.place();
            held.push_reserved(block);
            return Ok(Some(Told::Got(place)));
        }
        Taken::Empty => Told::Empty,
        Taken::Missed { expected, found } => Told::Missed { expected, found },
    };
    Ok(Some(told))
}

/// Makes the call that is asked for.
fn make(
    heap: &Heap,
    cache: &mut Cache,
    held: &mut Vec<Block>,
    request: Request,
) -> Result<Option<Told>, AllocError>
    requires cache { IsCache heap.now cache.old }
    requires holds { Holds cache.old held.old.items }
    ensures cache { IsCache heap.now cache.new }
    ensures holds { Holds cache.new held.new.items }
{
    match request {
        Request::Alloc(need) => alloc(heap, cache, held, need),
        Request::Free(number) => Ok(free(heap, cache, held, number)),
        Request::Resume => resume(heap, cache, held),
        Request::Write(number, i, v) => Ok(write(heap, cache, held, number, i, v)),
        Request::Read(number, i) => Ok(read(heap, cache, held, number, i)),
        Request::Put(number, shelf) => Ok(put(heap, cache, held, number, shelf)),
        Request::Take(shelf) => take(heap, cache, held, shelf),
    }
}

/// Whether an answer is this one.
fn is_told(answer: Option<Told>, told: Told) -> bool {
    match answer {
        Some(found) => found == told,
        None => false,
    }
}

/// These calls, one after the other, come to this, and so many allocations were then given from a magazine.
pub fn come_to<R: Abort>(
    rt: &R,
    heap: &Heap,
    cache: &mut Cache,
    held: &mut Vec<Block>,
    rows: &[(Request, Told, u64)],
) -> Result<(), AllocError>
    requires cache { IsCache heap.now cache.old }
    requires holds { Holds cache.old held.old.items }
    ensures cache { IsCache heap.now cache.new }
    ensures holds { Holds cache.new held.new.items }
{
    let mut number: u64 = 0;
    for row in rows {
        let (request, told, hits) = *row;
        let answer = make(heap, cache, held, request)?;
        expect(rt, is_told(answer, told), number);
        expect(rt, cache.hits() == hits, number);
        number = number.saturating_add(1);
    }
    Ok(())
}
