//! Calls on the words of a block in a row.

ghost use Rattle.std.specs.Prelude.{◌≡◌, ◌<◌, ◌+◌, ◌≤◌, false, length, true};
ghost use Rattle.heap_geometry.specs.Need.{usable_words};
ghost use Rattle.balloc_c.specs.Ranges.{HasFilled, HasReadRange, HasSummed, HasWrittenRange, IsFound};
ghost use Rattle.balloc_c.specs.Tended.{Tends};

use crate::refusal::Refusal;
use crate::table::Table;
use block_cache::cache::Cache;
use live_heap::block::Block;
use live_heap::heap::Heap;

/// Writes words of the block of this number in a row, from one on. Where it hasn't all of them none is written.
pub fn write_range(
    heap: &Heap,
    cache: &mut Cache,
    table: &Table,
    number: u64,
    from: u32,
    words: &[u64],
) -> Result<(), Refusal>
    requires tends { Tends heap.now cache.old table.now.slots.items }
    ensures tends { Tends heap.now cache.new table.now.slots.items }
    ensures answers { HasWrittenRange cache.old table.now number from words.now result cache.new table.now }
{
    if !cache.idle() {
        return Err(Refusal::InCall);
    }
    let Some(index) = table.find(number) else {
        return Err(Refusal::NoBlock);
    };
    if table.is_out(index) {
        return Err(Refusal::Out);
    }
    let block = table.home(index);
    if !has_range(block, from, words.len()) {
        return Err(Refusal::NoWord);
    }
    cache.write_slice(heap, block, from, words);
    Ok(())
}

/// Reads words of the block of this number in a row, from one on. Where it hasn't all of them none is read.
pub fn read_range(
    heap: &Heap,
    cache: &mut Cache,
    table: &Table,
    number: u64,
    from: u32,
    words: &mut [u64],
) -> Result<(), Refusal>
    requires tends { Tends heap.now cache.old table.now.slots.items }
    ensures tends { Tends heap.now cache.new table.now.slots.items }
    ensures answers { HasReadRange cache.old table.now number from words.old words.new result cache.new table.now }
    ensures found { IsFound result words.old words.new }
{
    if !cache.idle() {
        return Err(Refusal::InCall);
    }
    let Some(index) = table.find(number) else {
        return Err(Refusal::NoBlock);
    };
    if table.is_out(index) {
        return Err(Refusal::Out);
    }
    let block = table.home(index);
    if !has_range(block, from, words.len()) {
        return Err(Refusal::NoWord);
    }
    cache.read_slice(heap, block, from, words);
    Ok(())
}

/// Fills the block of this number: word i with from + i, modulo 2^64.
pub fn fill(
    heap: &Heap,
    cache: &mut Cache,
    table: &Table,
    number: u64,
    from: u64,
) -> Result<(), Refusal>
    requires tends { Tends heap.now cache.old table.now.slots.items }
    ensures tends { Tends heap.now cache.new table.now.slots.items }
    ensures answers { HasFilled cache.old table.now number from result cache.new table.now }
{
    if !cache.idle() {
        return Err(Refusal::InCall);
    }
    let Some(index) = table.find(number) else {
        return Err(Refusal::NoBlock);
    };
    if table.is_out(index) {
        return Err(Refusal::Out);
    }
    let block = table.home(index);
    cache.fill(heap, block, from);
    Ok(())
}

/// The sum of the words of the block of this number, modulo 2^64.
pub fn sum(heap: &Heap, cache: &mut Cache, table: &Table, number: u64) -> Result<u64, Refusal>
    requires tends { Tends heap.now cache.old table.now.slots.items }
    ensures tends { Tends heap.now cache.new table.now.slots.items }
    ensures answers { HasSummed cache.old table.now number result cache.new table.now }
{
    if !cache.idle() {
        return Err(Refusal::InCall);
    }
    let Some(index) = table.find(number) else {
        return Err(Refusal::NoBlock);
    };
    if table.is_out(index) {
        return Err(Refusal::Out);
    }
    let block = table.home(index);
    Ok(cache.sum(heap, block))
}

/// Whether a block has all words of a range.
fn has_range(block: &Block, from: u32, count: usize) -> bool
    ensures has { result ≡ true → from + count ≤ usable_words block.now.need }
    ensures lacks { result ≡ false → usable_words block.now.need < from + count }
{
    let usable = block.usable_words();
    from <= usable && count <= (usable - from) as usize
}
