//! Calls on a pass with magazines, whose blocks have numbers.

ghost use Rattle.std.specs.Prelude.{ℕ, ◌≡◌, ◌<◌, ◌≤◌, ◌%◌, ◌^◌, IfSome, None, Some, false, length, not, true};
ghost use Rattle.heap_geometry.specs.Need.{need_of};
ghost use Rattle.heap_geometry.specs.declared.limits.TheConstants.{CLASSES, LARGE_MOST};
ghost use Rattle.heap_geometry.specs.declared.need.Need.TheVariants.{Small};
ghost use Rattle.errand_steps.specs.Begins.{IsIdle};
ghost use Rattle.live_heap.specs.declared.block.Block.{Block};
ghost use Rattle.live_heap.specs.declared.plain.Memory.{Memory};
ghost use Rattle.balloc_c.specs.declared.kept.Kept.TheVariants as kept;
ghost use Rattle.balloc_c.specs.Outcomes.{TellsWords, HasAllocated, HasAllocatedNew, HasFreed, HasPut, HasRead, HasResumed, HasTaken, HasWritten, NoneRests, Wakes};
ghost use Rattle.balloc_c.specs.Closed.{FreesSlot, FreesTable, HasFreedAll, HasHomed, has_out};
ghost use Rattle.balloc_c.specs.Kept.{is_laid, is_out};
ghost use Rattle.balloc_c.specs.Laid.{HasTurned, IsReadyIn, slot_of};
ghost use Rattle.balloc_c.specs.Numbers.{named};
ghost use Rattle.balloc_c.specs.Packed.{HasOneMoreAtMost, IsPacked};
ghost use Rattle.balloc_c.specs.Slots.{block_at, set_block};
ghost use Rattle.balloc_c.specs.Tended.{Tends};

use crate::kept::Kept;
use crate::lent::LentBlock;
use crate::refusal::Refusal;
use crate::table::Table;
use crate::zeroed::zeroed;
use block_cache::cache::Cache;
use heap_geometry::limits::{LARGE_MOST, SHELVES};
use live_heap::answers::{AllocAnswer, FreeAnswer, Full, Resumed, Taken};
use live_heap::heap::Heap;
use live_heap::plain::Memory;

/// How many lost exchanges interrupt a call.
pub const TRIES: u32 = 1000;

/// The class of blocks for so many words, where no call is under way and one rests, behind its slot.
#[inline(always)]
pub fn next_resting(cache: &Cache, table: &Table, words: u32) -> Option<(usize, u8)>
    ensures ready { IfSome result (λ next. IsIdle cache.now.pass.errand × (next.1 < CLASSES) × (words ≤ LARGE_MOST) × (need_of words ≡ Small next.1)
        × (next.0 ≡ slot_of table.now.resting next.1) × ((block : Block) × IsReadyIn table.now next.1 (kept.Resting block))) }
    ensures none { result ≡ None → NoneRests cache.now table.now words }
{
    if !cache.idle() {
        return None;
    }
    table.at_rest(words)
}

/// A block that rests is given again, the next of its class. Answers its number.
#[inline(always)]
pub fn wake(
    _heap: &Heap,
    _cache: &Cache,
    table: &mut Table,
    index: usize,
    class: u8,
    _words: u32,
) -> u64
    requires tends { Tends _heap.now _cache.now table.old.slots.items }
    requires packed { IsPacked table.old }
    requires idle { IsIdle _cache.now.pass.errand }
    requires within { class < CLASSES }
    requires first { index ≡ slot_of table.old.resting class }
    requires ready { (block : Block) × IsReadyIn table.old class (kept.Resting block) }
    requires words { (_words ≤ LARGE_MOST) × (need_of _words ≡ Small class) }
    ensures tends { Tends _heap.now _cache.now table.new.slots.items }
    ensures packed { IsPacked table.new }
    ensures count { length table.new.slots.items ≡ length table.old.slots.items }
    ensures woken { Wakes _cache.now table.old _words result _cache.now table.new }
{
    table.wake(index, class)
}

/// An allocation of so many usable words. Answers the block's number.
#[inline(always)]
pub fn alloc(heap: &Heap, cache: &mut Cache, table: &mut Table, words: u32) -> Result<u64, Refusal>
    requires tends { Tends heap.now cache.old table.old.slots.items }
    requires packed { IsPacked table.old }
    ensures tends { Tends heap.now cache.new table.new.slots.items }
    ensures packed { IsPacked table.new }
    ensures few { HasOneMoreAtMost table.old table.new }
    ensures answers { HasAllocated cache.old table.old words result cache.new table.new }
{
    match next_resting(cache, table, words) {
        Some((index, class)) => Ok(wake(heap, cache, table, index, class, words)),
        None => alloc_new(heap, cache, table, words),
    }
}

/// The same of a magazine or the heap.
pub fn alloc_new(
    heap: &Heap,
    cache: &mut Cache,
    table: &mut Table,
    words: u32,
) -> Result<u64, Refusal>
    requires tends { Tends heap.now cache.old table.old.slots.items }
    requires packed { IsPacked table.old }
    ensures tends { Tends heap.now cache.new table.new.slots.items }
    ensures packed { IsPacked table.new }
    ensures few { HasOneMoreAtMost table.old table.new }
    ensures answers { HasAllocatedNew cache.old table.old words result cache.new table.new }
{
    if !cache.idle() {
        return Err(Refusal::InCall);
    }
    if words > LARGE_MOST {
        return Err(Refusal::TooLarge);
    }
    let index = match table.vacant() {
        Ok(index) => index,
        Err(refusal) => return Err(refusal),
    };
    match cache.alloc(heap, words, TRIES) {
        AllocAnswer::Given(block) => Ok(table.fill(index, block)),
        AllocAnswer::Refused => Err(Refusal::Exhausted),
        AllocAnswer::TooLarge => Err(Refusal::TooLarge),
        AllocAnswer::Spent => Err(Refusal::Spent),
        AllocAnswer::Busy => Err(Refusal::Interrupted),
    }
}

/// The free of the block in a slot, whose number this is and whose words are home.
#[inline(never)]
pub fn free_home(
    heap: &Heap,
    cache: &mut Cache,
    table: &mut Table,
    index: usize,
    _number: u64,
) -> Result<(), Refusal>
    requires tends { Tends heap.now cache.old table.old.slots.items }
    requires packed { IsPacked table.old }
    requires idle { IsIdle cache.old.pass.errand }
    requires within { index < length table.old.slots.items }
    requires is { index ≡ _number % 2 ^ 32 }
    requires home { (block : Block) × (block_at table.old.slots.items index ≡ Some (kept.Home block)) }
    requires named { named table.old _number ≡ block_at table.old.slots.items index }
    ensures tends { Tends heap.now cache.new table.new.slots.items }
    ensures packed { IsPacked table.new }
    ensures few { HasOneMoreAtMost table.old table.new }
    ensures answers { HasFreed cache.old table.old _number result cache.new table.new }
{
    let block = table.take_home(index);
    table.retire(index);
    match cache.free(heap, block, TRIES) {
        FreeAnswer::Freed => Ok(()),
        FreeAnswer::Busy => Err(Refusal::Interrupted),
    }
}

/// Frees all blocks, in the order of their slots, and then those in magazines, where none has its words out. Where a free
/// is interrupted the blocks behind it stay.
pub fn free_all(heap: &Heap, cache: &mut Cache, table: &mut Table) -> Result<(), Refusal>
    requires tends { Tends heap.now cache.old table.old.slots.items }
    requires packed { IsPacked table.old }
    ensures tends { Tends heap.now cache.new table.new.slots.items }
    ensures packed { IsPacked table.new }
    ensures few { HasOneMoreAtMost table.old table.new }
    ensures answers { HasFreedAll cache.old table.old result cache.new table.new }
{
    if !cache.idle() {
        return Err(Refusal::InCall);
    }
    if !are_home(table) {
        return Err(Refusal::Out);
    }
    match free_slots(heap, cache, table) {
        FreeAnswer::Freed => {}
        FreeAnswer::Busy => return Err(Refusal::Interrupted),
    }
    match cache.flush(heap, TRIES) {
        FreeAnswer::Freed => Ok(()),
        FreeAnswer::Busy => Err(Refusal::Interrupted),
    }
}

/// Whether the words of no block are out.
fn are_home(table: &Table) -> bool
    ensures { has_out table.now.slots.items ≡ not result }
{
    for index in 0..table.len() {
        if table.is_out(index) {
            return false;
        }
    }
    true
}

/// Frees the blocks in all slots.
fn free_slots(heap: &Heap, cache: &mut Cache, table: &mut Table) -> FreeAnswer
    requires tends { Tends heap.now cache.old table.old.slots.items }
    requires packed { IsPacked table.old }
    requires idle { IsIdle cache.old.pass.errand }
    requires home { has_out table.old.slots.items ≡ false }
    ensures tends { Tends heap.now cache.new table.new.slots.items }
    ensures packed { IsPacked table.new }
    ensures count { length table.new.slots.items ≡ length table.old.slots.items }
    ensures idle { result ≡ FreeAnswer.Freed → IsIdle cache.new.pass.errand }
    ensures freed { FreesTable cache.old table.old result cache.new table.new }
{
    for index in 0..table.len() {
        match free_slot(heap, cache, table, index) {
            FreeAnswer::Freed => {}
            FreeAnswer::Busy => return FreeAnswer::Busy,
        }
    }
    FreeAnswer::Freed
}

/// Frees the block in a slot, where there is one. Words that the pass keeps come home before.
fn free_slot(heap: &Heap, cache: &mut Cache, table: &mut Table, index: usize) -> FreeAnswer
    requires tends { Tends heap.now cache.old table.old.slots.items }
    requires packed { IsPacked table.old }
    requires idle { IsIdle cache.old.pass.errand }
    requires within { index < length table.old.slots.items }
    requires home { is_out (block_at table.old.slots.items index) ≡ false }
    ensures tends { Tends heap.now cache.new table.new.slots.items }
    ensures packed { IsPacked table.new }
    ensures idle { result ≡ FreeAnswer.Freed → IsIdle cache.new.pass.errand }
    ensures count { length table.new.slots.items ≡ length table.old.slots.items }
    ensures same { (other : ℕ) → block_at table.new.slots.items other ≡ block_at (set_block table.old.slots.items index None) other }
    ensures freed { FreesSlot cache.old (block_at table.old.slots.items index) result cache.new }
{
    if table.is_laid(index) {
        return free_laid(heap, cache, table, index);
    }
    free_kept(heap, cache, table, index)
}

/// Frees the block in a slot, whose words the pass keeps.
fn free_laid(heap: &Heap, cache: &mut Cache, table: &mut Table, index: usize) -> FreeAnswer
    requires tends { Tends heap.now cache.old table.old.slots.items }
    requires packed { IsPacked table.old }
    requires idle { IsIdle cache.old.pass.errand }
    requires within { index < length table.old.slots.items }
    requires laid { is_laid (block_at table.old.slots.items index) ≡ true }
    ensures tends { Tends heap.now cache.new table.new.slots.items }
    ensures packed { IsPacked table.new }
    ensures idle { result ≡ FreeAnswer.Freed → IsIdle cache.new.pass.errand }
    ensures count { length table.new.slots.items ≡ length table.old.slots.items }
    ensures same { (other : ℕ) → block_at table.new.slots.items other ≡ block_at (set_block table.old.slots.items index None) other }
    ensures freed { FreesSlot cache.old (block_at table.old.slots.items index) result cache.new }
{
    bring_laid(heap, cache, table, index);
    free_kept(heap, cache, table, index)
}

/// Frees the block in a slot, where there is one, whose words are home.
fn free_kept(heap: &Heap, cache: &mut Cache, table: &mut Table, index: usize) -> FreeAnswer
    requires tends { Tends heap.now cache.old table.old.slots.items }
    requires packed { IsPacked table.old }
    requires idle { IsIdle cache.old.pass.errand }
    requires within { index < length table.old.slots.items }
    requires home { is_out (block_at table.old.slots.items index) ≡ false }
    requires not_laid { is_laid (block_at table.old.slots.items index) ≡ false }
    ensures tends { Tends heap.now cache.new table.new.slots.items }
    ensures packed { IsPacked table.new }
    ensures idle { result ≡ FreeAnswer.Freed → IsIdle cache.new.pass.errand }
    ensures count { length table.new.slots.items ≡ length table.old.slots.items }
    ensures same { (other : ℕ) → block_at table.new.slots.items other ≡ block_at (set_block table.old.slots.items index None) other }
    ensures freed { FreesSlot cache.old (block_at table.old.slots.items index) result cache.new }
{
    match table.set(index, None) {
        None => FreeAnswer::Freed,
        Some(kept) => {
            table.retire(index);
            cache.free(heap, kept.into_home(), TRIES)
        }
    }
}

/// Words that the pass keeps in a slot come home, as zeros.
fn bring_laid(heap: &Heap, cache: &mut Cache, table: &mut Table, index: usize)
    requires tends { Tends heap.now cache.old table.old.slots.items }
    requires packed { IsPacked table.old }
    requires idle { IsIdle cache.old.pass.errand }
    requires within { index < length table.old.slots.items }
    requires laid { is_laid (block_at table.old.slots.items index) ≡ true }
    ensures tends { Tends heap.now cache.new table.new.slots.items }
    ensures packed { IsPacked table.new }
    ensures idle { IsIdle cache.new.pass.errand }
    ensures homed { (memory : Memory) × (block_at table.old.slots.items index ≡ Some (kept.Laid memory)) × HasHomed cache.old memory cache.new
        × HasTurned table.old.slots.items index (kept.Home memory.block) table.new.slots.items }
{
    let memory = table.take_laid(index);
    let place = memory.place();
    let need = memory.need();
    let words = zeroed(heap, &LentBlock::new(place, need), memory.into_words());
    let homed = cache.bring_home(heap, Memory::of_words(place, need, words));
    let _ = table.set(index, Some(Kept::Home(homed)));
}

/// Goes on with the call that was interrupted. Answers the number of a block that it got.
pub fn resume(heap: &Heap, cache: &mut Cache, table: &mut Table) -> Result<Option<u64>, Refusal>
    requires tends { Tends heap.now cache.old table.old.slots.items }
    requires packed { IsPacked table.old }
    ensures tends { Tends heap.now cache.new table.new.slots.items }
    ensures packed { IsPacked table.new }
    ensures few { HasOneMoreAtMost table.old table.new }
    ensures answers { HasResumed heap.now cache.old table.old result cache.new table.new }
{
    if cache.idle() {
        return Err(Refusal::Idle);
    }
    let index = match table.vacant() {
        Ok(index) => index,
        Err(refusal) => return Err(refusal),
    };
    match cache.resume(heap, TRIES) {
        Resumed::Given(block) => Ok(Some(table.fill(index, block))),
        Resumed::Freed => Ok(None),
        Resumed::Refused => Err(Refusal::Exhausted),
        Resumed::Spent => Err(Refusal::Spent),
        Resumed::Busy => Err(Refusal::Interrupted),
    }
}

/// How many usable words the block of this number has.
pub fn words(table: &Table, number: u64) -> Result<u64, Refusal>
    ensures { TellsWords table.now number result }
{
    let Some(index) = table.find(number) else {
        return Err(Refusal::NoBlock);
    };
    Ok(u64::from(table.content(index).usable_words()))
}

/// Writes a word of the block of this number.
pub fn write(
    heap: &Heap,
    cache: &mut Cache,
    table: &Table,
    number: u64,
    i: u32,
    value: u64,
) -> Result<(), Refusal>
    requires tends { Tends heap.now cache.old table.now.slots.items }
    ensures tends { Tends heap.now cache.new table.now.slots.items }
    ensures answers { HasWritten cache.old table.now number i value result cache.new table.now }
{
    if !cache.idle() {
        return Err(Refusal::InCall);
    }
    let Some(index) = table.find(number) else {
        return Err(Refusal::NoBlock);
    };
    if table.is_out(index) {
        return Err(Refusal::Out);
    }
    let block = table.home(index);
    if i >= block.usable_words() {
        return Err(Refusal::NoWord);
    }
    cache.write(heap, block, i, value);
    Ok(())
}

/// Reads a word of the block of this number.
pub fn read(
    heap: &Heap,
    cache: &mut Cache,
    table: &Table,
    number: u64,
    i: u32,
) -> Result<u64, Refusal>
    requires tends { Tends heap.now cache.old table.now.slots.items }
    ensures tends { Tends heap.now cache.new table.now.slots.items }
    ensures answers { HasRead cache.old table.now number i result cache.new table.now }
{
    if !cache.idle() {
        return Err(Refusal::InCall);
    }
    let Some(index) = table.find(number) else {
        return Err(Refusal::NoBlock);
    };
    if table.is_out(index) {
        return Err(Refusal::Out);
    }
    let block = table.home(index);
    if i >= block.usable_words() {
        return Err(Refusal::NoWord);
    }
    Ok(cache.read(heap, block, i))
}

/// Puts the block of this number on a shelf. From a full one it comes back.
pub fn put(
    heap: &Heap,
    cache: &mut Cache,
    table: &mut Table,
    number: u64,
    shelf: u8,
) -> Result<(), Refusal>
    requires tends { Tends heap.now cache.old table.old.slots.items }
    requires packed { IsPacked table.old }
    ensures tends { Tends heap.now cache.new table.new.slots.items }
    ensures packed { IsPacked table.new }
    ensures few { HasOneMoreAtMost table.old table.new }
    ensures answers { HasPut cache.old table.old number shelf result cache.new table.new }
{
    if !cache.idle() {
        return Err(Refusal::InCall);
    }
    let Some(index) = table.find(number) else {
        return Err(Refusal::NoBlock);
    };
    if table.is_out(index) {
        return Err(Refusal::Out);
    }
    if shelf >= SHELVES {
        return Err(Refusal::NoShelf);
    }
    let block = table.take_home(index);
    match cache.put(heap, block, shelf) {
        Ok(()) => {
            table.retire(index);
            Ok(())
        }
        Err(Full { block, found: _ }) => {
            let _ = table.set(index, Some(Kept::Home(block)));
            Err(Refusal::ShelfFull)
        }
    }
}

/// Takes the block that lies on a shelf. Answers its number.
pub fn take(heap: &Heap, cache: &mut Cache, table: &mut Table, shelf: u8) -> Result<u64, Refusal>
    requires tends { Tends heap.now cache.old table.old.slots.items }
    requires packed { IsPacked table.old }
    ensures tends { Tends heap.now cache.new table.new.slots.items }
    ensures packed { IsPacked table.new }
    ensures few { HasOneMoreAtMost table.old table.new }
    ensures answers { HasTaken cache.old table.old shelf result cache.new table.new }
{
    if !cache.idle() {
        return Err(Refusal::InCall);
    }
    if shelf >= SHELVES {
        return Err(Refusal::NoShelf);
    }
    let index = match table.vacant() {
        Ok(index) => index,
        Err(refusal) => return Err(refusal),
    };
    match cache.take(heap, shelf) {
        Taken::Got(block) => Ok(table.fill(index, block)),
        Taken::Empty => Err(Refusal::ShelfEmpty),
        Taken::Missed { .. } => Err(Refusal::ShelfMissed),
    }
}
