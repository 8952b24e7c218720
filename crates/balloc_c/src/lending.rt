//! How the memory of a block goes out to C, and comes home.

ghost use Rattle.std.specs.Prelude.{ℕ, ◌≡◌, ◌≢◌, ◌<◌, ◌≤◌, ◌+◌, ◌%◌, ◌^◌, IfSome, None, Ok, Result, Some, false, length};
ghost use Rattle.heap_geometry.specs.Need.{need_of};
ghost use Rattle.heap_geometry.specs.declared.limits.TheConstants.{CLASSES, LARGE_MOST, SMALL_MOST};
ghost use Rattle.heap_geometry.specs.declared.need.Need.TheVariants.{Small};
ghost use Rattle.errand_steps.specs.Begins.{IsIdle};
ghost use Rattle.live_heap.specs.declared.block.Block.{Block};
ghost use Rattle.live_heap.specs.Heaps.{HeapFields};
ghost use Rattle.block_cache.specs.Caches.{IsCache};
ghost use Rattle.live_heap.specs.declared.plain.Memory.{Memory as Lot};
ghost use Rattle.live_heap.specs.Memory.{IsMemoryOf};
ghost use Rattle.plain_words.specs.Owned.{Lies};
ghost use Rattle.plain_words.specs.Places.{numbers};
ghost use Rattle.plain_words.specs.declared.plain.PlainWords.{PlainWords as Words};
ghost use Rattle.balloc_c.specs.declared.kept.Kept.TheVariants as kept;
ghost use Rattle.balloc_c.specs.declared.refusal.Refusal.{Refusal as Cause};
ghost use Rattle.balloc_c.specs.declared.refusal.Refusal.TheVariants as refusal;
ghost use Rattle.balloc_c.specs.Codes.{code_of, value_in, word_in, word_of};
ghost use Rattle.balloc_c.specs.declared.lent.LentBlock.{LentBlock as Out};
ghost use Rattle.balloc_c.specs.Kept.{block_of};
ghost use Rattle.balloc_c.specs.Laid.{IsKeptAt, IsReady, IsReadyIn, slot_of};
ghost use Rattle.balloc_c.specs.Lending.{AllocatesNew, AreNumbers, BringsHome, FreesBack, FreesHome, GivesAgain, HasComeHome, HasGoneOut, HasToldMemory, IsBackFor, IsRoomFor, KeepsBack, StayOut, memory_at, words_for};
ghost use Rattle.balloc_c.specs.Numbers.{named};
ghost use Rattle.balloc_c.specs.Packed.{HasOneMoreAtMost, IsPacked};
ghost use Rattle.balloc_c.specs.Slots.{block_at, blocks_of};
ghost use Rattle.balloc_c.specs.Tended.{Tends};

use crate::calls::{alloc, free_home};
use crate::handed::Handed;
use crate::kept::Kept;
use crate::lent::LentBlock;
use crate::refusal::Refusal;
use crate::table::Table;
use crate::zeroed::zeroed;
use block_cache::cache::Cache;
use heap_geometry::limits::{LARGE_MOST, SMALL_MOST};
use live_heap::heap::Heap;
use live_heap::plain::Memory;
use plain_words::PlainWords;

/// The call was made.
const MADE: u32 = 0;

/// Where the memory of the block of this number begins. Words that are home go out; those that are out stay whose they are.
pub fn memory(heap: &Heap, cache: &mut Cache, table: &mut Table, number: u64) -> Handed
    requires tends { Tends heap.now cache.old table.old.slots.items }
    requires packed { IsPacked table.old }
    ensures tends { Tends heap.now cache.new table.new.slots.items }
    ensures packed { IsPacked table.new }
    ensures few { HasOneMoreAtMost table.old table.new }
    ensures answers { (outcome : Result (Unit {0}) Cause) × (result.code ≡ word_in outcome)
        × HasToldMemory heap.now cache.old table.old number outcome result.memory result.words cache.new table.new }
{
    if !cache.idle() {
        return Handed::none(Refusal::InCall.word());
    }
    let Some(index) = table.find(number) else {
        return Handed::none(Refusal::NoBlock.word());
    };
    if table.is_out(index) {
        return told_again(heap, table, index);
    }
    go_out(heap, cache, table, index, number)
}

/// Where the memory of the block in a slot begins, whose words are out.
fn told_again(heap: &Heap, table: &Table, index: usize) -> Handed
    requires within { index < length table.now.slots.items }
    requires out { (lent : Out) × (block_at table.now.slots.items index ≡ Some (kept.Out lent)) × Lies heap.now.region.at (lent.place + 1) }
    ensures code { result.code ≡ 0 }
    ensures words { result.words ≡ None }
    ensures memory { (lent : Out) × (block_at table.now.slots.items index ≡ Some (kept.Out lent)) × (result.memory ≡ memory_at heap.now lent.place) }
{
    let Some(lent) = table.out(index) else {
        unreachable!();
    };
    Handed::again(heap.start(), lent.place as usize + 1, MADE)
}

/// The words of the block in a slot go out, whose number this is.
fn go_out(heap: &Heap, cache: &mut Cache, table: &mut Table, index: usize, _number: u64) -> Handed
    requires tends { Tends heap.now cache.old table.old.slots.items }
    requires packed { IsPacked table.old }
    requires idle { IsIdle cache.old.pass.errand }
    requires within { index < length table.old.slots.items }
    requires is { index ≡ _number % 2 ^ 32 }
    requires home { (block : Block) × (block_at table.old.slots.items index ≡ Some (kept.Home block)) }
    requires named { named table.old _number ≡ block_at table.old.slots.items index }
    ensures tends { Tends heap.now cache.new table.new.slots.items }
    ensures packed { IsPacked table.new }
    ensures count { length table.new.slots.items ≡ length table.old.slots.items }
    ensures code { result.code ≡ 0 }
    ensures out { (memory : Lot) × (result.words ≡ Some memory.words) × (result.memory ≡ memory_at heap.now memory.block.place)
        × HasGoneOut heap.now cache.old table.old _number memory cache.new table.new }
{
    let block = table.take_home(index);
    let place = block.place();
    let need = block.need();
    let memory = cache.take_out(heap, block);
    let first = place as usize + 1;
    let words = Handed::of_words(memory.into_words(), heap.start(), first, MADE);
    let _ = table.set(index, Some(Kept::Out(LentBlock::new(place, need))));
    words
}

/// The words of the block in a slot come home, whose number this is.
fn come_home(
    heap: &Heap,
    cache: &mut Cache,
    table: &mut Table,
    index: usize,
    _number: u64,
    words: PlainWords,
)
    requires tends { Tends heap.now cache.old table.old.slots.items }
    requires packed { IsPacked table.old }
    requires idle { IsIdle cache.old.pass.errand }
    requires within { index < length table.old.slots.items }
    requires is { index ≡ _number % 2 ^ 32 }
    requires words { (lent : Out) × (block_at table.old.slots.items index ≡ Some (kept.Out lent))
        × IsMemoryOf heap.now (record { block = block_of (kept.Out lent); words = words }) }
    requires named { named table.old _number ≡ block_at table.old.slots.items index }
    ensures tends { Tends heap.now cache.new table.new.slots.items }
    ensures packed { IsPacked table.new }
    ensures idle { IsIdle cache.new.pass.errand }
    ensures count { length table.new.slots.items ≡ length table.old.slots.items }
    ensures blocks { length (blocks_of table.new.slots.items) ≡ length (blocks_of table.old.slots.items) }
    ensures home { HasComeHome heap.now cache.old table.old _number (numbers words.places) cache.new table.new }
{
    let lent = table.take_lent(index);
    let memory = Memory::of_words(lent.place, lent.need, words);
    let block = cache.bring_home(heap, memory);
    let _ = table.set(index, Some(Kept::Home(block)));
}

/// The free of the block of this number. Words that are out stay so with the pass, where that has room for them, and else come
/// home as zeros. Where a call is under way they go out again.
pub fn free_back(
    heap: &Heap,
    cache: &mut Cache,
    table: &mut Table,
    number: u64,
    back: Handed,
) -> Handed
    requires tends { Tends heap.now cache.old table.old.slots.items }
    requires packed { IsPacked table.old }
    requires back { IsBackFor heap.now (named table.old number) back.words }
    requires code { back.code ≡ word_of (code_of refusal.InCall) }
    ensures tends { Tends heap.now cache.new table.new.slots.items }
    ensures packed { IsPacked table.new }
    ensures few { HasOneMoreAtMost table.old table.new }
    ensures answers { (outcome : Result (Unit {0}) Cause) × (result.code ≡ word_in outcome) × StayOut outcome result.words
        × FreesBack heap.now cache.old table.old number back.words outcome result.words cache.new table.new }
{
    if !cache.idle() {
        return back;
    }
    let Some(index) = table.find(number) else {
        return Handed::none(Refusal::NoBlock.word());
    };
    if table.is_out(index) {
        return free_lent(heap, cache, table, index, number, back);
    }
    free_whole(heap, cache, table, index, number)
}

/// The slot and the class of the block of this number, where a free keeps it: no call is under way, its words are home, and the
/// pass has room for it.
#[inline(always)]
pub fn next_kept(cache: &Cache, table: &Table, number: u64) -> Option<(usize, u8)>
    ensures { IfSome result (λ next. IsIdle cache.now.pass.errand × (block : Block) × IsKeptAt table.now number next.0 next.1 (kept.Home block)) }
{
    if !cache.idle() {
        return None;
    }
    table.at_home(number)
}

/// The free of a block that the pass keeps, whose words are home: it rests in its slot.
#[inline(always)]
pub fn free_here(
    _heap: &Heap,
    _cache: &Cache,
    table: &mut Table,
    index: usize,
    class: u8,
    number: u64,
) -> Handed
    requires tends { Tends _heap.now _cache.now table.old.slots.items }
    requires packed { IsPacked table.old }
    requires idle { IsIdle _cache.now.pass.errand }
    requires at { (block : Block) × IsKeptAt table.old number index class (kept.Home block) }
    ensures tends { Tends _heap.now _cache.now table.new.slots.items }
    ensures packed { IsPacked table.new }
    ensures count { length table.new.slots.items ≡ length table.old.slots.items }
    ensures code { result.code ≡ 0 }
    ensures words { result.words ≡ None }
    ensures kept { KeepsBack _cache.now table.old number None (Ok tt) None _cache.now table.new }
{
    table.rest(index, class, number);
    Handed::none(MADE)
}

/// The slot and the class of the block of this number, where a free keeps its words: no call is under way, they are out, and the
/// pass has room for them.
#[inline(always)]
pub fn next_laid(cache: &Cache, table: &Table, number: u64) -> Option<(usize, u8)>
    ensures { IfSome result (λ next. IsIdle cache.now.pass.errand × (lent : Out) × IsKeptAt table.now number next.0 next.1 (kept.Out lent)) }
{
    if !cache.idle() {
        return None;
    }
    table.at_out(number)
}

/// The free of a block whose words are out, which the pass keeps as they are.
#[inline(always)]
pub fn free_out_here(
    _heap: &Heap,
    _cache: &Cache,
    table: &mut Table,
    index: usize,
    class: u8,
    number: u64,
    back: Handed,
) -> Handed
    requires tends { Tends _heap.now _cache.now table.old.slots.items }
    requires packed { IsPacked table.old }
    requires idle { IsIdle _cache.now.pass.errand }
    requires at { (lent : Out) × IsKeptAt table.old number index class (kept.Out lent)
        × (words : Words) × (back.words ≡ Some words) × IsRoomFor _heap.now lent words }
    ensures tends { Tends _heap.now _cache.now table.new.slots.items }
    ensures packed { IsPacked table.new }
    ensures count { length table.new.slots.items ≡ length table.old.slots.items }
    ensures code { result.code ≡ 0 }
    ensures words { result.words ≡ None }
    ensures kept { KeepsBack _cache.now table.old number back.words (Ok tt) None _cache.now table.new }
{
    table.lay(index, class, number, back.into_words());
    Handed::none(MADE)
}

/// The free of the block in a slot, whose number this is and whose words are home: it rests there, where the pass has room
/// for it.
fn free_whole(
    heap: &Heap,
    cache: &mut Cache,
    table: &mut Table,
    index: usize,
    number: u64,
) -> Handed
    requires tends { Tends heap.now cache.old table.old.slots.items }
    requires packed { IsPacked table.old }
    requires idle { IsIdle cache.old.pass.errand }
    requires within { index < length table.old.slots.items }
    requires is { index ≡ number % 2 ^ 32 }
    requires home { (block : Block) × (block_at table.old.slots.items index ≡ Some (kept.Home block)) }
    requires named { named table.old number ≡ block_at table.old.slots.items index }
    requires names { named table.old number ≢ None }
    ensures tends { Tends heap.now cache.new table.new.slots.items }
    ensures packed { IsPacked table.new }
    ensures few { HasOneMoreAtMost table.old table.new }
    ensures answers { (outcome : Result (Unit {0}) Cause) × (result.code ≡ word_in outcome) × StayOut outcome result.words
        × FreesBack heap.now cache.old table.old number None outcome result.words cache.new table.new }
{
    match table.rest_room(index) {
        Some(class) => free_here(heap, cache, table, index, class, number),
        None => Handed::none(word(free_home(heap, cache, table, index, number))),
    }
}

/// The free of the block in a slot, whose number this is and whose words are out.
fn free_lent(
    heap: &Heap,
    cache: &mut Cache,
    table: &mut Table,
    index: usize,
    number: u64,
    back: Handed,
) -> Handed
    requires tends { Tends heap.now cache.old table.old.slots.items }
    requires packed { IsPacked table.old }
    requires idle { IsIdle cache.old.pass.errand }
    requires within { index < length table.old.slots.items }
    requires is { index ≡ number % 2 ^ 32 }
    requires words { (lent : Out) × (words : Words) × (block_at table.old.slots.items index ≡ Some (kept.Out lent)) × (back.words ≡ Some words)
        × IsRoomFor heap.now lent words }
    requires named { named table.old number ≡ block_at table.old.slots.items index }
    requires names { named table.old number ≢ None }
    ensures tends { Tends heap.now cache.new table.new.slots.items }
    ensures packed { IsPacked table.new }
    ensures few { HasOneMoreAtMost table.old table.new }
    ensures answers { (outcome : Result (Unit {0}) Cause) × (result.code ≡ word_in outcome) × StayOut outcome result.words
        × FreesBack heap.now cache.old table.old number back.words outcome result.words cache.new table.new }
{
    match table.room(index) {
        Some(class) => free_out_here(heap, cache, table, index, class, number, back),
        None => Handed::none(word(free_out(heap, cache, table, index, number, back))),
    }
}

/// The free of the block in a slot, whose number this is and whose words are out: they come home as zeros. It stands apart, so
/// that a free of words that stay with the pass saves no registers for it.
#[inline(never)]
fn free_out(
    heap: &Heap,
    cache: &mut Cache,
    table: &mut Table,
    index: usize,
    number: u64,
    back: Handed,
) -> Result<(), Refusal>
    requires tends { Tends heap.now cache.old table.old.slots.items }
    requires packed { IsPacked table.old }
    requires idle { IsIdle cache.old.pass.errand }
    requires within { index < length table.old.slots.items }
    requires is { index ≡ number % 2 ^ 32 }
    requires words { (lent : Out) × (words : Words) × (block_at table.old.slots.items index ≡ Some (kept.Out lent)) × (back.words ≡ Some words)
        × IsRoomFor heap.now lent words }
    requires named { named table.old number ≡ block_at table.old.slots.items index }
    ensures tends { Tends heap.now cache.new table.new.slots.items }
    ensures packed { IsPacked table.new }
    ensures few { HasOneMoreAtMost table.old table.new }
    ensures answers { FreesHome heap.now cache.old table.old number back.words result None cache.new table.new }
{
    let Some(lent) = table.out(index) else {
        unreachable!();
    };
    let words = zeroed(heap, lent, back.into_words());
    come_home(heap, cache, table, index, number, words);
    free_home(heap, cache, table, index, number)
}

/// Words that are out come home, with what is in them. Where a call is under way they go out again.
pub fn bring(heap: &Heap, cache: &mut Cache, table: &mut Table, number: u64, back: Handed) -> Handed
    requires tends { Tends heap.now cache.old table.old.slots.items }
    requires packed { IsPacked table.old }
    requires back { IsBackFor heap.now (named table.old number) back.words }
    requires numbers { AreNumbers back.words }
    requires code { back.code ≡ word_of (code_of refusal.InCall) }
    ensures tends { Tends heap.now cache.new table.new.slots.items }
    ensures packed { IsPacked table.new }
    ensures few { HasOneMoreAtMost table.old table.new }
    ensures answers { (outcome : Result (Unit {0}) Cause) × (result.code ≡ word_in outcome) × StayOut outcome result.words
        × BringsHome heap.now cache.old table.old number back.words outcome result.words cache.new table.new }
{
    if !cache.idle() {
        return back;
    }
    let Some(index) = table.find(number) else {
        return Handed::none(Refusal::NoBlock.word());
    };
    if table.is_out(index) {
        come_home(heap, cache, table, index, number, back.into_words());
        return Handed::none(MADE);
    }
    Handed::none(MADE)
}

/// The code of an outcome.
fn word(outcome: Result<(), Refusal>) -> u32
    ensures { result ≡ word_in outcome }
{
    match outcome {
        Ok(()) => MADE,
        Err(cause) => cause.word(),
    }
}

/// How many words have so many bytes; more than any block has stand for all that are more.
fn least_words(bytes: usize) -> u32
    ensures { result ≡ words_for bytes }
{
    if bytes > 8 * LARGE_MOST as usize {
        LARGE_MOST + 1
    } else {
        ((bytes + 7) / 8) as u32
    }
}

/// Whether a small block has so many bytes.
#[inline(always)]
fn is_small(bytes: usize) -> bool
    ensures { result ≡ false → SMALL_MOST < words_for bytes }
{
    bytes <= 8 * SMALL_MOST as usize
}

/// The class of blocks for so many bytes, where no call is under way and the pass keeps memory of it, behind the slot whose
/// memory is given next.
#[inline(always)]
pub fn next_ready(cache: &Cache, table: &Table, bytes: usize) -> Option<(usize, u8)>
    requires { (h : HeapFields) × IsCache h cache.now }
    ensures ready { IfSome result (λ next. IsIdle cache.now.pass.errand × (next.1 < CLASSES) × (words_for bytes ≤ LARGE_MOST)
        × (need_of (words_for bytes) ≡ Small next.1) × (next.0 ≡ slot_of table.now.laid next.1) × ((memory : Lot) × IsReadyIn table.now next.1 (kept.Laid memory))) }
    ensures none { result ≡ None → IsIdle cache.now.pass.errand → (memory : Lot) → ¬ IsReady table.now (need_of (words_for bytes)) (kept.Laid memory) }
{
    if !cache.idle() {
        return None;
    }
    if !is_small(bytes) {
        return None;
    }
    table.ready(least_words(bytes))
}

/// Memory that the pass keeps for a class goes out again. Tells the block's number.
#[inline(always)]
pub fn give_again(
    heap: &Heap,
    _cache: &Cache,
    table: &mut Table,
    index: usize,
    class: u8,
    _bytes: usize,
    id: &mut u64,
) -> Handed
    requires tends { Tends heap.now _cache.now table.old.slots.items }
    requires packed { IsPacked table.old }
    requires within { class < CLASSES }
    requires first { index ≡ slot_of table.old.laid class }
    requires ready { (memory : Lot) × IsReadyIn table.old class (kept.Laid memory) }
    requires words { (words_for _bytes ≤ LARGE_MOST) × (need_of (words_for _bytes) ≡ Small class) }
    ensures tends { Tends heap.now _cache.now table.new.slots.items }
    ensures packed { IsPacked table.new }
    ensures count { length table.new.slots.items ≡ length table.old.slots.items }
    ensures code { result.code ≡ 0 }
    ensures again { IsIdle _cache.now.pass.errand → GivesAgain heap.now _cache.now table.old _bytes id.new result.memory result.words _cache.now table.new }
{
    let (number, memory) = table.lift(index, class);
    *id = number;
    let first = memory.place() as usize + 1;
    Handed::of_words(memory.into_words(), heap.start(), first, MADE)
}

/// An allocation of a block of so many bytes, whose words go out. Tells the block's number.
pub fn alloc_new(
    heap: &Heap,
    cache: &mut Cache,
    table: &mut Table,
    bytes: usize,
    id: &mut u64,
) -> Handed
    requires tends { Tends heap.now cache.old table.old.slots.items }
    requires packed { IsPacked table.old }
    ensures tends { Tends heap.now cache.new table.new.slots.items }
    ensures packed { IsPacked table.new }
    ensures few { HasOneMoreAtMost table.old table.new }
    ensures answers { (outcome : Result ℕ Cause) × (result.code ≡ word_in outcome) × (id.new ≡ value_in outcome id.old)
        × AllocatesNew heap.now cache.old table.old bytes outcome result.memory result.words cache.new table.new }
{
    match alloc(heap, cache, table, least_words(bytes)) {
        Ok(number) => {
            *id = number;
            let index = (number % 0x1_0000_0000) as usize;
            go_out(heap, cache, table, index, number)
        }
        Err(cause) => Handed::none(cause.word()),
    }
}
