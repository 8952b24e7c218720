//! A pass whose blocks have all their words out, through the calls of its heap.

ghost use Rattle.std.specs.Prelude.{◌≡◌, ◌≢◌, ◌<◌, ◌≤◌, replicate};
ghost use Rattle.heap_geometry.specs.Need.{need_of, usable_words};
ghost use Rattle.heap_geometry.specs.declared.limits.TheConstants.{LARGE_MOST};
ghost use Rattle.plain_words.specs.Places.{numbers};
ghost use Rattle.errand_steps.specs.Points.{is_idle};
ghost use Rattle.live_heap.specs.declared.plain.Memory.{Memory};
ghost use Rattle.live_heap.specs.Answers.{FreeTells};
ghost use Rattle.live_heap.specs.Memory.{HasTaken, IsMemoryOf};
ghost use Rattle.live_heap.specs.Passes.{view};
ghost use Rattle.memory_cache.specs.Asking.{HasSettled, LiesElsewhere, SendsHome, TakeTells, free_told};
ghost use Rattle.memory_cache.specs.Rooms.{IsRoomOf};
ghost use Rattle.memory_cache.specs.Settled.{IsPassFor, IsSettled, IsSettledBut};

use live_heap::answers::{AllocAnswer, FreeAnswer, Resumed};
use live_heap::block::Block;
use live_heap::heap::Heap;
use live_heap::pass::Pass;
use live_heap::plain::Memory;

/// Goes on with the call that was interrupted, where one was, and frees the block that it is given. Whether the
/// pass is in no call now.
pub(crate) fn settle(heap: &Heap, pass: &mut Pass, tries: u32) -> bool
    requires pass { IsPassFor heap.now pass.old }
    requires tries { 0 < tries }
    ensures tells { HasSettled heap.now pass.old tries result pass.new }
    ensures out { (view pass.new).lent ≡ (view pass.old).lent }
    ensures caller { pass.new.errand.caller ≡ pass.old.errand.caller }
{
    if pass.idle() {
        return true;
    }
    match heap.resume(pass, tries) {
        Resumed::Busy => false,
        Resumed::Given(block) => free(heap, pass, block, tries),
        _ => true,
    }
}

/// Frees the one block whose words are home. Whether the free has ended.
fn free(heap: &Heap, pass: &mut Pass, block: Block, tries: u32) -> bool
    requires settled { IsSettledBut heap.now pass.old block.place block.need }
    requires tries { 0 < tries }
    ensures pass { IsPassFor heap.now pass.new }
    ensures ended { result ≡ is_idle pass.new.errand.point }
    ensures out { (view pass.new).lent ≡ (view pass.old).lent }
    ensures caller { pass.new.errand.caller ≡ pass.old.errand.caller }
    ensures tells { FreeTells pass.old block tries (free_told result) pass.new }
{
    match heap.free(pass, block, tries) {
        FreeAnswer::Freed => true,
        FreeAnswer::Busy => false,
    }
}

/// Memory of a block that is allocated for it, once the pass is in no call.
pub(crate) fn ask(heap: &Heap, pass: &mut Pass, words: u32, tries: u32) -> AllocAnswer<Memory>
    requires pass { IsPassFor heap.now pass.old }
    requires words { words ≤ LARGE_MOST }
    requires tries { 0 < tries }
    ensures pass { IsPassFor heap.now pass.new }
    ensures given { (memory : Memory) → result ≡ AllocAnswer.Given memory
        → IsRoomOf heap.now memory × HasTaken pass.new memory × (memory.block.need ≡ need_of words)
        × (words ≤ usable_words memory.block.need) }
    ensures keeps { (other : Memory) → HasTaken pass.old other → HasTaken pass.new other × LiesElsewhere result other }
    ensures only { (other : Memory) → HasTaken pass.new other → LiesElsewhere result other → HasTaken pass.old other }
    ensures caller { pass.new.errand.caller ≡ pass.old.errand.caller }
    ensures tells { TakeTells heap.now pass.old words tries result pass.new }
{
    if !settle(heap, pass, tries) {
        return AllocAnswer::Busy;
    }
    allocate(heap, pass, words, tries)
}

/// Memory of a block that is allocated for it.
fn allocate(heap: &Heap, pass: &mut Pass, words: u32, tries: u32) -> AllocAnswer<Memory>
    requires settled { IsSettled heap.now pass.old }
    requires words { words ≤ LARGE_MOST }
    requires tries { 0 < tries }
    ensures pass { IsPassFor heap.now pass.new }
    ensures given { (memory : Memory) → result ≡ AllocAnswer.Given memory
        → IsRoomOf heap.now memory × HasTaken pass.new memory × (memory.block.need ≡ need_of words)
        × (words ≤ usable_words memory.block.need) }
    ensures keeps { (other : Memory) → HasTaken pass.old other → HasTaken pass.new other × LiesElsewhere result other }
    ensures only { (other : Memory) → HasTaken pass.new other → LiesElsewhere result other → HasTaken pass.old other }
    ensures caller { pass.new.errand.caller ≡ pass.old.errand.caller }
    ensures tells { TakeTells heap.now pass.old words tries result pass.new }
{
    match heap.alloc(pass, words, tries) {
        AllocAnswer::Given(block) => AllocAnswer::Given(heap.take_out(pass, block)),
        AllocAnswer::Refused => AllocAnswer::Refused,
        AllocAnswer::Spent => AllocAnswer::Spent,
        AllocAnswer::Busy => AllocAnswer::Busy,
        AllocAnswer::TooLarge => unreachable!(),
    }
}

/// Brings memory home, each word laid with 0, and frees its block. Where the free is interrupted it is under
/// way.
pub(crate) fn send_home(heap: &Heap, pass: &mut Pass, memory: Memory, tries: u32)
    requires settled { IsSettled heap.now pass.old }
    requires room { IsRoomOf heap.now memory }
    requires taken { HasTaken pass.old memory }
    requires tries { 0 < tries }
    ensures pass { IsPassFor heap.now pass.new }
    ensures keeps { (other : Memory) → HasTaken pass.old other → other.block.place ≢ memory.block.place → HasTaken pass.new other }
    ensures only { (other : Memory) → HasTaken pass.new other → HasTaken pass.old other × (other.block.place ≢ memory.block.place) }
    ensures caller { pass.new.errand.caller ≡ pass.old.errand.caller }
    ensures sent { SendsHome heap.now pass.old memory tries pass.new }
{
    let memory = laid_with_zeros(heap, memory);
    let block = heap.bring_home(pass, memory);
    let _ = free(heap, pass, block, tries);
}

/// The same memory, each word laid with 0.
fn laid_with_zeros(heap: &Heap, memory: Memory) -> Memory
    requires { IsRoomOf heap.now memory }
    ensures memory { IsMemoryOf heap.now result }
    ensures block { result.block ≡ memory.block }
    ensures zeros { numbers result.words.places ≡ replicate (usable_words memory.block.need) 0 }
{
    let place = memory.place();
    let need = memory.need();
    let first = place as usize + 1;
    let end = first + memory.usable_words() as usize;
    let mut words = memory.into_words();
    words.fill(heap.start(), first, end, 0);
    Memory::of_words(place, need, words)
}
