//! Blocks whose usable words are out, as plain memory.

ghost use Rattle.std.specs.Prelude.{◌≡◌, IfSome, length};
ghost use Rattle.live_heap.specs.Hands.{IsHand};
ghost use Rattle.live_heap.specs.Memory.{HasTaken, IsMemoryOf};
ghost use Rattle.live_heap.specs.Passes.{IsOf, Owns};
ghost use Rattle.errand_steps.specs.Begins.{IsIdle};

use heap_scripts::alone::{close_alone, open_alone};
use heap_scripts::hand::come_to;
use heap_scripts::request::{Request as Asked, Told};
use live_heap::block::Block;
use live_heap::heap::Heap;
use live_heap::pass::Pass;
use live_heap::plain::Memory;
use std::test::Fail;

/// Takes out the words of the first block of a hand, where there is one and the pass is in no call.
fn take_first(heap: &Heap, pass: &mut Pass, mut blocks: Vec<Block>) -> Option<Memory>
    requires { IsHand heap.now pass.old blocks.items }
    ensures of { IsOf heap.now pass.new }
    ensures idle { IfSome result (λ _. IsIdle pass.new.errand) }
    ensures memory { IfSome result (IsMemoryOf heap.now) }
    ensures taken { IfSome result (HasTaken pass.new) }
{
    if !pass.idle() || blocks.len() == 0 {
        return None;
    }
    let block = blocks.remove(0);
    Some(heap.take_out(pass, block))
}

/// Writes a number to a word of a slice, where it has it.
fn set(words: &mut [u64], i: usize, number: u64)
    ensures { length words.new ≡ length words.old }
{
    if i < words.len() {
        words[i] = number;
    }
}

/// The word of a block, where it has it.
fn word(heap: &Heap, pass: &mut Pass, block: &Block, i: u32) -> Option<u64>
    requires of { IsOf heap.now pass.old }
    requires idle { IsIdle pass.old.errand }
    requires owned { Owns pass.old block.now }
    ensures of { IsOf heap.now pass.new }
    ensures idle { IsIdle pass.new.errand }
    ensures owned { Owns pass.new block.now }
{
    if i < block.usable_words() {
        Some(heap.read(pass, block, i))
    } else {
        None
    }
}

#[test]
fn words_are_memory_until_they_come_home(rt: HostRuntime) -> Result<(), Fail> {
    let (heap, mut pass, mut blocks) = open_alone(rt.alloc(), 4, 0, 9)?;
    let rows = [
        (Asked::Alloc(3), Told::Given(0)),
        (Asked::Write(0, 0, 5), Told::Wrote),
    ];
    come_to(&heap, &mut pass, &mut blocks, &rows)?;
    let Some(mut memory) = take_first(&heap, &mut pass, blocks) else {
        panic!(rt; "there is no block");
    };
    assert_eq!(rt; memory.words(&heap).len(), 3);
    assert_eq!(rt; memory.words(&heap).first().copied(), Some(5));
    set(memory.words_mut(&heap), 0, 6);
    set(memory.words_mut(&heap), 2, 8);
    let block = heap.bring_home(&mut pass, memory);
    assert_eq!(rt; word(&heap, &mut pass, &block, 0), Some(6));
    assert_eq!(rt; word(&heap, &mut pass, &block, 2), Some(8));
    heap.rest(&mut pass);
    Ok(())
}

#[test]
fn a_heap_closes_only_when_all_words_are_home(rt: HostRuntime) -> Result<(), Fail> {
    let (heap, mut pass, mut blocks) = open_alone(rt.alloc(), 4, 0, 9)?;
    come_to(
        &heap,
        &mut pass,
        &mut blocks,
        &[(Asked::Alloc(3), Told::Given(0))],
    )?;
    let Some(memory) = take_first(&heap, &mut pass, blocks) else {
        panic!(rt; "there is no block");
    };
    assert_eq!(rt; memory.usable_words(), 3);
    let closed = close_alone(rt.alloc(), heap, pass)?;
    assert!(rt; closed.is_none());
    Ok(())
}
