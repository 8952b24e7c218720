//! What a pass does with a message between its hand-overs.

ghost use Rattle.std.specs.Prelude.{ℕ, ◌≡◌, ◌≤◌, ◌^◌, List, Some, None, IfSome};
ghost use Rattle.heap_geometry.specs.Need.{usable_words};
ghost use Rattle.errand_steps.specs.declared.reply.Reply.TheVariants as reply;
ghost use Rattle.errand_steps.specs.Calls.{alloc};
ghost use Rattle.pool_model.specs.Pool.{Block as PoolBlock, fresh_block};
ghost use Rattle.live_heap.specs.Contents.{owned_in};
ghost use Rattle.live_heap.specs.Passes.{Owns};
ghost use Rattle.sound_laws.specs.events.Made.{LeadsBy, found_from};
ghost use Rattle.live_heap.specs.Whole.{IsAtRest, IsWhole, MadeByPass};
ghost use Rattle.pipe_runner.specs.EndCalls.{GaveNone, HasTried, with_found, words_from, wrote_from};
ghost use Rattle.pipe_runner.specs.Messages.{HasThreeWords, three_from, with_word, with_words};
ghost use Rattle.pipe_runner.specs.Moves.{AreThree, HasAllocated, KeepsBlocks};

use crate::whole;
use lane_engine::calls::Allocated;
use live_heap::block::Block;
use live_heap::heap::Heap;
use live_heap::pass::Pass;
use std::sync::Wait;
use std::thread;

/// A block of three words, where the heap gives one.
fn try_allocate<R: Wait>(rt: &R, heap: &Heap, pass: &mut Pass) -> Option<Block>
    requires rest { IsAtRest heap.now pass.old }
    ensures given { IfSome result (λ block. IsWhole heap.now pass.old (alloc 3) (reply.Given block.place block.need) heap.now pass.new) }
    ensures none { result ≡ None → KeepsBlocks heap.now pass.old pass.new × HasTried (GaveNone 3) pass.old pass.new }
{
    match whole::allocate(rt, heap, pass, 3) {
        Allocated::Given(block) => Some(block),
        _ => None,
    }
}

/// A block of three words. Where the heap gives none the same call is made again.
pub(crate) fn allocate<R: Wait>(rt: &R, heap: &Heap, pass: &mut Pass) -> Block
    requires rest { IsAtRest heap.now pass.old }
    ensures { HasAllocated heap.now pass.old 3 result pass.new }
{
    for _ in rt.forever() {
        match try_allocate(rt, heap, pass) {
            Some(block) => return block,
            None => thread::yield_now(),
        }
    }
    unreachable!()
}

/// Writes three words into the pass's block, which count from this number, modulo 2^64.
pub(crate) fn write_message(heap: &Heap, pass: &mut Pass, block: &Block, first: u64)
    requires rest { IsAtRest heap.now pass.old }
    requires owned { Owns pass.old block.now }
    requires words { 3 ≤ usable_words block.now.need }
    ensures keeps { KeepsBlocks heap.now pass.old pass.new }
    ensures written { owned_in pass.old block.now.place ≡ Some (fresh_block pass.old.errand.caller 3 block.now.place)
        → (b : PoolBlock) × (owned_in pass.new block.now.place ≡ Some b) × (b.contents ≡ three_from first) }
    ensures wrote { LeadsBy MadeByPass pass.old (wrote_from block.now.place block.now.need 0 (words_from first)) pass.new }
{
    let words = [first, first.wrapping_add(1), first.wrapping_add(2)];
    heap.write_slice(pass, block, 0, &words);
}

/// The fold with one word more.
fn with_word(fold: u64, word: u64) -> u64
    ensures { result ≡ with_word fold word }
{
    fold.wrapping_mul(31).wrapping_add(word)
}

/// The fold with the three words of the pass's block; a block with fewer words leaves it.
pub(crate) fn fold_block(heap: &Heap, pass: &mut Pass, block: &Block, fold: u64) -> u64
    requires rest { IsAtRest heap.now pass.old }
    requires owned { Owns pass.old block.now }
    ensures keeps { KeepsBlocks heap.now pass.old pass.new }
    ensures folded { (b : PoolBlock) → owned_in pass.old block.now.place ≡ Some b → HasThreeWords b.contents
        → result ≡ with_words fold b.contents }
    ensures found { (words : List ℕ) × AreThree block.now words
        × LeadsBy MadeByPass pass.old (found_from block.now.place block.now.need 0 words) pass.new × (result ≡ with_found fold words) }
{
    if block.usable_words() < 3 {
        return fold;
    }
    let mut words = [0; 3];
    heap.read_slice(pass, block, 0, &mut words);
    let [a, b, c] = words;
    with_word(with_word(with_word(fold, a), b), c)
}
