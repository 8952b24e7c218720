//! How blocks are filled with a stamp, and checked.

ghost use Rattle.std.specs.Prelude.{◌∷◌, List};
ghost use Rattle.live_heap.specs.declared.block.Block.{Block};
ghost use Rattle.benches.specs.Hands.{Keeps};

use crate::heap::front::Front;
use live_heap::block::Block;
use live_heap::heap::Heap;

/// Writes the stamp into each usable word of the caller's block.
pub fn fill<F: Front>(heap: &Heap, front: &mut F, block: &Block, stamp: u64)
    requires rests { F.rests heap.now front.old }
    requires held { (others : List Block) × F.holds front.old (block.now ∷ others) }
    ensures rests { F.rests heap.now front.new }
    ensures keeps { Keeps F.holds front.old front.new }
{
    for i in 0..block.usable_words() {
        front.write(heap, block, i, stamp);
    }
}

/// How many usable words of the caller's block are another number than the stamp.
pub fn wrong_words<F: Front>(heap: &Heap, front: &mut F, block: &Block, stamp: u64) -> u64
    requires rests { F.rests heap.now front.old }
    requires held { (others : List Block) × F.holds front.old (block.now ∷ others) }
    ensures rests { F.rests heap.now front.new }
    ensures keeps { Keeps F.holds front.old front.new }
{
    let mut wrong: u64 = 0;
    for i in 0..block.usable_words() {
        if front.read(heap, block, i) != stamp {
            wrong = wrong.saturating_add(1);
        }
    }
    wrong
}

/// The first word of the caller's block.
pub fn first_word<F: Front>(heap: &Heap, front: &mut F, block: &Block) -> u64
    requires rests { F.rests heap.now front.old }
    requires held { (others : List Block) × F.holds front.old (block.now ∷ others) }
    ensures rests { F.rests heap.now front.new }
    ensures keeps { Keeps F.holds front.old front.new }
{
    if block.usable_words() == 0 {
        return 0;
    }
    front.read(heap, block, 0)
}
