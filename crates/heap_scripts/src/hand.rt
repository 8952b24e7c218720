//! Rows of calls on a hand, each with one try.

ghost use Rattle.live_heap.specs.Hands.{IsHand};

use crate::request::{Request, Told};
use crate::whole::make;
use live_heap::block::Block;
use live_heap::heap::Heap;
use live_heap::pass::Pass;
use std::test::Fail;

/// These calls, one after the other, come to this, or the first that doesn't is told.
pub fn come_to(
    heap: &Heap,
    pass: &mut Pass,
    blocks: &mut Vec<Block>,
    rows: &[(Request, Told)],
) -> Result<(), Fail>
    requires { IsHand heap.now pass.old blocks.old.items }
    ensures { IsHand heap.now pass.new blocks.new.items }
{
    for row in rows {
        let (request, told) = *row;
        let answer = make(heap, pass, blocks, request, 1)?;
        if answer != Some(told) {
            return Err(Fail::new(format_args!("{request:?} came to {answer:?}, not to {told:?}")));
        }
    }
    Ok(())
}
