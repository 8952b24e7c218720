//! How the block that a call brought comes into the hand.

ghost use Rattle.std.specs.Prelude.{◌≡◌, ◌<◌, ◌++◌, vec_len, vec_capacity};
ghost use Rattle.live_heap.specs.Hands.{given_by, resumed_by, returned_by, taken_by};
ghost use Rattle.live_heap.specs.Hands.{brought_by, brought_in};

use crate::request::Told;
use errand_steps::told::{Ending, Stepped};
use live_heap::answers::{AllocAnswer, Full, Resumed, Taken};
use live_heap::block::Block;

/// Puts the block that an allocation was given into the hand.
pub(crate) fn take_given(blocks: &mut Vec<Block>, answer: AllocAnswer) -> Told
    requires room { vec_len blocks.old < vec_capacity blocks.old }
    ensures { blocks.new.items ≡ blocks.old.items ++ given_by answer }
{
    match answer {
        AllocAnswer::Given(block) => {
            let place = block.place();
            blocks.push_reserved(block);
            Told::Given(place)
        }
        AllocAnswer::Refused => Told::Refused,
        AllocAnswer::TooLarge => Told::TooLarge,
        AllocAnswer::Spent => Told::Spent,
        AllocAnswer::Busy => Told::Busy,
    }
}

/// The same of a call that was resumed.
pub(crate) fn take_resumed(blocks: &mut Vec<Block>, answer: Resumed) -> Told
    requires room { vec_len blocks.old < vec_capacity blocks.old }
    ensures { blocks.new.items ≡ blocks.old.items ++ resumed_by answer }
{
    match answer {
        Resumed::Given(block) => {
            let place = block.place();
            blocks.push_reserved(block);
            Told::Given(place)
        }
        Resumed::Freed => Told::Freed,
        Resumed::Refused => Told::Refused,
        Resumed::Spent => Told::Spent,
        Resumed::Busy => Told::Busy,
    }
}

/// Puts the block that a full shelf sent back into the hand again.
pub(crate) fn take_returned(blocks: &mut Vec<Block>, answer: Result<(), Full>) -> Told
    requires room { vec_len blocks.old < vec_capacity blocks.old }
    ensures { blocks.new.items ≡ blocks.old.items ++ returned_by answer }
{
    match answer {
        Ok(()) => Told::Put,
        Err(Full { block, found }) => {
            let place = block.place();
            blocks.push_reserved(block);
            Told::Full { place, found }
        }
    }
}

/// Puts the block that was taken from a shelf into the hand.
pub(crate) fn take_got(blocks: &mut Vec<Block>, answer: Taken) -> Told
    requires room { vec_len blocks.old < vec_capacity blocks.old }
    ensures { blocks.new.items ≡ blocks.old.items ++ taken_by answer }
{
    match answer {
        Taken::Got(block) => {
            let place = block.place();
            blocks.push_reserved(block);
            Told::Got(place)
        }
        Taken::Empty => Told::Empty,
        Taken::Missed { expected, found } => Told::Missed { expected, found },
    }
}

/// Puts the block that the last step of a call brought into the hand.
pub(crate) fn take_ending(blocks: &mut Vec<Block>, ending: Ending<Block>) -> Told
    requires room { vec_len blocks.old < vec_capacity blocks.old }
    ensures { blocks.new.items ≡ blocks.old.items ++ brought_by ending }
{
    match ending {
        Ending::Given(block) => {
            let place = block.place();
            blocks.push_reserved(block);
            Told::Given(place)
        }
        Ending::Full { block, found } => {
            let place = block.place();
            blocks.push_reserved(block);
            Told::Full { place, found }
        }
        Ending::Got(block) => {
            let place = block.place();
            blocks.push_reserved(block);
            Told::Got(place)
        }
        Ending::Refused => Told::Refused,
        Ending::Spent => Told::Spent,
        Ending::Freed => Told::Freed,
        Ending::Wrote => Told::Wrote,
        Ending::Word(word) => Told::Word(word),
        Ending::Put => Told::Put,
        Ending::Empty => Told::Empty,
        Ending::Missed { expected, found } => Told::Missed { expected, found },
    }
}

/// The same of a step; `None` where it did not end its call.
pub(crate) fn take_step(blocks: &mut Vec<Block>, step: Stepped<Block>) -> Option<Told>
    requires room { vec_len blocks.old < vec_capacity blocks.old }
    ensures { blocks.new.items ≡ blocks.old.items ++ brought_in step }
{
    match step {
        Stepped::Done(ending) => Some(take_ending(blocks, ending)),
        _ => None,
    }
}
