//! From a stack.

ghost use Rattle.std.specs.Prelude.{◌≡◌};
ghost use Rattle.step_parts.specs.declared.stack.point.Pile.{Pile};
ghost use Rattle.step_parts.specs.declared.stack.point.StackPoint.{StackPoint};
ghost use Rattle.errand_steps.specs.Nexts.{leave_stack, put_away, found_empty, confirmed_empty, popped};

use crate::continuation::Continuation;
use crate::enter::blocks::finish;
use crate::next::Next;
use crate::reply::Reply;
use packed_words::head::Head;
use step_parts::hazard::point::DescPoint;
use step_parts::partial::point::PartialPoint;
use step_parts::stack::exit::StackExit;
use step_parts::stack::point::{Pile, StackPoint};
use step_parts::superblock::point::BlockPoint;
use word_table::seat::{Seat, Site};

/// What follows where a stack is left by this exit.
pub fn leave_stack(exit: StackExit, continuation: Continuation) -> Next
    ensures { result ≡ leave_stack exit continuation }
{
    match exit {
        StackExit::Popped { seat, index, .. } => popped(seat, index, continuation),
        StackExit::FoundEmpty { seat, pile, head } => found_empty(seat, pile, head, continuation),
        StackExit::ConfirmedEmpty { seat, .. } => confirmed_empty(seat, continuation),
        StackExit::Pushed { seat, .. } => put_away(seat, continuation),
    }
}

/// An index was popped: the frame of a new superblock, a partial superblock that is taken, or one that
/// may be empty.
fn popped(seat: Seat, index: u16, continuation: Continuation) -> Next
    ensures { result ≡ popped seat index continuation }
{
    match continuation {
        Continuation::TakeFrame { need, desc } => {
            let site = Site {
                seat,
                desc,
                frame: index,
            };
            Next::block(
                BlockPoint::LinkBlock { site, index: 0 },
                Continuation::Alloc { need },
            )
        }
        Continuation::Alloc { .. } => Next::partial(
            PartialPoint::LoadTakenInfo { seat, desc: index },
            continuation,
        ),
        _ => Next::partial(
            PartialPoint::LoadListedAnchor { seat, desc: index },
            continuation,
        ),
    }
}

/// The stack was found empty: an allocation confirms that by a step, a free is done with the list.
fn found_empty(seat: Seat, pile: Pile, head: Head, continuation: Continuation) -> Next
    ensures { result ≡ found_empty seat pile head continuation }
{
    match continuation {
        Continuation::Clear => Next::end(Reply::Freed),
        Continuation::ClearSecond { first } => {
            Next::stack(push_partial(seat, first), Continuation::EndFree)
        }
        _ => Next::stack(StackPoint::ConfirmEmpty { seat, pile, head }, continuation),
    }
}

/// The stack is empty: where there is no partial superblock a new one is made, where there is no frame
/// the allocation is refused.
fn confirmed_empty(seat: Seat, continuation: Continuation) -> Next
    ensures { result ≡ confirmed_empty seat continuation }
{
    match continuation {
        Continuation::TakeFrame { desc, .. } => Next::Retire {
            seat,
            desc,
            continuation: Continuation::Refuse,
        },
        _ => Next::desc(DescPoint::LoadDescHead { seat }, continuation),
    }
}

/// Where the push of a partial superblock on the list of its class begins.
pub fn push_partial(seat: Seat, desc: u16) -> StackPoint
    ensures { result ≡ StackPoint.LoadTopToPush seat Pile.Partials desc }
{
    StackPoint::LoadTopToPush {
        seat,
        pile: Pile::Partials,
        index: desc,
    }
}

/// What was to be put away stands in its slot or on its stack.
pub fn put_away(seat: Seat, continuation: Continuation) -> Next
    ensures { result ≡ put_away seat continuation }
{
    match continuation {
        Continuation::GiveBlock {
            need,
            desc,
            frame,
            index,
        } => {
            let site = Site { seat, desc, frame };
            Next::block(
                BlockPoint::StorePrefix { site, index },
                Continuation::Alloc { need },
            )
        }
        Continuation::Finish { stored } => finish(seat, stored),
        Continuation::Discard { need, desc } => Next::Retire {
            seat,
            desc,
            continuation: Continuation::Turn { need },
        },
        Continuation::Remove { desc, heap } => {
            Next::partial(
                PartialPoint::LoadHeldSlot { seat, desc, heap },
                Continuation::Free,
            )
        }
        Continuation::Retire { desc } => Next::Retire {
            seat,
            desc,
            continuation: Continuation::EndFree,
        },
        Continuation::PushFirst { first } => {
            Next::stack(push_partial(seat, first), Continuation::EndFree)
        }
        _ => Next::end(Reply::Freed),
    }
}
