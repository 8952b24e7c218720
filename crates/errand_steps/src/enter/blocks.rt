//! From a superblock.

ghost use Rattle.std.specs.Prelude.{◌≡◌};
ghost use Rattle.heap_geometry.specs.Place.{block_place};
ghost use Rattle.step_parts.specs.declared.stack.point.Pile.{Pile};
ghost use Rattle.step_parts.specs.declared.stack.point.StackPoint.{StackPoint};
ghost use Rattle.step_parts.specs.declared.superblock.exit.BlockExit.{BlockExit};
ghost use Rattle.errand_steps.specs.Nexts.{leave_block, finish};

use crate::continuation::{Continuation, asked};
use crate::next::Next;
use crate::reply::Reply;
use heap_geometry::need::Need;
use step_parts::hazard::point::DescPoint;
use step_parts::partial::point::PartialPoint;
use step_parts::stack::point::{Pile, StackPoint};
use step_parts::superblock::exit::BlockExit;
use word_table::seat::{Seat, Site};

/// What follows where a superblock is left by this exit.
pub fn leave_block(exit: BlockExit, continuation: Continuation) -> Next
    ensures { result ≡ leave_block exit continuation }
{
    match exit {
        BlockExit::WantsPartial { seat } => Next::partial(
            PartialPoint::LoadSlot { seat },
            continuation,
        ),
        BlockExit::Returned { site, index } => returned(site, index, continuation),
        BlockExit::Discarded { site } => Next::stack(
            push_frame(&site),
            Continuation::Discard {
                need: asked(continuation),
                desc: site.desc,
            },
        ),
        BlockExit::Given { site, index } => Next::end(given(&site, index)),
        BlockExit::BecameEmpty { site, heap } => Next::stack(
            push_frame(&site),
            Continuation::Remove {
                desc: site.desc,
                heap,
            },
        ),
        BlockExit::BecamePartial { site, stored } => Next::partial(
            PartialPoint::LoadOwner {
                seat: site.seat,
                desc: site.desc,
            },
            Continuation::Finish { stored },
        ),
        BlockExit::Pushed { seat, stored } => finish(seat, stored),
    }
}

/// The answer of an allocation that is given this block.
fn given(site: &Site, index: u16) -> Reply
    ensures { result ≡ Reply.Given (block_place site.now.frame site.now.seat.class index) (Need.Small site.now.seat.class) }
{
    Reply::Given {
        place: site.place(index),
        need: Need::Small(site.seat.class()),
    }
}

/// The superblock whose reserved blocks were returned goes into the slot; then the block is handed out.
fn returned(site: Site, index: u16, continuation: Continuation) -> Next
    ensures { result ≡ leave_block (BlockExit.Returned site index) continuation }
{
    Next::partial(
        PartialPoint::PutSlot {
            seat: site.seat,
            desc: site.desc,
            heap: site.seat.heap(),
        },
        Continuation::GiveBlock {
            need: asked(continuation),
            desc: site.desc,
            frame: site.frame,
            index,
        },
    )
}

/// Where the push of a superblock's frame begins.
fn push_frame(site: &Site) -> StackPoint
    ensures { result ≡ StackPoint.LoadTopToPush site.now.seat Pile.Frames site.now.frame }
{
    StackPoint::LoadTopToPush {
        seat: site.seat,
        pile: Pile::Frames,
        index: site.frame,
    }
}

/// The end of a free: it clears its hazard word where it stored it.
pub fn finish(seat: Seat, stored: bool) -> Next
    ensures { result ≡ finish seat stored }
{
    if stored {
        Next::desc(DescPoint::ClearHazard { seat }, Continuation::EndFree)
    } else {
        Next::end(Reply::Freed)
    }
}
