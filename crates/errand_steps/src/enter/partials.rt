//! From a partial superblock.

ghost use Rattle.std.specs.Prelude.{◌≡◌};
ghost use Rattle.step_parts.specs.declared.stack.point.Pile.{Pile};
ghost use Rattle.step_parts.specs.declared.stack.point.StackPoint.{StackPoint};
ghost use Rattle.errand_steps.specs.Nexts.{leave_partial, listed_empty, listed_partial};

use crate::continuation::{Continuation, asked};
use crate::enter::stacks::{push_partial, put_away};
use crate::next::Next;
use step_parts::hazard::point::DescPoint;
use step_parts::partial::exit::PartialExit;
use step_parts::stack::point::{Pile, StackPoint};
use step_parts::superblock::point::{BlockPoint, Share};
use word_table::seat::Seat;

/// What follows where a partial superblock is left by this exit.
pub fn leave_partial(exit: PartialExit, continuation: Continuation) -> Next
    ensures { result ≡ leave_partial exit continuation }
{
    match exit {
        PartialExit::SlotEmpty { seat } => Next::stack(pop_partial(seat), continuation),
        PartialExit::Granted { site, more } => Next::block(
            BlockPoint::LoadAnchor {
                site,
                share: Share::Grant { more },
            },
            continuation,
        ),
        PartialExit::TookEmpty { site } => Next::Retire {
            seat: site.seat,
            desc: site.desc,
            continuation: Continuation::Look {
                need: asked(continuation),
            },
        },
        PartialExit::SlotFilled { seat } => put_away(seat, continuation),
        PartialExit::Displaced { seat, desc } => Next::stack(
            push_partial(seat, desc),
            continuation,
        ),
        PartialExit::NotInSlot { seat } => {
            Next::desc(DescPoint::ClearHazard { seat }, Continuation::Clear)
        }
        PartialExit::Removed { seat, desc } => {
            Next::desc(
                DescPoint::ClearHazard { seat },
                Continuation::Retire { desc },
            )
        }
        PartialExit::ListedEmpty { seat, desc } => listed_empty(seat, desc, continuation),
        PartialExit::ListedPartial { seat, desc } => listed_partial(seat, desc, continuation),
    }
}

/// Where the pop of a partial superblock from the list of its class begins.
fn pop_partial(seat: Seat) -> StackPoint
    ensures { result ≡ StackPoint.LoadTop seat Pile.Partials }
{
    StackPoint::LoadTop {
        seat,
        pile: Pile::Partials,
    }
}

/// The listed superblock is empty: it is retired, and the one before it goes back to the list.
fn listed_empty(seat: Seat, desc: u16, continuation: Continuation) -> Next
    ensures { result ≡ listed_empty seat desc continuation }
{
    match continuation {
        Continuation::ClearSecond { first } => {
            Next::stack(push_partial(seat, first), Continuation::Retire { desc })
        }
        _ => Next::Retire {
            seat,
            desc,
            continuation: Continuation::EndFree,
        },
    }
}

/// The listed superblock is not empty: a second one is popped, and after that both go back.
fn listed_partial(seat: Seat, desc: u16, continuation: Continuation) -> Next
    ensures { result ≡ listed_partial seat desc continuation }
{
    match continuation {
        Continuation::ClearSecond { first } => {
            Next::stack(push_partial(seat, desc), Continuation::PushFirst { first })
        }
        _ => Next::stack(pop_partial(seat), Continuation::ClearSecond { first: desc }),
    }
}
