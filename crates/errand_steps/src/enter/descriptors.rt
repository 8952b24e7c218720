//! From the descriptors or the hazard words.

ghost use Rattle.std.specs.Prelude.{◌≡◌};
ghost use Rattle.errand_steps.specs.Nexts.{leave_desc, cleared};

use crate::continuation::{Continuation, asked};
use crate::next::Next;
use crate::reply::Reply;
use step_parts::hazard::exit::DescExit;
use step_parts::stack::point::{Pile, StackPoint};
use word_table::seat::Seat;

/// What follows where the descriptors or the hazard words are left by this exit.
pub fn leave_desc(exit: DescExit, continuation: Continuation) -> Next
    ensures { result ≡ leave_desc exit continuation }
{
    match exit {
        DescExit::Got { seat, desc } => Next::stack(
            StackPoint::LoadTop {
                seat,
                pile: Pile::Frames,
            },
            Continuation::TakeFrame {
                need: asked(continuation),
                desc,
            },
        ),
        DescExit::Cleared { seat } => cleared(seat, continuation),
        DescExit::Scanned { seat, held } => Next::Pick {
            seat,
            held,
            continuation,
        },
        DescExit::Pushed { seat, desc } => Next::Unlist {
            seat,
            desc,
            continuation,
        },
    }
}

/// The hazard word of a free is 0: it looks through the list, retires what it removed, or ends.
fn cleared(seat: Seat, continuation: Continuation) -> Next
    ensures { result ≡ cleared seat continuation }
{
    match continuation {
        Continuation::Clear => Next::stack(
            StackPoint::LoadTop {
                seat,
                pile: Pile::Partials,
            },
            Continuation::Clear,
        ),
        Continuation::Retire { desc } => Next::Retire {
            seat,
            desc,
            continuation: Continuation::EndFree,
        },
        _ => Next::end(Reply::Freed),
    }
}
