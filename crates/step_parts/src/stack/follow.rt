//! Where a found word leads.

ghost use Rattle.std.specs.Prelude.{◌≡◌};
ghost use Rattle.step_parts.specs.stack.Points.{after_top, after_below};

use crate::stack::exit::StackExit;
use crate::stack::point::{Pile, StackPoint};
use crate::stack::words::pile_limit;
use packed_words::head::Head;
use word_table::onward::Onward;
use word_table::seat::Seat;

/// From a head, for a pop.
#[inline(always)]
pub fn after_top(seat: Seat, pile: Pile, head: Head) -> Onward<StackPoint, StackExit>
    ensures { result ≡ after_top seat pile head }
{
    if head.top() == 0 {
        Onward::Leaves(StackExit::FoundEmpty { seat, pile, head })
    } else if u32::from(head.top()) <= pile_limit(seat, pile) {
        Onward::Stays(StackPoint::LoadBelow { seat, pile, head })
    } else {
        Onward::Stays(StackPoint::LoadTop { seat, pile })
    }
}

/// From the next word of the index on top.
pub fn after_below(seat: Seat, pile: Pile, head: Head, word: u64) -> StackPoint
    ensures { result ≡ after_below seat pile head word }
{
    if word <= u64::from(pile_limit(seat, pile)) {
        StackPoint::PopTop {
            seat,
            pile,
            head,
            below: word as u16,
        }
    } else {
        StackPoint::LoadBelow { seat, pile, head }
    }
}
