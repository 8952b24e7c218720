//! The points at which a caller stands at a stack.

ghost use Rattle.std.specs.Prelude.{◌≡◌};
ghost use Rattle.step_parts.specs.stack.Points.{plan_stack_of, settle_stack_of};
ghost use Rattle.word_table.specs.Onwards.{exit_by, point_by};

use crate::stack::exit::StackExit;
use crate::stack::follow::{after_below, after_top};
use crate::stack::heads::{popped_head, pushed_head};
use crate::stack::words::{head_name, next_name, top_index};
use packed_words::head::Head;
use word_table::action::{Action, Found};
use word_table::seat::Seat;

/// Which stack is meant.
#[derive(Clone, Copy)]
pub enum Pile {
    /// The free frames of the heap.
    Frames,
    /// The partial superblocks of the seat's class that no processor heap keeps, by their
    /// descriptors.
    Partials,
}

/// A caller's next step at a stack.
///
/// `index` is the frame or the descriptor that is pushed, and `head` the head that was read. `below` is
/// what the next word of the index on top says: 0 or an index plus 1.
#[derive(Clone, Copy)]
pub enum StackPoint {
    /// Load the head, for a pop.
    LoadTop {
        seat: Seat,
        pile: Pile,
    },
    /// Load what lies below the index on top.
    LoadBelow {
        seat: Seat,
        pile: Pile,
        head: Head,
    },
    /// Pop the index on top.
    PopTop {
        seat: Seat,
        pile: Pile,
        head: Head,
        below: u16,
    },
    /// Exchange the head of the stack that was empty for itself, which is won where it still is.
    ConfirmEmpty {
        seat: Seat,
        pile: Pile,
        head: Head,
    },
    /// Load the head, for a push.
    LoadTopToPush {
        seat: Seat,
        pile: Pile,
        index: u16,
    },
    /// Store what lies below the index that is pushed.
    StoreBelow {
        seat: Seat,
        pile: Pile,
        index: u16,
        head: Head,
    },
    /// Push the index.
    PushTop {
        seat: Seat,
        pile: Pile,
        index: u16,
        head: Head,
    },
}

/// The action of a point.
pub fn plan_stack(point: &StackPoint) -> Action
    ensures { result ≡ plan_stack_of point.now }
{
    match *point {
        StackPoint::LoadTop { seat, pile } | StackPoint::LoadTopToPush { seat, pile, .. } => {
            Action::Load(head_name(seat, pile))
        }
        StackPoint::LoadBelow { pile, head, .. } => {
            Action::Load(next_name(pile, top_index(head)))
        }
        StackPoint::PopTop {
            seat,
            pile,
            head,
            below,
        } => Action::Cas(
            head_name(seat, pile),
            head.pack(),
            popped_head(head, below).pack(),
        ),
        StackPoint::ConfirmEmpty { seat, pile, head } => {
            Action::Cas(head_name(seat, pile), head.pack(), head.pack())
        }
        StackPoint::StoreBelow {
            pile,
            index,
            head,
            ..
        } => Action::Store(next_name(pile, index), u64::from(head.top())),
        StackPoint::PushTop {
            seat,
            pile,
            index,
            head,
        } => Action::Cas(
            head_name(seat, pile),
            head.pack(),
            pushed_head(head, index).pack(),
        ),
    }
}

/// Goes on to the point after what the action found, and answers the exit where the caller leaves; the
/// point is as it was then. A word that is not expected leaves the point as it is too: the head of a
/// pop, or what lies below its top, that names an index that the heap hasn't.
pub fn settle_stack(at: &mut StackPoint, found: Found) -> Option<StackExit>
    ensures exit { result ≡ exit_by (settle_stack_of at.old found) }
    ensures point { at.new ≡ point_by at.old (settle_stack_of at.old found) }
{
    let from = *at;
    match from {
        StackPoint::LoadTop { seat, pile } => {
            return after_top(seat, pile, Head::unpack(found.value)).follow(at);
        }
        StackPoint::LoadBelow { seat, pile, head } => {
            *at = after_below(seat, pile, head, found.value);
        }
        StackPoint::PopTop {
            seat,
            pile,
            head,
            ..
        } => {
            let index = top_index(head);
            if found.won {
                return Some(StackExit::Popped { seat, pile, index });
            }
            *at = StackPoint::LoadTop { seat, pile };
        }
        StackPoint::ConfirmEmpty { seat, pile, .. } => {
            if found.won {
                return Some(StackExit::ConfirmedEmpty { seat, pile });
            }
            *at = StackPoint::LoadTop { seat, pile };
        }
        StackPoint::LoadTopToPush { seat, pile, index } => {
            *at = StackPoint::StoreBelow {
                seat,
                pile,
                index,
                head: Head::unpack(found.value),
            };
        }
        StackPoint::StoreBelow {
            seat,
            pile,
            index,
            head,
        } => {
            *at = StackPoint::PushTop {
                seat,
                pile,
                index,
                head,
            };
        }
        StackPoint::PushTop {
            seat,
            pile,
            index,
            ..
        } => {
            if found.won {
                return Some(StackExit::Pushed { seat, pile });
            }
            *at = StackPoint::LoadTopToPush { seat, pile, index };
        }
    }
    None
}
