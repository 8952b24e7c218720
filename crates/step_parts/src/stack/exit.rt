//! The exits by which a caller leaves a stack.

use crate::stack::point::Pile;
use packed_words::head::Head;
use word_table::seat::Seat;

/// How a caller leaves a stack. It makes no step there.
///
/// `index` is the frame or the descriptor that was popped, and `head` the head that was read.
#[derive(Clone, Copy)]
pub enum StackExit {
    /// The index is popped.
    Popped { seat: Seat, pile: Pile, index: u16 },
    /// The stack was empty when its head was read.
    FoundEmpty { seat: Seat, pile: Pile, head: Head },
    /// The stack is empty: it was so in the step just made.
    ConfirmedEmpty { seat: Seat, pile: Pile },
    /// The index is pushed.
    Pushed { seat: Seat, pile: Pile },
}
