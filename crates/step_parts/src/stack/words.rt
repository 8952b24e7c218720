//! The words of a stack, and the numbers that its steps write.

ghost use Rattle.std.specs.Prelude.{◌≡◌, ◌≤◌, ◌-◌};
ghost use Rattle.word_table.specs.declared.limits.TheConstants.{MAX_DESCRIPTORS};
ghost use Rattle.step_parts.specs.stack.Piles.{head_name, next_name, pile_limit};

use crate::stack::point::Pile;
use packed_words::head::Head;
use word_table::name::WordName;
use word_table::seat::Seat;

/// The head of a stack.
pub fn head_name(seat: Seat, pile: Pile) -> WordName
    ensures { result ≡ head_name seat pile }
{
    match pile {
        Pile::Frames => WordName::FrameHead,
        Pile::Partials => WordName::ListHead(seat.class()),
    }
}

/// The word that says what lies below an index.
pub fn next_name(pile: Pile, index: u16) -> WordName
    ensures { result ≡ next_name pile index }
{
    match pile {
        Pile::Frames => WordName::FrameNext(index),
        Pile::Partials => WordName::Next(index),
    }
}

/// How many indexes the heap has for a stack.
pub fn pile_limit(seat: Seat, pile: Pile) -> u32
    ensures value { result ≡ pile_limit seat.geometry pile }
    ensures within { result ≤ MAX_DESCRIPTORS }
{
    match pile {
        Pile::Frames => seat.geometry().frames,
        Pile::Partials => seat.descriptors(),
    }
}

/// The index on top. It stands for nothing where the stack is empty.
pub fn top_index(head: Head) -> u16
    ensures { result ≡ head.top - 1 }
{
    head.top().saturating_sub(1)
}
