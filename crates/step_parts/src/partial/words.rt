//! The words of partial superblocks, and the numbers that the steps write.

ghost use Rattle.std.specs.Prelude.{◌≡◌, ◌+◌};
ghost use Rattle.word_table.specs.Sites.{slot_name};
ghost use Rattle.step_parts.specs.partial.Points.{slot_of};

use word_table::name::WordName;
use word_table::seat::Seat;

/// The slot of the caller's processor heap, for its class.
pub fn slot_name(seat: Seat) -> WordName
    ensures { result ≡ slot_name seat }
{
    WordName::Slot(seat.heap(), seat.class())
}

/// The slot of a processor heap, for the caller's class.
pub fn slot_of(seat: Seat, heap: u8) -> WordName
    ensures { result ≡ slot_of seat heap }
{
    WordName::Slot(heap, seat.class())
}
