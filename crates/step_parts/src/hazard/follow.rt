//! Where a found word leads.

ghost use Rattle.std.specs.Prelude.{◌≡◌};
ghost use Rattle.word_table.specs.Seats.{desc_named};
ghost use Rattle.step_parts.specs.hazard.Points.{link_in, named_in, after_head, after_reload, after_next, after_top};

use crate::hazard::point::DescPoint;
use word_table::name::name_of_desc;
use word_table::seat::Seat;

/// A word that is 0 or names a descriptor that the heap has; `None` where it does neither.
fn link_in(seat: Seat, word: u64) -> Option<u16>
    ensures { result ≡ link_in seat.geometry word }
{
    if word <= u64::from(seat.descriptors()) {
        Some(word as u16)
    } else {
        None
    }
}

/// The word of a descriptor that the heap has; 0 where it names none.
pub fn named_in(seat: Seat, word: u64) -> u16
    ensures { result ≡ named_in seat.geometry word }
{
    if word <= u64::from(seat.descriptors()) {
        word as u16
    } else {
        0
    }
}

/// From the head, to take the top descriptor.
pub fn after_head(seat: Seat, word: u64) -> DescPoint
    ensures { result ≡ after_head seat (desc_named seat.geometry word) }
{
    match seat.desc_named(word) {
        Some(desc) => DescPoint::StoreHazard { seat, desc },
        None => DescPoint::LoadDescHead { seat },
    }
}

/// From the head that is loaded again.
pub fn after_reload(seat: Seat, desc: u16, word: u64) -> DescPoint
    ensures { result ≡ after_reload seat desc word }
{
    if word == name_of_desc(desc) {
        DescPoint::LoadNextDesc { seat, desc }
    } else {
        DescPoint::LoadDescHead { seat }
    }
}

/// From the word that says which descriptor is below.
pub fn after_next(seat: Seat, desc: u16, word: u64) -> DescPoint
    ensures { result ≡ after_next seat desc (link_in seat.geometry word) }
{
    match link_in(seat, word) {
        Some(next) => DescPoint::PopDesc { seat, desc, next },
        None => DescPoint::LoadNextDesc { seat, desc },
    }
}

/// From the head, to push a descriptor.
pub fn after_top(seat: Seat, desc: u16, word: u64) -> DescPoint
    ensures { result ≡ after_top seat desc (link_in seat.geometry word) }
{
    match link_in(seat, word) {
        Some(top) => DescPoint::StoreNextDesc { seat, desc, top },
        None => DescPoint::LoadHeadToPush { seat, desc },
    }
}
